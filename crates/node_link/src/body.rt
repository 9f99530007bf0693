// What letters say.
ghost use Rattle.std.specs.Prelude.{◌≡◌};

use crate::page::Page;
use child_track::{AskToken, Receipt};
use std::marker::Model;
use task_events::{AnsweredRequest, Reply, Request, Stop};
use task_ids::{Action, Boxed, Headers, Items, TaskId, TaskInfo};
use tasks_api::Filter;

/// Which task of a run a letter is about. Each task of a run has a place of its own. Places are ordered by their fields in turn.
#[derive(Clone, Copy, PartialEq, Eq, PartialOrd, Ord)]
pub struct Place {
    /// The command of its tree, from 1.
    pub command: u32,
    /// The command whose search is looked through, from 1: of a page and what that asks for the one that opened the context, and
    /// of any other task that of its tree.
    pub search: u32,
    /// 1 plus its slice, or 0 without one.
    pub slice: u32,
    pub action: Action,
    /// Its shard, from 0, or 0 without one.
    pub shard: u32,
}

/// The token of an ask, on its way to the child. Where its letter is dropped, the ask stays unanswered.
pub struct SentToken {
    token: AskToken,
}

impl Model for SentToken {
    ghost use Rattle.child_track.specs.Token.{Token};

    ghost Value = { Token };

    ghost view = { λ sent. sent.token };
}

impl Drop for SentToken {
    fn drop(self) {
        let SentToken { token } = self;
        let _ = token.reject();
    }
}

impl SentToken {
    /// The token, which goes into a letter.
    pub fn new(token: AskToken) -> SentToken
        ensures { result ≡ token }
    {
        SentToken { token }
    }

    /// The token, which stays.
    pub fn get(&self) -> &AskToken
        ensures { result.now ≡ self.now }
    {
        &self.token
    }

    /// The token, which moves out.
    pub fn into_token(self) -> AskToken
        ensures { result ≡ self }
    {
        let SentToken { token } = self;
        token
    }
}

/// A command starts a task.
#[derive(Drop)]
pub struct Start {
    /// The place of the command's root.
    pub place: Place,
    pub request: Request,
    pub headers: Headers,
    /// Only a scroll has one.
    pub page: Option<Boxed<Page>>,
}

/// A task asks for a child on a node.
#[derive(Drop)]
pub struct Asked {
    pub to: u32,
    pub place: Place,
    pub token: SentToken,
    pub request: Request,
    /// Those of the task that asks.
    pub headers: Headers,
}

/// A child has ended, or its request was rejected.
#[derive(Drop)]
pub struct Answered {
    /// The place of the child.
    pub place: Place,
    pub receipt: Receipt,
    /// The request that this answers.
    pub request: AnsweredRequest,
    pub reply: Reply,
    /// The page that a scroll was worked from. One that was rejected may have none.
    pub page: Option<Boxed<Page>>,
}

/// A root has ended, or was rejected.
#[derive(Drop)]
pub struct RootAnswered {
    /// The place of the command's root.
    pub place: Place,
    /// The request that this answers.
    pub request: AnsweredRequest,
    pub reply: Reply,
    /// The page that a scroll was worked from. One that was rejected may have none.
    pub page: Option<Boxed<Page>>,
}

/// What a letter says. Nodes are 1 to 15, data workers of a node go from 0, and commands, and cancellations by their
/// commands, are numbered from 1 to 65,535.
#[derive(Drop)]
pub enum Body {
    /// The request of an ask, to a data worker.
    Request(Asked),
    /// The answer to an ask, to the data worker of the task that asked.
    Answer(Answered),
    /// A node is told to refuse new children of the task, and to cancel those that it has.
    Ban {
        parent: TaskId,
        cancel: u32,
        to: u32,
    },
    /// The banned task's node is told that the ban is placed on this one.
    Ack {
        parent: TaskId,
        from: u32,
    },
    /// A banned node is told that the task has ended.
    Unban {
        parent: TaskId,
        to: u32,
    },

    /// The driver starts a task.
    Start(Start),
    /// The driver cancels a task; `wait` says that the answer waits for the whole tree to end.
    Cancel {
        cancel: u32,
        task: TaskId,
        wait: bool,
    },
    /// The driver cancels the tasks that a filter lets through. It goes to each data worker.
    CancelMatching {
        cancel: u32,
        filter: Filter,
        wait: bool,
    },
    /// The driver wants to know the live tasks.
    List {
        command: u32,
    },
    /// Time goes on by so many milliseconds, a day at most.
    Tick {
        ms: u64,
    },
    /// From here on every due moment counts as past.
    Drain,
    /// The driver has every answer, and sends this worker nothing more. It goes to each data worker, which ends once it has no live
    /// task.
    Leave,
    /// The worker ends at once.
    Stop(Stop),

    /// A data worker tells its control worker which of its tasks a cancellation by a filter names.
    Matches {
        worker: u32,
        cancel: u32,
        rows: Items<TaskInfo>,
        wait: bool,
    },
    /// A data worker tells its control worker that a marked task has ended.
    Ended {
        receipt: Receipt,
    },
    /// A data worker that ends tells its control worker that no further `Matches` or `Ended` comes from it.
    DataLeft {
        worker: u32,
    },
    /// A control worker whose data workers have left, and which has no cancellation under way, tells each control worker that no
    /// further `Ban` or `Unban` comes from it. One that was told so by each node ends once no ban stands on its board.
    ControlLeft {
        node: u32,
    },

    /// A command's root has this id.
    Root {
        command: u32,
        task: TaskId,
    },
    /// A command's root has ended, or was rejected.
    RootAnswer(RootAnswered),
    /// The live tasks of a data worker.
    Rows {
        node: u32,
        worker: u32,
        command: u32,
        rows: Items<TaskInfo>,
    },
    /// The bans of the task are placed.
    AnswerPlaced {
        cancel: u32,
        task: TaskId,
    },
    /// Besides, the task has ended.
    AnswerDone {
        cancel: u32,
        task: TaskId,
        receipt: Receipt,
    },
    /// A cancellation finds no task.
    NotFound {
        cancel: u32,
    },
    /// The tasks that a cancellation by a filter named on a node, ascending.
    Named {
        node: u32,
        cancel: u32,
        tasks: Items<TaskId>,
    },
    /// A worker has ended early.
    Stopped(Stop),
}

use crate::reply::Reply;
use crate::request::Request;
use shared_value::Shared;
use std::fmt;
use task_ids::{TaskId, Text};

/// What happened, one atomic step at a time. A task that was put stands on the node of its id.
///
/// Nodes are 1 to 15, shards go from 0. Commands, and cancellations by their commands, are numbered from 1 to 65,535;
/// the closing drain has the number after the last command's.
/// After Elasticsearch's TaskManager and TaskCancellationService; the list of kinds is this project's own.
#[derive(Drop)]
pub enum Event {
    /// A command begins, or, under the number after the last one, the closing drain.
    Begin {
        command: u32,
    },
    /// A command starts a task, which has no parent.
    Root {
        command: u32,
        task: TaskId,
    },
    /// A command that would start a task finds no free slot.
    RootRejected {
        command: u32,
        node: u32,
    },
    /// A task asks for a child on a node. Asks of a task are numbered from 1.
    Ask {
        parent: TaskId,
        ask: u32,
        to: u32,
        request: Request,
    },
    /// The request of an ask reaches its node and finds a free slot: the child is registered.
    Put {
        task: TaskId,
        parent: TaskId,
        ask: u32,
    },
    /// The request of an ask reaches its node and finds no free slot.
    Reject {
        node: u32,
        parent: TaskId,
        ask: u32,
    },
    /// A child finds no ban of its parent on its node and goes on.
    Pass {
        task: TaskId,
    },
    /// A child finds a ban of its parent on its node, and ends.
    Refuse {
        task: TaskId,
        cancel: u32,
    },
    /// A cancel command names a live task; `wait` says that it answers only when the whole tree has ended.
    Cancel {
        cancel: u32,
        task: TaskId,
        wait: bool,
    },
    /// A cancel command finds no task.
    NotFound {
        cancel: u32,
    },
    /// A task is cancelled from here on.
    Mark {
        task: TaskId,
        cancel: u32,
    },
    /// A ban of a task's children reaches a node. The listing of the children there begins.
    BanPut {
        node: u32,
        parent: TaskId,
        cancel: u32,
    },
    /// The listing finds no unmarked live child any more, and ends.
    Listed {
        node: u32,
        parent: TaskId,
    },
    /// The acknowledgement of a ban reaches the banned task's node.
    Acked {
        parent: TaskId,
        from: u32,
    },
    /// A ban is taken away.
    BanGone {
        node: u32,
        parent: TaskId,
    },
    /// A turn of work.
    Work {
        task: TaskId,
    },
    /// A document is written, in the turn of work before it.
    Write {
        index: Shared<Text>,
        shard: u32,
        outcome: Outcome,
        id: Shared<Text>,
    },
    /// The answer to an ask reaches the task that asked.
    Answered {
        parent: TaskId,
        ask: u32,
    },
    /// A task ends with its reply.
    End {
        task: TaskId,
        reply: Reply,
    },
    /// A cancellation that does not wait is answered: its bans are placed.
    AnswerPlaced {
        cancel: u32,
    },
    /// A cancellation that waits is answered: its tasks have ended too.
    AnswerDone {
        cancel: u32,
    },
    /// Time goes on by so many milliseconds.
    Tick {
        ms: u64,
    },
}

/// Whether a write replaced a document.
#[derive(Clone, Copy, PartialEq, Eq)]
pub enum Outcome {
    /// No document of that id was there.
    Created,
    /// The document of that id was replaced.
    Updated,
}

impl fmt::Display for Outcome {
    ghost use Rattle.std.specs.Prelude.{Some};
    ghost use Rattle.task_events.specs.Texts.{outcome_name};

    ghost output = { λ outcome. Some (outcome_name outcome) };

    fn fmt<W: fmt::Write>(&self, f: &mut fmt::Formatter<W>) -> fmt::Result {
        f.write_str(match self {
            Outcome::Created => "created",
            Outcome::Updated => "updated",
        })
    }
}

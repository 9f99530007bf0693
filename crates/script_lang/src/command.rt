use shared_value::Shared;
use task_ids::{Body, Items, TaskId, Text};
use tasks_api::{Filter, GroupBy};

/// How a script runs: step by step in one order that it may choose, or on threads.
#[derive(Clone, Copy, PartialEq, Eq)]
pub enum Mode {
    /// The script may write a schedule, by `deliver`, `step`, `list_step`, `settle`, `shuffle`, `history` and `summary`, and may have results
    /// of tasks stored, by `store`, `get_task`, `forget_task` and `list_results`.
    Sim,
    /// The threads make the schedule.
    Run,
}

/// What a cancel names.
#[derive(Drop)]
pub enum CancelTarget {
    /// A task by its id, whose node need not be of the cluster.
    Task(TaskId),
    /// The task of an earlier command that starts one, by the command's number, from 1.
    Command(u32),
    /// Each live task that a filter lets through.
    Matching(Filter),
}

/// The context that a command is about.
#[derive(Clone, Copy, PartialEq, Eq)]
pub enum ContextTarget {
    /// That of a search, by the search's id, whose node need not be of the cluster.
    Id(TaskId),
    /// That of an earlier command's search, by the command's number, from 1.
    Command(u32),
}

/// The task that a command is about.
#[derive(Clone, Copy, PartialEq, Eq)]
pub enum TaskTarget {
    /// A task by its id, whose node need not be of the cluster.
    Id(TaskId),
    /// The task of an earlier command that starts one, by the command's number, from 1.
    Command(u32),
}

/// A command of a script, its defaults filled in.
#[derive(Drop)]
pub enum Command {
    /// A search, after Elasticsearch's search API.
    Search {
        /// The index that it looks in, which may be unknown.
        index: Text,
        /// The node that it starts on, from 1, which is what stands where it is not written.
        node: u32,
        /// The keep-alive of the context that it opens, from 1 to 86,400,000 ms, if it is written.
        scroll: Option<u64>,
        /// The query and what else a search has, which may have faults. It is empty where it is not written.
        body: Body,
        /// The text by which a client knows what it started, if it is written. Each task that the search asks for carries it on.
        opaque_id: Option<Shared<Text>>,
    },
    /// Shows the next page of a search with `scroll`, after Elasticsearch's scroll API.
    Scroll {
        /// The context that is read.
        context: ContextTarget,
        /// The keep-alive that the context has from now on, from 1 to 86,400,000 ms, if it is written. Else it keeps its own.
        keep: Option<u64>,
        /// The text by which a client knows what it started, if it is written.
        opaque_id: Option<Shared<Text>>,
    },
    /// Frees a context, after Elasticsearch's clear scroll API.
    ClearScroll {
        /// The context that is freed.
        context: ContextTarget,
    },
    /// Copies the documents of an index into another, after Elasticsearch's reindex API.
    Reindex {
        /// The node that it starts on, from 1, which is what stands where it is not written.
        node: u32,
        /// What is read and where it is written, which may have faults and name unknown indices.
        body: Body,
        /// Into how many slices the documents are cut, from 1 to 32, and 1 where it is not written.
        slices: u32,
        /// How many documents a second are written at most, from 1 to 1,000,000. There is no such bound where -1 or nothing is written.
        rate: Option<u32>,
        /// The text by which a client knows what it started, if it is written. Each task that the reindex asks for carries it on.
        opaque_id: Option<Shared<Text>>,
        /// Whether its reply is stored when it has ended, as the result of its task; false where it is not written.
        store: bool,
    },
    /// A cancel, after Elasticsearch's task cancellation.
    Cancel {
        /// The task or the tasks that it is about.
        target: CancelTarget,
        /// Why, `by user request` where it is not written.
        reason: Text,
        /// Whether it is answered only once the tasks have ended; false where it is not written.
        wait: bool,
    },
    /// Shows the live tasks, after Elasticsearch's task management.
    ListTasks {
        /// Which of them.
        filter: Filter,
        /// How they are grouped, by their nodes where it is not written.
        group: GroupBy,
        /// Whether it tells what each works on; false where it is not written.
        detailed: bool,
    },
    /// Shows a task, live or ended, after Elasticsearch's task management.
    GetTask {
        /// The task.
        task: TaskTarget,
        /// Whether it is answered only once the task has ended; false where it is not written.
        wait: bool,
    },
    /// Takes the result of a task away.
    ForgetTask {
        /// The task.
        task: TaskTarget,
    },
    /// Shows which tasks have results.
    ListResults,
    /// Moves the clock.
    Tick {
        /// By how many milliseconds, from 0 to 86,400,000.
        ms: u64,
    },
    /// Delivers a message.
    Deliver {
        /// The place of the message among those in flight, from 0.
        nth: u64,
    },
    /// Makes the next step of a task.
    Step {
        /// The task, whose node need not be of the cluster.
        task: TaskId,
    },
    /// Goes on with a listing of children.
    ListStep {
        /// The node that lists, from 1.
        node: u32,
        /// The task whose children are listed, whose node need not be of the cluster.
        parent: TaskId,
    },
    /// Makes moves until there is none.
    Settle,
    /// Makes moves that look like chance.
    Shuffle {
        /// The number from which chance starts.
        seed: u64,
        /// How many moves it makes at most, up to 1,000,000.
        moves: u32,
    },
    /// Waits until an earlier command has its answer.
    WaitFor {
        /// Its number, from 1: that of a search, a scroll, a cancel or a reindex without a rate.
        command: u32,
    },
    /// Tells the events so far.
    History,
    /// Tells how many tasks and bans came and went so far.
    Summary,
}

/// What was read of a script.
#[derive(Drop)]
pub struct Script {
    /// The commands in order, of which the first has the number 1. There are at most 65,535.
    pub commands: Items<Command>,
}

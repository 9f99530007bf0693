use scroll_table::PageError;
use task_events::{Counts, Summary};
use task_ids::{Items, TaskId};

/// What was noted of a command before it ran: why it makes nothing happen, if it makes nothing happen, or what its reply tells.
#[derive(Drop)]
pub enum Note {
    /// A `deliver` of a place that no message in flight has, of so many that there are.
    NoSuchMessage {
        in_flight: u64,
    },
    /// A `step` of a task that is not live.
    NotRunning,
    /// A `step` of a task that waits.
    Waiting,
    /// A `list_step` where no listing is open.
    NoListing,
    /// A `scroll` whose context gives no page.
    NoPage {
        /// The context by its id, unless the command that was named started no task.
        id: Option<TaskId>,
        /// Why.
        error: PageError,
    },
    /// Whether a `clear_scroll` frees a context.
    Freed(bool),
    /// The moment after a `tick`, in milliseconds.
    Moment(u64),
    /// A list of tasks: the text of its reply, JSON.
    Listed(Items<u8>),
    /// How many tasks, bans and writes came and went.
    Counted(Summary),
    /// A `get_task` that does not wait, of a live task.
    Running {
        /// The task as a detailed list shows it: a text, JSON.
        task: Items<u8>,
        /// What it has done so far, where it is the root of a reindex.
        status: Option<Counts>,
    },
    /// A `get_task` of a task that has ended and has a result, or that is waited for.
    Completed {
        /// The task.
        task: TaskId,
        /// Whether its reply is stored.
        stored: bool,
    },
    /// A `get_task` of a task that is not live and has no result; none where the command that was named started no task.
    NoResult(Option<TaskId>),
    /// Whether a `forget_task` takes a result away.
    Forgotten(bool),
    /// The tasks whose results stand, ascending.
    Results(Items<TaskId>),
}

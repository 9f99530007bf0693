use query_parse::{BodyError, ReindexError};
use task_events::Reply;
use task_ids::{Items, TaskId, TaskInfo, Text};

/// What a command of a run over threads came to.
#[derive(Drop)]
pub enum LineReply {
    /// The root of a search, a scroll or a reindex ended with this reply, or was rejected.
    Task(Reply),
    /// The body of a search has a fault, which is never want of memory.
    BadBody(BodyError),
    /// The body of a reindex has one.
    BadReindex(ReindexError),
    /// There is no such index.
    NoIndex(Text),
    /// No context of that id is there, or none was named, since the command that was named started no task.
    NoContext(Option<TaskId>),
    /// A cancel by id found no task; none where the command that was named started none.
    NotFound(Option<TaskId>),
    /// A cancel named these tasks.
    Cancelled {
        /// The tasks, ascending.
        tasks: Items<TaskId>,
        /// Whether it was answered only once they had ended.
        waited: bool,
    },
    /// Whether a clear freed a context.
    Cleared(bool),
    /// The moment after a tick, in milliseconds.
    Now(u64),
    /// The live tasks.
    Listed {
        /// The tasks, ascending.
        rows: Items<TaskInfo>,
        /// The moment, in milliseconds.
        now: u64,
    },
    /// A command that was waited for has its answer.
    Answered,
}

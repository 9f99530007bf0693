//! What is known of a command that has begun.
use crate::parts::Parts;
use child_track::Receipt;
use data_pool::Gather;
use line_print::LineReply;
use task_events::{HitKey, ScrollAsk};
use task_ids::TaskId;

/// Which page of which search a scroll asked for.
#[derive(Drop)]
pub struct PageNote {
    /// The number of the command whose search opened the context, from 1.
    pub search: u32,
    /// The cursor: the page begins after it, in hit order. Without one it begins at the first hit.
    pub after: Option<HitKey>,
}

/// What a command of a run came to.
#[derive(Drop)]
pub struct LineNote {
    /// The number of the command, from 1.
    pub command: u32,
    pub reply: LineReply,
    /// Of a cancel that waited: the receipt of the last task that it named, which was sealed as that task had ended.
    pub receipt: Option<Receipt>,
    /// Of a scroll whose context was there: the page that it asked for.
    pub page: Option<PageNote>,
}

/// A command's answer.
#[derive(Drop)]
pub(crate) struct Answer {
    pub(crate) reply: LineReply,
    pub(crate) receipt: Option<Receipt>,
    pub(crate) page: Option<PageNote>,
}

/// The page that the root of a scroll was sent, and the ask by which it uses the context.
#[derive(Drop)]
pub(crate) struct SentPage {
    pub(crate) ask: ScrollAsk,
    pub(crate) page: PageNote,
}

/// What the root of a command was asked for.
#[derive(Drop)]
pub(crate) enum RootAsk {
    Search,
    Page(SentPage),
    Reindex,
}

/// What has come of a cancel by a filter.
#[derive(Drop)]
pub(crate) struct Naming {
    /// Whether the cancel waits until the tasks have ended.
    pub(crate) wait: bool,
    /// The tasks that were named, by node.
    pub(crate) named: Parts<TaskId>,
    /// How many these are so far.
    pub(crate) tasks: usize,
    /// How many of them are cancelled as the cancel wants them.
    pub(crate) done: usize,
    /// The receipt of the last of those, by its id.
    pub(crate) receipt: Option<Receipt>,
}

/// What a command waits for.
#[derive(Drop)]
pub(crate) enum Waits {
    /// The answer of its root, which was asked for this.
    Root(RootAsk),
    /// The answer of a cancel of this task, which waits until that has ended or not.
    Cancel { task: TaskId, wait: bool },
    /// What the nodes name, and the answers of each task that is named.
    Naming(Naming),
    /// The rows of each data worker, at this moment.
    Rows { rows: Gather, now: u64 },
}

/// How far a command is.
#[derive(Drop)]
pub(crate) enum State {
    Waits(Waits),
    Answered(Answer),
    /// Its answer was taken out of the book.
    Told,
}

/// A command that has begun.
#[derive(Drop)]
pub(crate) struct Entry {
    /// The task that it started, once that is known.
    pub(crate) root: Option<TaskId>,
    pub(crate) state: State,
}

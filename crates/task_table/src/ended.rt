use child_track::{AskToken, Receipt};

/// What a task leaves when it ends.
#[derive(Clone, Copy, PartialEq, Eq)]
pub struct Ended {
    /// What its parent is told.
    pub receipt: Receipt,
    /// The number of the cancellation that marked it.
    pub mark: Option<u32>,
}

/// Why no task was put into a table. Each hands the token back.
pub enum PutError {
    /// Every slot holds a live task.
    Full(Option<AskToken>),
    /// The table gave its last number, 1,048,575.
    NumbersSpent(Option<AskToken>),
    /// There is no memory for the row.
    Memory(Option<AskToken>),
}

/// What came of marking a task.
#[derive(Clone, Copy, PartialEq, Eq)]
pub enum MarkAnswer {
    /// It is marked now, and was not before.
    Marked,
    /// It was marked before, with this number.
    Already(u32),
    /// No live task has that number.
    NotFound,
}

use child_track::AskToken;

/// What a task's check for a ban of its parent found.
#[derive(Clone, Copy, Debug, PartialEq, Eq)]
pub enum Check {
    /// No ban of the parent stands on this node. A root's check is always clear.
    Clear,
    /// A ban of the parent stands, with this number.
    Banned(u32),
}

/// Whether a task may ask a child on a node.
#[derive(Clone, Copy, Debug, PartialEq, Eq)]
pub enum Track {
    /// It may: no mark was seen after the node was noted.
    Cleared,
    /// It may not: the task is marked with this number.
    Cancelled(u32),
}

/// Every slot holds a live task. The token comes back, and the number stays unused.
pub struct Full(pub Option<AskToken>);

/// Every ban word holds a ban.
#[derive(Clone, Copy, Debug, PartialEq, Eq)]
pub struct NoRoom;

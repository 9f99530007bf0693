//! A listing of children.

use task_ids::TaskId;

/// The listing of a task's children on a node, which goes on from the putting of the task's ban until all of them are
/// marked. Listings are ordered by node, then by task.
#[derive(Clone, Copy, PartialEq, Eq, PartialOrd, Ord)]
pub struct Listing {
    /// The node, from 1 to 15.
    pub node: u32,
    /// The task whose children are gone through.
    pub parent: TaskId,
}

use cancel_core::Act;
use task_ids::{Items, TaskId};

/// What a control worker is to do after a turn.
#[derive(Drop)]
pub enum ControlAct {
    /// An act of the node's cancellations.
    Core(Act),
    /// The driver is told that a cancel by id finds no task.
    NotFound {
        cancel: u32,
    },
    /// The driver is told which tasks a filter named on this node, ascending.
    Named {
        node: u32,
        cancel: u32,
        tasks: Items<TaskId>,
    },
}

use child_track::Receipt;
use task_ids::TaskId;

/// Who is to be answered for a task's cancellation.
#[derive(Clone, Copy, PartialEq, Eq)]
pub struct Waiter {
    /// The number of the cancel command, from 1 to 65,535.
    pub cancel: u32,
    /// Whether it is answered when the task has ended, and not already when the bans are placed.
    pub wait: bool,
}

/// What a node is to do after a call of its core. A call's acts are done in their order.
#[derive(Clone, Copy, PartialEq, Eq)]
pub enum Act {
    /// A node is told to refuse new children of the task, and to cancel those that it has.
    SendBan {
        to: u32,
        parent: TaskId,
        cancel: u32,
    },
    /// The parent's node is told that the ban is placed: put, the children that were there are marked, and each of
    /// them has ended or has its own bans placed.
    SendAck {
        to: u32,
        parent: TaskId,
    },
    /// A banned node is told that the task has ended.
    SendUnban {
        to: u32,
        parent: TaskId,
    },
    /// A cancel command that does not wait is told that the task's bans are placed.
    AnswerPlaced {
        cancel: u32,
        task: TaskId,
    },
    /// A cancel command that waits is told that, besides, the task has ended.
    AnswerDone {
        cancel: u32,
        task: TaskId,
        receipt: Receipt,
    },
}

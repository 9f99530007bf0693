ghost use Rattle.std.specs.Prelude.{◌≡◌};

use std::marker::Model;
use task_ids::TaskId;

/// What the parent of a task is told when the task has ended, or when its request was rejected.
#[derive(Clone, Copy, PartialEq, Eq)]
pub struct Receipt {
    task: Option<TaskId>,
    parent: Option<TaskId>,
    ask: u32,
}

impl Model for Receipt {
    ghost use Rattle.child_track.specs.Token.{ReceiptParts};

    ghost Value = { ReceiptParts };

    ghost view = { λ a. record { task = a.task; parent = a.parent; ask = a.ask } };

    ghost inverse = { λ r. record { task = r.task; parent = r.parent; ask = r.ask } };
}

impl Receipt {
    pub(crate) fn new(task: Option<TaskId>, parent: Option<TaskId>, ask: u32) -> Receipt
        ensures { result ≡ record { task = task; parent = parent; ask = ask } }
    {
        Receipt { task, parent, ask }
    }

    /// The task that ended. A receipt without a task is that of a rejected request.
    pub fn task(&self) -> Option<TaskId>
        ensures { result ≡ self.now.task }
    {
        self.task
    }

    /// The task that asked, and none for a root.
    pub fn parent(&self) -> Option<TaskId>
        ensures { result ≡ self.now.parent }
    {
        self.parent
    }

    /// The number of the ask among its parent's, from 1; 0 for a root.
    pub fn ask(&self) -> u32
        ensures { result ≡ self.now.ask }
    {
        self.ask
    }
}

/// A receipt that answers no unanswered ask of the track that it was given to, which hands it back.
#[derive(Clone, Copy, PartialEq, Eq)]
pub struct Stranger(pub Receipt);

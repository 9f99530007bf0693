//! What is sent about the bans of a task.

ghost use Rattle.std.specs.Prelude.{◌≡◌};
ghost use Rattle.node_parts.specs.Notices.{notice_of};

use cancel_core::Act;
use task_ids::TaskId;

/// A message about the bans of a marked task.
#[derive(Clone, Copy, PartialEq, Eq)]
pub enum Notice {
    /// A node (`to`, from 1 to 15) is to refuse the new children of the task (`parent`), and to mark those that it has, with the
    /// number of its cancel (`cancel`, from 1 to 65,535).
    Ban {
        parent: TaskId,
        cancel: u32,
        to: u32,
    },
    /// A node (`from`) has done so, and each of the children that it had has ended or has its own bans placed.
    Ack {
        parent: TaskId,
        from: u32,
    },
    /// A node (`to`) is told that the task has ended.
    Unban {
        parent: TaskId,
        to: u32,
    },
}

impl Notice {
    /// What an act of this node's cancellations sends, if it sends something.
    pub fn of_act(act: &Act, node: u32) -> Option<Notice>
        ensures { result ≡ notice_of node act.now }
    {
        match *act {
            Act::SendBan { to, parent, cancel } => Some(Notice::Ban { parent, cancel, to }),
            Act::SendAck { to: _, parent } => Some(Notice::Ack { parent, from: node }),
            Act::SendUnban { to, parent } => Some(Notice::Unban { parent, to }),
            Act::AnswerPlaced { .. } | Act::AnswerDone { .. } => None,
        }
    }
}

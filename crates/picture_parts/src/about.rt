// Of whom and of what an event tells.

use crate::event::Event;
use task_ids::TaskId;

impl Event {
    /// The task of which an event tells. For a ban it is the one that is cancelled, and for an ask and its answer the one that asked.
    pub fn task(&self) -> Option<TaskId> {
        match self {
            Event::Root { task, .. }
            | Event::Put { task, .. }
            | Event::Pass { task }
            | Event::Refuse { task }
            | Event::Cancel { task, .. }
            | Event::Mark { task }
            | Event::Work { task }
            | Event::End { task, .. } => Some(*task),
            Event::Ask { parent, .. }
            | Event::Reject { parent, .. }
            | Event::BanPut { parent, .. }
            | Event::Listed { parent, .. }
            | Event::Acked { parent, .. }
            | Event::BanGone { parent, .. }
            | Event::Answered { parent, .. } => Some(*parent),
            Event::RootRejected { .. }
            | Event::NotFound { .. }
            | Event::AnswerPlaced { .. }
            | Event::AnswerDone { .. }
            | Event::Write
            | Event::Tick => None,
        }
    }

    /// The command that an event begins or answers.
    pub fn command(&self) -> Option<u32> {
        match self {
            Event::Root { command, .. } | Event::RootRejected { command, .. } => Some(*command),
            Event::Cancel { cancel, .. }
            | Event::NotFound { cancel }
            | Event::AnswerPlaced { cancel }
            | Event::AnswerDone { cancel } => Some(*cancel),
            _ => None,
        }
    }

    /// The task that can make its next step by what happened.
    pub fn lets_go_on(&self) -> Option<TaskId> {
        match self {
            Event::Root { task, .. }
            | Event::Put { task, .. }
            | Event::Pass { task }
            | Event::Work { task }
            | Event::Mark { task } => Some(*task),
            Event::Answered { parent, .. } => Some(*parent),
            _ => None,
        }
    }

    /// Whether a command is answered by it.
    pub fn answers(&self) -> bool {
        matches!(self, Event::AnswerPlaced { .. } | Event::AnswerDone { .. })
    }
}

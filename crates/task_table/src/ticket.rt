ghost use Rattle.std.specs.Prelude.{◌≡◌};
ghost use Rattle.child_track.specs.Token.{token_parent};
ghost use Rattle.child_track.specs.Track.{unanswered, sealed};

use child_track::{AskToken, ChildTrack, Receipt};
use std::marker::Model;
use task_ids::TaskId;

/// The right to end one live task. It is spent by the task's end, so a task ends once.
pub struct Ticket {
    id: TaskId,
    token: Option<AskToken>,
}

impl Model for Ticket {
    ghost use Rattle.task_table.specs.TicketParts.{TicketParts};

    ghost Value = { TicketParts };

    ghost view = { λ a. record { id = a.id; token = a.token } };
}

impl Ticket {
    /// The ticket of a task, with the token of the ask that asked for it; a root has none. A table makes its own;
    /// else only what keeps tasks in another form calls this.
    pub fn new(id: TaskId, token: Option<AskToken>) -> Ticket
        ensures { result ≡ record { id = id; token = token } }
    {
        Ticket { id, token }
    }

    /// The task.
    pub fn id(&self) -> TaskId
        ensures { result ≡ self.now.id }
    {
        self.id
    }

    /// The task that asked for it. A root has none.
    pub fn parent(&self) -> Option<TaskId>
        ensures { result ≡ token_parent self.now.token }
    {
        match &self.token {
            Some(token) => Some(token.parent()),
            None => None,
        }
    }

    /// Spends the ticket and the track of its task, in which nothing is unanswered, and gives the task's receipt.
    pub fn seal(self, track: ChildTrack) -> Receipt
        requires track { track.task ≡ self.id }
        requires answered { unanswered track ≡ 0 }
        ensures { result ≡ sealed track self.token }
    {
        let Ticket { id: _, token } = self;
        track.seal(token)
    }

    /// Spends the ticket. It makes no receipt and changes nothing: only what stops with live tasks calls this.
    pub fn give_up(self) {
        let Ticket { id: _, token } = self;
        if let Some(token) = token {
            let _receipt = token.reject();
        }
    }
}

ghost use Rattle.std.specs.Prelude.{◌≡◌, None, Some};

use crate::receipt::Receipt;
use std::marker::Model;
use task_ids::TaskId;

/// The right to be the child that one ask of a task asked for. It goes with the request, and is spent by the
/// child's end or by the request's rejection: so an ask is answered once.
pub struct AskToken {
    parent: TaskId,
    ask: u32,
}

impl Model for AskToken {
    ghost use Rattle.child_track.specs.Token.{Token};

    ghost Value = { Token };

    ghost view = { λ a. record { parent = a.parent; ask = a.ask } };
}

impl AskToken {
    /// The token of an ask. Only `ChildTrack::ask` makes one.
    pub(crate) fn new(parent: TaskId, ask: u32) -> AskToken
        ensures { result ≡ record { parent = parent; ask = ask } }
    {
        AskToken { parent, ask }
    }

    /// The task that asked.
    pub fn parent(&self) -> TaskId
        ensures { result ≡ self.now.parent }
    {
        self.parent
    }

    /// The number of the ask among its task's, from 1.
    pub fn ask(&self) -> u32
        ensures { result ≡ self.now.ask }
    {
        self.ask
    }

    /// Spends the token, and gives its task and ask.
    pub(crate) fn into_parts(self) -> (Option<TaskId>, u32)
        ensures task { result.0 ≡ Some self.parent }
        ensures ask { result.1 ≡ self.ask }
    {
        let AskToken { parent, ask } = self;
        (Some(parent), ask)
    }

    /// The receipt of a request that is rejected, so that no task runs for it.
    pub fn reject(self) -> Receipt
        ensures { result ≡ record { task = None; parent = Some self.parent; ask = self.ask } }
    {
        let AskToken { parent, ask } = self;
        Receipt::new(None, Some(parent), ask)
    }
}

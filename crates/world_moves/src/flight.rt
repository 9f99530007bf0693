//! The messages in flight.

ghost use Rattle.std.specs.Prelude.{◌≡◌, true, Some, ◌∷◌, [], ◌++◌, ◌<◌, length, remove, slice_get, IfErr, OnOk, OnErr, OnSome, IfNone};
ghost use Rattle.world_moves.specs.Flights.{is_request_entry, is_answer_entry, node_asked, notice_at};

use child_track::{AskToken, Receipt};
use node_parts::notice::Notice;
use ranked::Queue;
use std::alloc::{AllocFailed, Global};
use std::marker::Model;
use task_ids::Headers;

/// A message that was sent. What a request or an answer says stands in the history, at the place of the event that sent
/// it.
pub enum Sent {
    /// The request of an ask, with the right to answer it, to a node (`to`). The ask stands at this place of the history (`at`,
    /// counted from 0), and the request carries what that of the asking task carried.
    Request {
        token: AskToken,
        to: u32,
        at: usize,
        headers: Headers,
    },
    /// The answer to an ask, with the receipt of the child that ended or of the rejection, which stands at this place of the
    /// history (`at`, counted from 0).
    Answer {
        receipt: Receipt,
        at: usize,
    },
    /// A message about bans.
    Notice(Notice),
}

impl Sent {
    /// The right to answer a request, its node, the place in the history of its ask, and what it carries.
    pub(crate) fn into_request(self) -> (AskToken, u32, usize, Headers)
        requires { is_request_entry (Some self) ≡ true }
        ensures { self ≡ Sent.Request result.0 result.1 result.2 result.3 }
    {
        match self {
            Sent::Request {
                token,
                to,
                at,
                headers,
            } => (token, to, at, headers),
            Sent::Answer { .. } | Sent::Notice(..) => unreachable!(),
        }
    }

    /// The receipt of an answer, and the place in the history of the event that sent it.
    pub(crate) fn into_answer(self) -> (Receipt, usize)
        requires { is_answer_entry (Some self) ≡ true }
        ensures { self ≡ Sent.Answer result.0 result.1 }
    {
        match self {
            Sent::Answer { receipt, at } => (receipt, at),
            Sent::Request { .. } | Sent::Notice(..) => unreachable!(),
        }
    }
}

/// A message that is not delivered is given up.
impl Drop for Sent {
    fn drop(self) {
        match self {
            Sent::Request {
                token,
                to: _,
                at: _,
                headers,
            } => {
                drop(headers);
                let _receipt = token.reject();
            }
            Sent::Answer { receipt: _, at: _ } => {}
            Sent::Notice(_notice) => {}
        }
    }
}

/// The messages in flight, in the order of their sending. Any of them can be taken out without a walk over the others.
#[derive(Drop)]
pub struct Flight {
    queue: Queue<Sent>,
}

impl Model for Flight {
    ghost use Rattle.std.specs.Prelude.{List};
    ghost use Rattle.world_moves.specs.declared.flight.Sent.{Sent};

    ghost Value = { List Sent };

    ghost view = { λ a. a.queue };
}

impl Flight {
    /// No messages.
    pub fn new(alloc: Global) -> Flight
        ensures { result ≡ [] }
    {
        Flight {
            queue: Queue::new(alloc),
        }
    }

    /// How many messages are in flight.
    pub fn len(&self) -> usize
        ensures { result ≡ length self.now }
    {
        self.queue.len()
    }

    /// Sends a message after all others. Where memory runs out it comes back.
    pub(crate) fn send(&mut self, sent: Sent) -> Result<(), AllocFailed<Sent>>
        ensures ok { OnOk result (self.new ≡ self.old ++ sent ∷ []) }
        ensures err { OnErr result (self.new ≡ self.old) }
        ensures given_back { IfErr result (λ failed. failed.value ≡ sent) }
    {
        self.queue.push_back(sent)
    }

    /// Whether the message of this place is a request, if there is one.
    pub fn is_request(&self, nth: usize) -> bool
        ensures { result ≡ is_request_entry (slice_get self.now nth) }
    {
        matches!(self.queue.get(nth), Some(Sent::Request { .. }))
    }

    /// The node to which the request of this place goes, from 1 on, if it is one.
    pub(crate) fn node_at(&self, nth: usize) -> Option<u32>
        ensures { result ≡ node_asked (slice_get self.now nth) }
    {
        match self.queue.get(nth) {
            Some(Sent::Request { to, .. }) => Some(*to),
            _ => None,
        }
    }

    /// The message of this place, if it is one about bans.
    pub fn notice(&self, nth: usize) -> Option<Notice>
        ensures { result ≡ notice_at (slice_get self.now nth) }
    {
        match self.queue.get(nth) {
            Some(Sent::Notice(notice)) => Some(*notice),
            _ => None,
        }
    }

    /// Takes the message of this place out, counted from 0. There is none exactly past the end.
    pub(crate) fn take(&mut self, nth: usize) -> Option<Sent>
        ensures taken { result ≡ slice_get self.old nth }
        ensures rest { OnSome result (self.new ≡ remove self.old nth) }
        ensures none { IfNone result (self.new ≡ self.old) }
    {
        self.queue.take(nth)
    }
}

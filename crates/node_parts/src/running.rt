//! A live task, as its node keeps it.

ghost use Rattle.std.specs.Prelude.{◌≡◌, ◌+◌, ◌^◌, ◌<◌, true, length, None, IfOk, IfErr, OnOk, OnErr};
ghost use Rattle.child_track.specs.Track.{Answers};
ghost use Rattle.task_ids.specs.Limits.{IsNode};
ghost use Rattle.task_work.specs.Works.{can_ask, work_takes};
ghost use Rattle.node_parts.specs.Running.{next_number, running_with_ask, running_with_answer};

use child_track::{AskError, AskToken, ChildTrack, Receipt};
use task_events::{Reply, ScrollAsk, Stop};
use task_ids::Headers;
use task_table::Ticket;
use task_work::Work;

/// A live task: its right to end, what it has asked for, and what it works on.
pub struct Running {
    /// Its right to end.
    pub ticket: Ticket,
    /// What it has asked for.
    pub track: ChildTrack,
    /// What it works on.
    pub work: Work,
    /// The page that it is asked to show, where it is asked for one.
    pub page: Option<ScrollAsk>,
    /// It was put and has not passed.
    pub is_new: bool,
    /// What its request carried, which the requests of its own carry on.
    pub headers: Headers,
}

impl Running {
    /// Notes that the child which comes next was asked for, on this node and at this moment in milliseconds, and gives the token
    /// that its request carries. It fails only for want of memory (`Memory`).
    pub fn ask(&mut self, to: u32, now: u64) -> Result<AskToken, Stop>
        requires node { IsNode to }
        requires few { length self.old.track.asks + 1 < 2 ^ 32 }
        requires open { self.old.track.closed ≡ None }
        requires can { can_ask self.old.work (next_number self.old) ≡ true }
        ensures token { IfOk result (λ token. token ≡ record { parent = self.old.track.task; ask = next_number self.old }) }
        ensures asked { OnOk result (self.new ≡ running_with_ask self.old to) }
        ensures err { OnErr result (self.new ≡ self.old) }
        ensures memory { IfErr result (λ stop. stop ≡ Stop.Memory) }
    {
        match self.track.ask(to) {
            Ok(token) => {
                self.work.asked(token.ask(), now);
                Ok(token)
            }
            Err(AskError::Closed { cancel: _ }) => unreachable!(),
            Err(AskError::Memory) => Err(Stop::Memory),
        }
    }

    /// Takes the answer to an ask of this task that is unanswered, at this moment in milliseconds. It fails only for want of memory
    /// (`Memory`).
    pub fn take_reply(&mut self, receipt: Receipt, reply: Reply, now: u64) -> Result<(), Stop>
        requires own { Answers receipt self.old.track }
        requires takes { work_takes self.old.work receipt.ask reply ≡ true }
        requires moment { now < 2 ^ 60 }
        ensures taken { OnOk result (self.new ≡ running_with_answer self.old receipt.ask reply now) }
        ensures memory { IfErr result (λ stop. stop ≡ Stop.Memory) }
    {
        if self.track.answer(receipt).is_err() {
            unreachable!()
        }
        match self.work.feed(receipt.ask(), reply, now) {
            Ok(()) => Ok(()),
            Err(_) => Err(Stop::Memory),
        }
    }

    /// What the end of the task takes: its right to end, and what it has asked for.
    pub fn into_parts(self) -> (Ticket, ChildTrack)
        ensures { (result.0 ≡ self.ticket) × (result.1 ≡ self.track) }
    {
        let Running {
            ticket,
            track,
            work,
            page: _,
            is_new: _,
            headers,
        } = self;
        drop(headers);
        drop(work);
        (ticket, track)
    }

    /// What the end of the task takes, and what it has worked on, of which its answer may still tell.
    pub fn into_work(self) -> (Ticket, ChildTrack, Work)
        ensures { (result.0 ≡ self.ticket) × (result.1 ≡ self.track) × (result.2 ≡ self.work) }
    {
        let Running {
            ticket,
            track,
            work,
            page: _,
            is_new: _,
            headers,
        } = self;
        drop(headers);
        (ticket, track, work)
    }
}

/// A task that is kept no more is given up: it makes no receipt.
impl Drop for Running {
    fn drop(self) {
        let Running {
            ticket,
            track,
            work,
            page: _,
            is_new: _,
            headers,
        } = self;
        ticket.give_up();
        drop(headers);
        drop(work);
        drop(track);
    }
}

// A live task, as its core keeps it, and what it leaves.
ghost use Rattle.std.specs.Prelude.{◌≡◌, ◌↔◌, IsTrue, Some};
ghost use Rattle.live_tasks.specs.Answering.{IsAnswer, IsOfPlace, IsToAsk};
ghost use Rattle.live_tasks.specs.Entries.{ended};

use crate::places::AskedPlaces;
use child_track::{ChildTrack, Receipt};
use node_link::{Page, Place};
use node_parts::running::Running;
use task_events::{AnsweredRequest, Reply};
use task_ids::{Boxed, NewTask};
use task_table::Ticket;
use task_work::Work;

/// A live task, as its core keeps it. One that is dropped gives its right to end up.
#[derive(Drop)]
pub struct Entry {
    /// Its right to end, its asks, its work, and whether its check is still to come.
    pub running: Running,
    /// Which task of the run it is.
    pub place: Place,
    /// What task lists show of it.
    pub info: NewTask,
    /// The request that its answer tells that it answers.
    pub request: AnsweredRequest,
    /// The page that a scroll is worked from.
    pub page: Option<Boxed<Page>>,
    /// The place of each ask, by its number from 1.
    pub asked: AskedPlaces,
}

/// What a task that has ended leaves for its answer.
#[derive(Drop)]
pub struct EndedTask {
    /// Which task of the run it was.
    pub place: Place,
    /// What task lists showed of it, with the task that asked for it.
    pub info: NewTask,
    /// The request that its answer tells that it answers.
    pub request: AnsweredRequest,
    /// The page that a scroll was worked from.
    pub page: Option<Boxed<Page>>,
    /// What it has worked on.
    pub work: Work,
}

impl Entry {
    /// Whether an answer is to an unanswered ask of this task, is of the place that was asked for, tells that it answers what was asked
    /// for, and is one that the ask's request can have.
    pub(crate) fn fits(
        &self,
        receipt: &Receipt,
        place: &Place,
        request: &AnsweredRequest,
        reply: &Reply,
    ) -> bool
        ensures { IsTrue result ↔ (IsAnswer receipt.now reply.now (Some self.now) × IsOfPlace receipt.now place.now (Some self.now) × IsToAsk receipt.now request.now (Some self.now)) }
    {
        let ask = receipt.ask();
        self.running.track.awaits(receipt)
            && self.asked.is_at(ask, place)
            && self.running.work.takes(ask, reply)
            && self.running.work.asks_for(ask, request)
    }

    /// The task taken apart: its right to end, its asks, and what it leaves.
    pub(crate) fn into_parts(self) -> (Ticket, ChildTrack, EndedTask)
        ensures right { (result.0 ≡ self.running.ticket) × (result.1 ≡ self.running.track) }
        ensures left { result.2 ≡ ended self }
    {
        let Entry {
            running,
            place,
            info,
            request,
            page,
            asked: _,
        } = self;
        let (ticket, track, work) = running.into_work();
        let ended = EndedTask {
            place,
            info,
            request,
            page,
            work,
        };
        (ticket, track, ended)
    }
}

// How a driver brings its workers to an end.
ghost use Rattle.std.specs.Prelude.{◌≡◌, ◌<◌, vec_len};
ghost use Rattle.node_link.specs.Inbox.{IsSame};
ghost use Rattle.run_inboxes.specs.Pairs.{Pairwise};
ghost use Rattle.run_threads.specs.Causes.{IsNoLater};
ghost use Rattle.run_inboxes.specs.Ends.{SameEnds};

use crate::cause::also;
use node_link::{Body, Letter, Sender};
use run_facts::{Of, Run};
use run_inboxes::Ends;
use std::sync::Wait;
use std::sync::atomic::{AtomicU32, Ordering};
use std::thread;
use task_events::Stop;

/// How many data workers each node has, how many workers of each kind were started, and how many of both are done.
#[derive(Clone, Copy)]
pub(crate) struct Watch<'c> {
    pub(crate) workers: usize,
    pub(crate) controls: usize,
    pub(crate) datas: usize,
    pub(crate) done: &'c AtomicU32,
}

impl<'c> Watch<'c> {
    // Whether all workers that were started are done.
    fn are_done(&self) -> bool {
        self.done.load(Ordering::SeqCst) as usize >= self.controls.saturating_add(self.datas)
    }

    // How many inboxes each node has.
    fn width(&self) -> usize
        ensures { 0 < result }
    {
        self.workers.saturating_add(1)
    }

    // Whether the inbox of that number is that of a data worker. The driver's stands where that of one more control worker would.
    fn is_of_data(&self, inbox: usize) -> bool {
        inbox % self.width() != 0
    }

    // Whether the worker with the inbox of that number was started. Workers are started by their nodes, and those of a node by their
    // numbers.
    fn is_started(&self, inbox: usize) -> bool {
        let before = inbox / self.width();
        match inbox % self.width() {
            0 => before < self.controls,
            place => before.saturating_mul(self.workers).saturating_add(place) <= self.datas,
        }
    }
}

// Sends a letter by the sender at that place, and says whether there was room.
fn send_at<L: Drop, R: Wait>(rt: &R, senders: &mut Vec<Sender<L>>, to: usize, letter: L) -> bool
    requires { to < vec_len senders.old }
    ensures { Pairwise IsSame senders.old.items senders.new.items }
{
    let sender = &mut senders[to];
    match sender.send(rt, letter) {
        Ok(()) => true,
        Err(_) => false,
    }
}

// Sends a letter into the inbox of that number, and says whether there was room. Into one that is not there nothing is sent.
#[tactic(auto, using(run_inboxes::proofs::Same::same_ends, run_inboxes::proofs::Same::sent))]
fn send<W: Run, R: Wait>(
    rt: &R,
    ends: &mut Ends<Letter<Of<W>>>,
    to: usize,
    letter: Letter<Of<W>>,
) -> bool
    ensures { SameEnds ends.old ends.new }
{
    if to >= ends.senders.len() {
        return true;
    }
    send_at(rt, &mut ends.senders, to, letter)
}

// What came to the driver.
enum Heard {
    // No letter is there.
    Nothing,
    // A letter that tells that a worker has stopped.
    Stopped(Stop),
    // Another letter, which is passed over.
    Other,
}

// The cause, where the letter tells that a worker has stopped.
fn stop_of<W: Run>(letter: &Letter<Of<W>>) -> Option<Stop> {
    match letter.body() {
        Body::Stopped(stop) => Some(*stop),
        _ => None,
    }
}

// Takes the next letter, if there is one.
#[tactic(auto, using(run_inboxes::proofs::Same::same_ends, run_inboxes::proofs::Same::took))]
fn hear<W: Run, R: Wait>(rt: &R, ends: &mut Ends<Letter<Of<W>>>) -> Heard
    ensures { SameEnds ends.old ends.new }
{
    let Some(letter) = ends.inbox.try_take(rt) else {
        return Heard::Nothing;
    };
    match stop_of(&letter) {
        Some(stop) => Heard::Stopped(stop),
        None => Heard::Other,
    }
}

// What was met, once the next letter was taken, if there is one.
fn met_after<W: Run, R: Wait>(
    rt: &R,
    ends: &mut Ends<Letter<Of<W>>>,
    met: Option<Stop>,
) -> Option<Stop>
    ensures same { SameEnds ends.old ends.new }
    ensures kept { IsNoLater met result }
{
    match hear(rt, ends) {
        Heard::Stopped(stop) => Some(also(met, stop)),
        Heard::Other => met,
        Heard::Nothing => met,
    }
}

// Takes all letters that are there, and tells what was met.
#[tactic(auto, using(run_inboxes::proofs::Same::same_ends, run_inboxes::proofs::Same::ends_on, crate::proofs::Causes::no_later, crate::proofs::Causes::later_on))]
fn take_rest<W: Run, R: Wait>(
    rt: &R,
    ends: &mut Ends<Letter<Of<W>>>,
    met: Option<Stop>,
) -> Option<Stop>
    ensures same { SameEnds ends.old ends.new }
    ensures kept { IsNoLater met result }
{
    let mut met = met;
    for _ in rt.forever() {
        match hear(rt, ends) {
            Heard::Stopped(stop) => met = Some(also(met, stop)),
            Heard::Other => {}
            Heard::Nothing => return met,
        }
    }
    unreachable!()
}

// Tells one data worker to leave, as soon as there is room. It gives that up where a worker has stopped, and tells the cause.
#[tactic(auto, using(run_inboxes::proofs::Same::same_ends, run_inboxes::proofs::Same::ends_on, crate::proofs::Causes::no_later, crate::proofs::Causes::later_on))]
fn tell_one<W: Run, R: Wait>(
    rt: &R,
    ends: &mut Ends<Letter<Of<W>>>,
    to: usize,
    watch: &Watch<'_>,
) -> Option<Stop>
    ensures { SameEnds ends.old ends.new }
{
    for _ in rt.forever() {
        if watch.are_done() || send(rt, ends, to, Letter::new(Body::Leave)) {
            return None;
        }
        let met = met_after(rt, ends, None);
        if met.is_some() {
            return met;
        }
        thread::yield_now();
    }
    unreachable!()
}

// Tells each data worker to leave. It gives that up where a worker has stopped, and tells the cause.
#[tactic(auto, using(run_inboxes::proofs::Same::same_ends, run_inboxes::proofs::Same::ends_on, crate::proofs::Causes::no_later, crate::proofs::Causes::later_on))]
fn tell_to_leave<W: Run, R: Wait>(
    rt: &R,
    ends: &mut Ends<Letter<Of<W>>>,
    watch: &Watch<'_>,
) -> Option<Stop>
    ensures { SameEnds ends.old ends.new }
{
    for to in 0..ends.senders.len() {
        if watch.is_of_data(to) {
            let met = tell_one(rt, ends, to, watch);
            if met.is_some() {
                return met;
            }
        }
    }
    None
}

// Tells each worker that was started to stop, where there is room in its inbox. The inbox of one that was not is gone, and nothing can be
// sent there.
#[tactic(auto, using(run_inboxes::proofs::Same::same_ends, run_inboxes::proofs::Same::ends_on, crate::proofs::Causes::no_later, crate::proofs::Causes::later_on))]
fn tell_to_stop<W: Run, R: Wait>(
    rt: &R,
    ends: &mut Ends<Letter<Of<W>>>,
    stop: Stop,
    watch: &Watch<'_>,
)
    ensures { SameEnds ends.old ends.new }
{
    for to in 0..ends.senders.len() {
        if watch.is_started(to) {
            send(rt, ends, to, Letter::new(Body::Stop(stop)));
        }
    }
}

/// Waits until all workers are done, and takes what they still say. Where something was met, or one of them tells that it has stopped, each
/// is told to stop; it is told so again and again, since an inbox may be full.
#[tactic(auto, using(run_inboxes::proofs::Same::same_ends, run_inboxes::proofs::Same::ends_on, crate::proofs::Causes::no_later, crate::proofs::Causes::later_on))]
pub(crate) fn settle<W: Run, R: Wait>(
    rt: &R,
    ends: &mut Ends<Letter<Of<W>>>,
    met: Option<Stop>,
    watch: &Watch<'_>,
) -> Option<Stop>
    ensures same { SameEnds ends.old ends.new }
    ensures kept { IsNoLater met result }
{
    let mut met = met;
    if met.is_none() {
        met = tell_to_leave(rt, ends, watch);
    }
    for _ in rt.forever() {
        if watch.are_done() {
            return take_rest(rt, ends, met);
        }
        met = met_after(rt, ends, met);
        if let Some(stop) = met {
            tell_to_stop(rt, ends, stop, watch);
        }
        thread::yield_now();
    }
    unreachable!()
}

ghost use Rattle.std.specs.Prelude.{◌≡◌, ◌∷◌, [], ◌++◌, ◌<◌, ◌≤◌, ◌+◌, ◌↔◌, length, reverse, flat_map, slice_get, option_copied, vec_len, vec_capacity, IfErr, IsErrOf, IsTrue, OnOk, OnErr};
ghost use Rattle.std.specs.List.{All};

use crate::event::Event;
use crate::events::Events;
use crate::summary::Summary;
use std::alloc::{AllocError, Global};
use std::marker::Model;
use std::mem;

/// How many events a history holds at most.
pub const MAX_EVENTS: usize = 4_000_000;

/// How many events a piece of a history holds.
const PIECE: usize = 4096;

/// What happened, in order. Contracts see the list of the events with the newest first.
///
/// The events lie in pieces of 4,096, all but the last of which are full. So where a history grows none of them is moved, but for those
/// of the first piece while it fills up, and no more memory is kept free than for one piece.
#[derive(Drop)]
pub struct History {
    full: Vec<Vec<Event>>,
    last: Vec<Event>,
    counts: Summary,
}

impl Model for History {
    ghost use Rattle.std.specs.Prelude.{List, ◌≡◌, ◌++◌, ◌≤◌, length, reverse, flat_map};
    ghost use Rattle.std.specs.List.{All};
    ghost use Rattle.task_events.specs.declared.event.Event.{Event};
    ghost use Rattle.task_events.specs.declared.history.TheConstants.{MAX_EVENTS, PIECE};
    ghost use Rattle.task_events.specs.contracts.event.Event as events_row;
    ghost use Rattle.task_events.specs.Summaries.{summary_of};
    ghost use Rattle.std.specs.Coded.{coded_list};

    ghost Value = { List Event };

    ghost coded = { coded_list events_row.the_row.coded };

    ghost view = { λ h. reverse (flat_map (λ piece. piece.items) h.full.items ++ h.last.items) };

    ghost invariant = { λ h. All (λ piece. length piece.items ≡ PIECE) h.full.items × (length h.last.items ≤ PIECE)
        × (length (flat_map (λ piece. piece.items) h.full.items ++ h.last.items) ≤ MAX_EVENTS)
        × (h.counts ≡ summary_of (reverse (flat_map (λ piece. piece.items) h.full.items ++ h.last.items))) };
}

/// Why an event was not added. The event comes back.
#[derive(Drop)]
pub enum PushError {
    /// The history has 4,000,000 events.
    Full(Event),
    /// Memory ran out.
    Memory(Event),
}

/// Puts a piece, which is to be full, behind the full ones, and an empty one into its place.
fn begin_piece(full: &mut Vec<Vec<Event>>, last: &mut Vec<Event>) -> Result<(), AllocError>
    ensures ok { OnOk result ((full.new.items ≡ full.old.items ++ last.old ∷ []) × (last.new.items ≡ [])) }
    ensures room { OnOk result (vec_len last.new < vec_capacity last.new) }
    ensures err { OnErr result ((full.new.items ≡ full.old.items) × (last.new ≡ last.old)) }
{
    let empty = Vec::with_capacity(*full.allocator(), PIECE)?;
    let filled = mem::replace(last, empty);
    match full.push(filled) {
        Ok(()) => Ok(()),
        Err(failed) => {
            *last = failed.value;
            Err(AllocError)
        }
    }
}

/// Makes room for one event more in the last piece, or begins a new one where that is full.
fn make_room(full: &mut Vec<Vec<Event>>, last: &mut Vec<Event>) -> Result<(), AllocError>
    requires full { All (λ piece. length piece.items ≡ PIECE) full.old.items }
    requires fits { length last.old.items ≤ PIECE }
    ensures full { All (λ piece. length piece.items ≡ PIECE) full.new.items }
    ensures fits { length last.new.items ≤ PIECE }
    ensures same { flat_map (λ piece. piece.items) full.new.items ++ last.new.items
        ≡ flat_map (λ piece. piece.items) full.old.items ++ last.old.items }
    ensures room { OnOk result ((length last.new.items < PIECE) × (vec_len last.new < vec_capacity last.new)) }
{
    if last.len() < PIECE {
        return last.reserve(1);
    }
    begin_piece(full, last)
}

impl History {
    ghost use Rattle.task_events.specs.History.{returned};
    ghost use Rattle.task_events.specs.Summaries.{summary_of};

    /// Nothing has happened yet.
    pub fn new(alloc: Global) -> History
        ensures { result ≡ [] }
    {
        History {
            full: Vec::new(alloc),
            last: Vec::new(alloc),
            counts: Summary::new(),
        }
    }

    /// Adds the newest event.
    pub fn push(&mut self, event: Event) -> Result<(), PushError>
        ensures ok { OnOk result (self.new ≡ event ∷ self.old) }
        ensures room { OnOk result (length self.old < MAX_EVENTS) }
        ensures err { OnErr result (self.new ≡ self.old) }
        ensures full { IsErrOf result (PushError.Full event) ↔ (length self.old ≡ MAX_EVENTS) }
        ensures given_back { IfErr result (λ e. returned e ≡ event) }
    {
        if self.len() == MAX_EVENTS {
            return Err(PushError::Full(event));
        }
        if make_room(&mut self.full, &mut self.last).is_err() {
            return Err(PushError::Memory(event));
        }
        // nothing fails any more, so the event is counted in place
        self.counts.count(&event);
        self.last.push_reserved(event);
        Ok(())
    }

    /// The event at a place, from the oldest at 0. There is none exactly past the end.
    pub fn get(&self, at: usize) -> Option<&Event>
        ensures { option_copied result ≡ slice_get (reverse self.now) at }
    {
        match self.full.get(at / PIECE) {
            Some(piece) => piece.get(at % PIECE),
            None => self.last.get(at - self.full.len() * PIECE),
        }
    }

    /// The events, the oldest first.
    pub fn events(&self) -> Events<'_>
        ensures { result ≡ reverse self.now }
    {
        Events::of(self)
    }

    /// The newest event. There is none exactly where nothing has happened.
    pub fn newest(&self) -> Option<&Event>
        ensures { option_copied result ≡ slice_get self.now 0 }
    {
        self.get(self.len().checked_sub(1)?)
    }

    /// How many tasks, bans and writes came and went so far. It is kept, and counts nothing anew.
    pub fn summary(&self) -> Summary
        ensures { result ≡ summary_of self.now }
    {
        self.counts
    }

    /// The number of events.
    pub fn len(&self) -> usize
        ensures { result ≡ length self.now }
    {
        self.full.len() * PIECE + self.last.len()
    }

    /// How many events it can still take.
    pub fn left(&self) -> usize
        ensures { length self.now + result ≡ MAX_EVENTS }
    {
        MAX_EVENTS - self.full.len() * PIECE - self.last.len()
    }

    /// Whether nothing has happened yet.
    pub fn is_empty(&self) -> bool
        ensures { IsTrue result ↔ (self.now ≡ []) }
    {
        self.len() == 0
    }
}

//! Steps of open listings.

ghost use Rattle.std.specs.Prelude.{◌≡◌, ◌≢◌, ◌∷◌, ◌≤◌, true, length, Err, Ok, IfErr, IfOk, IfSome, IfNone, OnOk, OnErr, Some};
ghost use Rattle.task_ids.specs.Limits.{IsCancel};
ghost use Rattle.task_events.specs.declared.history.TheConstants.{MAX_EVENTS};
ghost use Rattle.task_events.specs.Allowed.{HasAllMarked};
ghost use Rattle.task_events.specs.Bans.{standing_ban};
ghost use Rattle.world_moves.specs.Listings.{IsNextChild, ListSteps, is_open, AnswersListing};
ghost use Rattle.world_moves.specs.Moves.{IsPartly, StopsMove};
ghost use Rattle.world_moves.specs.Ties.{IsTied, Keeps, KeepsLaws};

use crate::append::append;
use crate::marks::mark;
use crate::performing::send_if_any;
use crate::rows::children_in;
use crate::state::State;
use node_parts::listing::Listing;
use task_events::{Event, MAX_EVENTS, Stop};
use task_ids::TaskId;

/// What came of a step of a listing.
#[derive(Clone, Copy, PartialEq, Eq)]
pub enum ListStep {
    /// A child was marked, or the listing ended.
    Done,
    /// No such listing is open.
    NoListing,
}

/// The child that an open listing marks next, with the number of the ban.
fn next_child(state: &State<'_>, listing: Listing) -> Option<(TaskId, u32)>
    requires tied { IsTied state.now }
    requires opened { is_open listing state.now.history ≡ true }
    ensures child { IfSome result (λ found. IsNextChild listing found.0 state.now.history
        × (standing_ban listing.node listing.parent state.now.history ≡ Some found.1)) }
    ensures number { IfSome result (λ found. IsCancel found.1) }
    ensures none { IfNone result (HasAllMarked listing.node listing.parent state.now.history) }
{
    let place = listing.node as usize - 1;
    let number = state.tables[place].next_child(listing.parent)?;
    let Some(cancel) = state.bans[place].find(listing.parent) else {
        unreachable!()
    };
    let task = TaskId {
        node: listing.node,
        number,
    };
    Some((task, cancel))
}

/// An open listing ends in which every child is marked. The ban is acknowledged now where each of the children is stopped: it has
/// ended, or its own bans are placed. Else the core of the node waits for the others.
///
/// It fails where the history is full (`HistoryFull`, at 4,000,000 events), which takes no memory to find, or else where memory runs out
/// (`Memory`); then nothing was appended.
fn end_listing(state: &mut State<'_>, listing: Listing) -> Result<(), Stop>
    requires tied { IsTied state.old }
    requires opened { is_open listing state.old.history ≡ true }
    requires marked { HasAllMarked listing.node listing.parent state.old.history }
    ensures happened { OnOk result (state.new.history ≡ Event.Listed listing.node listing.parent ∷ state.old.history) }
    ensures tied { OnOk result (IsTied state.new) }
    ensures keeps { Keeps state.old state.new }
    ensures room { OnOk result (length state.new.history ≤ MAX_EVENTS) }
    ensures err { OnErr result (state.new.history ≡ state.old.history) }
    ensures full { result ≡ Err Stop.HistoryFull → length state.old.history ≡ MAX_EVENTS }
    ensures numbers { result ≡ Err Stop.NumbersSpent → ⊥ }
    ensures memory { result ≡ Err Stop.Memory → length state.old.history ≢ MAX_EVENTS }
{
    if state.history.len() == MAX_EVENTS {
        return Err(Stop::HistoryFull);
    }
    let Listing { node, parent } = listing;
    let place = node as usize - 1;
    let Ok(children) = children_in(state.alloc, &state.tables[place], parent) else {
        return Err(Stop::Memory);
    };
    let Ok(ack) = state.cores[place].ban_listed(parent, children.as_slice()) else {
        return Err(Stop::Memory);
    };
    let _was_open = state.listings.remove(&listing);
    match send_if_any(&mut state.flight, node, ack) {
        Ok(()) => {}
        Err(stop) => return Err(stop),
    }
    append(&mut state.history, Event::Listed { node, parent })
}

/// An open listing makes its next step.
fn list(state: &mut State<'_>, listing: Listing) -> Result<(), Stop>
    requires tied { IsTied state.old }
    requires opened { is_open listing state.old.history ≡ true }
    ensures stepped { OnOk result (ListSteps listing state.old.history state.new.history) }
    ensures tied { OnOk result (IsTied state.new) }
    ensures keeps { Keeps state.old state.new }
    ensures room { OnOk result (length state.new.history ≤ MAX_EVENTS) }
    ensures part { OnErr result (IsPartly (ListSteps listing) state.old.history state.new.history) }
    ensures laws { OnErr result (KeepsLaws state.new) }
    ensures stop { IfErr result (λ stop. StopsMove (ListSteps listing) state.old.history state.new.history stop) }
    ensures memory { result ≡ Err Stop.Memory → length state.old.history ≢ MAX_EVENTS }
{
    match next_child(state, listing) {
        Some((task, cancel)) => match mark(state, task, cancel, None) {
            Ok(()) => Ok(()),
            Err(stop) => Err(stop),
        },
        None => match end_listing(state, listing) {
            Ok(()) => Ok(()),
            Err(stop) => Err(stop),
        },
    }
}

/// A listing makes its next step, if it is open.
///
/// It fails where the history is full (`HistoryFull`, at 4,000,000 events) or memory runs out (`Memory`); the first of
/// its events may stand then.
pub fn list_step(state: &mut State<'_>, listing: Listing) -> Result<ListStep, Stop>
    requires tied { IsTied state.old }
    ensures stepped { IfOk result (λ stepped. AnswersListing listing state.old.history stepped state.new.history) }
    ensures tied { OnOk result (IsTied state.new) }
    ensures keeps { Keeps state.old state.new }
    ensures room { result ≡ Ok ListStep.Done → length state.new.history ≤ MAX_EVENTS }
    ensures part { OnErr result (IsPartly (ListSteps listing) state.old.history state.new.history) }
    ensures laws { OnErr result (KeepsLaws state.new) }
    ensures stop { IfErr result (λ stop. StopsMove (ListSteps listing) state.old.history state.new.history stop) }
    ensures memory { result ≡ Err Stop.Memory → length state.old.history ≢ MAX_EVENTS }
{
    if !state.listings.contains(&listing) {
        return Ok(ListStep::NoListing);
    }
    match list(state, listing) {
        Ok(()) => Ok(ListStep::Done),
        Err(stop) => Err(stop),
    }
}

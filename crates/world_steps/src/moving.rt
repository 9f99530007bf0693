//! Moves of the world, after each of which it is known which tasks wait.

ghost use Rattle.std.specs.Prelude.{◌≡◌, ◌≢◌, ◌<◌, ◌≤◌, ◌↔◌, length, true, false, Ok, Err, OnOk, OnErr, IfOk, IfErr};
ghost use Rattle.task_events.specs.declared.history.TheConstants.{MAX_EVENTS};
ghost use Rattle.world_moves.specs.Listings.{ListSteps, AnswersListing};
ghost use Rattle.world_moves.specs.Moves.{Delivers, DeliveryLacksNumber, IsCutShort, IsPartly, StopsDelivery, StopsMove};
ghost use Rattle.world_steps.specs.Runs.{Steps, AnswersStep, FirstMoves, HasRoom, IsSettled, Settles, PartlySettles, StopsFirst, StopsSettling};
ghost use Rattle.world_moves.specs.Ties.{IsTied, Keeps, KeepsLaws};
ghost use Rattle.world_steps.specs.World.{HasReady};

use crate::acting::{Stepped, act};
use crate::ready::{Ready, refresh};
use node_parts::listing::Listing;
use task_events::{MAX_EVENTS, Stop};
use task_ids::TaskId;
use world_moves::answers::deliver_answer;
use world_moves::bans::deliver_notice;
use world_moves::listings::{ListStep, list_step};
use world_moves::requests::{check_delivery, deliver_request};
use world_moves::state::State;

/// Delivers the message of this place among those in flight.
pub(crate) fn deliver_one(state: &mut State<'_>, nth: usize) -> Result<(), Stop>
    requires tied { IsTied state.old }
    requires there { nth < length state.old.flight }
    ensures delivered { OnOk result (Delivers state.old.cluster state.old.history nth state.new.history) }
    ensures room { OnOk result (length state.new.history ≤ MAX_EVENTS) }
    ensures tied { OnOk result (IsTied state.new) }
    ensures keeps { Keeps state.old state.new }
    ensures part { OnErr result (IsPartly (λ h new. Delivers state.old.cluster h nth new) state.old.history state.new.history) }
    ensures laws { OnErr result (KeepsLaws state.new) }
    ensures stop { IfErr result (λ stop. StopsDelivery state.old.cluster state.old.history nth state.new.history stop) }
    ensures spent { (result ≡ Err Stop.NumbersSpent) ↔ DeliveryLacksNumber state.old.cluster state.old.history nth }
    ensures memory { result ≡ Err Stop.Memory → length state.old.history ≢ MAX_EVENTS }
{
    match check_delivery(state, nth) {
        Ok(()) => {}
        Err(stop) => return Err(stop),
    }
    if let Some(notice) = state.flight.notice(nth) {
        return deliver_notice(state, nth, notice);
    }
    if state.flight.is_request(nth) {
        return match deliver_request(state, nth) {
            Ok(()) => Ok(()),
            Err(stop) => Err(stop),
        };
    }
    match deliver_answer(state, nth) {
        Ok(()) => Ok(()),
        Err(stop) => Err(stop),
    }
}

/// Delivers the message of this place among those in flight, and notes which tasks do not wait after that.
pub(crate) fn deliver_and_refresh(
    state: &mut State<'_>,
    ready: &mut Ready,
    nth: usize,
) -> Result<(), Stop>
    requires tied { IsTied state.old }
    requires known { HasReady state.old ready.old }
    requires there { nth < length state.old.flight }
    ensures delivered { OnOk result (Delivers state.old.cluster state.old.history nth state.new.history) }
    ensures room { OnOk result (length state.new.history ≤ MAX_EVENTS) }
    ensures tied { OnOk result (IsTied state.new) }
    ensures known { OnOk result (HasReady state.new ready.new) }
    ensures keeps { Keeps state.old state.new }
    ensures part { OnErr result (IsPartly (λ h new. Delivers state.old.cluster h nth new) state.old.history state.new.history) }
    ensures laws { KeepsLaws state.new }
    ensures stop { IfErr result (λ stop. StopsDelivery state.old.cluster state.old.history nth state.new.history stop) }
    ensures spent { (result ≡ Err Stop.NumbersSpent) ↔ DeliveryLacksNumber state.old.cluster state.old.history nth }
    ensures memory { result ≡ Err Stop.Memory → length state.old.history ≢ MAX_EVENTS }
{
    let before = state.history.len();
    match deliver_one(state, nth) {
        Ok(()) => {}
        Err(stop) => return Err(stop),
    }
    match refresh(state, ready, before) {
        Ok(()) => Ok(()),
        Err(stop) => Err(stop),
    }
}

/// What a step of a task answers where the history is full, which takes no memory to find: nothing happens, since the task waits or is
/// not live, or its next event finds no room.
fn step_at_full(state: &State<'_>, ready: &Ready, task: TaskId) -> Result<Stepped, Stop>
    requires tied { IsTied state.now }
    requires known { HasReady state.now ready.now }
    requires full { length state.now.history ≡ MAX_EVENTS }
    ensures stepped { IfOk result (λ stepped. AnswersStep state.now.cluster state.now.corpus.now state.now.script.now task state.now.history stepped state.now.history) }
    ensures room { IfOk result (λ stepped. HasRoom stepped state.now.history) }
    ensures full { IfErr result (λ stop. (stop ≡ Stop.HistoryFull) × IsCutShort (IsPartly (Steps state.now.cluster state.now.corpus.now state.now.script.now task) state.now.history) state.now.history) }
{
    if ready.tasks.contains(&task) {
        return Err(Stop::HistoryFull);
    }
    match state.tasks.get(&task) {
        Some(_) => Ok(Stepped::Waiting),
        None => Ok(Stepped::NotRunning),
    }
}

/// A task makes its next step, and it is noted whether it waits after that.
pub(crate) fn step_and_refresh(
    state: &mut State<'_>,
    ready: &mut Ready,
    task: TaskId,
) -> Result<Stepped, Stop>
    requires tied { IsTied state.old }
    requires known { HasReady state.old ready.old }
    ensures stepped { IfOk result (λ stepped. AnswersStep state.old.cluster state.old.corpus.now state.old.script.now task state.old.history stepped state.new.history) }
    ensures room { IfOk result (λ stepped. HasRoom stepped state.new.history) }
    ensures tied { OnOk result (IsTied state.new) }
    ensures known { OnOk result (HasReady state.new ready.new) }
    ensures keeps { Keeps state.old state.new }
    ensures part { OnErr result (IsPartly (Steps state.old.cluster state.old.corpus.now state.old.script.now task) state.old.history state.new.history) }
    ensures laws { KeepsLaws state.new }
    ensures stop { IfErr result (λ stop. StopsMove (Steps state.old.cluster state.old.corpus.now state.old.script.now task) state.old.history state.new.history stop) }
    ensures memory { result ≡ Err Stop.Memory → length state.old.history ≢ MAX_EVENTS }
{
    if state.history.len() == MAX_EVENTS {
        return match step_at_full(state, ready, task) {
            Ok(stepped) => Ok(stepped),
            Err(stop) => Err(stop),
        };
    }
    let before = state.history.len();
    let stepped = match act(state, task) {
        Ok(stepped) => stepped,
        Err(stop) => return Err(stop),
    };
    match refresh(state, ready, before) {
        Ok(()) => Ok(stepped),
        Err(stop) => Err(stop),
    }
}

/// A listing makes its next step, if it is open, and it is noted whether the child waits that it marked.
pub(crate) fn list_and_refresh(
    state: &mut State<'_>,
    ready: &mut Ready,
    listing: Listing,
) -> Result<ListStep, Stop>
    requires tied { IsTied state.old }
    requires known { HasReady state.old ready.old }
    ensures stepped { IfOk result (λ stepped. AnswersListing listing state.old.history stepped state.new.history) }
    ensures room { result ≡ Ok ListStep.Done → length state.new.history ≤ MAX_EVENTS }
    ensures tied { OnOk result (IsTied state.new) }
    ensures known { OnOk result (HasReady state.new ready.new) }
    ensures keeps { Keeps state.old state.new }
    ensures part { OnErr result (IsPartly (ListSteps listing) state.old.history state.new.history) }
    ensures laws { KeepsLaws state.new }
    ensures stop { IfErr result (λ stop. StopsMove (ListSteps listing) state.old.history state.new.history stop) }
{
    let before = state.history.len();
    let stepped = match list_step(state, listing) {
        Ok(stepped) => stepped,
        Err(stop) => return Err(stop),
    };
    match refresh(state, ready, before) {
        Ok(()) => Ok(stepped),
        Err(stop) => Err(stop),
    }
}

/// Makes the first move that there is: it delivers the oldest message, or else the first open listing makes a step, or else
/// the lowest task that does not wait. The answer is whether there was one.
pub(crate) fn move_first(state: &mut State<'_>, ready: &mut Ready) -> Result<bool, Stop>
    requires tied { IsTied state.old }
    requires known { HasReady state.old ready.old }
    ensures moved { result ≡ Ok true → FirstMoves state.old.cluster state.old.corpus.now state.old.script.now state.old.history state.new.history }
    ensures room { result ≡ Ok true → length state.new.history ≤ MAX_EVENTS }
    ensures rests { result ≡ Ok false → IsSettled state.old.cluster state.old.corpus.now state.old.script.now state.old.history × (state.new.history ≡ state.old.history) }
    ensures tied { OnOk result (IsTied state.new) }
    ensures known { OnOk result (HasReady state.new ready.new) }
    ensures keeps { Keeps state.old state.new }
    ensures part { OnErr result (IsPartly (FirstMoves state.old.cluster state.old.corpus.now state.old.script.now) state.old.history state.new.history) }
    ensures laws { KeepsLaws state.new }
    ensures stop { IfErr result (λ stop. StopsFirst state.old.cluster state.old.corpus.now state.old.script.now state.old.history state.new.history stop) }
{
    if state.flight.len() > 0 {
        return match deliver_and_refresh(state, ready, 0) {
            Ok(()) => Ok(true),
            Err(stop) => Err(stop),
        };
    }
    if let Some(listing) = state.listings.first().copied() {
        return match list_and_refresh(state, ready, listing) {
            Ok(_) => Ok(true),
            Err(stop) => Err(stop),
        };
    }
    let Some(task) = ready.tasks.first().copied() else {
        return Ok(false);
    };
    match step_and_refresh(state, ready, task) {
        Ok(_) => Ok(true),
        Err(stop) => Err(stop),
    }
}

/// Makes first moves for as long as there are any.
pub(crate) fn settle(state: &mut State<'_>, ready: &mut Ready) -> Result<(), Stop>
    requires tied { IsTied state.old }
    requires known { HasReady state.old ready.old }
    ensures settled { OnOk result (Settles state.old.cluster state.old.corpus.now state.old.script.now state.old.history state.new.history) }
    ensures tied { OnOk result (IsTied state.new) }
    ensures known { OnOk result (HasReady state.new ready.new) }
    ensures keeps { Keeps state.old state.new }
    ensures part { OnErr result (PartlySettles state.old.cluster state.old.corpus.now state.old.script.now state.old.history state.new.history) }
    ensures laws { KeepsLaws state.new }
    ensures stop { IfErr result (λ stop. StopsSettling state.old.cluster state.old.corpus.now state.old.script.now state.old.history state.new.history stop) }
{
    loop {
        match move_first(state, ready) {
            Ok(true) => {}
            Ok(false) => return Ok(()),
            Err(stop) => return Err(stop),
        }
    }
}

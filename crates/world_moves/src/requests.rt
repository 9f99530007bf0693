//! Requests reach their nodes.

ghost use Rattle.std.specs.Prelude.{◌≡◌, ◌∷◌, ◌≢◌, ◌++◌, [], ◌<◌, ◌≤◌, ◌↔◌, true, length, remove, slice_get, option_and_then, Err, Some, None, IsSome, IfOk, IfErr, OnOk, OnErr};
ghost use Rattle.task_events.specs.declared.history.TheConstants.{MAX_EVENTS};
ghost use Rattle.node_parts.specs.Starting.{task_for};
ghost use Rattle.task_events.specs.declared.request.Request.{Request};
ghost use Rattle.world_moves.specs.Flights.{event_at, request_in, is_request_entry};
ghost use Rattle.world_moves.specs.Moves.{Delivers, DeliveryLacksNumber, IsPartly, IsCutShort, StopsDelivery};
ghost use Rattle.world_moves.specs.Ties.{IsTied, Keeps};

use crate::append::append;
use crate::flight::{Flight, Sent};
use crate::pages::page_asked;
use crate::sending::send;
use crate::starting::{check_room, keep_started, put_on, spend};
use crate::state::State;
use child_track::AskToken;
use node_parts::starting::{new_task, with_work};
use std::alloc::AllocError;
use task_events::{Event, History, MAX_EVENTS, Request, Stop};
use task_ids::{Headers, NewTask, TaskId};
use task_table::PutError;

/// Takes a request out of the flight: the right to answer it, its node, where it stands in the history, and what it carries.
fn take_request(flight: &mut Flight, nth: usize) -> (AskToken, u32, usize, Headers)
    requires { is_request_entry (slice_get flight.old nth) ≡ true }
    ensures taken { slice_get flight.old nth ≡ Some (Sent.Request result.0 result.1 result.2 result.3) }
    ensures rest { flight.new ≡ remove flight.old nth }
{
    match flight.take(nth) {
        Some(sent) => sent.into_request(),
        None => unreachable!(),
    }
}

/// The request of the ask at a place of the history.
fn request_at(history: &History, at: usize) -> &Request
    requires { IsSome (option_and_then request_in (event_at at history.now)) }
    ensures { option_and_then request_in (event_at at history.now) ≡ Some result.now }
{
    let Some(event) = history.get(at) else {
        unreachable!()
    };
    match event {
        Event::Ask { request, .. } => request,
        _ => unreachable!(),
    }
}

/// The task that the request of the ask at a place of the history starts now.
fn child_of(
    state: &State<'_>,
    at: usize,
    parent: TaskId,
    headers: &Headers,
) -> Result<NewTask, AllocError>
    requires { IsSome (option_and_then request_in (event_at at state.now.history)) }
    ensures { IfOk result (λ task. (request : Request) → option_and_then request_in (event_at at state.now.history) ≡ Some request
        → task ≡ task_for request (Some parent) state.now.clock headers.now) }
{
    new_task(
        state.alloc,
        request_at(&state.history, at),
        Some(parent),
        state.clock,
        headers,
    )
}

/// Rejects a request, since its node has no free slot. The task that asked is answered.
fn reject(
    history: &mut History,
    flight: &mut Flight,
    node: u32,
    token: AskToken,
) -> Result<(), Stop>
    ensures happened { OnOk result (history.new ≡ Event.Reject node token.parent token.ask ∷ history.old) }
    ensures answered { OnOk result (flight.new ≡ flight.old ++ Sent.Answer
        (record { task = None; parent = Some token.parent; ask = token.ask }) (length history.old) ∷ []) }
    ensures err { OnErr result (history.new ≡ history.old) }
    ensures full { result ≡ Err Stop.HistoryFull → length history.old ≡ MAX_EVENTS }
    ensures numbers { result ≡ Err Stop.NumbersSpent → ⊥ }
    ensures room { OnOk result (length history.new ≤ MAX_EVENTS) }
{
    let parent = token.parent();
    let ask = token.ask();
    let at = history.len();
    let receipt = token.reject();
    match send(flight, Sent::Answer { receipt, at }) {
        Ok(()) => {}
        Err(stop) => return Err(stop),
    }
    append(history, Event::Reject { node, parent, ask })
}

/// Whether the message of this place can be delivered. It takes no memory, and fails where it is a request that finds a free slot and no
/// number is left for its child (`NumbersSpent`), else where the history is full (`HistoryFull`, at 4,000,000 events).
pub fn check_delivery(state: &State<'_>, nth: usize) -> Result<(), Stop>
    requires tied { IsTied state.now }
    requires there { nth < length state.now.flight }
    ensures spent { (result ≡ Err Stop.NumbersSpent) ↔ DeliveryLacksNumber state.now.cluster state.now.history nth }
    ensures stop { IfErr result (λ stop. StopsDelivery state.now.cluster state.now.history nth state.now.history stop) }
    ensures room { OnOk result (length state.now.history ≢ MAX_EVENTS) }
    ensures memory { result ≡ Err Stop.Memory → ⊥ }
{
    if let Some(node) = state.flight.node_at(nth) {
        return check_room(state, node);
    }
    if state.history.len() == MAX_EVENTS {
        return Err(Stop::HistoryFull);
    }
    Ok(())
}

/// A request reaches its node. Where a slot is free there, its child takes it and is to pass; where none is, the
/// request is rejected and its answer sent.
///
/// It fails where the history is full (`HistoryFull`, at 4,000,000 events), where a slot is free and the node has given its last
/// number (`NumbersSpent`, at 1,048,575), which is looked for before there is room for the event, or where memory runs out
/// (`Memory`); then nothing was appended.
pub fn deliver_request(state: &mut State<'_>, nth: usize) -> Result<(), Stop>
    requires tied { IsTied state.old }
    requires request { is_request_entry (slice_get state.old.flight nth) ≡ true }
    ensures delivered { OnOk result (Delivers state.old.cluster state.old.history nth state.new.history) }
    ensures tied { OnOk result (IsTied state.new) }
    ensures keeps { Keeps state.old state.new }
    ensures err { OnErr result (state.new.history ≡ state.old.history) }
    ensures full { result ≡ Err Stop.HistoryFull → IsCutShort (IsPartly (λ h new. Delivers state.old.cluster h nth new) state.old.history) state.new.history }
    ensures spent { result ≡ Err Stop.NumbersSpent
        → DeliveryLacksNumber state.old.cluster state.old.history nth }
    ensures room { OnOk result (length state.new.history ≤ MAX_EVENTS) }
{
    let (token, to, at, headers) = take_request(&mut state.flight, nth);
    let parent = token.parent();
    let ask = token.ask();
    let Ok(child) = child_of(state, at, parent, &headers) else {
        drop(headers);
        spend(Some(token));
        return Err(Stop::Memory);
    };
    match put_on(&mut state.tables, to, child, Some(token)) {
        Ok(ticket) => {
            let task = ticket.id();
            let request = request_at(&state.history, at);
            let page = page_asked(state.contexts.as_slice(), request);
            let running = with_work(
                state.alloc,
                ticket,
                request,
                &state.cluster,
                page,
                true,
                headers,
            )?;
            let event = Event::Put { task, parent, ask };
            keep_started(&mut state.history, &mut state.tasks, running, event)
        }
        Err(PutError::Full(token)) => {
            drop(headers);
            let Some(token) = token else { unreachable!() };
            reject(&mut state.history, &mut state.flight, to, token)
        }
        Err(PutError::NumbersSpent(token)) => {
            drop(headers);
            spend(token);
            Err(Stop::NumbersSpent)
        }
        Err(PutError::Memory(token)) => {
            drop(headers);
            spend(token);
            Err(Stop::Memory)
        }
    }
}

//! An answer comes to the task that asked.

ghost use Rattle.std.specs.Prelude.{◌≡◌, ◌≤◌, true, length, remove, slice_get, Some, Err, IsSome, IfOk, IfErr, OnOk, OnErr, option_and_then};
ghost use Rattle.task_events.specs.declared.history.TheConstants.{MAX_EVENTS};
ghost use Rattle.world_moves.specs.declared.flight.Sent.TheVariants.{Answer};
ghost use Rattle.world_moves.specs.Flights.{event_at, reply_in, is_answer_entry};
ghost use Rattle.world_moves.specs.Moves.{Delivers, IsPartly, IsCutShort};
ghost use Rattle.world_moves.specs.Ties.{IsTied, Keeps};

use crate::append::append;
use crate::flight::Flight;
use crate::state::State;
use child_track::Receipt;
use task_events::{Event, History, Reply, Stop};

/// Takes the answer of this place out of the messages in flight: its receipt, and the place in the history of the event
/// that sent it.
fn take_answer(flight: &mut Flight, nth: usize) -> (Receipt, usize)
    requires { is_answer_entry (slice_get flight.old nth) ≡ true }
    ensures taken { slice_get flight.old nth ≡ Some (Answer result.0 result.1) }
    ensures rest { flight.new ≡ remove flight.old nth }
{
    match flight.take(nth) {
        Some(sent) => sent.into_answer(),
        None => unreachable!(),
    }
}

/// An equal reply.
fn copied(reply: &Reply) -> Result<Reply, Stop>
    ensures copy { IfOk result (λ copy. copy ≡ reply.now) }
    ensures memory { IfErr result (λ stop. stop ≡ Stop.Memory) }
{
    match reply.copy() {
        Ok(copy) => Ok(copy),
        Err(_) => Err(Stop::Memory),
    }
}

/// The reply that an event sends, copied.
fn reply_sent(event: &Event) -> Result<Reply, Stop>
    requires { IsSome (reply_in event.now) }
    ensures reply { IfOk result (λ reply. reply_in event.now ≡ Some reply) }
    ensures memory { IfErr result (λ stop. stop ≡ Stop.Memory) }
{
    match event {
        Event::Reject { node, .. } => Ok(Reply::Rejected { node: *node }),
        Event::Refuse { task, cancel } => Ok(Reply::cancelled(*task, *cancel)),
        Event::End { reply, .. } => copied(reply),
        _ => unreachable!(),
    }
}

/// The reply that the event of this place sent, copied.
fn reply_at(history: &History, at: usize) -> Result<Reply, Stop>
    requires { IsSome (option_and_then reply_in (event_at at history.now)) }
    ensures reply { IfOk result (λ reply. option_and_then reply_in (event_at at history.now) ≡ Some reply) }
    ensures memory { IfErr result (λ stop. stop ≡ Stop.Memory) }
{
    match history.get(at) {
        Some(event) => reply_sent(event),
        None => unreachable!(),
    }
}

/// The answer of this place among the messages in flight, counted from 0, comes to the task that asked.
///
/// It fails where the history is full (`HistoryFull`, at 4,000,000 events) or memory runs out (`Memory`); then nothing
/// was appended.
pub fn deliver_answer(state: &mut State<'_>, nth: usize) -> Result<(), Stop>
    requires tied { IsTied state.old }
    requires answer { is_answer_entry (slice_get state.old.flight nth) ≡ true }
    ensures delivered { OnOk result (Delivers state.old.cluster state.old.history nth state.new.history) }
    ensures tied { OnOk result (IsTied state.new) }
    ensures keeps { Keeps state.old state.new }
    ensures err { OnErr result (state.new.history ≡ state.old.history) }
    ensures full { result ≡ Err Stop.HistoryFull → IsCutShort (IsPartly (λ h new. Delivers state.old.cluster h nth new) state.old.history) state.new.history }
    ensures numbers { result ≡ Err Stop.NumbersSpent → ⊥ }
    ensures room { OnOk result (length state.new.history ≤ MAX_EVENTS) }
{
    let (receipt, at) = take_answer(&mut state.flight, nth);
    let Some(parent) = receipt.parent() else {
        unreachable!()
    };
    let reply = reply_at(&state.history, at)?;
    let Some(running) = state.tasks.get_mut(&parent) else {
        unreachable!()
    };
    let running = running.get_mut();
    running.take_reply(receipt, reply, state.clock)?;
    append(
        &mut state.history,
        Event::Answered {
            parent,
            ask: receipt.ask(),
        },
    )
}

//! What is due for a cancellation is done.

ghost use Rattle.std.specs.Prelude.{◌≡◌, ◌∷◌, [], ◌++◌, ◌==◌, ◌≤◌, ℕ, length, Err, Some, option_map, if◌then◌else◌, OnOk, OnErr, IfErr};
ghost use Rattle.task_events.specs.declared.history.TheConstants.{MAX_EVENTS};
ghost use Rattle.task_events.specs.declared.event.Event.{Event};
ghost use Rattle.world_moves.specs.Acts.{messages_in, messages_of, answer_in, offered_in, cancel_of, left_after, answers_in};
ghost use Rattle.world_moves.specs.Left.{left_in};
ghost use Rattle.world_moves.specs.Moves.{IsPartOf, IsCutShort};

use crate::append::append;
use crate::counts::leave_one;
use crate::flight::{Flight, Sent};
use crate::sending::send;
use cancel_core::Act;
use node_parts::notice::Notice;
use std::collections::BTreeMap;
use task_events::{Event, History, Stop};

/// Sends what one act of a node sends, if it sends anything.
fn send_one(flight: &mut Flight, node: u32, act: &Act) -> Result<(), Stop>
    ensures sent { OnOk result (flight.new ≡ flight.old ++ messages_in node (act.now ∷ [])) }
    ensures memory { IfErr result (λ stop. stop ≡ Stop.Memory) }
{
    match Notice::of_act(act, node) {
        Some(notice) => send(flight, Sent::Notice(notice)),
        None => Ok(()),
    }
}

/// Sends what an act of a node sends, where there is one. It fails only for want of memory (`Memory`).
pub fn send_if_any(flight: &mut Flight, node: u32, act: Option<Act>) -> Result<(), Stop>
    ensures sent { OnOk result (flight.new ≡ flight.old ++ messages_of node act) }
    ensures memory { IfErr result (λ stop. stop ≡ Stop.Memory) }
{
    match act {
        Some(act) => send_one(flight, node, &act),
        None => Ok(()),
    }
}

/// Sends what the acts of a node send, in their order. It fails only for want of memory (`Memory`).
pub fn send_all(flight: &mut Flight, node: u32, acts: &[Act]) -> Result<(), Stop>
    ensures sent { OnOk result (flight.new ≡ flight.old ++ messages_in node acts.now) }
    ensures memory { IfErr result (λ stop. stop ≡ Stop.Memory) }
{
    for act in acts {
        match send_one(flight, node, act) {
            Ok(()) => {}
            Err(stop) => return Err(stop),
        }
    }
    Ok(())
}

/// The cancel that an act answers for its task, if it does.
fn cancel_in(act: &Act) -> Option<u32>
    ensures { result ≡ option_map cancel_of (answer_in act.now) }
{
    match *act {
        Act::AnswerPlaced { cancel, .. } | Act::AnswerDone { cancel, .. } => Some(cancel),
        Act::SendBan { .. } | Act::SendAck { .. } | Act::SendUnban { .. } => None,
    }
}

/// Notes of an act that the cancel which it answers, if it does, waits at one task less.
fn count_one(left: &mut BTreeMap<u32, usize>, act: &Act)
    ensures { (c : ℕ) → left_in left.new c ≡ left_after (offered_in (act.now ∷ [])) (left_in left.old) c }
{
    if let Some(cancel) = cancel_in(act) {
        leave_one(left, cancel);
    }
}

/// Notes of the acts for a task that the cancels which they answer wait at one task less.
pub fn count_down(left: &mut BTreeMap<u32, usize>, acts: &[Act])
    ensures { (c : ℕ) → left_in left.new c ≡ left_after (offered_in acts.now) (left_in left.old) c }
{
    for act in acts {
        count_one(left, act);
    }
}

/// Notes the answer that an act gives.
fn note_answer(history: &mut History, act: &Act) -> Result<(), Stop>
    requires offered { (e : Event) × (answer_in act.now ≡ Some e) }
    ensures noted { OnOk result (history.new ≡ offered_in (act.now ∷ []) ++ history.old) }
    ensures room { OnOk result (length history.new ≤ MAX_EVENTS) }
    ensures err { OnErr result (history.new ≡ history.old) }
    ensures full { result ≡ Err Stop.HistoryFull → length history.old ≡ MAX_EVENTS }
    ensures numbers { result ≡ Err Stop.NumbersSpent → ⊥ }
{
    match *act {
        Act::AnswerPlaced { cancel, task: _ } => append(history, Event::AnswerPlaced { cancel }),
        Act::AnswerDone {
            cancel,
            task: _,
            receipt: _,
        } => append(history, Event::AnswerDone { cancel }),
        Act::SendBan { .. } | Act::SendAck { .. } | Act::SendUnban { .. } => unreachable!(),
    }
}

/// Where an act answers a cancel for its task, and that was the last at which the cancel waited, the answer is noted.
fn answer_one(history: &mut History, left: &mut BTreeMap<u32, usize>, act: &Act) -> Result<(), Stop>
    requires room { length history.old ≤ MAX_EVENTS }
    ensures answered { OnOk result (history.new ≡ answers_in (act.now ∷ []) (left_in left.old) ++ history.old) }
    ensures counted { (c : ℕ) → left_in left.new c ≡ left_after (offered_in (act.now ∷ [])) (left_in left.old) c }
    ensures room { OnOk result (length history.new ≤ MAX_EVENTS) }
    ensures err { OnErr result (history.new ≡ history.old) }
    ensures full { result ≡ Err Stop.HistoryFull → (length history.old ≡ MAX_EVENTS) × (e : Event) × (answers_in (act.now ∷ []) (left_in left.old) ≡ e ∷ []) }
    ensures numbers { result ≡ Err Stop.NumbersSpent → ⊥ }
{
    let Some(cancel) = cancel_in(act) else {
        return Ok(());
    };
    if leave_one(left, cancel) {
        return note_answer(history, act);
    }
    Ok(())
}

/// Notes the answers that come of acts: each comes where the cancel waited at no other task any more.
fn answer(history: &mut History, left: &mut BTreeMap<u32, usize>, acts: &[Act]) -> Result<(), Stop>
    requires room { length history.old ≤ MAX_EVENTS }
    ensures answered { OnOk result (history.new ≡ answers_in acts.now (left_in left.old) ++ history.old) }
    ensures counted { OnOk result ((c : ℕ) → left_in left.new c ≡ left_after (offered_in acts.now) (left_in left.old) c) }
    ensures room { OnOk result (length history.new ≤ MAX_EVENTS) }
    ensures part { OnErr result (IsPartOf history.old history.new (answers_in acts.now (left_in left.old) ++ history.old)) }
    ensures full { result ≡ Err Stop.HistoryFull → IsCutShort (λ past. IsPartOf history.old past (answers_in acts.now (left_in left.old) ++ history.old)) history.new }
    ensures numbers { result ≡ Err Stop.NumbersSpent → ⊥ }
{
    for act in acts {
        match answer_one(history, left, act) {
            Ok(()) => {}
            Err(stop) => return Err(stop),
        }
    }
    Ok(())
}

/// Does the acts of a node: messages are sent, and the answers are noted that come with the last task at which their cancels
/// waited.
///
/// It fails where the history is full (`HistoryFull`, at 4,000,000 events) or memory runs out (`Memory`); the first of the
/// answers may have been noted then.
pub fn perform(
    flight: &mut Flight,
    history: &mut History,
    left: &mut BTreeMap<u32, usize>,
    node: u32,
    acts: &[Act],
) -> Result<(), Stop>
    requires room { length history.old ≤ MAX_EVENTS }
    ensures sent { OnOk result (flight.new ≡ flight.old ++ messages_in node acts.now) }
    ensures answered { OnOk result (history.new ≡ answers_in acts.now (left_in left.old) ++ history.old) }
    ensures counted { OnOk result ((c : ℕ) → left_in left.new c ≡ left_after (offered_in acts.now) (left_in left.old) c) }
    ensures room { OnOk result (length history.new ≤ MAX_EVENTS) }
    ensures part { OnErr result (IsPartOf history.old history.new (answers_in acts.now (left_in left.old) ++ history.old)) }
    ensures full { result ≡ Err Stop.HistoryFull → IsCutShort (λ past. IsPartOf history.old past (answers_in acts.now (left_in left.old) ++ history.old)) history.new }
    ensures numbers { result ≡ Err Stop.NumbersSpent → ⊥ }
{
    match send_all(flight, node, acts) {
        Ok(()) => {}
        Err(stop) => return Err(stop),
    }
    match answer(history, left, acts) {
        Ok(()) => Ok(()),
        Err(stop) => Err(stop),
    }
}

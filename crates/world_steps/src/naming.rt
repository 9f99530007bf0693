//! A cancel names live tasks, one after the other, and is answered where it has nothing to wait for once it has named them all.

ghost use Rattle.std.specs.Prelude.{◌≡◌, ◌∷◌, true, false, length, is_some, Err, Some, OnOk, OnErr};
ghost use Rattle.task_ids.specs.Limits.{IsCancel};
ghost use Rattle.task_events.specs.declared.history.TheConstants.{MAX_EVENTS};
ghost use Rattle.task_events.specs.Bans.{mark_of};
ghost use Rattle.task_events.specs.Cancels.{is_named};
ghost use Rattle.task_events.specs.Tasks.{is_live};
ghost use Rattle.world_moves.specs.Cancels.{answer_by, is_due, with_answer, with_cancel, with_cancels};
ghost use Rattle.world_moves.specs.Moves.{IsPartOf, IsCutShort};
ghost use Rattle.world_moves.specs.Ties.{HasTies, IsTied, IsTiedWhile, Keeps, KeepsLaws};
ghost use Rattle.world_steps.specs.Naming.{CanName, IsNaming};

use cancel_core::Waiter;
use task_events::{Event, Stop};
use task_ids::TaskId;
use world_moves::append::append;
use world_moves::counts::{wait_at_one, waits_at_none};
use world_moves::marks::mark;
use world_moves::performing::count_down;
use world_moves::state::State;

/// Whether a live task is marked.
fn is_marked(state: &State<'_>, task: TaskId) -> bool
    requires ties { HasTies state.now }
    requires live { is_live task state.now.history ≡ true }
    ensures { result ≡ is_some (mark_of task state.now.history) }
{
    match state.tasks.get(&task) {
        Some(running) => running.get().track.closed().is_some(),
        None => unreachable!(),
    }
}

/// A cancel joins the cancellation of a live task that is marked.
fn join(state: &mut State<'_>, number: u32, task: TaskId, wait: bool) -> Result<(), Stop>
    requires tied { IsTiedWhile (Some number) state.old }
    requires naming { IsNaming number wait state.old.history }
    requires number { IsCancel number }
    requires live { is_live task state.old.history ≡ true }
    requires fresh { is_named number task state.old.history ≡ false }
    requires marked { is_some (mark_of task state.old.history) ≡ true }
    ensures happened { OnOk result (state.new.history ≡ Event.Cancel number task wait ∷ state.old.history) }
    ensures tied { OnOk result (IsTiedWhile (Some number) state.new) }
    ensures keeps { Keeps state.old state.new }
    ensures part { OnErr result (IsPartOf state.old.history state.new.history (Event.Cancel number task wait ∷ state.old.history)) }
    ensures laws { OnErr result (KeepsLaws state.new) }
    ensures full { result ≡ Err Stop.HistoryFull → (length state.old.history ≡ MAX_EVENTS) × (state.new.history ≡ state.old.history) }
    ensures numbers { result ≡ Err Stop.NumbersSpent → ⊥ }
{
    let waiter = Waiter {
        cancel: number,
        wait,
    };
    let Ok(acts) = state.cores[task.node as usize - 1].joined(task, waiter) else {
        return Err(Stop::Memory);
    };
    append(
        &mut state.history,
        Event::Cancel {
            cancel: number,
            task,
            wait,
        },
    )?;
    match wait_at_one(&mut state.left, number) {
        Ok(()) => {}
        Err(stop) => return Err(stop),
    }
    count_down(&mut state.left, acts.as_slice());
    Ok(())
}

/// A cancel names a live task that has no mark, and marks it.
fn name_and_mark(state: &mut State<'_>, number: u32, task: TaskId, wait: bool) -> Result<(), Stop>
    requires tied { IsTiedWhile (Some number) state.old }
    requires naming { IsNaming number wait state.old.history }
    requires number { IsCancel number }
    requires live { is_live task state.old.history ≡ true }
    requires fresh { is_named number task state.old.history ≡ false }
    requires unmarked { is_some (mark_of task state.old.history) ≡ false }
    ensures happened { OnOk result (state.new.history ≡ Event.Mark task number ∷ Event.Cancel number task wait ∷ state.old.history) }
    ensures tied { OnOk result (IsTiedWhile (Some number) state.new) }
    ensures keeps { Keeps state.old state.new }
    ensures part { OnErr result (IsPartOf state.old.history state.new.history (Event.Mark task number ∷ Event.Cancel number task wait ∷ state.old.history)) }
    ensures laws { OnErr result (KeepsLaws state.new) }
    ensures full { result ≡ Err Stop.HistoryFull → IsCutShort (λ past. IsPartOf state.old.history past (Event.Mark task number ∷ Event.Cancel number task wait ∷ state.old.history)) state.new.history }
    ensures numbers { result ≡ Err Stop.NumbersSpent → ⊥ }
{
    append(
        &mut state.history,
        Event::Cancel {
            cancel: number,
            task,
            wait,
        },
    )?;
    match wait_at_one(&mut state.left, number) {
        Ok(()) => {}
        Err(stop) => return Err(stop),
    }
    let waiter = Waiter {
        cancel: number,
        wait,
    };
    mark(state, task, number, Some(waiter))?;
    Ok(())
}

/// A cancel names a live task, which is marked from then on.
fn name(state: &mut State<'_>, number: u32, task: TaskId, wait: bool) -> Result<(), Stop>
    requires tied { IsTiedWhile (Some number) state.old }
    requires naming { IsNaming number wait state.old.history }
    requires number { IsCancel number }
    requires live { is_live task state.old.history ≡ true }
    requires fresh { is_named number task state.old.history ≡ false }
    ensures happened { OnOk result (state.new.history ≡ with_cancel number task wait state.old.history) }
    ensures tied { OnOk result (IsTiedWhile (Some number) state.new) }
    ensures keeps { Keeps state.old state.new }
    ensures part { OnErr result (IsPartOf state.old.history state.new.history (with_cancel number task wait state.old.history)) }
    ensures laws { OnErr result (KeepsLaws state.new) }
    ensures full { result ≡ Err Stop.HistoryFull → IsCutShort (λ past. IsPartOf state.old.history past (with_cancel number task wait state.old.history)) state.new.history }
    ensures numbers { result ≡ Err Stop.NumbersSpent → ⊥ }
{
    if is_marked(state, task) {
        join(state, number, task, wait)
    } else {
        name_and_mark(state, number, task, wait)
    }
}

/// A cancel names live tasks, one after the other.
pub(crate) fn name_all(
    state: &mut State<'_>,
    number: u32,
    tasks: &[TaskId],
    wait: bool,
) -> Result<(), Stop>
    requires tied { IsTiedWhile (Some number) state.old }
    requires naming { IsNaming number wait state.old.history }
    requires number { IsCancel number }
    requires can { CanName number tasks.now state.old.history }
    ensures happened { OnOk result (state.new.history ≡ with_cancels number wait tasks.now state.old.history) }
    ensures tied { OnOk result (IsTiedWhile (Some number) state.new) }
    ensures naming { OnOk result (IsNaming number wait state.new.history) }
    ensures keeps { Keeps state.old state.new }
    ensures part { OnErr result (IsPartOf state.old.history state.new.history (with_cancels number wait tasks.now state.old.history)) }
    ensures laws { OnErr result (KeepsLaws state.new) }
    ensures full { result ≡ Err Stop.HistoryFull → IsCutShort (λ past. IsPartOf state.old.history past (with_cancels number wait tasks.now state.old.history)) state.new.history }
    ensures numbers { result ≡ Err Stop.NumbersSpent → ⊥ }
{
    for task in tasks {
        match name(state, number, *task, wait) {
            Ok(()) => {}
            Err(stop) => return Err(stop),
        }
    }
    Ok(())
}

/// The answer to a cancel, by whether it waits for the end.
fn answer_by(number: u32, wait: bool) -> Event
    ensures { result ≡ answer_by wait number }
{
    if wait {
        Event::AnswerDone { cancel: number }
    } else {
        Event::AnswerPlaced { cancel: number }
    }
}

/// Answers a cancel that has named all its tasks, where it has nothing to wait for at any of them.
pub(crate) fn answer_if_due(state: &mut State<'_>, number: u32, wait: bool) -> Result<(), Stop>
    requires tied { IsTiedWhile (Some number) state.old }
    requires naming { IsNaming number wait state.old.history }
    ensures happened { OnOk result (state.new.history ≡ with_answer number wait state.old.history) }
    ensures tied { OnOk result (IsTied state.new) }
    ensures keeps { Keeps state.old state.new }
    ensures err { OnErr result (state.new.history ≡ state.old.history) }
    ensures laws { OnErr result (KeepsLaws state.new) }
    ensures full { result ≡ Err Stop.HistoryFull → (length state.old.history ≡ MAX_EVENTS) × (is_due state.old.history number ≡ true) }
    ensures numbers { result ≡ Err Stop.NumbersSpent → ⊥ }
{
    if !waits_at_none(&state.left, number) {
        return Ok(());
    }
    append(&mut state.history, answer_by(number, wait))?;
    Ok(())
}

//! Cancel commands.

ghost use Rattle.std.specs.Prelude.{◌≡◌, true, false, Err, Some, IfSome, IfNone, OnOk, OnErr};
ghost use Rattle.task_ids.specs.Limits.{IsCancel};
ghost use Rattle.task_events.specs.Cancels.{beginning};
ghost use Rattle.task_events.specs.Tasks.{is_live};
ghost use Rattle.world_moves.specs.Cancels.{after_cancel, after_cancel_of, after_naming, target_of, targets};
ghost use Rattle.world_moves.specs.Moves.{IsPartOf, IsCutShort};
ghost use Rattle.world_moves.specs.Ties.{IsTied, Keeps, KeepsLaws};
ghost use Rattle.world_steps.specs.Naming.{CanName};

use crate::naming::{answer_if_due, name_all};
use script_lang::CancelTarget;
use std::slice::from_ref;
use task_events::{Event, Stop};
use task_ids::TaskId;
use tasks_api::Filter;
use world_moves::append::append;
use world_moves::rows::matching;
use world_moves::state::State;

/// A cancel that has begun names these live tasks, and is answered where there is nothing to wait for at any of them.
fn cancel_tasks(
    state: &mut State<'_>,
    number: u32,
    tasks: &[TaskId],
    wait: bool,
) -> Result<(), Stop>
    requires tied { IsTied state.old }
    requires begun { beginning state.old.history ≡ Some number }
    requires number { IsCancel number }
    requires can { CanName number tasks.now state.old.history }
    ensures happened { OnOk result (state.new.history ≡ after_naming number wait tasks.now state.old.history) }
    ensures tied { OnOk result (IsTied state.new) }
    ensures keeps { Keeps state.old state.new }
    ensures part { OnErr result (IsPartOf state.old.history state.new.history (after_naming number wait tasks.now state.old.history)) }
    ensures laws { OnErr result (KeepsLaws state.new) }
    ensures full { result ≡ Err Stop.HistoryFull → IsCutShort (λ past. IsPartOf state.old.history past (after_naming number wait tasks.now state.old.history)) state.new.history }
    ensures numbers { result ≡ Err Stop.NumbersSpent → ⊥ }
{
    match name_all(state, number, tasks, wait) {
        Ok(()) => {}
        Err(stop) => return Err(stop),
    }
    match answer_if_due(state, number, wait) {
        Ok(()) => Ok(()),
        Err(stop) => Err(stop),
    }
}

/// A cancel that has begun names the live tasks that a filter lets through, by ascending id.
fn cancel_matching(
    state: &mut State<'_>,
    number: u32,
    wanted: &Filter,
    wait: bool,
) -> Result<(), Stop>
    requires tied { IsTied state.old }
    requires begun { beginning state.old.history ≡ Some number }
    requires number { IsCancel number }
    ensures happened { OnOk result (state.new.history ≡ after_naming number wait (targets state.old.cluster state.old.script.now wanted.now state.old.history) state.old.history) }
    ensures tied { OnOk result (IsTied state.new) }
    ensures keeps { Keeps state.old state.new }
    ensures part { OnErr result (IsPartOf state.old.history state.new.history (after_naming number wait (targets state.old.cluster state.old.script.now wanted.now state.old.history) state.old.history)) }
    ensures laws { OnErr result (KeepsLaws state.new) }
    ensures full { result ≡ Err Stop.HistoryFull → IsCutShort (λ past. IsPartOf state.old.history past (after_naming number wait (targets state.old.cluster state.old.script.now wanted.now state.old.history) state.old.history)) state.new.history }
    ensures numbers { result ≡ Err Stop.NumbersSpent → ⊥ }
{
    let tasks = matching(state, wanted)?;
    let done = cancel_tasks(state, number, tasks.as_slice(), wait);
    drop(tasks);
    done
}

/// The task that a cancel is about, if it is about one that is live.
fn live_target(state: &State<'_>, target: &CancelTarget) -> Option<TaskId>
    requires tied { IsTied state.now }
    ensures live { IfSome result (λ task. (target_of target.now state.now.history ≡ Some task) × (is_live task state.now.history ≡ true)) }
    ensures none { IfNone result ((task : TaskId) → target_of target.now state.now.history ≡ Some task → is_live task state.now.history ≡ false) }
{
    let task = match target {
        CancelTarget::Task(task) => *task,
        CancelTarget::Command(command) => *state.roots.get(command)?,
        CancelTarget::Matching(_) => return None,
    };
    if state.tasks.contains_key(&task) {
        Some(task)
    } else {
        None
    }
}

/// A cancel that has begun names the task that it is about where it is live, or finds none.
fn cancel_one(
    state: &mut State<'_>,
    number: u32,
    target: &CancelTarget,
    wait: bool,
) -> Result<(), Stop>
    requires tied { IsTied state.old }
    requires begun { beginning state.old.history ≡ Some number }
    requires number { IsCancel number }
    ensures happened { OnOk result (state.new.history ≡ after_cancel_of number wait (target_of target.now state.old.history) state.old.history) }
    ensures tied { OnOk result (IsTied state.new) }
    ensures keeps { Keeps state.old state.new }
    ensures part { OnErr result (IsPartOf state.old.history state.new.history (after_cancel_of number wait (target_of target.now state.old.history) state.old.history)) }
    ensures laws { OnErr result (KeepsLaws state.new) }
    ensures full { result ≡ Err Stop.HistoryFull → IsCutShort (λ past. IsPartOf state.old.history past (after_cancel_of number wait (target_of target.now state.old.history) state.old.history)) state.new.history }
    ensures numbers { result ≡ Err Stop.NumbersSpent → ⊥ }
{
    if let Some(task) = live_target(state, target) {
        return cancel_tasks(state, number, from_ref(&task), wait);
    }
    append(&mut state.history, Event::NotFound { cancel: number })?;
    Ok(())
}

/// Does what a cancel says that has begun: the live tasks that its filter lets through are named and marked, or the one that it
/// is about, where that is live.
pub(crate) fn cancel(
    state: &mut State<'_>,
    number: u32,
    target: &CancelTarget,
    wait: bool,
) -> Result<(), Stop>
    requires tied { IsTied state.old }
    requires begun { beginning state.old.history ≡ Some number }
    requires number { IsCancel number }
    ensures happened { OnOk result (state.new.history ≡ after_cancel state.old.cluster state.old.script.now number target.now wait state.old.history) }
    ensures tied { OnOk result (IsTied state.new) }
    ensures keeps { Keeps state.old state.new }
    ensures part { OnErr result (IsPartOf state.old.history state.new.history (after_cancel state.old.cluster state.old.script.now number target.now wait state.old.history)) }
    ensures laws { OnErr result (KeepsLaws state.new) }
    ensures full { result ≡ Err Stop.HistoryFull → IsCutShort (λ past. IsPartOf state.old.history past (after_cancel state.old.cluster state.old.script.now number target.now wait state.old.history)) state.new.history }
    ensures numbers { result ≡ Err Stop.NumbersSpent → ⊥ }
{
    match target {
        CancelTarget::Matching(wanted) => cancel_matching(state, number, wanted, wait),
        CancelTarget::Task(_) | CancelTarget::Command(_) => cancel_one(state, number, target, wait),
    }
}

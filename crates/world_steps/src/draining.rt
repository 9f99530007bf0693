//! Draining: the world settles, and where a task is live the clock moves on to the soonest moment for which one waits, again and again.

ghost use Rattle.std.specs.Prelude.{◌≡◌, ◌+◌, ◌-◌, ◌≤◌, ℕ, length, false, Some, IfErr, IfNone, IfSome, OnOk, OnErr};
ghost use Rattle.task_ids.specs.declared.task_id.TaskId.{TaskId};
ghost use Rattle.task_events.specs.declared.history.TheConstants.{MAX_EVENTS};
ghost use Rattle.task_events.specs.Cancels.{last_command};
ghost use Rattle.task_events.specs.Laws.{IsDrained};
ghost use Rattle.world_moves.specs.Describing.{longest_tick};
ghost use Rattle.world_moves.specs.Moves.{IsPartly, StopsMove};
ghost use Rattle.world_moves.specs.Ties.{IsTied, Keeps, KeepsLaws};
ghost use Rattle.world_steps.specs.Draining.{IsNextDue, NoneLive, Empties, PartlyEmpties, StopsEmptying, ticked_to};
ghost use Rattle.world_steps.specs.Runs.{IsSettled};
ghost use Rattle.world_steps.specs.World.{HasReady};

use crate::moving::settle;
use crate::ready::{Ready, refresh};
use task_events::Stop;
use world_moves::clock::tick;
use world_moves::state::State;

/// The soonest moment for which a task waits, where the world has settled; none where no task is live.
fn next_due(state: &State<'_>, ready: &Ready) -> Option<u64>
    requires tied { IsTied state.now }
    requires known { HasReady state.now ready.now }
    requires settled { IsSettled state.now.cluster state.now.corpus.now state.now.script.now state.now.history }
    ensures next { IfSome result (λ due. IsNextDue state.now.cluster state.now.corpus.now state.now.script.now due state.now.history) }
    ensures later { IfSome result (λ due. (state.now.clock ≤ due) × (due ≤ state.now.clock + longest_tick)) }
    ensures none { IfNone result (IsDrained state.now.history) }
{
    let _left = state.history.left();
    ready.alarms.least()
}

/// The clock moves on to the soonest moment for which a task waits, and it is noted which tasks do not wait after that.
fn tick_to(state: &mut State<'_>, ready: &mut Ready, due: u64) -> Result<(), Stop>
    requires tied { IsTied state.old }
    requires known { HasReady state.old ready.old }
    requires closing { last_command state.old.history ≡ length state.old.script.now.commands + 1 }
    requires low { state.old.clock ≤ due }
    requires high { due ≤ state.old.clock + longest_tick }
    ensures happened { OnOk result (state.new.history ≡ ticked_to due state.old.history) }
    ensures room { OnOk result (length state.new.history ≤ MAX_EVENTS) }
    ensures tied { OnOk result (IsTied state.new) }
    ensures known { OnOk result (HasReady state.new ready.new) }
    ensures keeps { Keeps state.old state.new }
    ensures part { OnErr result (IsPartly (λ h new. new ≡ ticked_to due h) state.old.history state.new.history) }
    ensures laws { KeepsLaws state.new }
    ensures stop { IfErr result (λ stop. StopsMove (λ h new. new ≡ ticked_to due h) state.old.history state.new.history stop) }
{
    let before = state.history.len();
    tick(state, due - state.clock)?;
    match refresh(state, ready, before) {
        Ok(()) => Ok(()),
        Err(stop) => Err(stop),
    }
}

/// Settles, and for as long as a task is live moves the clock on to the soonest moment for which one waits and settles again. It is
/// the last that happens: all commands have begun.
pub(crate) fn empty(state: &mut State<'_>, ready: &mut Ready) -> Result<(), Stop>
    requires tied { IsTied state.old }
    requires known { HasReady state.old ready.old }
    requires closing { last_command state.old.history ≡ length state.old.script.now.commands + 1 }
    ensures emptied { OnOk result (Empties state.old.cluster state.old.corpus.now state.old.script.now state.old.history state.new.history) }
    ensures over { OnOk result (IsDrained state.new.history) }
    ensures tied { OnOk result (IsTied state.new) }
    ensures known { OnOk result (HasReady state.new ready.new) }
    ensures keeps { Keeps state.old state.new }
    ensures part { OnErr result (PartlyEmpties state.old.cluster state.old.corpus.now state.old.script.now state.old.history state.new.history) }
    ensures laws { KeepsLaws state.new }
    ensures stop { IfErr result (λ stop. StopsEmptying state.old.cluster state.old.corpus.now state.old.script.now state.old.history state.new.history stop) }
{
    loop {
        match settle(state, ready) {
            Ok(()) => {}
            Err(stop) => return Err(stop),
        }
        let Some(due) = next_due(state, ready) else {
            return Ok(());
        };
        match tick_to(state, ready, due) {
            Ok(()) => {}
            Err(stop) => return Err(stop),
        }
    }
}

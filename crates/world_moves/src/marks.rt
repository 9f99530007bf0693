//! Marks.

ghost use Rattle.std.specs.Prelude.{◌≡◌, ◌≢◌, ◌∷◌, ◌≤◌, length, Err, IfSome, OnOk, OnErr};
ghost use Rattle.task_ids.specs.Limits.{IsCancel};
ghost use Rattle.task_events.specs.declared.history.TheConstants.{MAX_EVENTS};
ghost use Rattle.task_events.specs.Lawful.{Lawful};
ghost use Rattle.world_moves.specs.Cancels.{waiting_for, waits_for_end};
ghost use Rattle.world_moves.specs.Cancelling.{waiting_but, cancels_of, naming_of};
ghost use Rattle.world_moves.specs.Left.{HasLeft, left_in};
ghost use Rattle.world_moves.specs.Moves.{IsPartOf};
ghost use Rattle.world_moves.specs.Ties.{HasTies, HasCancels, HasDescriptions, HasContexts, HasShardsRead, IsTiedWhile, Keeps, KeepsLaws};

use crate::append::append;
use crate::performing::{count_down, send_all};
use crate::state::State;
use cancel_core::Waiter;
use task_events::{Event, MAX_EVENTS, Stop};
use task_ids::TaskId;

/// Marks a live task that has no mark, for the cancel that has just named it or for a listing: the task asks for nothing more, and
/// bans of it go to the nodes of its unanswered asks. No cancel is answered by it: the one that named the task may be naming others.
///
/// It fails where the history is full (`HistoryFull`, at 4,000,000 events), which takes no memory to find, or else where memory runs out
/// (`Memory`); the mark may have come then.
pub fn mark(
    state: &mut State<'_>,
    task: TaskId,
    cancel: u32,
    waiter: Option<Waiter>,
) -> Result<(), Stop>
    requires ties { HasTies state.old }
    requires cancels { HasCancels (waiting_but task state.old.history) state.old }
    requires counts { HasLeft (naming_of waiter) state.old.history (left_in state.old.left) }
    requires tells { HasDescriptions state.old }
    requires pages { HasContexts state.old }
    requires shards { HasShardsRead state.old }
    requires lawful { Lawful state.old.cluster (Event.Mark task cancel ∷ state.old.history) }
    requires number { IsCancel cancel }
    requires waiting { waiting_for task state.old.history ≡ cancels_of waiter }
    requires wait { IfSome waiter (λ w. (w.wait ≡ waits_for_end w.cancel state.old.history) × IsCancel w.cancel) }
    ensures happened { OnOk result (state.new.history ≡ Event.Mark task cancel ∷ state.old.history) }
    ensures tied { OnOk result (IsTiedWhile (naming_of waiter) state.new) }
    ensures keeps { Keeps state.old state.new }
    ensures room { OnOk result (length state.new.history ≤ MAX_EVENTS) }
    ensures part { OnErr result (IsPartOf state.old.history state.new.history (Event.Mark task cancel ∷ state.old.history)) }
    ensures laws { OnErr result (KeepsLaws state.new) }
    ensures full { result ≡ Err Stop.HistoryFull → (length state.old.history ≡ MAX_EVENTS) × (state.new.history ≡ state.old.history) }
    ensures numbers { result ≡ Err Stop.NumbersSpent → ⊥ }
    ensures memory { result ≡ Err Stop.Memory → length state.old.history ≢ MAX_EVENTS }
{
    if state.history.len() == MAX_EVENTS {
        return Err(Stop::HistoryFull);
    }
    let place = task.node as usize - 1;
    let Some(running) = state.tasks.get_mut(&task) else {
        unreachable!()
    };
    let running = running.get_mut();
    let asked = running.track.close(cancel);
    let _marked = state.tables[place].mark(task.number, cancel);
    let Ok(acts) = state.cores[place].begin(task, cancel, asked, waiter) else {
        return Err(Stop::Memory);
    };
    append(&mut state.history, Event::Mark { task, cancel })?;
    let done = acts.as_slice();
    match send_all(&mut state.flight, task.node, done) {
        Ok(()) => {}
        Err(stop) => return Err(stop),
    }
    count_down(&mut state.left, done);
    Ok(())
}

//! A turn of work of a live task.

ghost use Rattle.std.specs.Prelude.{◌≡◌, ◌≢◌, ◌∷◌, ◌≤◌, true, false, length, Err, None, IfOk, IfErr, OnOk, OnErr};
ghost use Rattle.task_events.specs.declared.history.TheConstants.{MAX_EVENTS};
ghost use Rattle.task_events.specs.Bans.{mark_of};
ghost use Rattle.task_events.specs.Tasks.{is_live, is_new};
ghost use Rattle.task_events.specs.Written.{write_of, with_notes};
ghost use Rattle.corpus_shards.specs.Stored.{IsNotedAs, is_noted};
ghost use Rattle.world_moves.specs.Moves.{IsPartOf, IsCutShort};
ghost use Rattle.world_moves.specs.Ties.{IsTied, Keeps, KeepsLaws, task_at, turned_in};
ghost use Rattle.node_parts.specs.Running.{DoesNext};

use crate::append::append;
use crate::state::State;
use corpus_shards::Shards;
use shared_value::Shared;
use std::alloc::AllocError;
use task_events::{Do, Event, History, MAX_EVENTS, Outcome, Stop, WriteNote};
use task_ids::{TaskId, Text};

/// The event of a write that is noted. It takes no memory, and fails only where a text of it has too many owners (`Memory`).
fn write_of(note: &WriteNote) -> Result<Event, Stop>
    ensures event { IfOk result (λ event. event ≡ write_of note.now) }
    ensures memory { IfErr result (λ stop. stop ≡ Stop.Memory) }
{
    let (Ok(index), Ok(id)) = (note.index.copy(), note.id.copy()) else {
        return Err(Stop::Memory);
    };
    let outcome = if note.created {
        Outcome::Created
    } else {
        Outcome::Updated
    };
    Ok(Event::Write {
        index,
        shard: note.shard,
        outcome,
        id,
    })
}

/// Notes a turn of work of a task, and what was written with it. Where it fails, a first part of the events may have come.
fn note_turn(history: &mut History, task: TaskId, notes: &[WriteNote]) -> Result<(), Stop>
    ensures happened { OnOk result (history.new ≡ with_notes notes.now (Event.Work task ∷ history.old)) }
    ensures room { OnOk result (length history.new ≤ MAX_EVENTS) }
    ensures part { OnErr result (IsPartOf history.old history.new (with_notes notes.now (Event.Work task ∷ history.old))) }
    ensures full { result ≡ Err Stop.HistoryFull → IsCutShort (λ past. IsPartOf history.old past (with_notes notes.now (Event.Work task ∷ history.old))) history.new }
    ensures numbers { result ≡ Err Stop.NumbersSpent → ⊥ }
{
    append(history, Event::Work { task })?;
    for note in notes {
        append(history, write_of(note)?)?;
    }
    Ok(())
}

/// Notes a shard that has dead rows, where it had none before. It fails only for want of memory. What it had and has is
/// told of rows that are not forgotten.
fn note_dead(
    shards: &mut Shards,
    index: Shared<Text>,
    shard: u32,
    had_dead: bool,
    has_dead: bool,
) -> Result<(), AllocError>
    ensures as_new { IsNotedAs shards.old shards.new }
    ensures noted { OnOk result (had_dead ≡ false → has_dead ≡ true → is_noted shards.new index shard ≡ true) }
{
    if had_dead || !has_dead {
        return Ok(());
    }
    shards.note_stale(index, shard)
}

/// A task that has passed and whose work takes a turn next takes it, over its shard. What it writes is noted, a document at a time. An
/// index that has no shards yet gets them.
///
/// It fails where the history is full (`HistoryFull`, at 4,000,000 events) or memory runs out (`Memory`); the first of
/// its events may stand then. A history that is full from the start is found before memory is asked for.
pub fn turn(state: &mut State<'_>, task: TaskId) -> Result<(), Stop>
    requires tied { IsTied state.old }
    requires live { is_live task state.old.history ≡ true }
    requires passed { is_new task state.old.history ≡ false }
    requires unmarked { mark_of task state.old.history ≡ None }
    requires next { DoesNext (task_at state.old.tasks task) state.old.clock Do.Turn }
    ensures happened { OnOk result (state.new.history ≡ turned_in state.old task) }
    ensures tied { OnOk result (IsTied state.new) }
    ensures keeps { Keeps state.old state.new }
    ensures room { OnOk result (length state.new.history ≤ MAX_EVENTS) }
    ensures part { OnErr result (IsPartOf state.old.history state.new.history (turned_in state.old task)) }
    ensures laws { OnErr result (KeepsLaws state.new) }
    ensures full { result ≡ Err Stop.HistoryFull → IsCutShort (λ past. IsPartOf state.old.history past (turned_in state.old task)) state.new.history }
    ensures numbers { result ≡ Err Stop.NumbersSpent → ⊥ }
    ensures memory { result ≡ Err Stop.Memory → length state.old.history ≢ MAX_EVENTS }
{
    if state.history.len() == MAX_EVENTS {
        return Err(Stop::HistoryFull);
    }
    let Some(running) = state.tasks.get_mut(&task) else {
        unreachable!()
    };
    let running = running.get_mut();
    let Some((index, number)) = running.work.place() else {
        unreachable!()
    };
    let Ok(index) = index.copy() else {
        return Err(Stop::Memory);
    };
    let Ok(()) = state.shards.make(state.alloc, index.get().as_str()) else {
        return Err(Stop::Memory);
    };
    let Some(shard) = state.shards.get_mut(index.get().as_str(), number) else {
        unreachable!()
    };
    let had_dead = shard.has_dead();
    let Ok(notes) = running.work.turn(shard) else {
        return Err(Stop::Memory);
    };
    let _version = shard.version();
    let has_dead = shard.has_dead();
    let Ok(()) = note_dead(&mut state.shards, index, number, had_dead, has_dead) else {
        return Err(Stop::Memory);
    };
    note_turn(&mut state.history, task, notes.as_slice())
}

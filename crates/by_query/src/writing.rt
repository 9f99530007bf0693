//! Writing the changes of a batch to a shard.

ghost use Rattle.std.specs.Prelude.{◌≡◌, ◌++◌, take, drop, IfOk, OnOk, OnErr};
ghost use Rattle.std.specs.Option.{option_to_list};
ghost use Rattle.task_events.specs.Looking.{rows_per_turn};
ghost use Rattle.task_events.specs.Written.{notes_of};
ghost use Rattle.by_query.specs.Changes.{docs_written, is_in_conflict, rewritten};
ghost use Rattle.by_query.specs.Writes.{BreaksOff};

use crate::change::Change;
use shard_docs::Shard;
use shared_value::Shared;
use std::alloc::{AllocError, Global};
use std::collections::VecDeque;
use task_events::WriteNote;
use task_ids::{Doc, Text};

/// How many changes a turn looks at, at most.
const CHANGES_PER_TURN: usize = 1024;

/// Whether the document is not as it was read: no row of its id is alive, or another one than that of its place.
pub(crate) fn is_in_conflict(change: &Change, shard: &Shard) -> bool
    ensures { result ≡ is_in_conflict change.now shard.now.writes }
{
    match shard.living(change.id.get().as_str().as_bytes()) {
        Some((place, _doc)) => place != change.place,
        None => true,
    }
}

/// Writes what a change makes of its document, and notes it, unless the change is in conflict. It fails only for want of memory, and then the
/// shard has not changed.
fn write_one(
    index: &Shared<Text>,
    number: u32,
    shard: &mut Shard,
    change: Change,
) -> Result<Option<WriteNote>, AllocError>
    ensures note { IfOk result (λ note. option_to_list note
        ≡ notes_of index.now number shard.old.writes (rewritten change shard.old.writes)) }
    ensures ok { OnOk result (shard.new.writes ≡ shard.old.writes ++ rewritten change shard.old.writes) }
    ensures oldest { shard.new.oldest ≡ shard.old.oldest }
    ensures err { OnErr result (shard.new.writes ≡ shard.old.writes) }
{
    if is_in_conflict(&change, shard) {
        return Ok(None);
    }
    let index = index.copy()?;
    let Change { id, new, .. } = change;
    let noted = id.copy()?;
    shard.write(Doc { id, source: new })?;
    Ok(Some(WriteNote {
        index,
        shard: number,
        created: false,
        id: noted,
    }))
}

/// Adds the note of a change that was written.
fn add_note(notes: &mut Vec<WriteNote>, note: Option<WriteNote>) -> Result<(), AllocError>
    ensures { OnOk result (notes.new.items ≡ notes.old.items ++ option_to_list note) }
{
    if let Some(note) = note {
        notes.push(note)?;
    }
    Ok(())
}

/// Looks at the next 1,024 changes, or at those that are left, in order, and writes and notes those that are not in conflict when it is their
/// turn.
pub(crate) fn write_next(
    alloc: Global,
    index: &Shared<Text>,
    number: u32,
    shard: &mut Shard,
    left: &mut VecDeque<Change>,
) -> Result<Vec<WriteNote>, AllocError>
    ensures written { OnOk result (shard.new.writes
        ≡ shard.old.writes ++ docs_written shard.old.writes (take rows_per_turn left.old.items)) }
    ensures oldest { shard.new.oldest ≡ shard.old.oldest }
    ensures left { OnOk result (left.new.items ≡ drop rows_per_turn left.old.items) }
    ensures notes { IfOk result (λ notes. notes.items
        ≡ notes_of index.now number shard.old.writes (docs_written shard.old.writes (take rows_per_turn left.old.items))) }
    ensures err { OnErr result (BreaksOff left.old.items left.new.items shard.old.writes shard.new.writes) }
{
    let much = left.len().min(CHANGES_PER_TURN);
    let mut notes = Vec::with_capacity(alloc, much)?;
    for _ in 0..much {
        let Some(change) = left.pop_front() else {
            unreachable!()
        };
        let note = write_one(index, number, shard, change)?;
        add_note(&mut notes, note)?;
    }
    Ok(notes)
}

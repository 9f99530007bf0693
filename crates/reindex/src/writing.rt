//! Writing documents to a shard.

ghost use Rattle.std.specs.Prelude.{◌≡◌, ◌∷◌, [], ◌++◌, take, drop, count_by, not, IfOk, OnOk, OnErr};
ghost use Rattle.task_events.specs.Looking.{rows_per_turn};
ghost use Rattle.task_events.specs.Written.{note_of, notes_of};
ghost use Rattle.reindex.specs.Writes.{BreaksOff};

use shard_docs::{Shard, Written};
use shared_value::Shared;
use std::alloc::{AllocError, Global};
use std::collections::VecDeque;
use task_events::WriteNote;
use task_ids::{Doc, Text};

/// How many documents a turn writes, at most.
const DOCS_PER_TURN: usize = 1024;

/// Writes a document to a shard of an index, and notes it. It fails only for want of memory, and then the shard has not
/// changed.
fn write_one(
    index: &Shared<Text>,
    number: u32,
    shard: &mut Shard,
    doc: Doc,
) -> Result<WriteNote, AllocError>
    ensures note { IfOk result (λ note. note ≡ note_of index.now number shard.old.writes doc) }
    ensures ok { OnOk result (shard.new.writes ≡ shard.old.writes ++ doc ∷ []) }
    ensures oldest { shard.new.oldest ≡ shard.old.oldest }
    ensures err { OnErr result (shard.new.writes ≡ shard.old.writes) }
{
    let index = index.copy()?;
    let id = doc.id.copy()?;
    let created = match shard.write(doc)? {
        Written::Created => true,
        Written::Updated => false,
    };
    Ok(WriteNote {
        index,
        shard: number,
        created,
        id,
    })
}

/// Writes the next 1,024 documents, or those that are left, in order, and notes each.
pub(crate) fn write_next(
    alloc: Global,
    index: &Shared<Text>,
    number: u32,
    shard: &mut Shard,
    left: &mut VecDeque<Doc>,
) -> Result<Vec<WriteNote>, AllocError>
    ensures written { OnOk result (shard.new.writes ≡ shard.old.writes ++ take rows_per_turn left.old.items) }
    ensures oldest { shard.new.oldest ≡ shard.old.oldest }
    ensures left { OnOk result (left.new.items ≡ drop rows_per_turn left.old.items) }
    ensures notes { IfOk result (λ notes. notes.items
        ≡ notes_of index.now number shard.old.writes (take rows_per_turn left.old.items)) }
    ensures err { OnErr result (BreaksOff left.old.items left.new.items shard.old.writes shard.new.writes) }
{
    let much = left.len().min(DOCS_PER_TURN);
    let mut notes = Vec::with_capacity(alloc, much)?;
    for _ in 0..much {
        let Some(doc) = left.pop_front() else {
            unreachable!()
        };
        let note = write_one(index, number, shard, doc)?;
        notes.push(note)?;
    }
    Ok(notes)
}

/// How many documents were new.
pub(crate) fn number_created(notes: &[WriteNote]) -> usize
    ensures { result ≡ count_by (λ note. note.created) notes.now }
{
    notes.iter().filter(|note| note.created).count()
}

/// How many documents took the place of others.
pub(crate) fn number_updated(notes: &[WriteNote]) -> usize
    ensures { result ≡ count_by (λ note. not note.created) notes.now }
{
    notes.iter().filter(|note| !note.created).count()
}

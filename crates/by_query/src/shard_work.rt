//! The changes of a batch in one shard.

ghost use Rattle.std.specs.Prelude.{◌≡◌, ◌++◌, false, IfOk, OnOk, OnErr};
ghost use Rattle.std.specs.List.{AllByRecursion};
ghost use Rattle.task_events.specs.Written.{notes_of};
ghost use Rattle.by_query.specs.Updating.{StopsShort, new_updating, next_docs, is_updated, updating_counts, after_turn};

use crate::asks::UpdateShardAsk;
use crate::change::Change;
use crate::counts::UpdateCounts;
use crate::writing::write_next;
use shard_docs::Shard;
use shared_value::Shared;
use std::alloc::{AllocError, Global};
use std::collections::VecDeque;
use std::marker::Model;
use task_events::WriteNote;
use task_ids::Text;

/// The changes of a batch that lie in one shard, after Elasticsearch's update by query: they are looked at there in order, turn by turn, and
/// those are written that are not in conflict.
#[derive(Drop)]
pub struct UpdateShardWork {
    alloc: Global,
    index: Shared<Text>,
    shard: u32,
    /// The changes that are still to be looked at, in order.
    left: VecDeque<Change>,
    has_turned: bool,
    updated: u64,
    conflicts: u64,
}

impl Model for UpdateShardWork {
    ghost use Rattle.std.specs.Prelude.{◌+◌, ◌<◌, ◌^◌, length};
    ghost use Rattle.by_query.specs.Updating.{Updating};
    ghost use Rattle.std.specs.Coded.{codes};
    ghost use Rattle.by_query.specs.contracts.change.Change as change;

    ghost Value = { Updating };

    ghost coded = { Prim.hlevel (codes, change.the_row.coded) };

    ghost view = { λ w. record {
      index = w.index;
      shard = w.shard;
      left = w.left.items;
      has_turned = w.has_turned;
      updated = w.updated;
      conflicts = w.conflicts;
    } };

    ghost invariant = { λ w. w.updated + w.conflicts + length w.left.items < 2 ^ 64 };
}

impl UpdateShardWork {
    /// No turn yet, which takes no memory.
    pub fn new(alloc: Global, ask: UpdateShardAsk) -> UpdateShardWork
        ensures { result ≡ new_updating ask }
    {
        let UpdateShardAsk {
            index,
            shard,
            changes,
        } = ask;
        UpdateShardWork {
            alloc,
            index,
            shard,
            left: VecDeque::from(changes.into_vec()),
            has_turned: false,
            updated: 0,
            conflicts: 0,
        }
    }

    /// The index to which it writes. A world finds the shard by it.
    pub fn index(&self) -> &Shared<Text>
        ensures { result.now ≡ self.now.index }
    {
        &self.index
    }

    /// The shard to which it writes, from 0.
    pub fn shard(&self) -> u32
        ensures { result ≡ self.now.shard }
    {
        self.shard
    }

    /// Looks at the next 1,024 changes, or at those that are left, in order. It writes and notes each that is not in conflict when it is its
    /// turn, which makes no document new.
    ///
    /// It fails only for want of memory. Then the first of them may have been written, and of those that are left the first may be lost; the
    /// counts are as before.
    pub fn turn(&mut self, shard: &mut Shard) -> Result<Vec<WriteNote>, AllocError>
        requires { is_updated self.old ≡ false }
        ensures written { OnOk result (shard.new.writes ≡ shard.old.writes ++ next_docs self.old shard.old.writes) }
        ensures oldest { shard.new.oldest ≡ shard.old.oldest }
        ensures notes { IfOk result (λ notes. notes.items
            ≡ notes_of self.old.index self.old.shard shard.old.writes (next_docs self.old shard.old.writes)) }
        ensures none_created { IfOk result (λ notes. AllByRecursion (λ note. note.created ≡ false) notes.items) }
        ensures ok { OnOk result (self.new ≡ after_turn self.old shard.old.writes) }
        ensures err { OnErr result (StopsShort self.old self.new shard.old.writes shard.new.writes) }
    {
        let before = self.left.len();
        let notes = write_next(self.alloc, &self.index, self.shard, shard, &mut self.left)?;
        let looked = before - self.left.len();
        self.updated += notes.len() as u64;
        self.conflicts += (looked - notes.len()) as u64;
        self.has_turned = true;
        Ok(notes)
    }

    /// Whether a turn has left no change, so that it takes no further one. It takes no memory.
    pub fn is_done(&self) -> bool
        ensures { result ≡ is_updated self.now }
    {
        self.has_turned && self.left.is_empty()
    }

    /// How many documents its turns so far rewrote, and how many changes were in conflict; the other counts are 0. It takes no memory.
    pub fn counts(&self) -> UpdateCounts
        ensures { result ≡ updating_counts self.now }
    {
        UpdateCounts {
            total: 0,
            updated: self.updated,
            batches: 0,
            failures: 0,
            conflicts: self.conflicts,
        }
    }
}

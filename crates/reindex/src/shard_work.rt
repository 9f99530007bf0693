//! The documents of a batch in one shard.

ghost use Rattle.std.specs.Prelude.{◌≡◌, ◌++◌, false, IfOk, OnOk, OnErr};
ghost use Rattle.task_events.specs.Written.{notes_of};
ghost use Rattle.reindex.specs.Writing.{StopsShort, new_writing, next_docs, is_written, writing_next, writing_counts, after_turn};

use crate::writing::{number_created, number_updated, write_next};
use shard_docs::Shard;
use shared_value::Shared;
use std::alloc::{AllocError, Global};
use std::collections::VecDeque;
use std::marker::Model;
use task_events::{BulkShardAsk, Counts, Do, Reply, Tally, WriteNote};
use task_ids::{Doc, Text};

/// The documents of a batch that lie in one shard, after Elasticsearch's bulk API: they are written there in order, turn
/// by turn.
#[derive(Drop)]
pub struct BulkShardWork {
    alloc: Global,
    index: Shared<Text>,
    shard: u32,
    /// The documents that are still to be written, in order.
    left: VecDeque<Doc>,
    has_turned: bool,
    created: u64,
    updated: u64,
}

impl Model for BulkShardWork {
    ghost use Rattle.std.specs.Prelude.{◌+◌, ◌<◌, ◌^◌, length};
    ghost use Rattle.reindex.specs.Writing.{Writing};
    ghost use Rattle.std.specs.Coded.{codes};
    ghost use Rattle.task_ids.specs.contracts.doc.Doc as doc;

    ghost Value = { Writing };

    ghost coded = { Prim.hlevel (codes, doc.the_row.coded) };

    ghost view = { λ w. record {
      index = w.index;
      shard = w.shard;
      left = w.left.items;
      has_turned = w.has_turned;
      created = w.created;
      updated = w.updated;
    } };

    ghost invariant = { λ w. w.created + w.updated + length w.left.items < 2 ^ 64 };
}

impl BulkShardWork {
    /// No turn yet, which takes no memory.
    pub fn new(alloc: Global, ask: BulkShardAsk) -> BulkShardWork
        ensures { result ≡ new_writing ask }
    {
        let BulkShardAsk { dest, shard, docs } = ask;
        BulkShardWork {
            alloc,
            index: dest,
            shard,
            left: VecDeque::from(docs.into_vec()),
            has_turned: false,
            created: 0,
            updated: 0,
        }
    }

    /// The index to which it writes. A world finds the shard by it.
    pub fn index(&self) -> &Shared<Text>
        ensures { result.now ≡ self.now.index }
    {
        &self.index
    }

    /// The shard to which it writes, from 0.
    pub fn shard(&self) -> u32
        ensures { result ≡ self.now.shard }
    {
        self.shard
    }

    /// Writes the next 1,024 documents, or those that are left, in order, and notes each.
    ///
    /// It fails only for want of memory. Then a first part of them may have been written, and of those that are left
    /// the first may be lost; the counts are as before.
    pub fn turn(&mut self, shard: &mut Shard) -> Result<Vec<WriteNote>, AllocError>
        requires { is_written self.old ≡ false }
        ensures written { OnOk result (shard.new.writes ≡ shard.old.writes ++ next_docs self.old) }
        ensures oldest { shard.new.oldest ≡ shard.old.oldest }
        ensures notes { IfOk result (λ notes. notes.items
            ≡ notes_of self.old.index self.old.shard shard.old.writes (next_docs self.old)) }
        ensures ok { OnOk result (self.new ≡ after_turn self.old shard.old.writes) }
        ensures err { OnErr result (StopsShort self.old self.new shard.old.writes shard.new.writes) }
    {
        let notes = write_next(self.alloc, &self.index, self.shard, shard, &mut self.left)?;
        self.created += number_created(notes.as_slice()) as u64;
        self.updated += number_updated(notes.as_slice()) as u64;
        self.has_turned = true;
        Ok(notes)
    }

    /// Whether a turn has left no document, so that it takes no further one. It takes no memory.
    pub fn is_done(&self) -> bool
        ensures { result ≡ is_written self.now }
    {
        self.has_turned && self.left.is_empty()
    }

    /// What it does next: it takes a turn, or ends with its counts once a turn has left no document. Before the first
    /// turn it does not end, also where there is no document. It fails only for want of memory.
    pub fn next(&self) -> Result<Do, AllocError>
        ensures { IfOk result (λ step. step ≡ writing_next self.now) }
    {
        if self.is_done() {
            let counts = Tally::of(self.alloc, self.counts())?;
            Ok(Do::Finish(Reply::Wrote(counts)))
        } else {
            Ok(Do::Turn)
        }
    }

    /// How many documents its turns so far created and updated; the other counts are 0. It takes no memory.
    pub fn counts(&self) -> Counts
        ensures { result ≡ writing_counts self.now }
    {
        Counts {
            total: 0,
            created: self.created,
            updated: self.updated,
            batches: 0,
            failures: 0,
        }
    }
}

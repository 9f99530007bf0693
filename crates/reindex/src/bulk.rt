//! A batch of documents that are written to an index.

ghost use Rattle.std.specs.Prelude.{◌≡◌, ◌<◌, ◌≤◌, ◌^◌, IfOk, true, length};
ghost use Rattle.task_events.specs.Counting.{are_below};
ghost use Rattle.reindex.specs.Bulks.{new_bulk, bulk_next, bulk_may_ask, bulk_with_ask, bulk_takes, bulk_with_answer};
ghost use Rattle.reindex.specs.Waiting.{does_wait};

use crate::answer::no_counts;
use crate::batch::parts_of;
use crate::open_asks::close;
use crate::told::{with_written, writer_can_have};
use shared_value::Shared;
use std::alloc::{AllocError, Global};
use std::marker::Model;
use task_events::{BulkAsk, BulkShardAsk, Counts, Do, Reply, Request, Tally};

/// Each number that a part of a bulk counts is below this.
const PART_LIMIT: u64 = 1 << 18;

/// A batch of documents that are written to an index, after Elasticsearch's bulk API: it asks for the documents of each
/// shard that has some, in the order of the shards, and adds up what they did.
#[derive(Drop)]
pub struct Bulk {
    parts: Vec<Shared<BulkShardAsk>>,
    /// How many parts were asked for.
    made: usize,
    /// The asks that have no answer yet.
    open: Vec<u32>,
    counts: Counts,
}

impl Model for Bulk {
    ghost use Rattle.std.specs.Prelude.{vec_capacity};
    ghost use Rattle.std.specs.Coded.{codes};
    ghost use Rattle.task_events.specs.contracts.request.BulkShardAsk as shard_ask;
    ghost use Rattle.task_events.specs.contracts.reply.Counts as counts_row;
    ghost use Rattle.reindex.specs.Bulks.{Bulking};
    ghost use Rattle.reindex.specs.BulkFields.{IsBulk};

    ghost Value = { Bulking };

    ghost coded = { Prim.hlevel (codes, shard_ask.the_row.coded, counts_row.the_row.coded) };

    ghost view = { λ b. record { parts = b.parts.items; made = b.made; open_asks = b.open.items; counts = b.counts } };

    ghost invariant = { λ b. IsBulk (record {
      parts = b.parts.items;
      made = b.made;
      open_asks = b.open.items;
      counts = b.counts;
    }) (vec_capacity b.open) };
}

impl Bulk {
    /// A bulk that has asked for nothing yet, over an index with so many shards. It copies the documents, shard by
    /// shard. It fails only for want of memory.
    pub fn new(alloc: Global, ask: &BulkAsk, shards: u32) -> Result<Bulk, AllocError>
        requires { 0 < shards }
        ensures new { IfOk result (λ bulk. bulk ≡ new_bulk ask.now shards) }
    {
        let parts = parts_of(alloc, ask, shards)?;
        let open = Vec::with_capacity(alloc, parts.len())?;
        Ok(Bulk {
            parts,
            made: 0,
            open,
            counts: no_counts(),
        })
    }

    /// What it does next: it asks for a part, waits for an answer, or ends with what its parts did. It fails only for want
    /// of memory.
    pub fn next(&self) -> Result<Do, AllocError>
        ensures { IfOk result (λ step. step ≡ bulk_next self.now) }
    {
        match self.parts.get(self.made) {
            Some(part) => Ok(Do::AskNext(Request::BulkShard(part.copy()?))),
            None if self.open.is_empty() => {
                let counts = Tally::of(*self.open.allocator(), self.counts)?;
                Ok(Do::Finish(Reply::Wrote(counts)))
            }
            None => Ok(Do::Wait(None)),
        }
    }

    /// Whether it waits for an answer. It takes no memory.
    pub fn waits(&self) -> bool
        ensures { result ≡ does_wait (bulk_next self.now) }
    {
        self.made >= self.parts.len() && !self.open.is_empty()
    }

    /// Notes that the part which comes next was asked for, under this number. It takes no memory.
    pub fn asked(&mut self, ask: u32)
        requires { bulk_may_ask self.old ≡ true }
        ensures { self.new ≡ bulk_with_ask self.old ask }
    {
        match self.open.push(ask) {
            Ok(()) => {}
            Err(_) => unreachable!(),
        }
        self.made += 1;
    }

    /// Whether an ask of this number has no answer yet, and the reply is one that a part can have.
    pub fn takes(&self, ask: u32, reply: &Reply) -> bool
        ensures { result ≡ bulk_takes self.now ask reply.now }
    {
        self.open.contains(&ask) && writer_can_have(reply, PART_LIMIT)
    }

    /// Takes the answer to an ask. It takes no memory.
    pub fn feed(&mut self, ask: u32, reply: &Reply)
        requires takes { bulk_takes self.old ask reply.now ≡ true }
        ensures { self.new ≡ bulk_with_answer self.old ask reply.now }
    {
        close(&mut self.open, ask);
        self.counts = with_written(self.counts, reply);
    }

    /// What its parts did so far: the writes and the failures of those that have answered. It takes no memory.
    pub fn counts(&self) -> Counts
        ensures counts { result ≡ self.now.counts }
        ensures below { length self.now.parts ≤ 15 → are_below (2 ^ 22) result ≡ true }
    {
        self.counts
    }
}

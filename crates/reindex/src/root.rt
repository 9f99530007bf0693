//! A reindex.

ghost use Rattle.std.specs.Prelude.{◌≡◌, ◌<◌, ◌^◌, IfOk, OnOk, OnErr, true};
ghost use Rattle.task_events.specs.Counting.{are_below};
ghost use Rattle.reindex.specs.RootWork.{IsNewRoot, root_next, root_may_ask, root_with_ask, root_takes, root_with_answer, root_counts};
ghost use Rattle.reindex.specs.Slices.{due_in};
ghost use Rattle.reindex.specs.Waiting.{does_wait};

use crate::slice::Slice;
use crate::slices::Slices;
use std::alloc::{AllocError, Global};
use task_events::{Counts, Do, ReindexAsk, Reply};
use task_ids::TaskId;

/// A copy of documents of one index into another, after Elasticsearch's reindex API.
#[derive(Drop)]
pub enum ReindexRoot {
    /// It has one slice, and does its work itself.
    Alone(Slice),
    /// It asks for its slices.
    Cut(Slices),
}

impl ReindexRoot {
    /// A reindex that has asked for nothing yet, of an index with so many shards. It copies what is asked for. It fails
    /// only for want of memory.
    pub fn new(
        alloc: Global,
        task: TaskId,
        ask: &ReindexAsk,
        shards: u32,
    ) -> Result<ReindexRoot, AllocError>
        requires { 0 < shards }
        ensures { IfOk result (λ root. IsNewRoot task ask.now shards root) }
    {
        if ask.slices == 1 {
            Ok(ReindexRoot::Alone(Slice::of(alloc, task, ask, 0, shards)?))
        } else {
            Ok(ReindexRoot::Cut(Slices::new(alloc, ask)?))
        }
    }

    /// What it does next at this moment. It fails only for want of memory.
    pub fn next(&self, now: u64) -> Result<Do, AllocError>
        ensures { IfOk result (λ step. step ≡ root_next self.now now) }
    {
        match self {
            ReindexRoot::Alone(slice) => slice.next(now),
            ReindexRoot::Cut(slices) => slices.next(),
        }
    }

    /// Whether it waits at this moment, for an answer or for a moment. It takes no memory.
    pub fn waits(&self, now: u64) -> bool
        ensures { result ≡ does_wait (root_next self.now now) }
    {
        match self {
            ReindexRoot::Alone(slice) => slice.waits(now),
            ReindexRoot::Cut(slices) => slices.waits(),
        }
    }

    /// The moment for which it waits at this one, where it waits for one. It takes no memory.
    pub fn due(&self, now: u64) -> Option<u64>
        ensures { result ≡ due_in (root_next self.now now) }
    {
        match self {
            ReindexRoot::Alone(slice) => slice.due(now),
            ReindexRoot::Cut(_) => None,
        }
    }

    /// Notes that what comes next was asked for, under this number. It takes no memory.
    pub fn asked(&mut self, ask: u32, now: u64)
        requires { root_may_ask self.old ≡ true }
        ensures { self.new ≡ root_with_ask self.old ask }
    {
        match self {
            ReindexRoot::Alone(slice) => slice.asked(ask, now),
            ReindexRoot::Cut(slices) => slices.asked(ask),
        }
    }

    /// Whether an ask of this number has no answer yet, and the reply is one that its request can have.
    pub fn takes(&self, ask: u32, reply: &Reply) -> bool
        ensures { result ≡ root_takes self.now ask reply.now }
    {
        match self {
            ReindexRoot::Alone(slice) => slice.takes(ask, reply),
            ReindexRoot::Cut(slices) => slices.takes(ask, reply),
        }
    }

    /// Takes the answer to an ask, at this moment. Where memory runs out nothing has changed, and the reply is lost.
    pub fn feed(&mut self, ask: u32, reply: Reply, now: u64) -> Result<(), AllocError>
        requires takes { root_takes self.old ask reply ≡ true }
        requires moment { now < 2 ^ 60 }
        ensures ok { OnOk result (self.new ≡ root_with_answer self.old ask reply now) }
        ensures err { OnErr result (self.new ≡ self.old) }
    {
        match self {
            ReindexRoot::Alone(slice) => slice.feed(ask, reply, now),
            ReindexRoot::Cut(slices) => {
                slices.feed(ask, &reply);
                Ok(())
            }
        }
    }

    /// What it did so far. It takes no memory.
    pub fn counts(&self) -> Counts
        ensures counts { result ≡ root_counts self.now }
        ensures below { are_below (2 ^ 56) result ≡ true }
    {
        match self {
            ReindexRoot::Alone(slice) => slice.counts(),
            ReindexRoot::Cut(slices) => slices.counts(),
        }
    }
}

//! A reindex that is cut into slices.

ghost use Rattle.std.specs.Prelude.{◌≡◌, ◌^◌, IfOk, true};
ghost use Rattle.task_events.specs.Counting.{are_below};
ghost use Rattle.reindex.specs.Roots.{IsNewCut, cut_next, cut_may_ask, cut_with_ask, cut_takes, cut_with_answer};
ghost use Rattle.reindex.specs.Waiting.{does_wait};

use crate::answer::no_counts;
use crate::open_asks::close;
use crate::replies::sum_with;
use crate::told::writer_can_have;
use shared_value::Shared;
use std::alloc::{AllocError, Global};
use std::marker::Model;
use task_events::{Counts, Do, ReindexAsk, Reply, Request, SliceAsk, Tally};

/// Each number that a slice counts is below this.
const SLICE_LIMIT: u64 = 1 << 50;

/// A reindex that is cut into slices: it asks for each slice, in order, waits for all, and adds up what they did.
#[derive(Drop)]
pub struct Slices {
    ask: ReindexAsk,
    /// How many slices were asked for.
    made: u32,
    /// The asks that have no answer yet.
    open: Vec<u32>,
    counts: Counts,
}

impl Model for Slices {
    ghost use Rattle.std.specs.Prelude.{vec_capacity};
    ghost use Rattle.std.specs.Coded.{codes};
    ghost use Rattle.task_events.specs.contracts.request.ReindexAsk as reindex_ask;
    ghost use Rattle.task_events.specs.contracts.reply.Counts as counts_row;
    ghost use Rattle.reindex.specs.Roots.{Cutting};
    ghost use Rattle.reindex.specs.RootFields.{IsCut};

    ghost Value = { Cutting };

    ghost coded = { Prim.hlevel (codes, reindex_ask.the_row.coded, counts_row.the_row.coded) };

    ghost view = { λ c. record { ask = c.ask; made = c.made; open_asks = c.open.items; counts = c.counts } };

    ghost invariant = { λ c. IsCut (record { ask = c.ask; made = c.made; open_asks = c.open.items; counts = c.counts }) (vec_capacity c.open) };
}

impl Slices {
    /// No slice was asked for yet. It copies what is asked for. It fails only for want of memory.
    pub fn new(alloc: Global, ask: &ReindexAsk) -> Result<Slices, AllocError>
        ensures { IfOk result (λ slices. IsNewCut ask.now slices) }
    {
        let ask = ask.copy()?;
        let open = Vec::with_capacity(alloc, ask.slices as usize)?;
        Ok(Slices {
            ask,
            made: 0,
            open,
            counts: no_counts(),
        })
    }

    /// What it does next. It fails only for want of memory.
    pub fn next(&self) -> Result<Do, AllocError>
        ensures { IfOk result (λ step. step ≡ cut_next self.now) }
    {
        if self.made < self.ask.slices {
            let reindex = self.ask.copy()?;
            let slice = SliceAsk {
                reindex,
                slice: self.made,
            };
            let slice = Shared::new(*self.open.allocator(), slice)?;
            return Ok(Do::AskNext(Request::Slice(slice)));
        }
        if self.open.is_empty() {
            let counts = Tally::of(*self.open.allocator(), self.counts)?;
            Ok(Do::Finish(Reply::Wrote(counts)))
        } else {
            Ok(Do::Wait(None))
        }
    }

    /// Whether it waits for an answer. It takes no memory.
    pub fn waits(&self) -> bool
        ensures { result ≡ does_wait (cut_next self.now) }
    {
        self.made >= self.ask.slices && !self.open.is_empty()
    }

    /// Notes that the slice which comes next was asked for, under this number. It takes no memory.
    pub fn asked(&mut self, ask: u32)
        requires { cut_may_ask self.old ≡ true }
        ensures { self.new ≡ cut_with_ask self.old ask }
    {
        match self.open.push(ask) {
            Ok(()) => {}
            Err(_) => unreachable!(),
        }
        self.made += 1;
    }

    /// Whether an ask of this number has no answer yet, and the reply is one that a slice can have.
    pub fn takes(&self, ask: u32, reply: &Reply) -> bool
        ensures { result ≡ cut_takes self.now ask reply.now }
    {
        self.open.contains(&ask) && writer_can_have(reply, SLICE_LIMIT)
    }

    /// Takes the answer to an ask. It takes no memory.
    pub fn feed(&mut self, ask: u32, reply: &Reply)
        requires { cut_takes self.old ask reply.now ≡ true }
        ensures { self.new ≡ cut_with_answer self.old ask reply.now }
    {
        close(&mut self.open, ask);
        self.counts = sum_with(self.counts, reply);
    }

    /// What its slices did so far: the sums over those that have answered. It takes no memory.
    pub fn counts(&self) -> Counts
        ensures counts { result ≡ self.now.counts }
        ensures below { are_below (2 ^ 56) result ≡ true }
    {
        self.counts
    }
}

//! A slice of a reindex.

ghost use Rattle.std.specs.Prelude.{◌≡◌, ◌<◌, ◌≤◌, ◌^◌, IfOk, OnOk, OnErr, true, if◌then◌else◌};
ghost use Rattle.task_events.specs.Counting.{are_below, is_batch};
ghost use Rattle.task_events.specs.SliceTask.{docs_on, later_page, page_from};
ghost use Rattle.reindex.specs.SliceFields.{in_hand};
ghost use Rattle.reindex.specs.Slices.{IsNewSlice, slice_next, due_in, slice_may_ask, phase_with, slice_with_ask, slice_takes, phase_after, page_asked, slice_with_answer};
ghost use Rattle.task_events.specs.Kinds.{can_have};
ghost use Rattle.reindex.specs.Waiting.{does_wait};

use crate::answer::no_counts;
use crate::phase::Phase;
use crate::possible::{scroll_can_have, search_can_have};
use crate::replies::{context_after, counts_after, docs_of, is_batch, is_clean};
use crate::searching::{first_search, rate_of};
use crate::told::writer_can_have;
use shared_value::Shared;
use std::alloc::{AllocError, Global};
use std::marker::Model;
use std::mem::replace;
use task_events::{
    BulkAsk, Counts, Do, ReindexAsk, Reply, Request, ScrollAsk, SearchAsk, SliceAsk, Tally,
    copy_docs,
};
use task_ids::{Doc, Items, TaskId, Text};
use throttle::{Rate, wait_ms};

/// How many asks a slice makes, at most. A history and the numbers of a node end before that.
const MAX_ASKS: u32 = 2_000_000;

/// Each number that a bulk counts is below this.
const BULK_LIMIT: u64 = 4_194_304;

/// A slice of a reindex, after Elasticsearch's reindex API: it reads the documents page by page from a context of its
/// own, and writes each page by a bulk before it asks for the next. After a bulk it waits as long as its rate asks for.
///
/// It ends at a page without hits, and where a page or a bulk fails wholly or in part.
#[derive(Drop)]
pub struct Slice {
    task: TaskId,
    /// How many shards the index has that it reads.
    shards: u32,
    first: Shared<SearchAsk>,
    dest: Shared<Text>,
    slices: u32,
    rate: Rate,
    /// The context that its first page opened.
    context: Option<TaskId>,
    phase: Phase,
    /// How many asks it has made, by turns for a page and for a bulk.
    made: u32,
    counts: Counts,
}

impl Model for Slice {
    ghost use Rattle.std.specs.Coded.{codes};
    ghost use Rattle.task_events.specs.contracts.request.SearchAsk as search_ask;
    ghost use Rattle.task_events.specs.contracts.reply.Counts as counts_row;
    ghost use Rattle.task_ids.specs.contracts.task_id.TaskId as task_id;
    ghost use Rattle.throttle.specs.contracts.rate.Rate as rate_row;
    ghost use Rattle.reindex.specs.contracts.phase.Phase as phase_row;
    ghost use Rattle.reindex.specs.Slices.{Slicing};
    ghost use Rattle.reindex.specs.SliceFields.{IsSlice};

    ghost Value = { Slicing };

    ghost coded = { Prim.hlevel (codes, search_ask.the_row.coded, counts_row.the_row.coded, task_id.the_row.coded, rate_row.the_row.coded, phase_row.the_row.coded) };

    ghost view = { λ s. record {
      task = s.task;
      shards = s.shards;
      first = s.first;
      dest = s.dest;
      slices = s.slices;
      rate = s.rate;
      context = s.context;
      phase = s.phase;
      made = s.made;
      counts = s.counts;
    } };

    ghost invariant = { λ s. IsSlice (record {
      task = s.task;
      shards = s.shards;
      first = s.first;
      dest = s.dest;
      slices = s.slices;
      rate = s.rate;
      context = s.context;
      phase = s.phase;
      made = s.made;
      counts = s.counts;
    }) };
}

/// The bulk of some documents, which are copied.
fn bulk_of(dest: &Shared<Text>, docs: &Items<Doc>) -> Result<Do, AllocError>
    ensures { IfOk result (λ step. step ≡ Do.AskNext (Request.Bulk (record { dest = dest.now; docs = docs.now }))) }
{
    let alloc = docs.allocator();
    let docs = copy_docs(docs)?;
    let dest = dest.copy()?;
    let bulk = Shared::new(alloc, BulkAsk { dest, docs })?;
    Ok(Do::AskNext(Request::Bulk(bulk)))
}

/// The next page of a context that belongs to a task.
fn later_page(task: TaskId, context: TaskId) -> ScrollAsk
    ensures { Request.Scroll result ≡ later_page task context }
{
    ScrollAsk {
        id: context,
        keep: None,
        owner: Some(task),
    }
}

/// The next page of a context, from a moment on. It fails only for want of memory.
fn page_from(
    alloc: Global,
    task: TaskId,
    context: Option<TaskId>,
    due: u64,
    now: u64,
) -> Result<Do, AllocError>
    ensures { IfOk result (λ step. step ≡ page_from task context due now) }
{
    match context {
        None => Ok(Do::Wait(None)),
        Some(context) if due <= now => {
            let page = Shared::new(alloc, later_page(task, context))?;
            Ok(Do::AskNext(Request::Scroll(page)))
        }
        Some(_) => Ok(Do::Wait(Some(due))),
    }
}

/// How far it has come, once it has asked for what comes next.
fn phase_with(phase: Phase, ask: u32) -> Phase
    requires { in_hand phase ≤ 10000 }
    ensures { result ≡ phase_with phase ask }
{
    match phase {
        Phase::First | Phase::Rests { .. } => Phase::Reads { ask },
        Phase::Holds { docs, came } => Phase::Writes {
            ask,
            docs: docs.as_slice().len() as u32,
            came,
        },
        Phase::Reads { .. } | Phase::Writes { .. } | Phase::Over => phase,
    }
}

/// How far it has come after a page, which came at this moment.
fn after_page(reply: &Reply, now: u64) -> Result<Phase, AllocError>
    ensures { IfOk result (λ phase. phase ≡ (if is_batch reply.now then Phase.Holds (docs_on reply.now) now else Phase.Over)) }
{
    match reply {
        Reply::Search(page) if is_batch(reply) => Ok(Phase::Holds {
            docs: docs_of(&page.get().hits)?,
            came: now,
        }),
        _ => Ok(Phase::Over),
    }
}

/// How far it has come after an answer at this moment.
fn phase_after(
    slices: u32,
    rate: Rate,
    phase: &Phase,
    reply: &Reply,
    now: u64,
) -> Result<Phase, AllocError>
    requires slices { slices ≤ 32 }
    requires docs { in_hand phase.now ≤ 10000 }
    requires moment { now < 2 ^ 60 }
    ensures { IfOk result (λ after. after ≡ phase_after slices rate phase.now reply.now now) }
{
    match phase {
        Phase::Reads { .. } => after_page(reply, now),
        Phase::Writes { docs, came, .. } if is_clean(reply) => {
            let wait = wait_ms(*docs, slices, rate, now.saturating_sub(*came));
            Ok(Phase::Rests { until: now + wait })
        }
        _ => Ok(Phase::Over),
    }
}

impl Slice {
    /// A slice that has asked for nothing yet, of an index with so many shards. It fails only for want of memory.
    pub fn new(
        alloc: Global,
        task: TaskId,
        ask: &SliceAsk,
        shards: u32,
    ) -> Result<Slice, AllocError>
        requires { 0 < shards }
        ensures { IfOk result (λ slice. IsNewSlice task ask.now.reindex ask.now.slice shards slice) }
    {
        Slice::of(alloc, task, &ask.reindex, ask.slice, shards)
    }

    /// The slice of this number of a reindex.
    pub(crate) fn of(
        alloc: Global,
        task: TaskId,
        reindex: &ReindexAsk,
        slice: u32,
        shards: u32,
    ) -> Result<Slice, AllocError>
        requires shards { 0 < shards }
        requires slice { slice < reindex.now.slices }
        ensures { IfOk result (λ s. IsNewSlice task reindex.now slice shards s) }
    {
        let first = first_search(alloc, task, reindex, slice, shards)?;
        let dest = reindex.dest.copy()?;
        Ok(Slice {
            task,
            shards,
            first,
            dest,
            slices: reindex.slices,
            rate: rate_of(reindex.rate),
            context: None,
            phase: Phase::First,
            made: 0,
            counts: no_counts(),
        })
    }

    /// What it does next at this moment. It fails only for want of memory.
    pub fn next(&self, now: u64) -> Result<Do, AllocError>
        ensures { IfOk result (λ step. step ≡ slice_next self.now now) }
    {
        let alloc = self.first.get().body.get().sort.allocator();
        match &self.phase {
            Phase::First => Ok(Do::AskNext(Request::Search(self.first.copy()?))),
            Phase::Holds { docs, .. } => bulk_of(&self.dest, docs),
            Phase::Rests { until } if self.made < MAX_ASKS => {
                page_from(alloc, self.task, self.context, *until, now)
            }
            Phase::Over => Ok(Do::Finish(Reply::Wrote(Tally::of(alloc, self.counts)?))),
            Phase::Reads { .. } | Phase::Writes { .. } | Phase::Rests { .. } => Ok(Do::Wait(None)),
        }
    }

    /// Whether it waits at this moment, for an answer or for a moment. It takes no memory.
    pub fn waits(&self, now: u64) -> bool
        ensures { result ≡ does_wait (slice_next self.now now) }
    {
        match &self.phase {
            Phase::Reads { .. } | Phase::Writes { .. } => true,
            Phase::First | Phase::Holds { .. } | Phase::Over => false,
            Phase::Rests { until } => {
                self.made >= MAX_ASKS || self.context.is_none() || now < *until
            }
        }
    }

    /// The moment for which it waits at this one, where it waits for one. It takes no memory.
    pub fn due(&self, now: u64) -> Option<u64>
        ensures { result ≡ due_in (slice_next self.now now) }
    {
        match &self.phase {
            Phase::Rests { until }
                if self.made < MAX_ASKS && self.context.is_some() && now < *until => {
                Some(*until)
            }
            _ => None,
        }
    }

    /// Notes that what comes next was asked for, under this number. It takes no memory.
    pub fn asked(&mut self, ask: u32, now: u64)
        requires { slice_may_ask self.old ≡ true }
        ensures { self.new ≡ slice_with_ask self.old ask }
    {
        let phase = replace(&mut self.phase, Phase::Over);
        self.phase = phase_with(phase, ask);
        self.made += 1;
    }

    /// Whether a page for which it has asked can have this reply.
    fn takes_page(&self, reply: &Reply) -> bool
        ensures { result ≡ can_have self.now.shards (page_asked self.now self.now.context) reply.now }
    {
        match self.context {
            None => search_can_have(self.shards, self.first.get(), reply),
            Some(context) => scroll_can_have(self.shards, &later_page(self.task, context), reply),
        }
    }

    /// Whether an ask of this number has no answer yet, and the reply is one that its request can have.
    pub fn takes(&self, ask: u32, reply: &Reply) -> bool
        ensures { result ≡ slice_takes self.now ask reply.now }
    {
        match &self.phase {
            Phase::Reads { ask: open } => *open == ask && self.takes_page(reply),
            Phase::Writes { ask: open, .. } => {
                *open == ask && writer_can_have(reply, BULK_LIMIT)
            }
            _ => false,
        }
    }

    /// Takes the answer to an ask, at this moment. Where memory runs out nothing has changed, and the reply is lost.
    pub fn feed(&mut self, ask: u32, reply: Reply, now: u64) -> Result<(), AllocError>
        requires takes { slice_takes self.old ask reply ≡ true }
        requires moment { now < 2 ^ 60 }
        ensures ok { OnOk result (self.new ≡ slice_with_answer self.old ask reply now) }
        ensures err { OnErr result (self.new ≡ self.old) }
    {
        let phase = phase_after(self.slices, self.rate, &self.phase, &reply, now)?;
        self.context = context_after(self.made, self.context, &reply);
        self.counts = counts_after(self.made, self.counts, &reply);
        self.phase = phase;
        Ok(())
    }

    /// What it did so far. It takes no memory.
    pub fn counts(&self) -> Counts
        ensures counts { result ≡ self.now.counts }
        ensures below { are_below (2 ^ 50) result ≡ true }
    {
        self.counts
    }
}

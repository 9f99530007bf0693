//! What a search looks through, and what a page of one does.

ghost use Rattle.std.specs.Prelude.{◌≡◌, IfOk, map, option_copied};
ghost use Rattle.std.specs.List.{range_with_len};
ghost use Rattle.task_events.specs.Contexts.{context_of};
ghost use Rattle.task_events.specs.Readings.{search_reading, page_reading, shard_read, version_read};
ghost use Rattle.task_events.specs.declared.reading.ShardRead.TheVariants as reads;
ghost use Rattle.search_phase.specs.Searching.{reading_for, IsReading};

use std::alloc::{AllocError, Global};
use std::marker::Model;
use task_events::{Context, HitKey, SearchAsk, ShardCount, ShardRead, copy_key};
use task_ids::{Items, TaskId};

/// What is looked for, and in which shards.
#[derive(Drop)]
pub(crate) struct Reading {
    ask: SearchAsk,
    /// The shards, in order.
    shards: Items<ShardRead>,
    /// The cursor: where there is one, only rows after it are shown.
    after: Option<HitKey>,
    /// The context that the answer names.
    context: Option<TaskId>,
}

impl Model for Reading {
    ghost use Rattle.std.specs.Coded.{codes};
    ghost use Rattle.task_events.specs.Readings as readings;
    ghost use Rattle.task_events.specs.contracts.request.SearchAsk as search_ask;
    ghost use Rattle.task_events.specs.contracts.request.HitKey as hit_key;
    ghost use Rattle.task_events.specs.contracts.reading.ShardRead as shard_read_row;
    ghost use Rattle.task_ids.specs.contracts.task_id.TaskId as task_id;

    ghost Value = { readings.Reading };

    ghost coded = { Prim.hlevel (codes, search_ask.the_row.coded, hit_key.the_row.coded, shard_read_row.the_row.coded, task_id.the_row.coded) };

    ghost view = { λ r. record { ask = r.ask; shards = r.shards; after = r.after; context = r.context } };
}

/// The shard that is read, from 0.
pub(crate) fn shard_read(at: ShardRead) -> u32
    ensures { result ≡ shard_read at }
{
    match at {
        ShardRead::Newest(shard) => shard,
        ShardRead::Kept(kept) => kept.shard,
    }
}

/// The version that is asked for, where it is not the newest.
pub(crate) fn version_read(at: ShardRead) -> Option<u32>
    ensures { result ≡ version_read at }
{
    match at {
        ShardRead::Newest(_) => None,
        ShardRead::Kept(kept) => Some(kept.version),
    }
}

/// The context that a search opens, where it opens one.
fn context_of(task: TaskId, ask: &SearchAsk) -> Option<TaskId>
    ensures { result ≡ context_of task ask.now }
{
    if ask.opens_context() {
        Some(task)
    } else {
        None
    }
}

/// All shards of an index with so many, each at its newest version.
fn newest_shards(alloc: Global, shards: u32) -> Result<Items<ShardRead>, AllocError>
    ensures { IfOk result (λ all. all ≡ map reads.Newest (range_with_len 0 shards)) }
{
    let mut all = Vec::with_capacity(alloc, shards as usize)?;
    for shard in 0..shards {
        all.push(ShardRead::Newest(shard))?;
    }
    Ok(Items::from_vec(all))
}

/// The shards of a context, each at the version that it keeps.
fn kept_shards(alloc: Global, counts: &[ShardCount]) -> Result<Items<ShardRead>, AllocError>
    ensures { IfOk result (λ all. all ≡ map reads.Kept counts.now) }
{
    let mut all = Vec::with_capacity(alloc, counts.len())?;
    for count in counts {
        all.push(ShardRead::Kept(*count))?;
    }
    Ok(Items::from_vec(all))
}

/// What a search of all shards of an index looks through.
fn search_reading(
    alloc: Global,
    task: TaskId,
    ask: &SearchAsk,
    shards: u32,
) -> Result<Reading, AllocError>
    ensures reading { IfOk result (λ reading. reading ≡ search_reading task ask.now shards) }
    ensures sound { IfOk result (λ reading. IsReading reading) }
{
    Ok(Reading {
        ask: ask.copy()?,
        shards: newest_shards(alloc, shards)?,
        after: None,
        context: context_of(task, ask),
    })
}

/// What a page of a search looks through.
fn page_reading(alloc: Global, context: &Context) -> Result<Reading, AllocError>
    ensures reading { IfOk result (λ reading. reading ≡ page_reading context.now) }
    ensures sound { IfOk result (λ reading. IsReading reading) }
{
    let ask = context.ask.get().copy()?;
    let shards = kept_shards(alloc, context.shards.as_slice())?;
    let after = copy_key(&context.after)?;
    Ok(Reading {
        ask,
        shards,
        after,
        context: Some(context.id),
    })
}

impl Reading {
    /// What a page of the context looks through, or else a search of an index with so many shards.
    pub(crate) fn new(
        alloc: Global,
        task: TaskId,
        ask: &SearchAsk,
        shards: u32,
        context: Option<&Context>,
    ) -> Result<Reading, AllocError>
        ensures reading { IfOk result (λ reading. reading ≡ reading_for task ask.now shards (option_copied context.entry)) }
        ensures sound { IfOk result (λ reading. IsReading reading) }
    {
        match context {
            Some(context) => page_reading(alloc, context),
            None => search_reading(alloc, task, ask, shards),
        }
    }

    /// What is looked for, and how much of it is shown.
    pub(crate) fn ask(&self) -> &SearchAsk
        ensures { result.now ≡ self.now.ask }
    {
        &self.ask
    }

    /// The shards, in order.
    pub(crate) fn shards(&self) -> &[ShardRead]
        ensures { result.now ≡ self.now.shards }
    {
        self.shards.as_slice()
    }

    /// The cursor, where there is one.
    pub(crate) fn after(&self) -> &Option<HitKey>
        ensures { result.now ≡ self.now.after }
    {
        &self.after
    }

    /// The context that the answer names.
    pub(crate) fn context(&self) -> Option<TaskId>
        ensures { result ≡ self.now.context }
    {
        self.context
    }
}

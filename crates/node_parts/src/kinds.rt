//! What is so of a request by its kind: the action of its task, and where it is worked.

ghost use Rattle.std.specs.Prelude.{◌≡◌, ◌++◌, codes, IfOk, option_map};
ghost use Rattle.task_ids.specs.TaskId.{task_id_text};
ghost use Rattle.task_events.specs.Kinds.{kind_of, action_of, description_of, node_for};
ghost use Rattle.task_events.specs.Looking.{shard_description};
ghost use Rattle.task_events.specs.SliceTask.{reindex_description};

use itoa::Buffer;
use shard_docs::node_of;
use std::alloc::{AllocError, Global};
use task_events::{BulkAsk, BulkShardAsk, ReindexAsk, Request, SliceAsk};
use task_ids::{Action, Cluster, TaskId, Text};

/// How many bytes the description of work on a shard has beside its index and its shard.
const BRACKETS: usize = "shardId[[][]]".len();

/// The action of the task that a request asks for.
pub fn action_of(request: &Request) -> Action
    ensures { result ≡ action_of request.now }
{
    match request {
        Request::Search(_) => Action::Search,
        Request::Query(_) => Action::Query,
        Request::Fetch(_) => Action::Fetch,
        Request::Scroll(_) => Action::Scroll,
        Request::Reindex(_) | Request::Slice(_) => Action::Reindex,
        Request::Bulk(_) => Action::Bulk,
        Request::BulkShard(_) => Action::BulkShard,
    }
}

/// What work on a shard of an index is called. Most tasks are work on a shard, so its room is taken at once.
fn shard_description(alloc: Global, index: &str, shard: u32) -> Result<Text, AllocError>
    ensures { IfOk result (λ text. text ≡ shard_description index.now shard) }
{
    let mut digits = Buffer::new();
    let shard = digits.format(shard);
    let mut text = String::with_capacity(alloc, index.len() + shard.len() + BRACKETS)?;
    text.push_str("shardId[[")?;
    text.push_str(index)?;
    text.push_str("][")?;
    text.push_str(shard)?;
    text.push_str("]]")?;
    Ok(Text::new(text))
}

/// What a page of a context is called.
fn scroll_description(alloc: Global, id: TaskId) -> Result<Text, AllocError>
    ensures { IfOk result (λ text. text ≡ codes "scrollId[" ++ task_id_text id ++ codes "]") }
{
    Ok(Text::new(format!(in alloc; "scrollId[n{}:{}]", id.node, id.number)?))
}

/// What a reindex is called.
fn reindex_description(alloc: Global, ask: &ReindexAsk) -> Result<Text, AllocError>
    ensures { IfOk result (λ text. text ≡ reindex_description ask.now) }
{
    let source = ask.source.get().as_str();
    let dest = ask.dest.get().as_str();
    Ok(Text::new(format!(in alloc; "reindex from [{source}] to [{dest}]")?))
}

/// What a slice is called: as its reindex, with its number.
fn slice_description(alloc: Global, ask: &SliceAsk) -> Result<Text, AllocError>
    ensures { IfOk result (λ text. text ≡ description_of (Request.Slice ask.now)) }
{
    let whole = reindex_description(alloc, &ask.reindex)?;
    let (whole, slice, slices) = (whole.as_str(), ask.slice, ask.reindex.slices);
    Ok(Text::new(format!(in alloc; "{whole} slice[{slice}/{slices}]")?))
}

/// What a bulk is called.
fn bulk_description(alloc: Global, ask: &BulkAsk) -> Result<Text, AllocError>
    ensures { IfOk result (λ text. text ≡ description_of (Request.Bulk ask.now)) }
{
    let docs = ask.docs.as_slice().len();
    let dest = ask.dest.get().as_str();
    Ok(Text::new(format!(in alloc; "requests[{docs}], indices[{dest}]")?))
}

/// What the part of a bulk in a shard is called.
fn part_description(alloc: Global, ask: &BulkShardAsk) -> Result<Text, AllocError>
    ensures { IfOk result (λ text. text ≡ description_of (Request.BulkShard ask.now)) }
{
    let docs = ask.docs.as_slice().len();
    let dest = ask.dest.get().as_str();
    let shard = ask.shard;
    Ok(Text::new(format!(in alloc; "requests[{docs}], index[{dest}][{shard}]")?))
}

/// What the task that a request asks for works on, as a detailed task list shows it. It fails only for want of memory.
pub fn description_of(alloc: Global, request: &Request) -> Result<Text, AllocError>
    ensures { IfOk result (λ text. text ≡ description_of request.now) }
{
    match request {
        Request::Search(ask) => {
            let index = ask.get().index.get().as_str();
            Ok(Text::new(format!(in alloc; "indices[{index}]")?))
        }
        Request::Query(ask) => {
            let ask = ask.get();
            shard_description(alloc, ask.index.get().as_str(), ask.shard)
        }
        Request::Fetch(ask) => {
            let ask = ask.get();
            shard_description(alloc, ask.index.get().as_str(), ask.shard)
        }
        Request::Scroll(ask) => scroll_description(alloc, ask.get().id),
        Request::Reindex(ask) => reindex_description(alloc, ask.get()),
        Request::Slice(ask) => slice_description(alloc, ask.get()),
        Request::Bulk(ask) => bulk_description(alloc, ask.get()),
        Request::BulkShard(ask) => part_description(alloc, ask.get()),
    }
}

/// The shard on which a request is worked, from 0, if it is one of a shard.
pub fn shard_of(request: &Request) -> Option<u32>
    ensures { result ≡ option_map (λ place. place.1) (kind_of request.now).place }
{
    match request {
        Request::Search(_) | Request::Scroll(_) => None,
        Request::Reindex(_) | Request::Slice(_) | Request::Bulk(_) => None,
        Request::Query(ask) => Some(ask.get().shard),
        Request::Fetch(ask) => Some(ask.get().shard),
        Request::BulkShard(ask) => Some(ask.get().shard),
    }
}

/// The node on which a request of the task is worked, from 1: that of its shard, or else the task's own.
pub fn node_for(task: TaskId, request: &Request, cluster: &Cluster) -> u32
    ensures { result ≡ node_for cluster.now task request.now }
{
    match shard_of(request) {
        Some(shard) => node_of(shard, cluster.nodes),
        None => task.node,
    }
}

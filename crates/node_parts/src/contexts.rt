//! The contexts of scrolls: which a search opens at its good end, and which a page uses.

ghost use Rattle.std.specs.Prelude.{◌≡◌, IfOk};
ghost use Rattle.task_events.specs.Contexts.{opened, cursor_in};
ghost use Rattle.task_events.specs.Counts.{AreCounts};
ghost use Rattle.node_parts.specs.Opening.{opened_by, used_by, FitsContext};

use crate::running::Running;
use shared_value::Shared;
use std::alloc::{AllocError, Global};
use task_events::{
    Context, HitKey, Reply, SearchAsk, SearchReply, ShardCount, ShardCounts, copy_key,
};
use task_ids::TaskId;
use task_work::Work;

/// What a context keeps of its shards.
fn kept(alloc: Global, counts: &[ShardCount]) -> Result<ShardCounts, AllocError>
    requires { AreCounts counts.now }
    ensures { IfOk result (λ kept. kept ≡ counts.now) }
{
    let counts = Vec::from_slice(alloc, counts)?;
    match ShardCounts::new(counts) {
        Ok(kept) => Ok(kept),
        Err(_) => unreachable!(),
    }
}

/// The context that a search opens with its answer.
fn opened(
    alloc: Global,
    task: TaskId,
    ask: &SearchAsk,
    reply: &SearchReply,
    now: u64,
) -> Result<Context, AllocError>
    requires { AreCounts reply.now.shards }
    ensures { IfOk result (λ context. context ≡ opened task ask.now reply.now now) }
{
    let copy = ask.copy()?;
    let shared = Shared::new(alloc, copy)?;
    let shards = kept(alloc, reply.shards.as_slice())?;
    let after = copy_key(&reply.last)?;
    Ok(Context {
        id: task,
        ask: shared,
        shards,
        after,
        keep_ms: ask.scroll,
        last_ms: now,
        owner: ask.owner,
        busy: None,
    })
}

/// The context that the end of a task with this reply opens at this moment, in milliseconds. A search with hits opens one that keeps
/// what it read, where it has a keep-alive or an owner; no other task does. It fails only for want of memory.
pub fn opened_by(
    alloc: Global,
    work: &Work,
    task: TaskId,
    reply: &Reply,
    now: u64,
) -> Result<Option<Context>, AllocError>
    requires counts { FitsContext work.now reply.now }
    ensures { IfOk result (λ context. context ≡ opened_by work.now task reply.now now) }
{
    let Work::Search(root) = work else {
        return Ok(None);
    };
    let Reply::Search(reply) = reply else {
        return Ok(None);
    };
    if !root.ask().opens_context() {
        return Ok(None);
    }
    Ok(Some(opened(alloc, task, root.ask(), reply.get(), now)?))
}

/// The context that a live task uses: that of which it shows a page, once it has passed.
pub fn used_by(running: &Running) -> Option<TaskId>
    ensures { result ≡ used_by running.now }
{
    if running.is_new {
        return None;
    }
    running.page.map(|page| page.id)
}

/// The last row that a reply shows, where it is a good one of a search or of a page and shows one. It fails only for want of memory.
pub fn cursor_of(reply: &Reply) -> Result<Option<HitKey>, AllocError>
    ensures { IfOk result (λ cursor. cursor ≡ cursor_in reply.now) }
{
    match reply {
        Reply::Search(reply) => copy_key(&reply.get().last),
        _ => Ok(None),
    }
}

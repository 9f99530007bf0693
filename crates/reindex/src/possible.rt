//! Which replies the asks of a slice and of a reindex can have.

ghost use Rattle.std.specs.Prelude.{◌≡◌, false};
ghost use Rattle.std.specs.Option.{option_map_or};
ghost use Rattle.task_events.specs.SearchTask.{is_answer_for};
ghost use Rattle.task_events.specs.ScrollTask.{is_page_for};
ghost use Rattle.task_events.specs.Kinds.{can_have};
ghost use Rattle.task_events.specs.Same.{same_task};

use crate::told::are_below;
use task_events::{Reply, Request, ScrollAsk, SearchAsk, SearchReply};
use task_ids::TaskId;

/// A search shows at most so many hits.
const MAX_HITS: usize = 10_000;

/// So many rows match in all shards of an index at most, less one.
const MAX_TOTAL: u64 = 68_719_476_736;

fn is_answer_for(shards: u32, ask: &SearchAsk, reply: &SearchReply) -> bool
    ensures { result ≡ is_answer_for shards ask.now reply.now }
{
    let named = if ask.opens_context() {
        reply.context.is_some()
    } else {
        reply.context.is_none()
    };
    named
        && reply.failed.as_slice().len() < shards as usize
        && reply.hits.as_slice().len() <= ask.body.get().size as usize
        && reply.total < MAX_TOTAL
}

/// Whether it is the context of this id.
#[tactic(auto, unfolding(task_events::specs::Same::same_task))]
fn is_named(id: TaskId, context: Option<TaskId>) -> bool
    ensures { result ≡ option_map_or (same_task id) context false }
{
    match context {
        Some(other) => id.node == other.node && id.number == other.number,
        None => false,
    }
}

fn is_page_for(shards: u32, ask: &ScrollAsk, reply: &SearchReply) -> bool
    ensures { result ≡ is_page_for shards ask.now reply.now }
{
    is_named(ask.id, reply.context)
        && reply.failed.as_slice().len() < shards as usize
        && reply.hits.as_slice().len() <= MAX_HITS
        && reply.total < MAX_TOTAL
}

/// Whether the search of the first page of a slice can have this reply, where its index has so many shards.
pub(crate) fn search_can_have(shards: u32, ask: &SearchAsk, reply: &Reply) -> bool
    ensures { result ≡ can_have shards (Request.Search ask.now) reply.now }
{
    match reply {
        Reply::Search(page) => is_answer_for(shards, ask, page.get()),
        Reply::Cancelled { counts, .. } => are_below(counts.get(), 1),
        Reply::AllFailed(_) | Reply::Rejected { .. } => true,
        Reply::Top(_) | Reply::Hits(_) | Reply::Wrote(_) => false,
    }
}

/// Whether a later page of a context can have this reply, where the index has so many shards.
pub(crate) fn scroll_can_have(shards: u32, ask: &ScrollAsk, reply: &Reply) -> bool
    ensures { result ≡ can_have shards (Request.Scroll ask.now) reply.now }
{
    match reply {
        Reply::Search(page) => is_page_for(shards, ask, page.get()),
        Reply::Cancelled { counts, .. } => are_below(counts.get(), 1),
        Reply::AllFailed(_) | Reply::Rejected { .. } => true,
        Reply::Top(_) | Reply::Hits(_) | Reply::Wrote(_) => false,
    }
}

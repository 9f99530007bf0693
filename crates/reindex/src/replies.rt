//! What the replies to a slice and to a reindex tell.

ghost use Rattle.std.specs.Prelude.{◌≡◌, ◌<◌, ◌^◌, IfOk, map, true};
ghost use Rattle.task_events.specs.Counting.{are_below, carried, failures_of, is_batch};
ghost use Rattle.task_events.specs.SliceTask.{context_in, total_in, is_clean};
ghost use Rattle.reindex.specs.Slices.{counts_after, context_after};
ghost use Rattle.reindex.specs.Roots.{sum_with};

use crate::told::{carried, failures_of};
use std::alloc::AllocError;
use task_events::{Counts, Hit, Reply};
use task_ids::{Doc, Items, TaskId};

/// Whether it is a page that is written: it has hits, and no shard failed.
pub(crate) fn is_batch(reply: &Reply) -> bool
    ensures { result ≡ is_batch reply.now }
{
    match reply {
        Reply::Search(page) => {
            let page = page.get();
            page.failed.as_slice().is_empty() && !page.hits.as_slice().is_empty()
        }
        _ => false,
    }
}

/// Whether it is of a bulk that ended without a failure.
pub(crate) fn is_clean(reply: &Reply) -> bool
    ensures { result ≡ is_clean reply.now }
{
    match reply {
        Reply::Wrote(counts) => counts.get().failures == 0,
        _ => false,
    }
}

fn context_in(reply: &Reply) -> Option<TaskId>
    ensures { result ≡ context_in reply.now }
{
    match reply {
        Reply::Search(page) => page.get().context,
        _ => None,
    }
}

fn total_in(reply: &Reply) -> u64
    ensures { result ≡ total_in reply.now }
{
    match reply {
        Reply::Search(page) => page.get().total,
        _ => 0,
    }
}

/// The documents of some hits.
pub(crate) fn docs_of(hits: &Items<Hit>) -> Result<Items<Doc>, AllocError>
    ensures { IfOk result (λ docs. docs ≡ map (λ hit. hit.doc) hits.now) }
{
    let mut docs = Vec::with_capacity(hits.allocator(), hits.as_slice().len())?;
    for hit in hits.as_slice() {
        docs.push(hit.doc.copy()?)?;
    }
    Ok(Items::from_vec(docs))
}

/// The context of a slice that has made so many asks, after an answer: that of its first page.
pub(crate) fn context_after(made: u32, context: Option<TaskId>, reply: &Reply) -> Option<TaskId>
    ensures { result ≡ context_after made context reply.now }
{
    if made == 1 {
        context_in(reply)
    } else {
        context
    }
}

/// The counts of a slice that has made so many asks, after an answer.
pub(crate) fn counts_after(made: u32, counts: Counts, reply: &Reply) -> Counts
    requires created { counts.created < 2 ^ 62 }
    requires updated { counts.updated < 2 ^ 62 }
    requires batches { counts.batches < 2 ^ 62 }
    requires failures { counts.failures < 2 ^ 62 }
    requires told { are_below (2 ^ 62) (carried reply.now) ≡ true }
    requires told_failures { failures_of reply.now < 2 ^ 62 }
    ensures { result ≡ counts_after made counts reply.now }
{
    let told = carried(reply);
    let batch = if is_batch(reply) { 1 } else { 0 };
    Counts {
        total: if made == 1 {
            total_in(reply)
        } else {
            counts.total
        },
        created: counts.created + told.created,
        updated: counts.updated + told.updated,
        batches: counts.batches + batch,
        failures: counts.failures + failures_of(reply),
    }
}

/// The sums of some counts and of what one reply more tells.
pub(crate) fn sum_with(counts: Counts, reply: &Reply) -> Counts
    requires counts { are_below (2 ^ 62) counts ≡ true }
    requires told { are_below (2 ^ 62) (carried reply.now) ≡ true }
    requires told_failures { failures_of reply.now < 2 ^ 62 }
    ensures { result ≡ sum_with counts reply.now }
{
    let told = carried(reply);
    Counts {
        total: counts.total + told.total,
        created: counts.created + told.created,
        updated: counts.updated + told.updated,
        batches: counts.batches + told.batches,
        failures: counts.failures + failures_of(reply),
    }
}

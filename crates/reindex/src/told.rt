//! What the children of a writing task answer, and what that counts.

ghost use Rattle.std.specs.Prelude.{◌≡◌, ◌<◌, ◌^◌, true};
ghost use Rattle.task_events.specs.Counting.{are_below, carried, failures_of};
ghost use Rattle.reindex.specs.Answers.{writer_can_have, with_written};

use crate::answer::no_counts;
use task_events::{Counts, Reply};

/// Whether each number is below a limit.
pub(crate) fn are_below(counts: Counts, limit: u64) -> bool
    ensures { result ≡ are_below limit counts }
{
    counts.total < limit
        && counts.created < limit
        && counts.updated < limit
        && counts.batches < limit
        && counts.failures < limit
}

/// Whether a task that writes, each count of which is below a limit, can have this reply.
pub(crate) fn writer_can_have(reply: &Reply, limit: u64) -> bool
    ensures { result ≡ writer_can_have limit reply.now }
{
    match reply {
        Reply::Wrote(counts) => are_below(counts.get(), limit),
        Reply::Cancelled { counts, .. } => are_below(counts.get(), limit),
        Reply::Rejected { .. } => true,
        Reply::Search(_) | Reply::Top(_) | Reply::Hits(_) | Reply::AllFailed(_) => false,
    }
}

/// The counts that an answer carries: of a task that wrote, or was cancelled.
pub(crate) fn carried(reply: &Reply) -> Counts
    ensures { result ≡ carried reply.now }
{
    match reply {
        Reply::Wrote(counts) => counts.get(),
        Reply::Cancelled { counts, .. } => counts.get(),
        Reply::Search(_)
        | Reply::Top(_)
        | Reply::Hits(_)
        | Reply::AllFailed(_)
        | Reply::Rejected { .. } => no_counts(),
    }
}

/// The failures that an answer tells: failed shards, those that its counts carry, and one where it is not good.
pub(crate) fn failures_of(reply: &Reply) -> u64
    requires { (carried reply.now).failures < 2 ^ 63 }
    ensures { result ≡ failures_of reply.now }
{
    match reply {
        Reply::Search(page) => page.get().failed.as_slice().len() as u64,
        Reply::AllFailed(_) | Reply::Rejected { .. } => 1,
        Reply::Cancelled { counts, .. } => counts.get().failures + 1,
        Reply::Wrote(counts) => counts.get().failures,
        Reply::Top(_) | Reply::Hits(_) => 0,
    }
}

/// The writes and the failures so far, and those of one answer more.
pub(crate) fn with_written(counts: Counts, reply: &Reply) -> Counts
    requires created { counts.created < 2 ^ 62 }
    requires updated { counts.updated < 2 ^ 62 }
    requires failures { counts.failures < 2 ^ 62 }
    requires told { are_below (2 ^ 62) (carried reply.now) ≡ true }
    requires told_failures { failures_of reply.now < 2 ^ 62 }
    ensures { result ≡ with_written counts reply.now }
{
    let told = carried(reply);
    Counts {
        total: 0,
        created: counts.created + told.created,
        updated: counts.updated + told.updated,
        batches: 0,
        failures: counts.failures + failures_of(reply),
    }
}

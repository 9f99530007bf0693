//! Which replies the asks of a search can have.

ghost use Rattle.std.specs.Prelude.{◌≡◌, ℕ, ◌==◌, ◌&&◌, true, map};
ghost use Rattle.std.specs.List.{list_all};
ghost use Rattle.std.specs.Option.{option_map_or};
ghost use Rattle.std.specs.Str.{bytes_eq};
ghost use Rattle.task_events.specs.FetchTask.{are_among};
ghost use Rattle.task_events.specs.HitOrder.{is_after};
ghost use Rattle.task_events.specs.QueryTask.{ascend, is_top_for};
ghost use Rattle.task_events.specs.Counting.{are_below};
ghost use Rattle.task_events.specs.Kinds.{can_have};
ghost use Rattle.task_events.specs.Readings.{version_read};
ghost use Rattle.task_events.specs.Searches.{query_of};

use crate::keeping::is_after;
use crate::reading::{Reading, shard_read, version_read};
use task_events::{Counts, FetchAsk, Hit, HitKey, Reply, Request, ShardRead, ShardTop};

/// A count of rows is below this.
const MAX_COUNT: u64 = 4_294_967_296;

/// Whether nothing was counted, as by a task that writes nothing.
fn are_zero(counts: Counts) -> bool
    ensures { result ≡ are_below 1 counts }
{
    counts.total == 0
        && counts.created == 0
        && counts.updated == 0
        && counts.batches == 0
        && counts.failures == 0
}

fn is_ascending(keys: &[HitKey]) -> bool
    ensures { result ≡ ascend keys.now }
{
    for place in 1..keys.len() {
        if keys[place - 1] >= keys[place] {
            return false;
        }
    }
    true
}

/// Whether all keys are of the shard, and stand after the cursor.
fn are_of_shard(keys: &[HitKey], shard: u32, after: &Option<HitKey>) -> bool
    ensures { result ≡ list_all (λ key. (key.shard == shard) && is_after after.now key) keys.now }
{
    keys.iter()
        .all(|key| key.shard == shard && is_after(after, key))
}

/// Whether it is the version that is asked for, where one is.
fn is_version_of(at: ShardRead, version: u32) -> bool
    ensures { result ≡ option_map_or (λ asked. version == asked) (version_read at) true }
{
    match version_read(at) {
        Some(asked) => version == asked,
        None => true,
    }
}

fn is_top_for(reading: &Reading, at: ShardRead, top: &ShardTop) -> bool
    ensures { result ≡ is_top_for (query_of reading.now at) top.now }
{
    let keys = top.keys.as_slice();
    let body = reading.ask().body.get();
    let window = u64::from(body.from) + u64::from(body.size);
    let shard = shard_read(at);
    top.shard == shard
        && is_version_of(at, top.version)
        && top.count < MAX_COUNT
        && keys.len() as u64 <= window
        && are_of_shard(keys, shard, reading.after())
        && is_ascending(keys)
}

/// Whether the query of a shard can have this reply.
pub(crate) fn query_can_have(reading: &Reading, at: ShardRead, reply: &Reply) -> bool
    ensures { (shards : ℕ) →
        result ≡ can_have shards (Request.Query (query_of reading.now at)) reply.now }
{
    match reply {
        Reply::Cancelled { counts, .. } => are_zero(counts.get()),
        Reply::Rejected { .. } => true,
        Reply::Top(top) => is_top_for(reading, at, top.get()),
        Reply::Search(_) | Reply::Hits(_) | Reply::AllFailed(_) | Reply::Wrote(_) => false,
    }
}

fn are_of_index(hits: &[Hit], index: &str) -> bool
    ensures { result ≡ list_all (λ hit. bytes_eq index.now hit.index) hits.now }
{
    hits.iter().all(|hit| index == hit.index.get().as_str())
}

/// Whether the places of some hits are some of these, in their order.
fn are_among(hits: &[Hit], places: &[u32]) -> bool
    ensures { result ≡ are_among (map (λ hit. hit.place) hits.now) places.now }
{
    let mut found = 0;
    for place in places {
        if found < hits.len() && hits[found].place == *place {
            found += 1;
        }
    }
    found == hits.len()
}

/// Whether a fetch can have this reply.
pub(crate) fn fetch_can_have(fetch: &FetchAsk, reply: &Reply) -> bool
    ensures { (shards : ℕ) → result ≡ can_have shards (Request.Fetch fetch.now) reply.now }
{
    match reply {
        Reply::Cancelled { counts, .. } => are_zero(counts.get()),
        Reply::Rejected { .. } => true,
        Reply::Hits(hits) => {
            let hits = hits.get().as_slice();
            are_of_index(hits, fetch.index.get().as_str())
                && are_among(hits, fetch.places.as_slice())
        }
        Reply::Search(_) | Reply::Top(_) | Reply::AllFailed(_) | Reply::Wrote(_) => false,
    }
}

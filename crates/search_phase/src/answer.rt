//! The answer of a search, put together from the answers to all its asks.

ghost use Rattle.std.specs.Prelude.{◌≡◌, ◌==◌, ◌∷◌, [], ◌++◌, OnOk, find, None, ◌^◌, ◌<◌, ◌≤◌, IfOk, length, filter_map, position, slice_get, zip, option_copied, option_and_then};
ghost use Rattle.std.specs.List.{sum_by, last_or};
ghost use Rattle.task_events.specs.Searches.{failure_of, counts_in, tops_in};
ghost use Rattle.search_phase.specs.Searching.{search_answer};
ghost use Rattle.search_phase.specs.FetchPhase.{fetching_of, answer_to, hits_in, failure_by, failed_by, hit_by, count_for};

use crate::fetching::Fetching;
use crate::reading::{Reading, shard_read};
use std::alloc::{AllocError, Global};
use task_events::{
    Asked, FailedShard, FetchAsk, Hit, HitKey, Reply, SearchReply, ShardCount, ShardFailure,
    ShardRead,
};
use task_ids::Items;

/// Why a task failed, where it did.
fn failure_of(asked: Option<&Asked>) -> Option<ShardFailure>
    ensures { result ≡ option_and_then failure_of (option_copied asked.entry) }
{
    let Some(asked) = asked else {
        return None;
    };
    match &asked.answer {
        Some(Reply::Cancelled { task, cancel, .. }) => Some(ShardFailure::Cancelled {
            task: *task,
            cancel: *cancel,
        }),
        Some(Reply::Rejected { node }) => Some(ShardFailure::Rejected { node: *node }),
        _ => None,
    }
}

fn asked_at(asked: &[Asked], place: usize) -> Option<&Asked>
    ensures { option_copied result ≡ slice_get asked.now place }
{
    asked.get(place)
}

fn place_of(fetches: &[FetchAsk], shard: u32) -> Option<usize>
    ensures { result ≡ position (λ fetch. shard == fetch.shard) fetches.now }
{
    fetches.iter().position(|fetch| shard == fetch.shard)
}

/// The answer to the fetch of a shard, where it was asked for.
fn answer_to<'a>(fetches: &[FetchAsk], answers: &'a [Asked], shard: u32) -> Option<&'a Asked>
    ensures { option_copied result ≡ answer_to fetches.now answers.now shard }
{
    match place_of(fetches, shard) {
        Some(place) => asked_at(answers, place),
        None => None,
    }
}

/// Why a shard failed: in the query, or else in the fetch.
fn failure_at(
    fetches: &[FetchAsk],
    answers: &[Asked],
    at: ShardRead,
    query: &Asked,
) -> Option<ShardFailure>
    ensures { result ≡ failure_by fetches.now answers.now at query.now }
{
    let failure = failure_of(Some(query));
    if failure.is_some() {
        return failure;
    }
    failure_of(answer_to(fetches, answers, shard_read(at)))
}

fn add_failure(
    failed: &mut Vec<FailedShard>,
    fetches: &[FetchAsk],
    answers: &[Asked],
    at: ShardRead,
    query: &Asked,
) -> Result<(), AllocError>
    ensures { OnOk result (failed.new.items
        ≡ failed.old.items ++ filter_map (failed_by fetches.now answers.now) ((at, query.now) ∷ [])) }
{
    match failure_at(fetches, answers, at, query) {
        Some(failure) => {
            let shard = shard_read(at);
            failed.push(FailedShard { shard, failure })?;
            Ok(())
        }
        None => Ok(()),
    }
}

/// The shards that failed, given the asks of their queries and the answers to the fetches.
fn failed_shards(
    alloc: Global,
    shards: &[ShardRead],
    queries: &[Asked],
    fetches: &[FetchAsk],
    answers: &[Asked],
) -> Result<Items<FailedShard>, AllocError>
    ensures { IfOk result (λ failed.
        failed ≡ filter_map (failed_by fetches.now answers.now) (zip shards.now queries.now)) }
{
    let mut failed = Vec::new(alloc);
    for (at, query) in shards.iter().zip(queries) {
        add_failure(&mut failed, fetches, answers, *at, query)?;
    }
    Ok(Items::from_vec(failed))
}

fn hits_of(asked: &Asked) -> &[Hit]
    ensures { result.now ≡ hits_in asked.now.answer }
{
    match &asked.answer {
        Some(Reply::Hits(hits)) => hits.get().as_slice(),
        _ => &[],
    }
}

fn hit_at(hits: &[Hit], place: u32) -> Option<&Hit>
    ensures { option_copied result ≡ find (λ hit. place == hit.place) hits.now }
{
    for hit in hits {
        if place == hit.place {
            return Some(hit);
        }
    }
    None
}

/// The document of a winner, where its shard's fetch has it.
fn hit_of<'a>(fetches: &[FetchAsk], answers: &'a [Asked], key: &HitKey) -> Option<&'a Hit>
    ensures { option_copied result ≡ hit_by fetches.now answers.now key.now }
{
    match answer_to(fetches, answers, key.shard) {
        Some(answer) => hit_at(hits_of(answer), key.place),
        None => None,
    }
}

fn add_hit(
    hits: &mut Vec<Hit>,
    fetches: &[FetchAsk],
    answers: &[Asked],
    key: &HitKey,
) -> Result<(), AllocError>
    ensures { OnOk result (hits.new.items
        ≡ hits.old.items ++ filter_map (hit_by fetches.now answers.now) (key.now ∷ [])) }
{
    match hit_of(fetches, answers, key) {
        Some(hit) => {
            hits.push(hit.copy()?)?;
            Ok(())
        }
        None => Ok(()),
    }
}

fn hits_of_winners(
    alloc: Global,
    fetches: &[FetchAsk],
    answers: &[Asked],
    won: &[HitKey],
) -> Result<Items<Hit>, AllocError>
    ensures { IfOk result (λ hits. hits ≡ filter_map (hit_by fetches.now answers.now) won.now) }
{
    let mut hits = Vec::new(alloc);
    for key in won {
        add_hit(&mut hits, fetches, answers, key)?;
    }
    Ok(Items::from_vec(hits))
}

/// How many rows match in a shard, where its query was answered: as many as are kept of it, or else as were counted.
fn count_of(at: ShardRead, query: &Asked) -> Option<ShardCount>
    ensures { result ≡ count_for (at, query.now) }
{
    let Some(Reply::Top(top)) = &query.answer else {
        return None;
    };
    match at {
        ShardRead::Newest(_) => {
            let top = top.get();
            Some(ShardCount {
                shard: top.shard,
                version: top.version,
                count: top.count,
            })
        }
        ShardRead::Kept(kept) => Some(kept),
    }
}

fn add_count(counts: &mut Vec<ShardCount>, at: ShardRead, query: &Asked) -> Result<(), AllocError>
    ensures { OnOk result (counts.new.items
        ≡ counts.old.items ++ filter_map count_for ((at, query.now) ∷ [])) }
{
    if let Some(count) = count_of(at, query) {
        counts.push(count)?;
    }
    Ok(())
}

fn counts_of(
    alloc: Global,
    shards: &[ShardRead],
    queries: &[Asked],
) -> Result<Items<ShardCount>, AllocError>
    ensures { IfOk result (λ counts. counts ≡ filter_map count_for (zip shards.now queries.now)) }
{
    let mut counts = Vec::new(alloc);
    for (at, query) in shards.iter().zip(queries) {
        add_count(&mut counts, *at, query)?;
    }
    Ok(Items::from_vec(counts))
}

fn total_of(counts: &[ShardCount]) -> u64
    requires { sum_by (λ n. n.count) counts.now < 2 ^ 64 }
    ensures { result ≡ sum_by (λ n. n.count) counts.now }
{
    let mut total = 0;
    for count in counts {
        total += count.count;
    }
    total
}

fn last_of(won: &[HitKey]) -> Result<Option<HitKey>, AllocError>
    ensures { IfOk result (λ last. last ≡ last_or None won.now) }
{
    match won.last() {
        Some(key) => Ok(Some(key.copy()?)),
        None => Ok(None),
    }
}

/// How many rows match in the shards that answered, and in all of them.
fn counted_in(
    alloc: Global,
    reading: &Reading,
    asked: &[Asked],
) -> Result<(Items<ShardCount>, u64), AllocError>
    requires { sum_by (λ n. n.count) (counts_in reading.now asked.now) < 2 ^ 64 }
    ensures { IfOk result (λ counted. counted
        ≡ (counts_in reading.now asked.now, sum_by (λ n. n.count) (counts_in reading.now asked.now))) }
{
    let counts = counts_of(alloc, reading.shards(), asked)?;
    let total = total_of(counts.as_slice());
    Ok((counts, total))
}

/// What the fetches found: the documents of the winners, and the key of the last of these.
fn hits_and_last(
    alloc: Global,
    fetching: &Fetching,
    answers: &[Asked],
) -> Result<(Items<Hit>, Option<HitKey>), AllocError>
    ensures { IfOk result (λ shown. shown
        ≡ (filter_map (hit_by fetching.now.fetches answers.now) fetching.now.won, last_or None fetching.now.won)) }
{
    let won = fetching.won.as_slice();
    let hits = hits_of_winners(alloc, fetching.fetches.as_slice(), answers, won)?;
    let last = last_of(won)?;
    Ok((hits, last))
}

/// The answer of a search whose asks are all answered. Its failed shards may be all.
pub(crate) fn answer(
    alloc: Global,
    reading: &Reading,
    asked: &[Asked],
    fetching: &Fetching,
) -> Result<SearchReply, AllocError>
    requires all_asked { length reading.now.shards ≤ length asked.now }
    requires fetching { fetching.now ≡ fetching_of reading.now.ask (tops_in (length reading.now.shards) asked.now) }
    requires total { sum_by (λ n. n.count) (counts_in reading.now asked.now) < 2 ^ 64 }
    ensures { IfOk result (λ answer. answer ≡ search_answer reading.now asked.now) }
{
    let shards = reading.shards();
    let answers = &asked[shards.len()..];
    let fetches = fetching.fetches.as_slice();
    let failed = failed_shards(alloc, shards, asked, fetches, answers)?;
    let (counts, total) = counted_in(alloc, reading, asked)?;
    let (hits, last) = hits_and_last(alloc, fetching, answers)?;
    Ok(SearchReply {
        context: reading.context(),
        shards: counts,
        failed,
        total,
        hits,
        last,
    })
}

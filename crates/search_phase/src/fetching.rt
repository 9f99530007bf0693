//! What the fetch phase of a search asks for.

ghost use Rattle.std.specs.Prelude.{◌≡◌, ◌≤◌, ◌∷◌, [], ◌++◌, length, true, IfOk, OnOk, map};
ghost use Rattle.std.specs.List.{flat_map};
ghost use Rattle.task_events.specs.Searches.{has_winner, fetch_of, are_answered, has_queried};
ghost use Rattle.search_phase.specs.FetchPhase.{tops_of, places_of, fetches_for, fetching_of, fetching_in};

use crate::merging::{add_keys, cut_keys};
use std::alloc::{AllocError, Global};
use task_events::{Asked, FetchAsk, HitKey, Reply, SearchAsk, ShardTop};
use task_ids::Items;

/// What the fetch phase is about, once all queries are answered.
#[derive(Drop)]
pub(crate) struct Fetching {
    /// The keys that the search shows, in hit order.
    pub(crate) won: Items<HitKey>,
    /// The fetch of each shard that has one of them, by shard.
    pub(crate) fetches: Items<FetchAsk>,
}

fn add_top<'a>(tops: &mut Vec<&'a ShardTop>, asked: &'a Asked) -> Result<(), AllocError>
    ensures { OnOk result (map (λ top. top.now) tops.new.items
        ≡ map (λ top. top.now) tops.old.items ++ tops_of (asked.now ∷ [])) }
{
    if let Some(Reply::Top(top)) = &asked.answer {
        tops.push(top.get())?;
    }
    Ok(())
}

/// The tops among some answers, in order.
pub(crate) fn tops_of(alloc: Global, asked: &[Asked]) -> Result<Vec<&ShardTop>, AllocError>
    ensures { IfOk result (λ tops. map (λ top. top.now) tops.items ≡ tops_of asked.now) }
{
    let mut tops = Vec::new(alloc);
    for a in asked {
        add_top(&mut tops, a)?;
    }
    Ok(tops)
}

fn keys_of<'a>(alloc: Global, tops: &[&'a ShardTop]) -> Result<Vec<&'a HitKey>, AllocError>
    ensures { IfOk result (λ keys.
        map (λ key. key.now) keys.items ≡ flat_map (λ top. top.keys) (map (λ top. top.now) tops.now)) }
{
    let mut keys = Vec::new(alloc);
    for top in tops {
        add_keys(&mut keys, top.keys.as_slice())?;
    }
    Ok(keys)
}

fn has_winner(won: &[HitKey], top: &ShardTop) -> bool
    ensures { result ≡ has_winner won.now top.now }
{
    let shard = top.shard;
    won.iter().any(|key| shard == key.shard)
}

fn places_of(alloc: Global, won: &[HitKey], shard: u32) -> Result<Items<u32>, AllocError>
    ensures { IfOk result (λ places. places ≡ places_of won.now shard) }
{
    let mut places = Vec::new(alloc);
    for key in won {
        if shard == key.shard {
            places.push(key.place)?;
        }
    }
    Ok(Items::from_vec(places))
}

fn fetch_of(
    alloc: Global,
    ask: &SearchAsk,
    won: &[HitKey],
    top: &ShardTop,
) -> Result<FetchAsk, AllocError>
    ensures { IfOk result (λ fetch. fetch ≡ fetch_of ask.now won.now top.now) }
{
    Ok(FetchAsk {
        index: ask.index.copy()?,
        shard: top.shard,
        version: top.version,
        places: places_of(alloc, won, top.shard)?,
    })
}

fn fetches_of(
    alloc: Global,
    ask: &SearchAsk,
    won: &[HitKey],
    tops: &[&ShardTop],
) -> Result<Items<FetchAsk>, AllocError>
    ensures { IfOk result (λ fetches.
        fetches ≡ fetches_for ask.now won.now (map (λ top. top.now) tops.now)) }
{
    let mut fetches = Vec::new(alloc);
    for top in tops {
        if has_winner(won, top) {
            fetches.push(fetch_of(alloc, ask, won, top)?)?;
        }
    }
    Ok(Items::from_vec(fetches))
}

/// What the fetch phase asks for, given the answers to the queries of all shards.
fn fetching_of(alloc: Global, ask: &SearchAsk, queries: &[Asked]) -> Result<Fetching, AllocError>
    ensures { IfOk result (λ fetching. fetching ≡ fetching_of ask.now (tops_of queries.now)) }
{
    let tops = tops_of(alloc, queries)?;
    let keys = keys_of(alloc, tops.as_slice())?;
    let won = Items::from_vec(cut_keys(alloc, keys, ask.body.get().from, ask.body.get().size)?);
    let fetches = fetches_of(alloc, ask, won.as_slice(), tops.as_slice())?;
    Ok(Fetching { won, fetches })
}

/// Whether all asks are answered.
pub(crate) fn are_answered(asked: &[Asked]) -> bool
    ensures { result ≡ are_answered asked.now }
{
    asked.iter().all(|a| a.answer.is_some())
}

fn has_queried(shards: usize, asked: &[Asked]) -> bool
    ensures queried { result ≡ has_queried shards asked.now }
    ensures long { result ≡ true → shards ≤ length asked.now }
{
    shards <= asked.len() && are_answered(&asked[..shards])
}

/// What the fetch phase asks for, once all queries are answered.
pub(crate) fn fetching_in(
    alloc: Global,
    ask: &SearchAsk,
    shards: usize,
    asked: &[Asked],
) -> Result<Option<Fetching>, AllocError>
    ensures { IfOk result (λ fetching. fetching ≡ fetching_in ask.now shards asked.now) }
{
    if has_queried(shards, asked) {
        let fetching = fetching_of(alloc, ask, &asked[..shards])?;
        Ok(Some(fetching))
    } else {
        Ok(None)
    }
}

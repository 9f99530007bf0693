//! The requests of a search, by place.

ghost use Rattle.std.specs.Prelude.{◌≡◌, IfOk, ℕ, Some, false, is_some, option_map, option_copied};
ghost use Rattle.std.specs.Option.{option_map_or};
ghost use Rattle.task_events.specs.Kinds.{can_have};
ghost use Rattle.task_events.specs.Searches.{query_of};
ghost use Rattle.search_phase.specs.FetchPhase.{fetch_by, request_by};

use crate::fetching::Fetching;
use crate::possible::{fetch_can_have, query_can_have};
use crate::reading::{Reading, shard_read, version_read};
use shared_value::Shared;
use std::alloc::{AllocError, Global};
use task_events::{FetchAsk, Reply, Request, ShardAsk, ShardRead, copy_key};

/// The request of the query of a shard.
fn query_request(
    alloc: Global,
    reading: &Reading,
    at: ShardRead,
) -> Result<Option<Request>, AllocError>
    ensures { IfOk result (λ request. request ≡ Some (Request.Query (query_of reading.now at))) }
{
    let ask = reading.ask();
    let after = copy_key(reading.after())?;
    let index = ask.index.copy()?;
    let body = ask.body.copy()?;
    let query = ShardAsk {
        index,
        shard: shard_read(at),
        body,
        version: version_read(at),
        after,
        slice: ask.slice,
    };
    let query = Shared::new(alloc, query)?;
    Ok(Some(Request::Query(query)))
}

/// The request of a fetch, which is copied.
fn fetch_request(alloc: Global, fetch: &FetchAsk) -> Result<Option<Request>, AllocError>
    ensures { IfOk result (λ request. request ≡ Some (Request.Fetch fetch.now)) }
{
    let fetch = fetch.copy()?;
    let fetch = Shared::new(alloc, fetch)?;
    Ok(Some(Request::Fetch(fetch)))
}

/// What the fetch phase asks for at a place.
pub(crate) fn fetch_at(fetching: &Option<Fetching>, place: usize) -> Option<&FetchAsk>
    ensures { option_map Request.Fetch (option_copied result) ≡ fetch_by fetching.now place }
{
    match fetching {
        Some(fetching) => fetching.fetches.as_slice().get(place),
        None => None,
    }
}

/// Whether a search asks for something at a place.
pub(crate) fn has_request(reading: &Reading, fetching: &Option<Fetching>, place: usize) -> bool
    ensures { result ≡ is_some (request_by reading.now fetching.now place) }
{
    let shards = reading.shards();
    place < shards.len() || fetch_at(fetching, place - shards.len()).is_some()
}

/// What a search asks for at a place: the query of each shard, and then the fetches.
pub(crate) fn request_at(
    alloc: Global,
    reading: &Reading,
    fetching: &Option<Fetching>,
    place: usize,
) -> Result<Option<Request>, AllocError>
    ensures { IfOk result (λ request. request ≡ request_by reading.now fetching.now place) }
{
    let shards = reading.shards();
    if let Some(at) = shards.get(place) {
        return query_request(alloc, reading, *at);
    }
    match fetch_at(fetching, place - shards.len()) {
        Some(fetch) => fetch_request(alloc, fetch),
        None => Ok(None),
    }
}

/// Whether what a search asks for at a place can have this reply.
pub(crate) fn can_answer(
    reading: &Reading,
    fetching: &Option<Fetching>,
    place: usize,
    reply: &Reply,
) -> bool
    ensures { (shards : ℕ) → let request = request_by reading.now fetching.now place in
        result ≡ option_map_or (λ request. can_have shards request reply.now) request false }
{
    let shards = reading.shards();
    if let Some(at) = shards.get(place) {
        return query_can_have(reading, *at, reply);
    }
    match fetch_at(fetching, place - shards.len()) {
        Some(fetch) => fetch_can_have(fetch, reply),
        None => false,
    }
}

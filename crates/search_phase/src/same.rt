//! Whether a request, as its answer tells it, is the one that a search asks for at a place.

ghost use Rattle.std.specs.Prelude.{◌↔◌, IsSomeAnd, IsTrue};
ghost use Rattle.task_events.specs.declared.request.Request.TheVariants as asks;
ghost use Rattle.task_events.specs.Searches.{query_of};
ghost use Rattle.search_phase.specs.Awaiting.{IsSameFetch, IsSameQuery, LooksAlike};
ghost use Rattle.search_phase.specs.FetchPhase.{request_by};

use crate::asking::fetch_at;
use crate::fetching::Fetching;
use crate::reading::{Reading, shard_read, version_read};
use task_events::{AnsweredRequest, FetchAsk, ShardAsk, ShardRead, is_same_cursor};

/// Whether a query is of this shard, at the version and after the cursor that are read.
fn is_query_of(reading: &Reading, at: ShardRead, ask: &ShardAsk) -> bool
    ensures { IsTrue result ↔ IsSameQuery ask.now (query_of reading.now at) }
{
    ask.shard == shard_read(at)
        && ask.version == version_read(at)
        && is_same_cursor(&ask.after, reading.after())
}

/// Whether two fetches are of the same places of a shard, at the same version.
fn is_same_fetch(one: &FetchAsk, other: &FetchAsk) -> bool
    ensures { IsTrue result ↔ IsSameFetch one.now other.now }
{
    one.shard == other.shard
        && one.version == other.version
        && one.places.as_slice() == other.places.as_slice()
}

/// Whether a request is the query of this shard.
fn is_its_query(reading: &Reading, at: ShardRead, request: &AnsweredRequest) -> bool
    ensures { IsTrue result ↔ LooksAlike (asks.Query (query_of reading.now at)) request.now }
{
    match request {
        AnsweredRequest::Query(ask) => is_query_of(reading, at, ask.get()),
        _ => false,
    }
}

/// Whether a request is this fetch.
fn is_its_fetch(fetch: &FetchAsk, request: &AnsweredRequest) -> bool
    ensures { IsTrue result ↔ LooksAlike (asks.Fetch fetch.now) request.now }
{
    match request {
        AnsweredRequest::Fetch(ask) => is_same_fetch(fetch, ask.get()),
        _ => false,
    }
}

/// Whether a request is what a search asks for at a place.
pub(crate) fn is_request_at(
    reading: &Reading,
    fetching: &Option<Fetching>,
    place: usize,
    request: &AnsweredRequest,
) -> bool
    ensures { IsTrue result ↔ IsSomeAnd (request_by reading.now fetching.now place) (λ own. LooksAlike own request.now) }
{
    let shards = reading.shards();
    if let Some(at) = shards.get(place) {
        return is_its_query(reading, *at, request);
    }
    match fetch_at(fetching, place - shards.len()) {
        Some(fetch) => is_its_fetch(fetch, request),
        None => false,
    }
}

//! What later kinds of searches ask of a shard: an older version, a slice, and what stands behind a cursor.

ghost use Rattle.std.specs.Prelude.{◌≡◌, ◌<◌, false};
ghost use Rattle.search_phase.specs.Queries.{has_ended};

use query_match::{Query, SearchBody, SortBy};
use search_phase::{FetchAnswer, ShardFetch, ShardQuery, TurnAnswer};
use serde_json::Value;
use shard_docs::Shard;
use shared_value::Shared;
use std::alloc::{AllocError, Global};
use task_events::{FetchAsk, Hit, HitKey, ShardAsk, ShardTop, SlicePick};
use task_ids::{Doc, DocSource, Items, Keys, Text};

/// Documents with an id and a source a line. The first `a` is written again.
const DOCS: &str = r#"a {"n":3}
b {"n":1}
c {"m":1}
a {"n":2}
d {"n":1}
e {"n":5}"#;

pub(crate) fn text(alloc: Global, text: &str) -> Result<Text, AllocError> {
    Ok(Text::new(String::from_str(alloc, text)?))
}

/// The source of a document that this text is.
pub(crate) fn source_of(alloc: Global, json: &str) -> Option<DocSource> {
    let value = Value::from_str(alloc, json).ok()?;
    let mut keys = Keys::new(alloc);
    DocSource::new(alloc, value, &mut keys).ok()
}

pub(crate) fn write(alloc: Global, shard: &mut Shard, line: &str) -> Option<()> {
    let (id, source) = line.split_once(" ")?;
    let id = Shared::new(alloc, text(alloc, id).ok()?).ok()?;
    let source = source_of(alloc, source)?;
    shard.write(Doc { id, source }).ok()?;
    Some(())
}

fn shard(alloc: Global) -> Shard {
    let mut shard = Shard::new(alloc);
    for line in DOCS.lines() {
        let _written = write(alloc, &mut shard, line);
    }
    shard
}

/// A search by `n`.
pub(crate) fn by_n(alloc: Global) -> Option<SearchBody> {
    let field = query_match::Text::from_str(alloc, "n").ok()?;
    let mut sort = query_match::Items::new(alloc);
    sort.push(SortBy {
        field,
        descending: false,
    })
    .ok()?;
    Some(SearchBody {
        query: Query::all(alloc).ok()?,
        sort,
        from: 0,
        size: 10,
    })
}

/// What a search by `n` asks of a shard.
fn ask(
    alloc: Global,
    version: Option<u32>,
    slice: Option<SlicePick>,
    after: Option<HitKey>,
) -> Option<ShardAsk> {
    let index = Shared::new(alloc, Text::new(String::new(alloc))).ok()?;
    let body = Shared::new(alloc, by_n(alloc)?).ok()?;
    Some(ShardAsk {
        index,
        shard: 0,
        body,
        version,
        after,
        slice,
    })
}

/// What a query finds in its next turn, if that is its last.
fn turned(query: &mut ShardQuery, shard: &Shard) -> Option<ShardTop>
    requires { has_ended query.old shard.now.writes ≡ false }
{
    match query.turn(shard) {
        Ok(TurnAnswer::Ready(top)) => Some(top),
        _ => None,
    }
}

/// What a query finds in its first turn.
pub(crate) fn top_in(alloc: Global, shard: &Shard, ask: ShardAsk) -> Option<ShardTop> {
    let ask = Shared::new(alloc, ask).ok()?;
    let mut query = ShardQuery::new(alloc, ask);
    turned(&mut query, shard)
}

/// What a query of the documents finds.
fn top(alloc: Global, ask: Option<ShardAsk>) -> Option<ShardTop> {
    top_in(alloc, &shard(alloc), ask?)
}

fn has(top: &ShardTop, count: u64, places: &[u32]) -> bool {
    let keys = top.keys.as_slice();
    let are_there = keys
        .iter()
        .zip(places)
        .all(|(key, place)| key.place == *place);
    top.count == count && keys.len() == places.len() && are_there
}

/// Whether a query finds so many rows, and shows those of these places.
fn shows(alloc: Global, ask: Option<ShardAsk>, count: u64, places: &[u32]) -> bool {
    top(alloc, ask).is_some_and(|top| has(&top, count, places))
}

#[test]
fn a_query_reads_its_version(rt: HostRuntime) {
    let old = ask(rt.alloc(), Some(3), None, None);
    assert!(rt; shows(rt.alloc(), old, 3, &[1, 0, 2]));
    let new = ask(rt.alloc(), None, None, None);
    assert!(rt; shows(rt.alloc(), new, 5, &[1, 4, 3, 5, 2]));
}

/// One of two slices of a shard.
fn pick(slice: u32) -> Option<SlicePick>
    requires { slice < 2 }
{
    Some(SlicePick {
        slice,
        slices: 2,
        shards: 1,
    })
}

#[test]
fn a_slice_has_the_rows_of_its_remainder(rt: HostRuntime) {
    let even = ask(rt.alloc(), None, pick(0), None);
    assert!(rt; shows(rt.alloc(), even, 2, &[1, 4]));
    let odd = ask(rt.alloc(), None, pick(1), None);
    assert!(rt; shows(rt.alloc(), odd, 3, &[3, 5, 2]));
}

/// The key of the second row.
fn second(alloc: Global) -> Option<HitKey> {
    let mut keys = top(alloc, ask(alloc, None, None, None))?.keys.into_vec();
    keys.truncate(2);
    keys.pop()
}

#[test]
fn a_cursor_passes_over_itself_and_what_stands_before(rt: HostRuntime) {
    let later = ask(rt.alloc(), None, None, second(rt.alloc()));
    assert!(rt; shows(rt.alloc(), later, 5, &[3, 5, 2]));
}

/// The hits of a fetch.
pub(crate) fn hits_in(alloc: Global, shard: &Shard, ask: FetchAsk) -> Option<Items<Hit>> {
    let ask = Shared::new(alloc, ask).ok()?;
    let mut fetch = ShardFetch::new(alloc, ask);
    match fetch.turn(shard) {
        Ok(FetchAnswer::Ready(hits)) => Some(hits),
        _ => None,
    }
}

/// The hits of a fetch at a version.
fn hits(alloc: Global, version: u32, places: &[u32]) -> Option<Items<Hit>> {
    let places = Vec::from_slice(alloc, places).ok()?;
    let ask = FetchAsk {
        index: Shared::new(alloc, Text::new(String::new(alloc))).ok()?,
        shard: 0,
        version,
        places: Items::from_vec(places),
    };
    hits_in(alloc, &shard(alloc), ask)
}

fn are_at(hits: &[Hit], wanted: &[u32]) -> bool {
    let are_there = hits
        .iter()
        .zip(wanted)
        .all(|(hit, place)| hit.place == *place);
    hits.len() == wanted.len() && are_there
}

/// Whether a fetch of these places shows those.
fn fetches(alloc: Global, version: u32, places: &[u32], wanted: &[u32]) -> bool {
    hits(alloc, version, places).is_some_and(|hits| are_at(hits.as_slice(), wanted))
}

#[test]
fn a_fetch_passes_over_places_without_a_row(rt: HostRuntime) {
    assert!(rt; fetches(rt.alloc(), 6, &[4, 3, 1, 0, 9], &[4, 3, 1]));
    assert!(rt; fetches(rt.alloc(), 3, &[4, 3, 1, 0, 9], &[1, 0]));
    assert!(rt; fetches(rt.alloc(), 0, &[4, 3, 1, 0, 9], &[]));
}

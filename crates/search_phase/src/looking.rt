//! Looking at the rows of a shard.

ghost use Rattle.std.specs.Prelude.{◌≡◌, ◌&&◌, IfOk, IfSome};
ghost use Rattle.task_ids.specs.declared.doc.Doc as docs;
ghost use Rattle.query_match.specs.Sorting.{key_of, key_cmp};
ghost use Rattle.task_events.specs.Answers.{is_in_slice, is_found, hit_key};
ghost use Rattle.task_events.specs.HitOrder.{hit_cmp, is_after};
ghost use Rattle.search_phase.specs.LookedAt.{counts_all, IsFirstNumber};

use doc_match::{compare_key, compare_value, matches, sort_key};
use query_match::{Found, SortBy, SortKey};
use shard_docs::slice_of;
use std::alloc::{AllocError, Global};
use std::cmp::Ordering;
use task_events::{HitKey, ShardAsk, SlicePick};
use task_ids::Doc;

fn is_in_slice(slice: Option<SlicePick>, id: &[u8]) -> bool
    ensures { result ≡ is_in_slice slice id.now }
{
    match slice {
        None => true,
        Some(pick) => slice_of(id, pick.shards, pick.slices) == pick.slice,
    }
}

pub(crate) fn is_found(ask: &ShardAsk, doc: &Doc) -> bool
    ensures { result ≡ is_found ask.now.body ask.now.slice doc.now }
{
    let id = doc.id.get().as_str().as_bytes();
    matches(&ask.body.get().query, id, &doc.source) && is_in_slice(ask.slice, id)
}

/// Whether each row that a query looks at matches, so that no document tells more.
pub(crate) fn counts_all(ask: &ShardAsk) -> bool
    ensures { result ≡ counts_all ask.now }
{
    ask.slice.is_none() && ask.body.get().query.is_its_pick()
}

/// How the key of a document for a sort stands to another, where the number at the first field of the sort tells it. The
/// document is not looked into.
fn told_by_number(sort: &[SortBy], number: Option<i64>, key: &SortKey) -> Option<Ordering>
    ensures { IfSome result (λ order. (doc : docs.Doc) → IsFirstNumber sort.now doc number → order ≡ key_cmp (key_of sort.now doc.source) key.now) }
{
    let number = number?;
    let by = sort.first()?;
    let part = key.as_slice().first()?;
    let order = compare_value(by, Found::Whole(number as i128), part);
    if order.is_ne() { Some(order) } else { None }
}

/// How the key of a row stands to another in hit order. It copies nothing, and does not look into the document where the
/// number at the first field of the sort is given and tells it.
pub(crate) fn compare_row(
    ask: &ShardAsk,
    place: u32,
    doc: &Doc,
    number: Option<i64>,
    key: &HitKey,
) -> Ordering
    requires { IsFirstNumber ask.now.body.sort doc.now number }
    ensures { result ≡ hit_cmp (hit_key ask.now.body ask.now.shard (place, doc.now)) key.now }
{
    let sort = ask.body.get().sort.as_slice();
    let by_sort = match told_by_number(sort, number, &key.sort) {
        Some(order) => order,
        None => compare_key(sort, &doc.source, &key.sort),
    };
    by_sort
        .then(ask.shard.cmp(&key.shard))
        .then(place.cmp(&key.place))
}

/// Whether the key of a row stands after the cursor, where there is one.
pub(crate) fn is_after_cursor(ask: &ShardAsk, place: u32, doc: &Doc, number: Option<i64>) -> bool
    requires { IsFirstNumber ask.now.body.sort doc.now number }
    ensures { result ≡ is_after ask.now.after (hit_key ask.now.body ask.now.shard (place, doc.now)) }
{
    match &ask.after {
        None => true,
        Some(last) => compare_row(ask, place, doc, number, last).is_gt(),
    }
}

/// The key of a row. It fails only for want of memory.
pub(crate) fn key_of_row(
    alloc: Global,
    ask: &ShardAsk,
    place: u32,
    doc: &Doc,
) -> Result<HitKey, AllocError>
    ensures { IfOk result (λ key. key ≡ hit_key ask.now.body ask.now.shard (place, doc.now)) }
{
    let sort = sort_key(alloc, ask.body.get().sort.as_slice(), &doc.source)?;
    Ok(HitKey {
        sort,
        shard: ask.shard,
        place,
    })
}

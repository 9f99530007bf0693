//! The search with which a slice begins.

ghost use Rattle.std.specs.Prelude.{◌≡◌, ◌<◌, ◌≤◌, IfOk};
ghost use Rattle.std.specs.Option.{ForSome};
ghost use Rattle.throttle.specs.Waits.{per_second};
ghost use Rattle.task_events.specs.SliceTask.{first_page};
ghost use Rattle.task_events.specs.Slicing.{pick_of};

use query_match::{Items, SearchBody};
use shared_value::Shared;
use std::alloc::{AllocError, Global};
use task_events::{ReindexAsk, Request, SearchAsk, SlicePick};
use task_ids::TaskId;
use throttle::Rate;

/// The documents of a slice of an index with so many shards: all, where there is one slice.
fn pick_of(slice: u32, slices: u32, shards: u32) -> Option<SlicePick>
    requires shards { 0 < shards }
    requires slice { slice < slices }
    ensures { result ≡ pick_of slice slices shards }
{
    if slices == 1 {
        return None;
    }
    Some(SlicePick {
        slice,
        slices,
        shards,
    })
}

/// The search of the first page of a slice: it opens a context that belongs to the slice's task and does not expire.
pub(crate) fn first_search(
    alloc: Global,
    task: TaskId,
    reindex: &ReindexAsk,
    slice: u32,
    shards: u32,
) -> Result<Shared<SearchAsk>, AllocError>
    requires shards { 0 < shards }
    requires slice { slice < reindex.now.slices }
    ensures { IfOk result (λ search.
        Request.Search search ≡ first_page task reindex.now slice shards) }
{
    let index = reindex.source.copy()?;
    let query = reindex.query.copy()?;
    let body = SearchBody {
        query,
        sort: Items::from_vec(Vec::new(alloc)),
        from: 0,
        size: reindex.batch,
    };
    let body = Shared::new(alloc, body)?;
    let search = SearchAsk {
        index,
        body,
        scroll: None,
        slice: pick_of(slice, reindex.slices, shards),
        owner: Some(task),
    };
    Ok(Shared::new(alloc, search)?)
}

/// The rate of so many documents a second, where that is bounded.
pub(crate) fn rate_of(rate: Option<u32>) -> Rate
    requires { ForSome rate (λ r. (1 ≤ r) × (r ≤ 1000000)) }
    ensures { per_second result ≡ rate }
{
    match rate {
        None => Rate::None,
        Some(count) => Rate::per_second(count),
    }
}

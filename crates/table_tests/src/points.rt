//! Worked points in time.

use point_in_time::{Cursor, Pit, PitTable, ShardCount, ShardCounts};
use query_match::{Items, KeyPart, Query, Scalar, SearchBody, SortBy, SortKey};
use shared_value::Shared;
use std::alloc::{AllocError, Global};
use task_events::{FailedShard, HitKey, SearchAsk, SearchReply, ShardFailure};
use task_ids::{TaskId, Text};

const ONE: TaskId = TaskId { node: 1, number: 1 };

const TWO: TaskId = TaskId { node: 1, number: 2 };

const THREE: TaskId = TaskId { node: 1, number: 3 };

const NONE: TaskId = TaskId { node: 1, number: 9 };

/// What a task is asked that opens a point in time of an index: to show nothing of it.
fn ask(alloc: Global, index: &str) -> Result<Shared<SearchAsk>, AllocError> {
    let body = SearchBody {
        query: Query::all(alloc)?,
        sort: Items::new(alloc),
        from: 0,
        size: 0,
    };
    let ask = SearchAsk {
        index: Shared::new(alloc, Text::new(String::from_str(alloc, index)?))?,
        body: Shared::new(alloc, body)?,
        scroll: None,
        slice: None,
        owner: None,
    };
    Ok(Shared::new(alloc, ask)?)
}

/// Shard 0 at a version, and shard 1 at the next one.
fn counts(alloc: Global, version: u32) -> Result<Vec<ShardCount>, AllocError> {
    let mut counts = Vec::new(alloc);
    for shard in 0..2 {
        counts.push(ShardCount {
            shard,
            version: version.saturating_add(shard),
            count: 0,
        })?;
    }
    Ok(counts)
}

/// A point in time of two shards, which was opened at moment 0 and is kept for a second.
fn pit(alloc: Global, id: TaskId, index: &str, version: u32) -> Result<Option<Pit>, AllocError> {
    let Ok(shards) = ShardCounts::new(counts(alloc, version)?) else {
        return Ok(None);
    };
    Ok(Some(Pit {
        id,
        ask: ask(alloc, index)?,
        shards,
        keep_ms: 1000,
        last_ms: 0,
    }))
}

/// Opens such a point in time, where none of that id is there.
fn open(
    alloc: Global,
    table: &mut PitTable,
    id: TaskId,
    index: &str,
    version: u32,
) -> Result<bool, AllocError> {
    let Some(pit) = pit(alloc, id, index, version)? else {
        return Ok(false);
    };
    Ok(table.get(pit.id).is_none() && table.start(pit).is_ok())
}

/// The sort of a search by `n`, the greatest first.
fn by_number(alloc: Global) -> Result<Items<SortBy>, AllocError> {
    let mut sort = Vec::new(alloc);
    sort.push(SortBy {
        field: query_match::Text::from_str(alloc, "n")?,
        descending: true,
    })?;
    Ok(Items::from_vec(sort))
}

/// The cursor that such a search left at the row of a place in shard 1, where `n` is 4.
fn cursor(alloc: Global, search: TaskId, place: u32) -> Result<Cursor, AllocError> {
    let mut parts = Vec::new(alloc);
    parts.push(KeyPart::Descending(Scalar::Whole(4)))?;
    Ok(Cursor {
        search,
        sort: by_number(alloc)?,
        key: HitKey {
            sort: SortKey::from_parts(Items::from_vec(parts)),
            shard: 1,
            place,
        },
    })
}

#[test]
fn a_point_in_time_stands_for_its_keep_alive(rt: HostRuntime) -> Result<(), AllocError> {
    let alloc = rt.alloc();
    let mut table = PitTable::new(alloc);
    assert!(rt; table.peek(ONE, 0).is_err() && table.take(ONE, 0, None).is_err());
    assert!(rt; open(alloc, &mut table, ONE, "a", 5)?);
    // The clock goes on by 999, and a search reads it.
    assert!(rt; table.expire(999) == 0 && table.peek(ONE, 999).is_ok());
    assert!(rt; table.take(ONE, 999, None).is_ok());
    // One millisecond before its end it is there, and then it is not, also before the next look at the clock.
    assert!(rt; table.expire(1998) == 0 && table.peek(ONE, 1998).is_ok());
    assert!(rt; table.peek(ONE, 1999).is_err() && table.take(ONE, 1999, Some(9)).is_err());
    assert!(rt; table.get(ONE).is_some() && table.expire(1999) == 1);
    assert!(rt; table.get(ONE).is_none() && table.expire(u64::MAX) == 0);
    Ok(())
}

#[test]
fn a_search_can_give_it_another_keep_alive(rt: HostRuntime) -> Result<(), AllocError> {
    let alloc = rt.alloc();
    let mut table = PitTable::new(alloc);
    assert!(rt; open(alloc, &mut table, ONE, "a", 5)? && open(alloc, &mut table, TWO, "a", 5)?);
    assert!(rt; table.take(ONE, 500, Some(60_000)).is_ok());
    assert!(rt; table.expire(1000) == 1 && table.get(TWO).is_none());
    assert!(rt; table.expire(60_499) == 0 && table.peek(ONE, 60_499).is_ok());
    // A keep-alive that no clock shows the end of never ends.
    assert!(rt; table.take(ONE, 60_499, Some(u64::MAX)).is_ok());
    assert!(rt; table.expire(u64::MAX) == 0 && table.close(ONE) && !table.close(ONE));
    Ok(())
}

#[test]
fn the_oldest_version_is_that_of_those_that_stand(rt: HostRuntime) -> Result<(), AllocError> {
    let alloc = rt.alloc();
    let mut table = PitTable::new(alloc);
    assert!(rt; table.oldest("a", 0).is_none());
    assert!(rt; open(alloc, &mut table, ONE, "a", 8)? && open(alloc, &mut table, TWO, "a", 6)?);
    assert!(rt; open(alloc, &mut table, THREE, "b", 2)?);
    assert!(rt; table.oldest("a", 0) == Some(6) && table.oldest("a", 1) == Some(7));
    assert!(rt; table.oldest("b", 0) == Some(2) && table.oldest("a", 2).is_none());
    assert!(rt; table.take(ONE, 500, None).is_ok() && table.expire(1000) == 2);
    assert!(rt; table.oldest("a", 0) == Some(8) && table.oldest("b", 0).is_none());
    assert!(rt; table.close(ONE) && table.oldest("a", 0).is_none());
    Ok(())
}

#[test]
fn a_search_goes_on_after_another_with_its_sort(rt: HostRuntime) -> Result<(), AllocError> {
    let alloc = rt.alloc();
    let mut table = PitTable::new(alloc);
    let sort = by_number(alloc)?;
    assert!(rt; !table.keep_cursor(ONE, cursor(alloc, THREE, 7)?)?);
    assert!(rt; open(alloc, &mut table, ONE, "a", 5)? && open(alloc, &mut table, TWO, "a", 5)?);
    assert!(rt; table.keep_cursor(ONE, cursor(alloc, THREE, 7)?)?);
    assert!(rt; matches!(table.cursor(ONE, THREE, sort.as_slice()), Some(key) if key.place == 7));
    // Another sort, another search, and another point in time have none.
    assert!(rt; table.cursor(ONE, THREE, &[]).is_none());
    assert!(rt; table.cursor(ONE, NONE, sort.as_slice()).is_none());
    assert!(rt; table.cursor(TWO, THREE, sort.as_slice()).is_none());
    assert!(rt; table.close(ONE) && table.cursor(ONE, THREE, sort.as_slice()).is_none());
    // It goes with its point in time, also where that expires.
    assert!(rt; table.keep_cursor(TWO, cursor(alloc, THREE, 8)?)? && table.expire(1000) == 1);
    assert!(rt; table.cursor(TWO, THREE, sort.as_slice()).is_none());
    Ok(())
}

/// Whether the end of a task with these failed shards opens a point in time of two shards.
fn opens(alloc: Global, failed: Vec<FailedShard>) -> Result<bool, AllocError> {
    let Ok(seen) = ShardCounts::new(counts(alloc, 5)?) else {
        return Ok(false);
    };
    let reply = SearchReply {
        context: None,
        shards: task_ids::Items::from_vec(Vec::from_slice(alloc, seen.as_slice())?),
        failed: task_ids::Items::from_vec(failed),
        total: 0,
        hits: task_ids::Items::new(alloc),
        last: None,
    };
    match Pit::opened(ONE, &ask(alloc, "a")?, &reply, 1000, 7)? {
        Some(pit) => Ok(pit.id == ONE && pit.last_ms == 7 && pit.shards.version_of(1) == Some(6)),
        None => Ok(false),
    }
}

#[test]
fn a_point_in_time_is_opened_where_no_shard_failed(rt: HostRuntime) -> Result<(), AllocError> {
    let alloc = rt.alloc();
    assert!(rt; opens(alloc, Vec::new(alloc))?);
    let mut failed = Vec::new(alloc);
    failed.push(FailedShard {
        shard: 2,
        failure: ShardFailure::Rejected { node: 1 },
    })?;
    assert!(rt; !opens(alloc, failed)?);
    Ok(())
}

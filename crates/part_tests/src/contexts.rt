//! The contexts of scrolls on a node.

use query_match::{Items, Query, SearchBody};
use scroll_table::{PageError, ScrollTable};
use shared_value::Shared;
use std::alloc::Global;
use task_events::{Context, SearchAsk, ShardCount, ShardCounts};
use task_ids::{TaskId, Text};

/// A context of no shard that was used last at the moment 5.
fn context(alloc: Global, id: TaskId, keep_ms: Option<u64>) -> Option<Context> {
    let body = SearchBody {
        query: Query::all(alloc).ok()?,
        sort: Items::new(alloc),
        from: 0,
        size: 10,
    };
    let index = Text::new(String::new(alloc));
    let ask = SearchAsk {
        index: Shared::new(alloc, index).ok()?,
        body: Shared::new(alloc, body).ok()?,
        scroll: keep_ms,
        slice: None,
        owner: None,
    };
    Some(Context {
        id,
        ask: Shared::new(alloc, ask).ok()?,
        shards: ShardCounts::new(Vec::new(alloc)).ok()?,
        after: None,
        keep_ms,
        last_ms: 5,
        owner: None,
        busy: None,
    })
}

/// Opens such a context, where none of that id is there.
fn open(alloc: Global, table: &mut ScrollTable, id: TaskId, keep_ms: Option<u64>) -> bool {
    let Some(context) = context(alloc, id, keep_ms) else {
        return false;
    };
    table.get(context.id).is_none() && table.start(context).is_ok()
}

/// Gives a context back, where a task uses it.
fn give_back(table: &mut ScrollTable, id: TaskId, now: u64) -> bool {
    let busy = match table.get(id) {
        Some(context) => context.busy.is_some(),
        None => false,
    };
    if busy {
        table.give_back(id, None, now);
    }
    busy
}

#[test]
fn a_context_expires_that_was_not_used_for_its_keep_alive(rt: HostRuntime) {
    let alloc = rt.alloc();
    let one = TaskId { node: 1, number: 1 };
    let two = TaskId { node: 1, number: 2 };
    let mut table = ScrollTable::new(alloc);
    assert!(rt; open(alloc, &mut table, one, Some(10)));
    assert!(rt; open(alloc, &mut table, two, None));
    assert!(rt; table.expire(14) == 0 && table.peek(one, None, 14).is_ok());
    assert!(rt; matches!(table.peek(one, None, 15), Err(PageError::Missing)));
    assert!(rt; table.expire(15) == 1 && table.get(one).is_none());
    assert!(rt; table.expire(u64::MAX) == 0 && table.get(two).is_some());
}

#[test]
fn a_context_that_a_task_uses_stays(rt: HostRuntime) {
    let alloc = rt.alloc();
    let id = TaskId { node: 1, number: 1 };
    let user = TaskId { node: 2, number: 1 };
    let mut table = ScrollTable::new(alloc);
    assert!(rt; open(alloc, &mut table, id, Some(10)));
    assert!(rt; table.page(id, None, 6, Some(1), user).is_ok());
    assert!(rt; matches!(table.page(id, None, 6, None, user), Err(PageError::Busy)));
    assert!(rt; table.expire(100) == 0 && !table.clear(id, None));
    assert!(rt; give_back(&mut table, id, 100));
    assert!(rt; table.expire(100) == 0);
    assert!(rt; table.expire(101) == 1);
    assert!(rt; !table.clear(id, None));
}

#[test]
fn a_context_is_cleared_by_its_owner_alone(rt: HostRuntime) {
    let alloc = rt.alloc();
    let id = TaskId { node: 1, number: 1 };
    let mut table = ScrollTable::new(alloc);
    assert!(rt; open(alloc, &mut table, id, None));
    assert!(rt; !table.clear(id, Some(id)) && table.clear(id, None));
    assert!(rt; table.get(id).is_none());
}

/// A context that keeps this version of shard 3 of the index with no name, and the next one of shard 4.
fn context_at(alloc: Global, id: TaskId, version: u32) -> Option<Context> {
    let mut counts = Vec::new(alloc);
    for shard in 3..5 {
        let count = ShardCount {
            shard,
            version: version.saturating_add(shard - 3),
            count: 1,
        };
        counts.push(count).ok()?;
    }
    let mut context = context(alloc, id, Some(10))?;
    context.shards = ShardCounts::new(counts).ok()?;
    Some(context)
}

/// Opens such a context, where none of that id is there.
fn open_at(alloc: Global, table: &mut ScrollTable, id: TaskId, version: u32) -> bool {
    let Some(context) = context_at(alloc, id, version) else {
        return false;
    };
    table.get(context.id).is_none() && table.start(context).is_ok()
}

#[test]
fn the_oldest_version_is_that_of_the_contexts_that_are_left(rt: HostRuntime) {
    let alloc = rt.alloc();
    let one = TaskId { node: 1, number: 1 };
    let two = TaskId { node: 1, number: 2 };
    let three = TaskId { node: 2, number: 1 };
    let mut table = ScrollTable::new(alloc);
    assert!(rt; table.oldest("", 3).is_none());
    assert!(rt; open_at(alloc, &mut table, one, 8) && open_at(alloc, &mut table, two, 6));
    assert!(rt; open_at(alloc, &mut table, three, 6));
    assert!(rt; table.oldest("", 3) == Some(6) && table.oldest("", 4) == Some(7));
    assert!(rt; table.oldest("", 2).is_none() && table.oldest("a", 3).is_none());
    assert!(rt; table.clear(two, None) && table.oldest("", 3) == Some(6));
    assert!(rt; table.clear(three, None) && table.oldest("", 3) == Some(8));
    assert!(rt; table.expire(15) == 1 && table.oldest("", 3).is_none());
}

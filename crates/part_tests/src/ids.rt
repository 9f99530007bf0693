//! Ids and their spellings, names of actions, and copies of rows.

use shared_value::Shared;
use std::alloc::{AllocError, Global};
use task_ids::{Action, Headers, Malformed, TaskId, TaskInfo, Text};

/// Texts that spell no id, one a line.
const MALFORMED: &str = "n3
n3:
n3:017
n03:17
n3:1:7
n3:+17
n3:-17
n3: 17
n0:17
n16:17
n3:0
n3:1048576
n3:4294967297
N3:17
3:17
Unset";

#[test]
fn refuses_other_spellings(rt: HostRuntime) {
    assert!(rt; TaskId::parse("") == Err(Malformed));
    for text in MALFORMED.lines() {
        assert!(rt; TaskId::parse(text) == Err(Malformed));
    }
}

#[test]
fn parses_the_one_spelling_and_unset(rt: HostRuntime) {
    let id = TaskId {
        node: 3,
        number: 17,
    };
    let last = TaskId {
        node: 15,
        number: 1_048_575,
    };
    assert!(rt; TaskId::parse("n3:17") == Ok(Some(id)));
    assert!(rt; TaskId::parse("n15:1048575") == Ok(Some(last)));
    assert!(rt; TaskId::parse("unset") == Ok(None));
    assert!(rt; id < last);
}

/// Whether an id is printed so.
fn prints(alloc: Global, id: TaskId, wanted: &[u8]) -> bool {
    let mut out = Vec::new(alloc);
    id.print(&mut out).is_ok() && out.as_slice() == wanted
}

#[test]
fn prints_the_one_spelling(rt: HostRuntime) {
    let id = TaskId {
        node: 3,
        number: 17,
    };
    assert!(rt; prints(rt.alloc(), id, b"n3:17"));
}

fn is_named(action: Action, text: &str) -> bool {
    action.text() == text
}

#[test]
fn names_actions(rt: HostRuntime) {
    assert!(rt; is_named(Action::Search, "indices:data/read/search"));
    assert!(rt; is_named(Action::Query, "indices:data/read/search[phase/query]"));
    assert!(rt; is_named(Action::Fetch, "indices:data/read/search[phase/fetch/id]"));
    assert!(rt; is_named(Action::Scroll, "indices:data/read/scroll"));
    assert!(rt; is_named(Action::Reindex, "indices:data/write/reindex"));
    assert!(rt; is_named(Action::Bulk, "indices:data/write/bulk"));
    assert!(rt; is_named(Action::BulkShard, "indices:data/write/bulk[s]"));
}

fn text(alloc: Global, text: &str) -> Result<Text, AllocError> {
    Ok(Text::new(String::from_str(alloc, text)?))
}

/// The copy of a row with a text in each field that takes one.
fn copied_row(alloc: Global) -> Result<TaskInfo, AllocError> {
    let row = TaskInfo {
        id: TaskId { node: 2, number: 1 },
        action: Action::Query,
        description: text(alloc, "shard[a][0]")?,
        start_ms: 5,
        parent: Some(TaskId { node: 1, number: 1 }),
        headers: Headers {
            opaque_id: Some(Shared::new(alloc, text(alloc, "q7")?)?),
        },
        cancelled: Some(4),
    };
    row.copy()
}

#[test]
fn copies_a_row(rt: HostRuntime) {
    assert!(rt; copied_row(rt.alloc()).is_ok_and(|row| row.description.as_str() == "shard[a][0]"));
}

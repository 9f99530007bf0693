//! Patterns, filters and lists of tasks.

ghost use Rattle.task_ids.specs.Limits.{IsNode, IsNumber};

use shared_value::Shared;
use std::alloc::{AllocError, Global};
use task_ids::{Action, Headers, TaskId, TaskInfo, Text, matches_pattern};
use tasks_api::{Filter, GroupBy, list_line};

#[test]
fn matches_patterns(rt: HostRuntime) {
    let query = "indices:data/read/search[phase/query]";
    assert!(rt; matches_pattern("*[phase/query]", query));
    assert!(rt; matches_pattern("*search*", query));
    assert!(rt; matches_pattern("indices:*/*[*]", query));
    assert!(rt; matches_pattern("**", ""));
    assert!(rt; matches_pattern("a*a", "aa"));
    assert!(rt; matches_pattern("*ab*abc", "ababxabc"));
}

#[test]
fn refuses_other_texts(rt: HostRuntime) {
    assert!(rt; !matches_pattern("", "a"));
    assert!(rt; !matches_pattern("a", ""));
    assert!(rt; !matches_pattern("a*a", "a"));
    assert!(rt; !matches_pattern("*ab*abc", "xabc"));
    assert!(rt; !matches_pattern("n1", "n10"));
    assert!(rt; !matches_pattern("*search", "indices:data/read/search[phase/query]"));
}

/// A task of the search `n1:1`, whose opaque id is `q7`.
fn row(
    alloc: Global,
    id: TaskId,
    action: Action,
    description: &str,
    parent: Option<TaskId>,
) -> Result<TaskInfo, AllocError> {
    let description = Text::new(String::from_str(alloc, description)?);
    let opaque_id = Shared::new(alloc, Text::new(String::from_str(alloc, "q7")?))?;
    Ok(TaskInfo {
        id,
        action,
        description,
        start_ms: 0,
        parent,
        headers: Headers {
            opaque_id: Some(opaque_id),
        },
        cancelled: None,
    })
}

fn id(node: u32, number: u32) -> TaskId
    requires node { IsNode node }
    requires number { IsNumber number }
{
    TaskId { node, number }
}

/// A search and the queries of its two shards, on two nodes.
fn search_rows(alloc: Global) -> Result<Vec<TaskInfo>, AllocError> {
    let root = id(1, 1);
    let mut rows = Vec::new(alloc);
    rows.push(row(alloc, root, Action::Search, "indices[a]", None)?)?;
    rows.push(row(
        alloc,
        id(1, 2),
        Action::Query,
        "shardId[[a][0]]",
        Some(root),
    )?)?;
    rows.push(row(
        alloc,
        id(2, 1),
        Action::Query,
        "shardId[[a][1]]",
        Some(root),
    )?)?;
    Ok(rows)
}

/// What a list of that search and its queries is at moment 0.
fn list(
    alloc: Global,
    actions: Option<&str>,
    nodes: Option<&str>,
    parent: Option<TaskId>,
    group: GroupBy,
    detailed: bool,
) -> Result<Vec<u8>, AllocError> {
    let rows = search_rows(alloc)?;
    let filter = Filter::read(alloc, actions, nodes, parent)?;
    list_line(alloc, rows.as_slice(), &filter, group, detailed, 0)
}

fn is_listed(listed: Result<Vec<u8>, AllocError>, wanted: &[u8]) -> bool {
    match listed {
        Ok(line) => line.as_slice() == wanted,
        Err(AllocError) => false,
    }
}

#[test]
fn lists_children_below_their_parent(rt: HostRuntime) {
    let listed = list(
        rt.alloc(),
        Some("*search*"),
        None,
        None,
        GroupBy::Parents,
        false,
    );
    assert!(rt;
        is_listed(
            listed,
            b"{\"tasks\":{\"n1:1\":{\"action\":\"indices:data/read/search\",\"cancellable\":true,\"cancelled\":false,\"children\":[{\"action\":\"indices:data/read/search[phase/query]\",\"cancellable\":true,\"cancelled\":false,\"headers\":{\"X-Opaque-Id\":\"q7\"},\"id\":2,\"node\":\"n1\",\"parent_task_id\":\"n1:1\",\"running_time_in_nanos\":0,\"start_time_in_millis\":0,\"type\":\"direct\"},{\"action\":\"indices:data/read/search[phase/query]\",\"cancellable\":true,\"cancelled\":false,\"headers\":{\"X-Opaque-Id\":\"q7\"},\"id\":1,\"node\":\"n2\",\"parent_task_id\":\"n1:1\",\"running_time_in_nanos\":0,\"start_time_in_millis\":0,\"type\":\"transport\"}],\"headers\":{\"X-Opaque-Id\":\"q7\"},\"id\":1,\"node\":\"n1\",\"running_time_in_nanos\":0,\"start_time_in_millis\":0,\"type\":\"transport\"}}}"
        )
    );
}

#[test]
fn lists_at_the_top_what_has_no_shown_parent(rt: HostRuntime) {
    let listed = list(
        rt.alloc(),
        None,
        Some("n2,n3"),
        None,
        GroupBy::Parents,
        false,
    );
    assert!(rt;
        is_listed(
            listed,
            b"{\"tasks\":{\"n2:1\":{\"action\":\"indices:data/read/search[phase/query]\",\"cancellable\":true,\"cancelled\":false,\"headers\":{\"X-Opaque-Id\":\"q7\"},\"id\":1,\"node\":\"n2\",\"parent_task_id\":\"n1:1\",\"running_time_in_nanos\":0,\"start_time_in_millis\":0,\"type\":\"transport\"}}}"
        )
    );
}

#[test]
fn lists_by_nodes_with_descriptions(rt: HostRuntime) {
    let listed = list(rt.alloc(), None, None, None, GroupBy::Nodes, true);
    assert!(rt;
        is_listed(
            listed,
            b"{\"nodes\":{\"n1\":{\"name\":\"n1\",\"tasks\":{\"n1:1\":{\"action\":\"indices:data/read/search\",\"cancellable\":true,\"cancelled\":false,\"description\":\"indices[a]\",\"headers\":{\"X-Opaque-Id\":\"q7\"},\"id\":1,\"node\":\"n1\",\"running_time_in_nanos\":0,\"start_time_in_millis\":0,\"type\":\"transport\"},\"n1:2\":{\"action\":\"indices:data/read/search[phase/query]\",\"cancellable\":true,\"cancelled\":false,\"description\":\"shardId[[a][0]]\",\"headers\":{\"X-Opaque-Id\":\"q7\"},\"id\":2,\"node\":\"n1\",\"parent_task_id\":\"n1:1\",\"running_time_in_nanos\":0,\"start_time_in_millis\":0,\"type\":\"direct\"}}},\"n2\":{\"name\":\"n2\",\"tasks\":{\"n2:1\":{\"action\":\"indices:data/read/search[phase/query]\",\"cancellable\":true,\"cancelled\":false,\"description\":\"shardId[[a][1]]\",\"headers\":{\"X-Opaque-Id\":\"q7\"},\"id\":1,\"node\":\"n2\",\"parent_task_id\":\"n1:1\",\"running_time_in_nanos\":0,\"start_time_in_millis\":0,\"type\":\"transport\"}}}}}"
        )
    );
}

#[test]
fn lists_the_children_of_a_task(rt: HostRuntime) {
    let listed = list(rt.alloc(), None, None, Some(id(1, 1)), GroupBy::None, false);
    assert!(rt;
        is_listed(
            listed,
            b"{\"tasks\":[{\"action\":\"indices:data/read/search[phase/query]\",\"cancellable\":true,\"cancelled\":false,\"headers\":{\"X-Opaque-Id\":\"q7\"},\"id\":2,\"node\":\"n1\",\"parent_task_id\":\"n1:1\",\"running_time_in_nanos\":0,\"start_time_in_millis\":0,\"type\":\"direct\"},{\"action\":\"indices:data/read/search[phase/query]\",\"cancellable\":true,\"cancelled\":false,\"headers\":{\"X-Opaque-Id\":\"q7\"},\"id\":1,\"node\":\"n2\",\"parent_task_id\":\"n1:1\",\"running_time_in_nanos\":0,\"start_time_in_millis\":0,\"type\":\"transport\"}]}"
        )
    );
}

#[test]
fn an_empty_list_of_patterns_is_one_empty_pattern(rt: HostRuntime) {
    let nodes = list(rt.alloc(), None, Some(""), None, GroupBy::Nodes, false);
    assert!(rt; is_listed(nodes, b"{\"nodes\":{}}"));
    let parents = list(
        rt.alloc(),
        Some("a,,b"),
        None,
        None,
        GroupBy::Parents,
        false,
    );
    assert!(rt; is_listed(parents, b"{\"tasks\":{}}"));
    let plain = list(rt.alloc(), None, Some("n3"), None, GroupBy::None, false);
    assert!(rt; is_listed(plain, b"{\"tasks\":[]}"));
}

#[test]
fn lists_marks_and_running_times(rt: HostRuntime) {
    let root = id(1, 1);
    let listed = marked_list(rt.alloc(), id(2, 1), root);
    assert!(rt;
        is_listed(
            listed,
            b"{\"tasks\":[{\"action\":\"indices:data/read/search[phase/query]\",\"cancellable\":true,\"cancelled\":true,\"headers\":{},\"id\":1,\"node\":\"n2\",\"parent_task_id\":\"n1:1\",\"running_time_in_nanos\":7000000,\"start_time_in_millis\":3,\"type\":\"transport\"}]}"
        )
    );
}

/// The list at moment 10 of a task that began at moment 3 and is marked by cancellation 7.
fn marked_list(alloc: Global, task: TaskId, parent: TaskId) -> Result<Vec<u8>, AllocError> {
    let mut rows = Vec::new(alloc);
    rows.push(TaskInfo {
        id: task,
        action: Action::Query,
        description: Text::new(String::new(alloc)),
        start_ms: 3,
        parent: Some(parent),
        headers: Headers { opaque_id: None },
        cancelled: Some(7),
    })?;
    let filter = Filter::read(alloc, None, None, None)?;
    list_line(alloc, rows.as_slice(), &filter, GroupBy::None, false, 10)
}

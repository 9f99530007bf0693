//! The inputs of these runs, and their lines where every order of the threads gives the same.
ghost use Rattle.std.specs.Prelude.{◌≤◌};

use std::alloc::{AllocError, Global};

/// A search, and a cancel of it that waits. After its answer nothing of the search is left.
pub const CANCEL: &str = r#"{"index":{"_index":"a","_id":"1"}}
{"n":1}
--
{"search":{"index":"a"}}
{"cancel":{"command":1,"reason":"too slow","wait_for_completion":true}}
{"wait_for":{"command":2}}
{"list":{}}
"#;

/// Its lines, where the search was at work when the cancel was sent.
pub const CANCELLED: &str =
    r#"{"command":1,"error":{"reason":"too slow","task":"n1:1","type":"task_cancelled"}}
{"command":2,"reply":{"cancelled":["n1:1"],"waited":true}}
{"command":3,"reply":"answered"}
{"command":4,"reply":{"nodes":{}}}
"#;

/// A copy of five documents by two slices, at one document a second. No tick comes, so that it ends only by the drain.
pub const COPY: &str = r#"{"index":{"_index":"a","_id":"1"}}
{"n":1}
{"index":{"_index":"a","_id":"2"}}
{"n":2}
{"index":{"_index":"a","_id":"3"}}
{"n":3}
{"index":{"_index":"a","_id":"4"}}
{"n":4}
{"index":{"_index":"a","_id":"5"}}
{"n":5}
--
{"reindex":{"body":{"source":{"index":"a","size":2},"dest":{"index":"b"}},"slices":2,"requests_per_second":1}}
{"tick":7}
"#;

/// Its lines.
pub const COPIED: &str =
    r#"{"command":1,"reply":{"batches":3,"created":5,"failures":0,"total":5,"updated":0}}
{"command":2,"reply":{"now":7}}
"#;

/// A search, and a search of an index that is not there.
pub const SEARCHES: &str = r#"{"index":{"_index":"a","_id":"1"}}
{"n":1}
--
{"search":{"index":"a"}}
{"wait_for":{"command":1}}
{"search":{"index":"b"}}
"#;

/// Their lines on one node with one shard.
pub const SEARCHED: &str =
    r#"{"command":1,"reply":{"_shards":{"failed":0,"successful":1,"total":1},"hits":{"hits":[{"_id":"1","_index":"a","_source":{"n":1}}],"total":{"relation":"eq","value":1}}}}
{"command":2,"reply":"answered"}
{"command":3,"error":{"index":"b","type":"index_not_found"}}
"#;

/// Their lines where the node has a slot for one task alone.
pub const REJECTED: &str =
    r#"{"command":1,"error":{"shards":[{"node":"n1","shard":0,"type":"rejected"}],"type":"all_shards_failed"}}
{"command":2,"reply":"answered"}
{"command":3,"error":{"index":"b","type":"index_not_found"}}
"#;

/// Five documents in two shards, and a search for all of them.
pub const TWO_SHARDS: &str = r#"{"index":{"_index":"a","_id":"1"}}
{"c":"red","n":1}
{"index":{"_index":"a","_id":"2"}}
{"c":"blue","n":2}
{"index":{"_index":"a","_id":"3"}}
{"c":"red","n":3}
{"index":{"_index":"a","_id":"4"}}
{"c":"blue","n":4}
{"index":{"_index":"a","_id":"5"}}
{"c":"red","n":5}
--
{"search":{"index":"a","body":{}}}
"#;

/// Its line on one node with two shards.
pub const TWO_SHARDS_FOUND: &str =
    r#"{"command":1,"reply":{"_shards":{"failed":0,"successful":2,"total":2},"hits":{"hits":[{"_id":"2","_index":"a","_source":{"c":"blue","n":2}},{"_id":"4","_index":"a","_source":{"c":"blue","n":4}},{"_id":"1","_index":"a","_source":{"c":"red","n":1}},{"_id":"3","_index":"a","_source":{"c":"red","n":3}},{"_id":"5","_index":"a","_source":{"c":"red","n":5}}],"total":{"relation":"eq","value":5}}}}
"#;

/// Its line there where the node has one slot: the search has it, and the other data worker has none.
pub const TWO_SHARDS_REJECTED: &str =
    r#"{"command":1,"error":{"shards":[{"node":"n1","shard":0,"type":"rejected"},{"node":"n1","shard":1,"type":"rejected"}],"type":"all_shards_failed"}}
"#;

/// So many searches, of which none waits for another.
pub fn many_searches(alloc: Global, count: u32) -> Result<String, AllocError> {
    let mut input = String::new(alloc);
    input.push_str("{\"index\":{\"_index\":\"a\",\"_id\":\"1\"}}\n{\"n\":1}\n--\n")?;
    for _ in 0..count {
        input.push_str("{\"search\":{\"index\":\"a\"}}\n")?;
    }
    Ok(input)
}

//! The body of a reindex, and the first fault of one that is wrong.

use query_parse::{QueryFault, ReindexBody, ReindexError, read_reindex};
use serde_json::Value;
use std::alloc::Global;
use task_ids::Json;

fn read(alloc: Global, body: &str) -> Option<Result<ReindexBody, ReindexError>> {
    let value = Value::from_str(alloc, body).ok()?;
    let body = Json::of(alloc, &value).ok()?;
    Some(read_reindex(alloc, &body))
}

/// Whether the field at this path is told as unknown.
fn is_unknown(alloc: Global, body: &str, path: &str) -> bool {
    match read(alloc, body) {
        Some(Err(ReindexError::UnknownField(field))) => field.as_str() == path,
        _ => false,
    }
}

/// Whether the field at this path is told as missing or wrong.
fn is_bad(alloc: Global, body: &str, path: &str) -> bool {
    match read(alloc, body) {
        Some(Err(ReindexError::BadReindex(field))) => field.as_str() == path,
        _ => false,
    }
}

/// Whether the field that a row begins with is told as missing or wrong in the body behind it.
fn is_bad_row(alloc: Global, row: &str) -> bool {
    match row.split_once(' ') {
        Some((path, body)) => is_bad(alloc, body, path),
        None => false,
    }
}

fn all_bad(alloc: Global, rows: &str) -> bool {
    for row in rows.lines() {
        if !is_bad_row(alloc, row) {
            return false;
        }
    }
    true
}

/// Whether a body has a source and so many documents a batch, and this destination.
fn reads(alloc: Global, body: &str, source: &str, batch: u32) -> bool {
    match read(alloc, body) {
        Some(Ok(body)) => body.source.as_str() == source
            && body.dest.as_str() == "b"
            && body.batch == batch,
        _ => false,
    }
}

#[test]
fn a_body_is_read_with_its_defaults(rt: HostRuntime) {
    let body = r#"{"source":{"index":"a"},"dest":{"index":"b"}}"#;
    assert!(rt; reads(rt.alloc(), body, "a", 1000));
}

#[test]
fn a_body_is_read_with_its_size(rt: HostRuntime) {
    let body =
        r#"{"source":{"index":"","size":10000,"query":{"match_all":{}}},"dest":{"index":"b","op_type":"index"}}"#;
    assert!(rt; reads(rt.alloc(), body, "", 10000));
}

#[test]
fn unknown_fields_come_first(rt: HostRuntime) {
    let alloc = rt.alloc();
    assert!(rt; is_unknown(alloc, r#"{"zz":1,"yy":1,"source":{"aa":1}}"#, "yy"));
    let faulty = r#"{"source":{"index":5,"zz":1,"y.y":1},"dest":{"aa":1}}"#;
    assert!(rt; is_unknown(alloc, faulty, "source.y.y"));
    assert!(rt; is_unknown(alloc, r#"{"source":[{"zz":1}],"dest":{"zz":1}}"#, "dest.zz"));
}

const BAD_SOURCES: &str = r#"source {}
source {"source":"a","dest":1}
source.index {"source":{"size":0},"dest":1}
source.index {"source":{"index":["a"]},"dest":1}"#;

#[test]
fn the_source_is_an_object_with_an_index(rt: HostRuntime) {
    assert!(rt; all_bad(rt.alloc(), BAD_SOURCES));
}

const BAD_DESTS: &str = r#"dest {"source":{"index":"a","size":0}}
dest {"source":{"index":"a"},"dest":null}
dest.index {"source":{"index":"a"},"dest":{"op_type":1}}
dest.index {"source":{"index":"a"},"dest":{"index":null}}
dest.index {"source":{"index":"a"},"dest":{"index":"a","op_type":1}}"#;

#[test]
fn the_destination_is_an_object_with_another_index(rt: HostRuntime) {
    assert!(rt; all_bad(rt.alloc(), BAD_DESTS));
}

const BAD_OP_TYPES: &str =
    r#"dest.op_type {"source":{"index":"a","query":1},"dest":{"index":"b","op_type":"create"}}
dest.op_type {"source":{"index":"a"},"dest":{"index":"b","op_type":null}}"#;

#[test]
fn documents_are_only_replaced(rt: HostRuntime) {
    assert!(rt; all_bad(rt.alloc(), BAD_OP_TYPES));
}

/// Whether a query has this fault at this path.
fn is_bad_query(alloc: Global, body: &str, path: &str, fault: QueryFault) -> bool {
    match read(alloc, body) {
        Some(Err(ReindexError::BadQuery { path: told, kind })) => told.as_str() == path
            && kind == fault,
        _ => false,
    }
}

#[test]
fn a_fault_of_the_query_comes_before_the_size(rt: HostRuntime) {
    let body = r#"{"source":{"index":"a","query":{"foo":{}},"size":0},"dest":{"index":"b"}}"#;
    assert!(rt; is_bad_query(rt.alloc(), body, "query.foo", QueryFault::UnknownQuery));
}

const BAD_SIZES: &str = r#"source.size {"source":{"index":"a","size":0},"dest":{"index":"b"}}
source.size {"source":{"index":"a","size":10001},"dest":{"index":"b"}}
source.size {"source":{"index":"a","size":"1"},"dest":{"index":"b"}}
source.size {"source":{"index":"a","size":1.0},"dest":{"index":"b"}}"#;

#[test]
fn a_size_is_a_whole_number_in_its_range(rt: HostRuntime) {
    assert!(rt; all_bad(rt.alloc(), BAD_SIZES));
}

#[test]
fn a_body_that_is_no_object_is_wrong_at_the_empty_path(rt: HostRuntime) {
    assert!(rt; is_bad(rt.alloc(), "[]", "") && is_bad(rt.alloc(), "null", ""));
}

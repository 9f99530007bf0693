//! Where documents lie, and a shard as of its versions.

use crate::phases::source_of;
use shard_docs::{Shard, Written, hash_id, node_of, shard_of, slice_of};
use shared_value::Shared;
use std::alloc::Global;
use task_ids::{Doc, Text};

#[test]
fn hashes_place_documents(rt: HostRuntime) {
    assert!(rt; hash_id(b"") == 0 && hash_id(b"1") == 49 && hash_id(b"ab") == 3105);
    assert!(rt; shard_of(b"ab", 2) == 1 && shard_of(b"1", 2) == 1 && shard_of(b"2", 2) == 0);
    assert!(rt; slice_of(b"ab", 2, 3) == 1);
    assert!(rt; node_of(0, 2) == 1 && node_of(1, 2) == 2 && node_of(2, 2) == 1);
}

/// Writes a document of the id `x` with this source.
fn write(alloc: Global, shard: &mut Shard, source: &str) -> Option<Written> {
    let id = Shared::new(alloc, Text::new(String::from_str(alloc, "x").ok()?)).ok()?;
    let source = source_of(alloc, source)?;
    shard.write(Doc { id, source }).ok()
}

/// The number of the document in a row.
fn number_of(row: Option<&Doc>) -> Option<u64> {
    row?.source.get("v")?.as_u64()
}

/// Whether the two versions of the document are read each as of its own.
fn has_both(shard: &Shard) -> bool {
    number_of(shard.row(1, 0)) == Some(1)
        && number_of(shard.row(2, 1)) == Some(2)
        && shard.row(0, 0).is_none()
        && shard.row(1, 1).is_none()
        && shard.row(2, 0).is_none()
        && shard.row(2, 2).is_none()
}

#[test]
fn a_shard_is_read_as_of_any_version(rt: HostRuntime) {
    let mut shard = Shard::new(rt.alloc());
    assert!(rt; write(rt.alloc(), &mut shard, r#"{"v":1}"#) == Some(Written::Created));
    assert!(rt; write(rt.alloc(), &mut shard, r#"{"v":2}"#) == Some(Written::Updated));
    assert!(rt; shard.version() == 2 && shard.rows() == 2);
    assert!(rt; has_both(&shard));
}

/// Forgets what is dead at a version, or at the newest one where that is lower.
pub(crate) fn purge(shard: &mut Shard, version: u32) -> u32 {
    let newest = shard.version();
    shard.purge(version.min(newest))
}

#[test]
fn a_dead_row_is_forgotten_once(rt: HostRuntime) {
    let mut shard = Shard::new(rt.alloc());
    assert!(rt; write(rt.alloc(), &mut shard, r#"{"v":1}"#) == Some(Written::Created));
    assert!(rt; write(rt.alloc(), &mut shard, r#"{"v":2}"#) == Some(Written::Updated));
    assert!(rt; purge(&mut shard, 1) == 0 && has_both(&shard) && shard.has_dead());
    assert!(rt; purge(&mut shard, 2) == 1 && purge(&mut shard, 2) == 0);
    assert!(rt; !shard.has_dead());
    assert!(rt; shard.version() == 2 && shard.rows() == 2);
    assert!(rt; shard.row(2, 0).is_none() && number_of(shard.row(2, 1)) == Some(2));
    assert!(rt; write(rt.alloc(), &mut shard, r#"{"v":3}"#) == Some(Written::Updated));
    assert!(rt; number_of(shard.row(2, 1)) == Some(2) && number_of(shard.row(3, 2)) == Some(3));
    assert!(rt; purge(&mut shard, 3) == 1 && number_of(shard.row(3, 2)) == Some(3));
}

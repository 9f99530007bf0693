//! Rows that nobody can read any more.

use crate::phases::write;
use query_match::{Pick, Scalar, Text, is_key};
use shard_docs::Shard;
use std::alloc::Global;

/// Three ids, which are written in turn, each again and again.
const DOCS: &str = r#"x {"k":1}
y {"k":2}
z {"k":1}"#;

/// The last write of each id is alive, and no other.
fn shows_the_last_three(shard: &Shard, version: u32) -> bool {
    for place in 0..shard.rows() {
        let is_last = place < version && version - place <= 3;
        if shard.row(version, place).is_some() != is_last {
            return false;
        }
    }
    true
}

/// The only place at which a living row has this number at `k`, a field without a dot.
fn only_place(shard: &Shard, k: &Text, number: i128) -> Option<u32> {
    if !is_key(k.as_str()) {
        return None;
    }
    let value = Scalar::Whole(number);
    let pick = Pick {
        field: k,
        value: &value,
    };
    let mut places = [0; 2];
    match shard.candidates(shard.version(), Some(pick), None, &mut places) {
        1 => Some(places[0]),
        _ => None,
    }
}

/// Writes the three documents again, and forgets what is dead at the version before the last. Whether all but the rows that
/// are alive there is forgotten, and the same rows are shown as before.
fn rewrite(alloc: Global, shard: &mut Shard, k: &Text) -> bool {
    for line in DOCS.lines() {
        let _written = write(alloc, shard, line);
    }
    let version = shard.version();
    if version < 6 {
        return shard.purge(version) == 0;
    }
    shard.purge(version - 1) <= 3
        && shows_the_last_three(shard, version - 1)
        && shows_the_last_three(shard, version)
        && only_place(shard, k, 2) == Some(version - 2)
}

#[test]
fn what_is_alive_stays_when_dead_rows_are_forgotten(rt: HostRuntime) {
    let mut shard = Shard::new(rt.alloc());
    let Ok(k) = Text::from_str(rt.alloc(), "k") else {
        assert!(rt; false);
        return;
    };
    for _ in 0..40 {
        assert!(rt; rewrite(rt.alloc(), &mut shard, &k));
    }
    assert!(rt; shard.version() == 120);
    assert!(rt; shard.purge(120) == 1 && shard.purge(120) == 0);
    assert!(rt; shows_the_last_three(&shard, 120));
}

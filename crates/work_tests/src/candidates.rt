//! The rows of a shard that have a value, and the living row of an id.

use crate::phases::write;
use crate::shards::purge;
use query_match::{Pick, Scalar, Text, is_key};
use shard_docs::Shard;
use std::alloc::Global;

/// Two ids, of which the first is written again. The second has its value twice in a list.
const DOCS: &str = r#"x {"k":1}
y {"k":[2,[2,"a"]],"k.k":1,"m":[{"k":1}]}
x {"k":2}"#;

fn shard(alloc: Global) -> Shard {
    let mut shard = Shard::new(alloc);
    for line in DOCS.lines() {
        let _written = write(alloc, &mut shard, line);
    }
    shard
}

/// The first two places above one at which a row that is alive at the version has this number at `k`, a field without a dot.
fn with_number(
    shard: &Shard,
    k: &Text,
    number: i128,
    version: u32,
    after: Option<u32>,
) -> [Option<u32>; 2] {
    if !is_key(k.as_str()) {
        return [None, None];
    }
    let value = Scalar::Whole(number);
    let pick = Pick {
        field: k,
        value: &value,
    };
    let mut places = [0; 2];
    match shard.candidates(version, Some(pick), after, &mut places) {
        0 => [None, None],
        1 => [Some(places[0]), None],
        _ => [Some(places[0]), Some(places[1])],
    }
}

#[test]
fn rows_are_found_by_a_value(rt: HostRuntime) {
    let shard = shard(rt.alloc());
    let Ok(k) = Text::from_str(rt.alloc(), "k") else {
        assert!(rt; false);
        return;
    };
    assert!(rt; with_number(&shard, &k, 2, 3, None) == [Some(1), Some(2)]);
    assert!(rt; with_number(&shard, &k, 2, 3, Some(1)) == [Some(2), None]);
    assert!(rt; with_number(&shard, &k, 2, 2, None) == [Some(1), None]);
    assert!(rt; with_number(&shard, &k, 1, 2, None) == [Some(0), None]);
    assert!(rt; with_number(&shard, &k, 1, 9, None) == [None, None]);
    let mut places = [0; 2];
    assert!(rt; shard.candidates(3, None, None, &mut places) == 2 && places == [1, 2]);
}

#[test]
fn rows_are_found_once_others_are_forgotten(rt: HostRuntime) {
    let mut shard = shard(rt.alloc());
    let Ok(k) = Text::from_str(rt.alloc(), "k") else {
        assert!(rt; false);
        return;
    };
    assert!(rt; purge(&mut shard, 3) == 1);
    assert!(rt; with_number(&shard, &k, 2, 3, None) == [Some(1), Some(2)]);
    assert!(rt; with_number(&shard, &k, 1, 3, None) == [None, None]);
    assert!(rt; purge(&mut shard, 3) == 0);
}

#[test]
fn the_living_row_of_an_id_is_found(rt: HostRuntime) {
    let mut shard = shard(rt.alloc());
    let _forgotten = purge(&mut shard, 3);
    match shard.living(b"x") {
        Some((place, doc)) => assert!(rt; place == 2 && doc.id.get().as_str() == "x"),
        None => assert!(rt; false),
    }
    assert!(rt; shard.living(b"z").is_none() && shard.living(&[255]).is_none());
}

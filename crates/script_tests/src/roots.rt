//! What reindexes ask their roots to do, and which indices they write to.

use command_roots::{dests_of, reindex_ask, reindex_body};
use script_lang::{Command, Mode, read_script};
use std::alloc::Global;
use task_events::ReindexAsk;
use task_ids::Cluster;

const CLUSTER: Cluster = Cluster {
    nodes: 3,
    shards: 2,
    slots: 256,
};

/// Reindexes with and without a fault in their bodies, of known and of unknown indices, and a search.
const SCRIPT: &str = r#"{"search":{"index":"s"}}
{"reindex":{"body":{"source":{"index":"a"},"dest":{"index":"b"}}}}
{"reindex":{"body":{"source":{"index":"a"},"dest":{"index":"c"},"x":1}}}
{"reindex":{"body":{"source":{"index":"a"},"dest":{"index":"a"}}}}
{"reindex":{"body":{"source":{"index":"a","size":0},"dest":{"index":"d"}}}}
{"reindex":{"body":{"source":{"index":"z"},"dest":{"index":""}}}}
{"reindex":{"body":{}}}"#;

/// Whether the reindexes of the script write to these indices, in this order.
fn write_to(alloc: Global, want: &[&str]) -> Option<bool> {
    if SCRIPT.len() > 67_108_864 {
        return None;
    }
    let script = read_script(alloc, SCRIPT.as_bytes(), 2, Mode::Sim, &CLUSTER).ok()?;
    let dests = dests_of(alloc, script.commands.as_slice()).ok()?;
    Some(
        dests
            .iter()
            .map(|dest| dest.as_str())
            .eq(want.iter().copied()),
    )
}

#[test]
fn indices_are_known_of_bodies_without_a_fault(rt: HostRuntime) {
    assert_eq!(rt; write_to(rt.alloc(), &["b", ""]), Some(true));
}

/// What the reindex of a line asks for, in two slices and at a rate of 7.
fn asked(alloc: Global, line: &str) -> Option<ReindexAsk> {
    if line.len() > 67_108_864 {
        return None;
    }
    let script = read_script(alloc, line.as_bytes(), 2, Mode::Sim, &CLUSTER).ok()?;
    match script.commands.as_slice().first() {
        Some(Command::Reindex { body, .. }) => {
            let body = reindex_body(alloc, body).ok()??;
            reindex_ask(alloc, body, 2, Some(7)).ok()
        }
        _ => None,
    }
}

#[test]
fn a_reindex_asks_for_a_copy(rt: HostRuntime) {
    let line = r#"{"reindex":{"body":{"source":{"index":"a","size":3},"dest":{"index":"b"}}}}"#;
    let Some(ask) = asked(rt.alloc(), line) else {
        assert!(rt; false);
        return;
    };
    assert!(rt; ask.source.get().as_str() == "a" && ask.dest.get().as_str() == "b");
    assert!(rt; ask.batch == 3 && ask.slices == 2 && ask.rate == Some(7));
}

//! Documents that are overlaid, changes in conflict, and the pace of batches.

use by_query::{Change, Pace, UpdateShardAsk, UpdateShardWork, overlay};
use serde_json::Value;
use shard_docs::Shard;
use shared_value::Shared;
use std::alloc::{AllocError, Global};
use task_ids::{Doc, DocSource, Items, Keys, Text};
use throttle::Rate;

fn text(alloc: Global, text: &str) -> Option<Shared<Text>> {
    let text = Text::new(String::from_str(alloc, text).ok()?);
    Shared::new(alloc, text).ok()
}

fn source_of(alloc: Global, json: &str) -> Option<DocSource> {
    let value = Value::from_str(alloc, json).ok()?;
    let mut keys = Keys::new(alloc);
    DocSource::new(alloc, value, &mut keys).ok()
}

// What becomes of a source when a set is laid over it.
fn overlaid(alloc: Global, source: &str, set: &str) -> Option<Vec<u8>> {
    let source = source_of(alloc, source)?;
    let set = source_of(alloc, set)?;
    let mut keys = Keys::new(alloc);
    let made = overlay(alloc, &source, &set, &mut keys).ok()?;
    let mut out = Vec::new(alloc);
    made.print(alloc, &mut out).ok()?;
    Some(out)
}

// Whether that is this text.
fn makes(alloc: Global, source: &str, set: &str, made: &str) -> bool {
    match overlaid(alloc, source, set) {
        Some(out) => out.as_slice() == made.as_bytes(),
        None => false,
    }
}

#[test]
fn a_set_is_laid_over_a_source(rt: HostRuntime) {
    let alloc = rt.alloc();
    assert!(rt;
        makes(
            alloc,
            r#"{"n":1,"c":"red"}"#,
            r#"{"z":1}"#,
            r#"{"c":"red","n":1,"z":1}"#
        )
    );
    assert!(rt;
        makes(
            alloc,
            r#"{"c":"red","n":1}"#,
            r#"{"n":5}"#,
            r#"{"c":"red","n":5}"#
        )
    );
    assert!(rt; makes(alloc, r#"{"n":1}"#, "{}", r#"{"n":1}"#));
    assert!(rt;
        makes(
            alloc,
            "{}",
            r#"{"b":null,"a":[1]}"#,
            r#"{"a":[1],"b":null}"#
        )
    );
    // A value is replaced as a whole, and a dot names no field inside.
    assert!(rt;
        makes(
            alloc,
            r#"{"a":{"b":1,"c":2}}"#,
            r#"{"a":{"b":3},"a.c":4}"#,
            r#"{"a":{"b":3},"a.c":4}"#
        )
    );
}

fn write(alloc: Global, shard: &mut Shard, id: &str) -> Option<()> {
    let doc = Doc {
        id: text(alloc, id)?,
        source: source_of(alloc, r#"{"n":1}"#)?,
    };
    shard.write(doc).ok()?;
    Some(())
}

// A change of a document that was read at a place.
fn change(alloc: Global, id: &str, place: u32) -> Option<Change> {
    Some(Change {
        id: text(alloc, id)?,
        place,
        seen: source_of(alloc, r#"{"n":1}"#)?,
        new: source_of(alloc, r#"{"n":2}"#)?,
    })
}

fn work_on(alloc: Global, changes: Vec<Change>) -> Option<UpdateShardWork> {
    let ask = UpdateShardAsk {
        index: text(alloc, "a")?,
        shard: 0,
        changes: Items::from_vec(changes),
    };
    Some(UpdateShardWork::new(alloc, ask.copy().ok()?))
}

// What a turn counts so far: the notes of this turn, and of all turns the documents that were rewritten and the conflicts.
fn turn(work: &mut UpdateShardWork, shard: &mut Shard) -> Option<[u64; 3]> {
    if work.is_done() {
        return None;
    }
    let notes = work.turn(shard).ok()?;
    let counts = work.counts();
    Some([notes.len() as u64, counts.updated, counts.conflicts])
}

// Three documents, of which the first was written again.
fn rewritten(alloc: Global) -> Option<Shard> {
    let mut shard = Shard::new(alloc);
    write(alloc, &mut shard, "x")?;
    write(alloc, &mut shard, "y")?;
    write(alloc, &mut shard, "z")?;
    write(alloc, &mut shard, "x")?;
    Some(shard)
}

#[test]
fn only_what_was_read_is_written(rt: HostRuntime) {
    let alloc = rt.alloc();
    let worked = conflicts(alloc);
    assert!(rt; worked == Some(([2, 2, 4], 6)));
}

// What comes of changes of which the first has seen a dead row, the third one at another place, the fifth a document that was changed before,
// and the last one that is not there; and how many writes there are then.
fn conflicts(alloc: Global) -> Option<([u64; 3], u32)> {
    let mut shard = rewritten(alloc)?;
    let changes = vec![in alloc;
        change(alloc, "x", 0)?,
        change(alloc, "y", 1)?,
        change(alloc, "z", 1)?,
        change(alloc, "x", 3)?,
        change(alloc, "y", 1)?,
        change(alloc, "w", 2)?,
    ]
    .ok()?;
    let mut work = work_on(alloc, changes)?;
    let counted = turn(&mut work, &mut shard)?;
    if !work.is_done() {
        return None;
    }
    Some((counted, shard.version()))
}

#[test]
fn no_change_takes_a_turn(rt: HostRuntime) {
    let alloc = rt.alloc();
    let mut shard = Shard::new(alloc);
    let Some(mut work) = work_on(alloc, Vec::new(alloc)) else {
        assert!(rt; false);
        return;
    };
    assert!(rt; !work.is_done());
    assert!(rt; turn(&mut work, &mut shard) == Some([0, 0, 0]));
    assert!(rt; work.is_done());
}

// So many changes of one document, each as it was read first.
fn changes(alloc: Global, number: usize) -> Option<Vec<Change>> {
    let mut changes = Vec::new(alloc);
    for _ in 0..number {
        changes.push(change(alloc, "x", 0)?).ok()?;
    }
    Some(changes)
}

#[test]
fn a_turn_looks_at_1024_changes(rt: HostRuntime) {
    let counted = two_turns(rt.alloc());
    assert!(rt; counted == Some([[1, 1, 1023], [0, 1, 1024]]));
}

fn two_turns(alloc: Global) -> Option<[[u64; 3]; 2]> {
    let mut shard = Shard::new(alloc);
    write(alloc, &mut shard, "x")?;
    let mut work = work_on(alloc, changes(alloc, 1025)?)?;
    let first = turn(&mut work, &mut shard)?;
    let second = turn(&mut work, &mut shard)?;
    if !work.is_done() {
        return None;
    }
    Some([first, second])
}

#[test]
fn a_faster_rate_counts_at_once(rt: HostRuntime) {
    let mut pace = Pace::new(1, Rate::per_second(1));
    assert!(rt; pace.due().is_none());
    // Two documents at one a second take two seconds, of which 300 ms are spent.
    pace.rest_after(2, 300, 1000);
    assert!(rt; pace.due() == Some(2700));
    pace.rethrottle(Rate::per_second(4));
    assert!(rt; pace.due() == Some(1200));
    // A slower one counts after the batch.
    pace.rethrottle(Rate::per_second(1));
    assert!(rt; pace.due() == Some(1200));
    pace.go_on();
    assert!(rt; pace.due().is_none());
    pace.rest_after(2, 0, 3000);
    assert!(rt; pace.due() == Some(5000));
    // Without a rate nothing is waited.
    pace.rethrottle(Rate::None);
    assert!(rt; pace.due() == Some(3000));
}

//! The documents of a batch, written to a shard.

use crate::phases::source_of;
use reindex::BulkShardWork;
use shard_docs::Shard;
use shared_value::Shared;
use std::alloc::Global;
use task_events::{BulkShardAsk, WriteNote};
use task_ids::{Doc, Items, Text};

/// A document of this id, with the number in its source.
fn doc(alloc: Global, id: &str, number: u32) -> Option<Doc> {
    let id = Shared::new(alloc, Text::new(String::from_str(alloc, id).ok()?)).ok()?;
    let source = format!(in alloc; "{{\"n\":{number}}}").ok()?;
    let source = source_of(alloc, source.as_str())?;
    Some(Doc { id, source })
}

fn ask_for(alloc: Global, docs: Vec<Doc>) -> Option<BulkShardAsk> {
    let dest = Shared::new(alloc, Text::new(String::from_str(alloc, "b").ok()?)).ok()?;
    let docs = Items::from_vec(docs);
    Some(BulkShardAsk {
        dest,
        shard: 1,
        docs,
    })
}

/// Two documents of one id, and one of another.
fn three_docs(alloc: Global) -> Option<Vec<Doc>> {
    let mut docs = Vec::new(alloc);
    docs.push(doc(alloc, "x", 1)?).ok()?;
    docs.push(doc(alloc, "y", 2)?).ok()?;
    docs.push(doc(alloc, "x", 3)?).ok()?;
    Some(docs)
}

fn is_note(note: &WriteNote, created: bool, id: &str) -> bool {
    note.index.get().as_str() == "b"
        && note.shard == 1
        && note.created == created
        && note.id.get().as_str() == id
}

fn are_noted(notes: &[WriteNote]) -> bool {
    match notes {
        [a, b, c] => is_note(a, true, "x") && is_note(b, true, "y") && is_note(c, false, "x"),
        _ => false,
    }
}

#[test]
fn documents_are_written_in_order_and_noted(rt: HostRuntime) {
    let Some(docs) = three_docs(rt.alloc()) else {
        assert!(rt; false);
        return;
    };
    let Some(ask) = ask_for(rt.alloc(), docs) else {
        assert!(rt; false);
        return;
    };
    let mut shard = Shard::new(rt.alloc());
    let mut work = BulkShardWork::new(rt.alloc(), ask);
    assert!(rt; !work.is_done());
    match work.turn(&mut shard) {
        Ok(notes) => assert!(rt; are_noted(notes.as_slice())),
        Err(_) => assert!(rt; false),
    }
    let counts = work.counts();
    assert!(rt; work.is_done() && counts.created == 2 && counts.updated == 1);
    assert!(rt; shard.version() == 3 && shard.row(3, 0).is_none() && shard.row(3, 2).is_some());
}

#[test]
fn without_a_document_there_is_one_turn(rt: HostRuntime) {
    let Some(ask) = ask_for(rt.alloc(), Vec::new(rt.alloc())) else {
        assert!(rt; false);
        return;
    };
    let mut shard = Shard::new(rt.alloc());
    let mut work = BulkShardWork::new(rt.alloc(), ask);
    assert!(rt; !work.is_done());
    match work.turn(&mut shard) {
        Ok(notes) => assert!(rt; notes.is_empty()),
        Err(_) => assert!(rt; false),
    }
    assert!(rt; work.is_done() && shard.version() == 0);
}

//! A slice of a reindex, and a reindex in slices: what they ask for, take and count.

ghost use Rattle.std.specs.Prelude.{◌<◌, ◌≤◌, ◌^◌};

use crate::phases::{source_of, text};
use query_match::Query;
use reindex::{ReindexRoot, Slice};
use shared_value::Shared;
use std::alloc::Global;
use task_events::{Counts, Do, Hit, ReindexAsk, Reply, Request, SearchReply, SliceAsk, Tally};
use task_ids::{Doc, Items, TaskId};

fn task(number: u32) -> TaskId
    requires { (1 ≤ number) × (number ≤ 1048575) }
{
    TaskId { node: 1, number }
}

/// Two documents at a time, from `a` to `b`, at a document a second.
fn ask_for(alloc: Global, slices: u32) -> Option<ReindexAsk>
    requires { (1 ≤ slices) × (slices ≤ 32) }
{
    let source = Shared::new(alloc, text(alloc, "a").ok()?).ok()?;
    let dest = Shared::new(alloc, text(alloc, "b").ok()?).ok()?;
    let query = Query::all(alloc).ok()?;
    Some(ReindexAsk {
        source,
        query,
        batch: 2,
        dest,
        slices,
        rate: Some(1),
    })
}

fn hit(alloc: Global) -> Option<Hit> {
    let id = Shared::new(alloc, text(alloc, "x").ok()?).ok()?;
    let source = source_of(alloc, "{}")?;
    let index = Shared::new(alloc, text(alloc, "a").ok()?).ok()?;
    Some(Hit {
        index,
        doc: Doc { id, source },
        place: 0,
    })
}

/// A page of one document, of three in all.
fn page(alloc: Global) -> Option<Reply> {
    let mut hits = Items::new(alloc);
    hits.push(hit(alloc)?).ok()?;
    let page = SearchReply {
        context: Some(task(3)),
        shards: Items::new(alloc),
        failed: Items::new(alloc),
        total: 3,
        hits,
        last: None,
    };
    Some(Reply::Search(Shared::new(alloc, page).ok()?))
}

fn created(created: u64) -> Counts {
    Counts {
        total: created,
        created,
        updated: 0,
        batches: 0,
        failures: 0,
    }
}

/// Asks for what comes next at a moment, if it asks.
#[tactic(auto, using(reindex::proofs::SliceRuns::slice_may_ask_when))]
fn ask_slice(slice: &mut Slice, ask: u32, now: u64) -> Option<Request> {
    match slice.next(now) {
        Ok(Do::AskNext(request)) => {
            slice.asked(ask, now);
            Some(request)
        }
        _ => None,
    }
}

fn answer_slice(slice: &mut Slice, ask: u32, reply: Reply, now: u64) -> bool
    requires { now < 2 ^ 60 }
{
    slice.takes(ask, &reply) && slice.feed(ask, reply, now).is_ok()
}

#[tactic(auto, using(reindex::proofs::RootRuns::root_may_ask_when))]
fn ask_root(root: &mut ReindexRoot, ask: u32) -> Option<Request> {
    match root.next(0) {
        Ok(Do::AskNext(request)) => {
            root.asked(ask, 0);
            Some(request)
        }
        _ => None,
    }
}

fn answer_root(root: &mut ReindexRoot, ask: u32, reply: Reply) -> bool {
    root.takes(ask, &reply) && root.feed(ask, reply, 0).is_ok()
}

fn is_slice(request: Option<Request>, number: u32) -> bool {
    match request {
        Some(Request::Slice(ask)) => ask.get().slice == number,
        _ => false,
    }
}

fn is_search(request: Option<Request>) -> bool {
    match request {
        Some(Request::Search(_ask)) => true,
        _ => false,
    }
}

/// Whether it is a bulk of so many documents.
fn is_bulk(request: Option<Request>, docs: usize) -> bool {
    match request {
        Some(Request::Bulk(ask)) => ask.get().docs.as_slice().len() == docs,
        _ => false,
    }
}

fn is_page_of(request: Option<Request>, context: TaskId) -> bool {
    match request {
        Some(Request::Scroll(ask)) => ask.get().id == context,
        _ => false,
    }
}

/// Whether it ends with these counts.
fn ends(step: Do, counts: Counts) -> bool {
    match step {
        Do::Finish(Reply::Wrote(done)) => done.get() == counts,
        _ => false,
    }
}

/// That so many documents were created.
fn wrote(alloc: Global, documents: u64) -> Option<Reply> {
    Some(Reply::Wrote(Tally::of(alloc, created(documents)).ok()?))
}

/// That a task was cancelled after so many documents were created.
fn stopped(alloc: Global, documents: u64) -> Option<Reply> {
    Some(Reply::Cancelled {
        task: task(8),
        cancel: 1,
        counts: Tally::of(alloc, created(documents)).ok()?,
    })
}

fn new_slice(alloc: Global) -> Option<Slice> {
    let reindex = ask_for(alloc, 1)?;
    let ask = SliceAsk { reindex, slice: 0 };
    Slice::new(alloc, task(7), &ask, 2).ok()
}

#[test]
fn a_slice_writes_each_page_before_the_next(rt: HostRuntime) {
    let alloc = rt.alloc();
    let Some(mut slice) = new_slice(alloc) else {
        assert!(rt; false);
        return;
    };
    let (Some(first), Some(early), Some(done)) = (page(alloc), wrote(alloc, 1), wrote(alloc, 1))
    else {
        assert!(rt; false);
        return;
    };
    assert!(rt; is_search(ask_slice(&mut slice, 1, 0)));
    assert!(rt; slice.waits(0) && slice.due(0).is_none());
    assert!(rt; !slice.takes(1, &early) && !slice.takes(2, &first));
    assert!(rt; answer_slice(&mut slice, 1, first, 10));
    assert!(rt; is_bulk(ask_slice(&mut slice, 2, 10), 1));
    assert!(rt; answer_slice(&mut slice, 2, done, 500));
    assert!(rt; slice.waits(1009) && slice.due(1009) == Some(1010));
    assert!(rt; ask_slice(&mut slice, 3, 1009).is_none() && !slice.waits(1010));
    assert!(rt; is_page_of(ask_slice(&mut slice, 3, 1010), task(3)));
    assert!(rt; answer_slice(&mut slice, 3, Reply::Rejected { node: 1 }, 1010));
    let counts = Counts {
        total: 3,
        created: 1,
        updated: 0,
        batches: 1,
        failures: 1,
    };
    assert!(rt; slice.counts() == counts);
    match slice.next(1010) {
        Ok(step) => assert!(rt; ends(step, counts)),
        Err(_) => assert!(rt; false),
    }
}

fn new_root(alloc: Global) -> Option<ReindexRoot> {
    let ask = ask_for(alloc, 2)?;
    ReindexRoot::new(alloc, task(7), &ask, 2).ok()
}

#[test]
fn slices_answer_in_any_order(rt: HostRuntime) {
    let (Some(mut root), Some(done), Some(stopped)) = (
        new_root(rt.alloc()),
        wrote(rt.alloc(), 5),
        stopped(rt.alloc(), 2),
    ) else {
        assert!(rt; false);
        return;
    };
    assert!(rt; is_slice(ask_root(&mut root, 1), 0) && is_slice(ask_root(&mut root, 2), 1));
    assert!(rt; root.waits(0) && root.due(0).is_none());
    assert!(rt; answer_root(&mut root, 2, done));
    assert!(rt; root.waits(0) && answer_root(&mut root, 1, stopped));
    let counts = Counts {
        failures: 1,
        ..created(7)
    };
    assert!(rt; !root.waits(0) && root.counts() == counts);
    match root.next(0) {
        Ok(step) => assert!(rt; ends(step, counts)),
        Err(_) => assert!(rt; false),
    }
}

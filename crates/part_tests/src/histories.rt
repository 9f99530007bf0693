//! The text of one event, into bytes, a copy of a request, which no command makes yet, and the summary of a history.

use event_text::print_event;
use shared_value::Shared;
use std::alloc::{AllocError, Global};
use task_events::{Event, FetchAsk, History, Outcome, Reply, Request, Summary, Tally};
use task_ids::{Items, TaskId, Text};

/// Whether this text is told of a refusal.
fn tells(alloc: Global, wanted: &[u8]) -> bool {
    let task = TaskId {
        node: 2,
        number: 17,
    };
    let mut out = Vec::new(alloc);
    let printed = print_event(&Event::Refuse { task, cancel: 4 }, "too slow", &mut out);
    printed.is_ok() && out.as_slice() == wanted
}

#[test]
fn tells_a_refusal_with_its_reason(rt: HostRuntime) {
    assert!(rt; tells(rt.alloc(), b"refuse n2:17 4 too slow"));
}

/// A request for two documents of one shard.
fn request(alloc: Global) -> Result<Request, AllocError> {
    let mut places = Items::new(alloc);
    places.push(3)?;
    places.push(5)?;
    let ask = FetchAsk {
        index: Shared::new(alloc, Text::new(String::from_str(alloc, "books")?))?,
        shard: 1,
        version: 7,
        places,
    };
    Ok(Request::Fetch(Shared::new(alloc, ask)?))
}

/// Whether the copy of a request asks the same.
fn is_copied(request: &Request) -> bool {
    let (Request::Fetch(asked), Ok(Request::Fetch(copied))) = (request, request.copy()) else {
        return false;
    };
    let (asked, copied) = (asked.get(), copied.get());
    copied.index.get().as_str() == asked.index.get().as_str()
        && copied.shard == asked.shard
        && copied.version == asked.version
        && copied.places.as_slice() == asked.places.as_slice()
}

#[test]
fn copies_a_request(rt: HostRuntime) {
    let asked = request(rt.alloc());
    assert!(rt; asked.is_ok_and(|it| is_copied(&it)));
}

/// A history of a task with two children, of which one writes a document and is cancelled, and one is refused.
fn cut_short(alloc: Global) -> Option<History> {
    let name = Shared::new(alloc, Text::new(String::from_str(alloc, "books").ok()?)).ok()?;
    let root = TaskId { node: 1, number: 1 };
    let first = TaskId { node: 2, number: 1 };
    let second = TaskId { node: 2, number: 2 };
    let mut history = History::new(alloc);
    history
        .push(Event::Root {
            command: 1,
            task: root,
        })
        .ok()?;
    history
        .push(Event::Put {
            task: first,
            parent: root,
            ask: 1,
        })
        .ok()?;
    history.push(Event::Pass { task: first }).ok()?;
    history
        .push(Event::Write {
            index: name.copy().ok()?,
            shard: 0,
            outcome: Outcome::Created,
            id: name,
        })
        .ok()?;
    history
        .push(Event::Put {
            task: second,
            parent: root,
            ask: 2,
        })
        .ok()?;
    history
        .push(Event::BanPut {
            node: 2,
            parent: root,
            cancel: 2,
        })
        .ok()?;
    history
        .push(Event::Refuse {
            task: second,
            cancel: 2,
        })
        .ok()?;
    history
        .push(Event::End {
            task: first,
            reply: Reply::cancelled(first, 2),
        })
        .ok()?;
    history
        .push(Event::End {
            task: root,
            reply: Reply::Wrote(Tally::none()),
        })
        .ok()?;
    history
        .push(Event::BanGone {
            node: 2,
            parent: root,
        })
        .ok()?;
    Some(history)
}

#[test]
fn sums_a_history_up(rt: HostRuntime) {
    let wanted = Summary {
        bans: 1,
        cancelled: 1,
        ended: 2,
        refused: 1,
        tasks: 3,
        unbans: 1,
        writes: 1,
    };
    let history = cut_short(rt.alloc());
    assert!(rt; history.is_some_and(|it| it.summary() == wanted));
}

//! A page of a search, over the shards of its context.

ghost use Rattle.std.specs.Prelude.{◌≡◌, ◌+◌, true};
ghost use Rattle.search_phase.specs.Searching.{is_above};

use crate::phases::{by_n, hits_in, text, top_in, write};
use search_phase::{
    Context, HitKey, RootPlan, SearchAsk, SearchReply, SearchRoot, ShardAsk, ShardCount,
    ShardCounts,
};
use shard_docs::Shard;
use shared_value::Shared;
use std::alloc::Global;
use task_events::{AnsweredRequest, Reply, Request};
use task_ids::TaskId;

/// The documents of three shards, with an id and a source a line.
const DOCS: [&str; 3] = [
    r#"a {"n":3}
b {"n":1}
c {"n":0}"#,
    r#"d {"n":2}
e {"n":5}
d {"n":9}"#,
    r#"f {"n":4}"#,
];

/// A context keeps the rows of the first two lines of each shard.
const KEPT: u32 = 2;

fn shard(alloc: Global, docs: &str) -> Shard {
    let mut shard = Shard::new(alloc);
    for line in docs.lines() {
        let _written = write(alloc, &mut shard, line);
    }
    shard
}

/// The documents.
fn shards(alloc: Global) -> Option<Vec<Shard>> {
    let mut shards = Vec::new(alloc);
    for docs in &DOCS {
        shards.push(shard(alloc, docs)).ok()?;
    }
    Some(shards)
}

/// A search by `n`.
fn ask(alloc: Global) -> Option<SearchAsk> {
    let mut body = by_n(alloc)?;
    body.size = 2;
    Some(SearchAsk {
        index: Shared::new(alloc, text(alloc, "i").ok()?).ok()?,
        body: Shared::new(alloc, body).ok()?,
        scroll: Some(60_000),
        slice: None,
        owner: None,
    })
}

/// The key of `d`, which is the second row.
fn cursor(alloc: Global, shards: &[Shard], ask: &SearchAsk) -> Option<HitKey> {
    let query = ShardAsk {
        index: ask.index.copy().ok()?,
        shard: 1,
        body: ask.body.copy().ok()?,
        version: Some(KEPT),
        after: None,
        slice: None,
    };
    let mut keys = top_in(alloc, shards.get(1)?, query)?.keys.into_vec();
    keys.truncate(1);
    keys.pop()
}

fn kept(shard: u32, version: u32, count: u64) -> ShardCount {
    ShardCount {
        shard,
        version,
        count,
    }
}

/// The context of a search that has shown `b` and `d`.
fn context(alloc: Global, shards: &[Shard]) -> Option<Context> {
    let ask = ask(alloc)?;
    let after = cursor(alloc, shards, &ask)?;
    let counts = Vec::from_slice(alloc, &[kept(0, KEPT, 2), kept(1, KEPT, 2), kept(2, 1, 1)]).ok()?;
    Some(Context {
        id: TaskId { node: 1, number: 1 },
        ask: Shared::new(alloc, ask).ok()?,
        shards: ShardCounts::new(counts).ok()?,
        after: Some(after),
        keep_ms: Some(60_000),
        last_ms: 0,
        owner: None,
        busy: None,
    })
}

/// What the shards answer.
fn reply(alloc: Global, shards: &[Shard], request: &Request) -> Option<Reply> {
    match request {
        Request::Query(ask) => {
            let ask = ask.get().copy().ok()?;
            let top = top_in(alloc, shards.get(ask.shard as usize)?, ask)?;
            Some(Reply::Top(Shared::new(alloc, top).ok()?))
        }
        Request::Fetch(ask) => {
            let ask = ask.get().copy().ok()?;
            let hits = hits_in(alloc, shards.get(ask.shard as usize)?, ask)?;
            Some(Reply::Hits(Shared::new(alloc, hits).ok()?))
        }
        _ => None,
    }
}

/// Asks for what comes next, under this number, if there is something to ask for.
fn ask_next(root: &mut SearchRoot, number: u32) -> Option<Request>
    requires { is_above number root.old.asked ≡ true }
    ensures { is_above (number + 1) root.new.asked ≡ true }
{
    let Ok(RootPlan::Ask(request)) = root.plan() else {
        return None;
    };
    root.asked(number);
    Some(request)
}

/// Asks for what comes next, under this number, and takes the answer, if there is something to ask for.
fn step(alloc: Global, root: &mut SearchRoot, shards: &[Shard], number: u32) -> Option<()>
    requires { is_above number root.old.asked ≡ true }
    ensures { is_above (number + 1) root.new.asked ≡ true }
{
    let request = ask_next(root, number)?;
    let reply = reply(alloc, shards, &request)?;
    if !root.takes(number, &reply) {
        return None;
    }
    root.feed(number, reply).ok()
}

/// The answer of a search, once it has nothing more to ask for.
fn finished(root: &SearchRoot) -> Option<SearchReply> {
    match root.plan() {
        Ok(RootPlan::Finish) => root.finish().ok(),
        _ => None,
    }
}

/// The page of the context: it asks for three queries and two fetches.
fn page(alloc: Global) -> Option<SearchReply> {
    let shards = shards(alloc)?;
    let context = context(alloc, shards.as_slice())?;
    let task = TaskId { node: 1, number: 2 };
    let mut root = SearchRoot::new(alloc, task, context.ask.get(), 3, Some(&context)).ok()?;
    for number in 1..6 {
        step(alloc, &mut root, shards.as_slice(), number)?;
    }
    finished(&root)
}

#[test]
fn a_page_shows_the_rows_after_the_cursor(rt: HostRuntime) {
    let Some(page) = page(rt.alloc()) else {
        assert!(rt; false);
        return;
    };
    let hits = page.hits.as_slice();
    assert!(rt; hits.len() == 2);
    assert!(rt; hits[0].doc.id.get().as_str() == "a" && hits[1].doc.id.get().as_str() == "f");
    assert!(rt; page.total == 5 && page.failed.as_slice().is_empty());
    assert!(rt;
        page.last
            .is_some_and(|key| key.shard == 2 && key.place == 0)
    );
    assert!(rt; page.context == Some(TaskId { node: 1, number: 1 }));
}

/// Whether the first two asks of the page each await their own request, and a third awaits none.
fn tells_asks_apart(alloc: Global) -> Option<bool> {
    let shards = shards(alloc)?;
    let context = context(alloc, shards.as_slice())?;
    let task = TaskId { node: 1, number: 2 };
    let mut root = SearchRoot::new(alloc, task, context.ask.get(), 3, Some(&context)).ok()?;
    let first = AnsweredRequest::of(&ask_next(&mut root, 1)?).ok()?;
    let second = AnsweredRequest::of(&ask_next(&mut root, 2)?).ok()?;
    let own = root.asks_for(1, &first) && root.asks_for(2, &second);
    let other = root.asks_for(1, &second) || root.asks_for(2, &first);
    Some(own && !other && !root.asks_for(3, &first))
}

#[test]
fn an_ask_awaits_its_own_request(rt: HostRuntime) {
    assert!(rt; tells_asks_apart(rt.alloc()) == Some(true));
}

//! What the driver of these plays sends.
ghost use Rattle.std.specs.Prelude.{◌≤◌};

use node_link::{Body, Letter, Place, Start};
use query_match::{Query, SearchBody};
use run_facts::{Of, Run};
use shared_value::Shared;
use std::alloc::Global;
use task_events::{Request, SearchAsk};
use task_ids::{Action, Headers, TaskId, Text};

/// The run of these tests. It has each cancellation, and its indices have two shards. Nothing else is known of it.
pub struct Plays;

impl Run for Plays {
    ghost use Rattle.std.specs.Prelude.{[]};
    ghost use Rattle.reply_facts.specs.Settings.{only};

    ghost cancels = { λ _. Unit {0} };

    ghost setting = { only (record { lines = [] }) 2 };
}

/// Its name.
pub type Name = Of<Plays>;

/// Its letters.
pub type Note = Letter<Name>;

/// Five documents of the index `a`.
pub const DOCS: &str = r#"{"index":{"_index":"a","_id":"1"}}
{"n":1}
{"index":{"_index":"a","_id":"2"}}
{"n":2}
{"index":{"_index":"a","_id":"3"}}
{"n":3}
{"index":{"_index":"a","_id":"4"}}
{"n":4}
{"index":{"_index":"a","_id":"5"}}
{"n":5}
"#;

// A search of all documents of the index `a`.
fn ask(alloc: Global) -> Option<SearchAsk> {
    let body = SearchBody {
        query: Query::all(alloc).ok()?,
        sort: query_match::Items::new(alloc),
        from: 0,
        size: 10,
    };
    let index = Text::new(String::from_str(alloc, "a").ok()?);
    Some(SearchAsk {
        index: Shared::new(alloc, index).ok()?,
        body: Shared::new(alloc, body).ok()?,
        scroll: None,
        slice: None,
        owner: None,
    })
}

/// Starts a search as the root of a command.
pub fn search(alloc: Global, command: u32) -> Option<Note>
    requires command { (1 ≤ command) × (command ≤ 65535) }
{
    let ask = Shared::new(alloc, ask(alloc)?).ok()?;
    let place = Place {
        command,
        search: command,
        slice: 0,
        action: Action::Search,
        shard: 0,
    };
    Some(Letter::new(Body::Start(Start {
        place,
        request: Request::Search(ask),
        headers: Headers::none(),
        page: None,
    })))
}

/// Cancels the task of the first node with the number of the cancel, and waits for its end.
pub fn cancel(cancel: u32) -> Note
    requires cancel { (1 ≤ cancel) × (cancel ≤ 65535) }
{
    Letter::new(Body::Cancel {
        cancel,
        task: TaskId {
            node: 1,
            number: cancel,
        },
        wait: true,
    })
}

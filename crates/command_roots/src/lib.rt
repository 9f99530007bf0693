//! What the commands of a script ask their roots to do.
#![tactic(auto)]

mod reindexes;
mod results;

ghost use Rattle.std.specs.Prelude.{◌≡◌, ◌↔◌, true, IfOk, if◌then◌else◌};
ghost use Rattle.query_parse.specs.Bodies.{body_at};
ghost use Rattle.command_roots.specs.Roots.{body_or_none, search_ask, opaque_id_in};

use query_match::SearchBody;
use query_parse::{BodyError, read_body};
pub use reindexes::{dests_of, reindex_ask, reindex_body};
pub use results::TaskFound;
use script_lang::Command;
use shared_value::Shared;
use std::alloc::{AllocError, Global};
use task_events::SearchAsk;
use task_ids::{Body, Headers, Text};

/// Whether a body could not be read for want of memory. Otherwise the fault is one of the body.
fn lacks_memory(fault: &BodyError) -> bool
    ensures { (result ≡ true) ↔ (fault.now ≡ BodyError.Memory) }
{
    matches!(fault, BodyError::Memory)
}

/// The body of a search, unless it has a fault. With scrolls it shows the first hits, at least one. It fails only for want of memory.
pub fn body_of(alloc: Global, body: &Body, scrolls: bool) -> Result<Option<SearchBody>, AllocError>
    ensures { IfOk result (λ found. found ≡ body_or_none (body_at scrolls (if scrolls then 1 else 0) body.now)) }
{
    match read_body(alloc, body.as_json(), scrolls, u32::from(scrolls)) {
        Ok(body) => Ok(Some(body)),
        Err(fault) => {
            let spent = lacks_memory(&fault);
            drop(fault);
            if spent { Err(AllocError) } else { Ok(None) }
        }
    }
}

/// A copy of a text, to be shared.
fn shared_copy(alloc: Global, text: &Text) -> Result<Shared<Text>, AllocError>
    ensures { IfOk result (λ copy. copy ≡ text.now) }
{
    Ok(Shared::new(alloc, text.copy()?)?)
}

/// The search of all documents of an index that match, which opens a context where it has a keep-alive, in milliseconds. It
/// fails only for want of memory.
pub fn search_ask(
    alloc: Global,
    index: &Text,
    scroll: Option<u64>,
    body: SearchBody,
) -> Result<SearchAsk, AllocError>
    ensures { IfOk result (λ ask. ask ≡ search_ask index.now scroll body) }
{
    let (Ok(index), Ok(body)) = (shared_copy(alloc, index), Shared::new(alloc, body)) else {
        return Err(AllocError);
    };
    Ok(SearchAsk {
        index,
        body,
        scroll,
        slice: None,
        owner: None,
    })
}

/// What the request of a command's root carries. It takes no memory, and fails only where the shared text has too many owners.
pub fn headers_of(command: &Command) -> Result<Headers, AllocError>
    ensures { IfOk result (λ headers. headers ≡ record { opaque_id = opaque_id_in command.now }) }
{
    match command {
        Command::Search {
            opaque_id: Some(opaque_id),
            ..
        }
        | Command::Scroll {
            opaque_id: Some(opaque_id),
            ..
        }
        | Command::Reindex {
            opaque_id: Some(opaque_id),
            ..
        } => Ok(Headers {
            opaque_id: Some(opaque_id.copy()?),
        }),
        _ => Ok(Headers::none()),
    }
}

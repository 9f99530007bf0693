//! Searches.

ghost use Rattle.std.specs.Prelude.{◌≡◌, ◌≤◌, false, option_map, Ok};
ghost use Rattle.serde_json.specs.Data.{depth};
ghost use Rattle.serde_json.specs.Read.{max_depth};
ghost use Rattle.serde_json.specs.View.{view};
ghost use Rattle.serde_json.specs.Written.{has_float};
ghost use Rattle.task_ids.specs.Source.{IsSource};
ghost use Rattle.script_lang.specs.Answers.{Reads};
ghost use Rattle.script_lang.specs.Commands as spec;
ghost use Rattle.script_lang.specs.Fields.{seen, body_or_empty};
ghost use Rattle.script_lang.specs.Seen.{search_seen};

use crate::command::Command;
use crate::fields::{
    body_in, both, field, fields_of, node_or_first, optional_keep_alive, optional_text, text_of,
};
use crate::texts::{shared_from, text_from};
use serde_json::Value;
use shard_docs::LineError;
use std::alloc::Global;
use task_ids::{Body, Cause};

/// The fields of a search.
const SEARCH_FIELDS: [&str; 5] = ["index", "node", "scroll", "body", "opaque_id"];

/// A search, as its line says it.
#[derive(Clone, Copy)]
struct SearchParts<'v> {
    index: &'v str,
    node: u32,
    scroll: Option<u64>,
    body: Option<&'v Value>,
    opaque_id: Option<&'v str>,
}

/// The body of a search, an empty object where there is none.
fn body_from(alloc: Global, value: Option<&Value>) -> Result<Body, LineError>
    requires { IsSource (body_or_empty (option_map (λ v. view v.now) value)) }
    ensures { Reads (λ b. b) result (Ok (body_or_empty (option_map (λ v. view v.now) value.entry))) }
{
    match value {
        Some(body) => Ok(Body::new(alloc, body)?),
        None => Ok(Body::empty(alloc)),
    }
}

/// What a search on a cluster of so many nodes says.
#[tactic(auto, unfolding(crate::specs::Commands::search_in))]
fn search_parts(nodes: u32, value: &Value) -> Result<SearchParts<'_>, Cause>
    requires { nodes ≤ 15 }
    ensures { seen search_seen result ≡ spec.search_in nodes (view value.now) }
{
    let fields = fields_of(value, &SEARCH_FIELDS)?;
    let index = text_of(field(fields, "index"));
    let node = node_or_first(nodes, field(fields, "node"));
    let scroll = optional_keep_alive(field(fields, "scroll"));
    let body = body_in(field(fields, "body"));
    let opaque_id = optional_text(field(fields, "opaque_id"));
    let rest = both(scroll, both(body, opaque_id));
    let (index, (node, (scroll, (body, opaque_id)))) = both(index, both(node, rest))?;
    Ok(SearchParts {
        index,
        node,
        scroll,
        body,
        opaque_id,
    })
}

/// A search on a cluster of so many nodes.
pub(crate) fn search_in(alloc: Global, nodes: u32, value: &Value) -> Result<Command, LineError>
    requires nodes { nodes ≤ 15 }
    requires whole { has_float (view value.now) ≡ false }
    requires nests { depth (view value.now) ≤ max_depth }
    ensures { Reads (λ c. c) result (spec.search_in nodes (view value.now)) }
{
    let parts = search_parts(nodes, value)?;
    Ok(Command::Search {
        index: text_from(alloc, parts.index)?,
        node: parts.node,
        scroll: parts.scroll,
        body: body_from(alloc, parts.body)?,
        opaque_id: shared_from(alloc, parts.opaque_id)?,
    })
}

//! Reindexes.

ghost use Rattle.std.specs.Prelude.{◌≡◌, ◌≤◌, false};
ghost use Rattle.serde_json.specs.Data.{depth};
ghost use Rattle.serde_json.specs.Read.{max_depth};
ghost use Rattle.serde_json.specs.View.{view};
ghost use Rattle.serde_json.specs.Written.{has_float};
ghost use Rattle.script_lang.specs.Answers.{Reads};
ghost use Rattle.script_lang.specs.Commands as spec;
ghost use Rattle.script_lang.specs.Fields.{seen};
ghost use Rattle.script_lang.specs.Seen.{reindex_seen};

use crate::command::Command;
use crate::fields::{
    both, field, fields_of, flag_or_false, node_or_first, object_in, optional_text, rate_or_none,
    slices_or_one,
};
use crate::texts::shared_from;
use serde_json::Value;
use shard_docs::LineError;
use std::alloc::Global;
use task_ids::{Body, Cause};

/// The fields of a reindex.
const REINDEX_FIELDS: [&str; 6] = [
    "body",
    "node",
    "slices",
    "requests_per_second",
    "opaque_id",
    "store",
];

/// A reindex, as its line says it.
#[derive(Clone, Copy)]
struct ReindexParts<'v> {
    node: u32,
    body: &'v Value,
    slices: u32,
    rate: Option<u32>,
    opaque_id: Option<&'v str>,
    store: bool,
}

/// What a reindex on a cluster of so many nodes says.
#[tactic(auto, unfolding(crate::specs::Commands::reindex_in))]
fn reindex_parts(nodes: u32, value: &Value) -> Result<ReindexParts<'_>, Cause>
    requires { nodes ≤ 15 }
    ensures { seen reindex_seen result ≡ spec.reindex_in nodes (view value.now) }
{
    let fields = fields_of(value, &REINDEX_FIELDS)?;
    let node = node_or_first(nodes, field(fields, "node"));
    let body = object_in(field(fields, "body"));
    let slices = slices_or_one(field(fields, "slices"));
    let rate = rate_or_none(field(fields, "requests_per_second"));
    let opaque_id = optional_text(field(fields, "opaque_id"));
    let store = flag_or_false(field(fields, "store"));
    let rest = both(slices, both(rate, both(opaque_id, store)));
    let (node, (body, (slices, (rate, (opaque_id, store))))) = both(node, both(body, rest))?;
    Ok(ReindexParts {
        node,
        body,
        slices,
        rate,
        opaque_id,
        store,
    })
}

/// A reindex on a cluster of so many nodes.
pub(crate) fn reindex_in(alloc: Global, nodes: u32, value: &Value) -> Result<Command, LineError>
    requires nodes { nodes ≤ 15 }
    requires whole { has_float (view value.now) ≡ false }
    requires nests { depth (view value.now) ≤ max_depth }
    ensures { Reads (λ c. c) result (spec.reindex_in nodes (view value.now)) }
{
    let parts = reindex_parts(nodes, value)?;
    Ok(Command::Reindex {
        node: parts.node,
        body: Body::new(alloc, parts.body)?,
        slices: parts.slices,
        rate: parts.rate,
        opaque_id: shared_from(alloc, parts.opaque_id)?,
        store: parts.store,
    })
}

//! The filter of a command, each of whose fields may be missing.

ghost use Rattle.std.specs.Prelude.{◌≡◌, Ok};
ghost use Rattle.serde_json.specs.View.{members_view};
ghost use Rattle.script_lang.specs.Answers.{Reads};
ghost use Rattle.script_lang.specs.Fields.{seen};
ghost use Rattle.script_lang.specs.Filters as spec;
ghost use Rattle.script_lang.specs.Seen.{filter_seen};

use crate::fields::{both, field, optional_task, optional_text};
use serde_json::{Map, Value};
use shard_docs::LineError;
use std::alloc::Global;
use task_ids::{Cause, TaskId};
use tasks_api::Filter;

/// A filter, as its line says it.
#[derive(Clone, Copy)]
pub(crate) struct FilterParts<'v> {
    pub actions: Option<&'v str>,
    pub nodes: Option<&'v str>,
    pub parent: Option<TaskId>,
}

/// Whether a field of a filter is there.
pub(crate) fn has_filter(fields: &Map<String, Value>) -> bool
    ensures { result ≡ spec.has_filter (members_view fields.now.entries) }
{
    field(fields, "actions").is_some()
        || field(fields, "nodes").is_some()
        || field(fields, "parent_task_id").is_some()
}

/// The filter among the fields of a command.
#[tactic(auto, unfolding(crate::specs::Filters::filter_in))]
pub(crate) fn filter_parts(fields: &Map<String, Value>) -> Result<FilterParts<'_>, Cause>
    ensures { seen filter_seen result ≡ spec.filter_in (members_view fields.now.entries) }
{
    let actions = optional_text(field(fields, "actions"));
    let nodes = optional_text(field(fields, "nodes"));
    let parent = optional_task(field(fields, "parent_task_id"));
    let (actions, (nodes, parent)) = both(actions, both(nodes, parent))?;
    Ok(FilterParts {
        actions,
        nodes,
        parent,
    })
}

/// The filter that these are the parts of.
pub(crate) fn filter_from(alloc: Global, parts: FilterParts<'_>) -> Result<Filter, LineError>
    ensures { Reads (λ filter. filter) result (Ok (filter_seen parts.entry)) }
{
    Ok(Filter::read(alloc, parts.actions, parts.nodes, parts.parent)?)
}

//! Lists of tasks.

ghost use Rattle.std.specs.Prelude.{◌≡◌};
ghost use Rattle.serde_json.specs.View.{view};
ghost use Rattle.script_lang.specs.Answers.{Reads};
ghost use Rattle.script_lang.specs.Commands as spec;
ghost use Rattle.script_lang.specs.Fields.{seen};
ghost use Rattle.script_lang.specs.Seen.{list_seen};

use crate::command::Command;
use crate::fields::{both, field, fields_of, flag_or_false, group_or_nodes};
use crate::filters::{FilterParts, filter_from, filter_parts};
use serde_json::Value;
use shard_docs::LineError;
use std::alloc::Global;
use task_ids::Cause;
use tasks_api::GroupBy;

/// The fields of a list.
const LIST_FIELDS: [&str; 5] = ["group_by", "actions", "nodes", "parent_task_id", "detailed"];

/// A list, as its line says it.
#[derive(Clone, Copy)]
struct ListParts<'v> {
    filter: FilterParts<'v>,
    group: GroupBy,
    detailed: bool,
}

/// What a list says.
#[tactic(auto, unfolding(crate::specs::Commands::list_in))]
fn list_parts(value: &Value) -> Result<ListParts<'_>, Cause>
    ensures { seen list_seen result ≡ spec.list_in (view value.now) }
{
    let fields = fields_of(value, &LIST_FIELDS)?;
    let filter = filter_parts(fields);
    let group = group_or_nodes(field(fields, "group_by"));
    let detailed = flag_or_false(field(fields, "detailed"));
    let (filter, (group, detailed)) = both(filter, both(group, detailed))?;
    Ok(ListParts {
        filter,
        group,
        detailed,
    })
}

/// A list of tasks.
pub(crate) fn list_in(alloc: Global, value: &Value) -> Result<Command, LineError>
    ensures { Reads (λ c. c) result (spec.list_in (view value.now)) }
{
    let parts = list_parts(value)?;
    Ok(Command::ListTasks {
        filter: filter_from(alloc, parts.filter)?,
        group: parts.group,
        detailed: parts.detailed,
    })
}

//! One task, as lists show it.

ghost use Rattle.std.specs.Prelude.{◌≡◌, ◌<◌, ◌≤◌, ◌-◌, ◌*◌, ◌^◌, [], ◌∷◌, OnOk, IfOk, map, codes, option_map, string_bytes};
ghost use Rattle.serde_json.specs.View.{view, members_view};
ghost use Rattle.task_ids.specs.TaskId.{task_id_text};
ghost use Rattle.tasks_api.specs.Objects.{with_members, object_with};
ghost use Rattle.tasks_api.specs.Lists.{children_part, description_part, headers_part, parent_part, state_part, place_part, start_part, way, task_json};

use crate::members::{object_value, put_number, put_text};
use crate::names::node_name;
use serde_json::{Map, Value, put};
use shared_value::Shared;
use std::alloc::{AllocError, Global};
use task_ids::{Headers, TaskId, TaskInfo, Text};

/// How a list shows its tasks.
#[derive(Clone, Copy)]
pub(crate) struct Look {
    /// What each task works on is shown too.
    pub(crate) detailed: bool,
    /// The moment, in milliseconds of the script's clock.
    pub(crate) now: u64,
    pub(crate) ghost fits: { now < 2 ^ 43 },
}

/// Puts the tasks below a task, where there are any.
fn put_children(
    alloc: Global,
    members: &mut Map<String, Value>,
    children: Vec<Value>,
) -> Result<(), AllocError>
    ensures { OnOk result (members_view members.new.entries ≡ with_members (members_view members.old.entries) (children_part (map view children.items))) }
{
    if children.is_empty() {
        return Ok(());
    }
    put(members, alloc, "children", Value::Array(children))
}

/// Puts what a task works on, where that is wanted.
fn put_description(
    alloc: Global,
    members: &mut Map<String, Value>,
    detailed: bool,
    description: &Text,
) -> Result<(), AllocError>
    ensures { OnOk result (members_view members.new.entries ≡ with_members (members_view members.old.entries) (description_part detailed description.now)) }
{
    if !detailed {
        return Ok(());
    }
    put_text(alloc, members, "description", description.as_str())
}

/// Puts what a task's request carried.
fn put_opaque_id(
    alloc: Global,
    members: &mut Map<String, Value>,
    opaque_id: &Option<Shared<Text>>,
) -> Result<(), AllocError>
    ensures { OnOk result (members_view members.new.entries ≡ with_members (members_view members.old.entries) (headers_part opaque_id.now)) }
{
    match opaque_id {
        Some(opaque_id) => put_text(alloc, members, "X-Opaque-Id", opaque_id.get().as_str()),
        None => Ok(()),
    }
}

/// What a task's request carried, as an object.
fn headers_value(alloc: Global, headers: &Headers) -> Result<Value, AllocError>
    ensures { IfOk result (λ value. view value ≡ object_with (headers_part headers.now.opaque_id)) }
{
    let mut members = Map::new(alloc);
    put_opaque_id(alloc, &mut members, &headers.opaque_id)?;
    Ok(object_value(members))
}

/// Puts the task that asked for a task, where one did.
fn put_parent(
    alloc: Global,
    members: &mut Map<String, Value>,
    parent: Option<TaskId>,
) -> Result<(), AllocError>
    ensures { OnOk result (members_view members.new.entries ≡ with_members (members_view members.old.entries) (parent_part parent)) }
{
    match parent {
        Some(parent) => {
            let text = id_text(alloc, parent)?;
            put(members, alloc, "parent_task_id", Value::String(text))
        }
        None => Ok(()),
    }
}

/// The one spelling of a task's id.
pub(crate) fn id_text(alloc: Global, task: TaskId) -> Result<String, AllocError>
    ensures { IfOk result (λ text. string_bytes text ≡ task_id_text task) }
{
    format!(in alloc; "n{}:{}", task.node, task.number)
}

/// How a task's request came.
fn way(node: u32, parent: Option<TaskId>) -> &'static str
    ensures { result.now ≡ way node parent }
{
    match parent {
        Some(parent) if parent.node == node => "direct",
        _ => "transport",
    }
}

/// Puts what a task does, and whether it is cancelled.
fn put_state(
    alloc: Global,
    members: &mut Map<String, Value>,
    row: &TaskInfo,
) -> Result<(), AllocError>
    ensures { OnOk result (members_view members.new.entries ≡ with_members (members_view members.old.entries) (state_part row.now)) }
{
    put_text(alloc, members, "action", row.action.text())?;
    put(members, alloc, "cancellable", Value::Bool(true))?;
    put(
        members,
        alloc,
        "cancelled",
        Value::Bool(row.cancelled.is_some()),
    )
}

/// Puts what a task's request carried, and where the task runs.
fn put_place(
    alloc: Global,
    members: &mut Map<String, Value>,
    row: &TaskInfo,
) -> Result<(), AllocError>
    ensures { OnOk result (members_view members.new.entries ≡ with_members (members_view members.old.entries) (place_part row.now)) }
{
    let headers = headers_value(alloc, &row.headers)?;
    put(members, alloc, "headers", headers)?;
    put_number(alloc, members, "id", u64::from(row.id.number))?;
    put_text(alloc, members, "node", node_name(row.id))
}

/// Puts how long a task has run, when it started, and how its request came.
fn put_start(
    alloc: Global,
    members: &mut Map<String, Value>,
    now: u64,
    row: &TaskInfo,
) -> Result<(), AllocError>
    requires { now < 2 ^ 43 }
    ensures { OnOk result (members_view members.new.entries ≡ with_members (members_view members.old.entries) (start_part now row.now)) }
{
    let nanos = now.saturating_sub(row.start_ms) * 1_000_000;
    put_number(alloc, members, "running_time_in_nanos", nanos)?;
    put_number(alloc, members, "start_time_in_millis", row.start_ms)?;
    put_text(alloc, members, "type", way(row.id.node, row.parent))
}

/// A task with the tasks below it.
pub(crate) fn task_value(
    alloc: Global,
    look: Look,
    children: Vec<Value>,
    row: &TaskInfo,
) -> Result<Value, AllocError>
    ensures { IfOk result (λ value. view value ≡ task_json look.detailed look.now (map view children.items) row.now) }
{
    let mut members = Map::new(alloc);
    put_state(alloc, &mut members, row)?;
    put_children(alloc, &mut members, children)?;
    put_description(alloc, &mut members, look.detailed, &row.description)?;
    put_place(alloc, &mut members, row)?;
    put_parent(alloc, &mut members, row.parent)?;
    put_start(alloc, &mut members, look.now, row)?;
    Ok(object_value(members))
}

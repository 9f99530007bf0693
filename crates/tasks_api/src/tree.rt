//! Tasks as values of JSON, with the tasks below them.

ghost use Rattle.std.specs.Prelude.{◌≡◌, [], ◌∷◌, ◌++◌, IfOk, OnOk, map};
ghost use Rattle.serde_json.specs.Data.{array, put};
ghost use Rattle.serde_json.specs.View.{view, members_view, items_of};
ghost use Rattle.task_ids.specs.TaskId.{task_id_text};
ghost use Rattle.tasks_api.specs.Filters.{is_task};
ghost use Rattle.tasks_api.specs.Groups.{group_in};
ghost use Rattle.tasks_api.specs.Lists.{task_json, tree_json, by_id};

use crate::groups::Below;
use crate::members::{array_value, object_value, push_value};
use crate::task::{Look, id_text, task_value};
use serde_json::{Map, Value, put};
use std::alloc::{AllocError, Global};
use task_ids::{TaskId, TaskInfo};

/// A task with the tasks below it, and those below them, down to so many levels.
pub(crate) fn tree_value(
    alloc: Global,
    look: Look,
    below: &Below<'_>,
    levels: usize,
    row: &TaskInfo,
) -> Result<Value, AllocError>
    ensures { IfOk result (λ value. view value
        ≡ tree_json (task_json look.detailed look.now) (λ t. group_in (is_task t) below.now) levels row.now) }
{
    let Some(deeper) = levels.checked_sub(1) else {
        return task_value(alloc, look, Vec::new(alloc), row);
    };
    let Some(rows) = below.get(&row.id) else {
        return task_value(alloc, look, Vec::new(alloc), row);
    };
    let mut children = Vec::new(alloc);
    for child in rows {
        let tree = tree_value(alloc, look, below, deeper, *child)?;
        push_value(&mut children, tree)?;
    }
    task_value(alloc, look, children, row)
}

/// Some tasks as a JSON list, with the tasks below them.
pub(crate) fn listed(
    alloc: Global,
    look: Look,
    below: &Below<'_>,
    levels: usize,
    rows: &[&TaskInfo],
) -> Result<Value, AllocError>
    ensures { IfOk result (λ value. view value ≡ array (items_of (map
        (tree_json (task_json look.detailed look.now) (λ t. group_in (is_task t) below.now) levels) (map (λ row. row.now) rows.now)))) }
{
    let mut values = Vec::new(alloc);
    for row in rows {
        let tree = tree_value(alloc, look, below, levels, *row)?;
        push_value(&mut values, tree)?;
    }
    Ok(array_value(values))
}

/// Puts a task at its id.
fn put_at_id(
    alloc: Global,
    members: &mut Map<String, Value>,
    task: TaskId,
    value: Value,
) -> Result<(), AllocError>
    ensures { OnOk result (members_view members.new.entries ≡ put (task_id_text task) (view value) (members_view members.old.entries)) }
{
    let id = id_text(alloc, task)?;
    put(members, alloc, id.as_str(), value)
}

/// Some tasks as an object, each at its id, with the tasks below them.
pub(crate) fn by_id(
    alloc: Global,
    look: Look,
    below: &Below<'_>,
    levels: usize,
    rows: &[&TaskInfo],
) -> Result<Value, AllocError>
    ensures { IfOk result (λ value. view value ≡ by_id
        (tree_json (task_json look.detailed look.now) (λ t. group_in (is_task t) below.now) levels) (map (λ row. row.now) rows.now)) }
{
    let mut members = Map::new(alloc);
    for row in rows {
        let value = tree_value(alloc, look, below, levels, *row)?;
        put_at_id(alloc, &mut members, row.id, value)?;
    }
    Ok(object_value(members))
}

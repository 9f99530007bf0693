//! The list of the tasks that a filter shows.

ghost use Rattle.std.specs.Prelude.{◌≡◌, ◌<◌, ◌^◌, [], ◌∷◌, nat_eq, map, IfOk, OnOk};
ghost use Rattle.serde_json.specs.View.{view, members_view};
ghost use Rattle.task_ids.specs.Limits.{IsNode};
ghost use Rattle.tasks_api.specs.declared.list.GroupBy.TheVariants as groups;
ghost use Rattle.tasks_api.specs.Groups.{group_in};
ghost use Rattle.tasks_api.specs.Objects.{object_with};
ghost use Rattle.tasks_api.specs.Lists.{list_text, list_json, task_json, task_text, node_json, with_node, shown};

use crate::filter::Filter;
use crate::groups::{by_node, by_parent, push_if, tops};
use crate::members::{object_value, put_text};
use crate::names::name_of;
use crate::task::{Look, task_value};
use crate::tree::{by_id, listed};
use serde_json::{Map, Value, put};
use std::alloc::{AllocError, Global};
use std::collections::HashMap;
use task_ids::TaskInfo;

/// How a list groups its tasks.
#[derive(Clone, Copy, Debug, PartialEq, Eq)]
pub enum GroupBy {
    /// By their nodes.
    Nodes,
    /// Below their parents.
    Parents,
    /// Not at all.
    None,
}

/// The reply to a list of the tasks that a filter shows, as JSON: at this moment, grouped, and detailed or not. Tasks stand in
/// the order of the rows, and as members of an object in the byte order of their ids. It fails only for want of memory.
pub fn list_line(
    alloc: Global,
    rows: &[TaskInfo],
    filter: &Filter,
    group: GroupBy,
    detailed: bool,
    now: u64,
) -> Result<Vec<u8>, AllocError>
    requires { now < 2 ^ 43 }
    ensures { IfOk result (λ line. line.items ≡ list_text group detailed now filter.now rows.now) }
{
    let look = Look { detailed, now };
    let shown = shown(alloc, rows, filter)?;
    let list = list_value(alloc, look, group, shown.as_slice())?;
    let text = list.to_string(alloc);
    drop(list);
    Ok(text?.into_bytes())
}

/// One task, as JSON: as a detailed list shows it at this moment where it stands below no other. It fails only for want of memory.
pub fn task_line(alloc: Global, row: &TaskInfo, now: u64) -> Result<Vec<u8>, AllocError>
    requires { now < 2 ^ 43 }
    ensures { IfOk result (λ line. line.items ≡ task_text now row.now) }
{
    let look = Look {
        detailed: true,
        now,
    };
    let task = task_value(alloc, look, Vec::new(alloc), row)?;
    let text = task.to_string(alloc);
    drop(task);
    Ok(text?.into_bytes())
}

/// The rows that a filter lets through.
fn shown<'a>(
    alloc: Global,
    rows: &'a [TaskInfo],
    filter: &Filter,
) -> Result<Vec<&'a TaskInfo>, AllocError>
    ensures { IfOk result (λ list. map (λ row. row.now) list.items ≡ shown filter.now rows.now) }
{
    let mut shown = Vec::new(alloc);
    for row in rows {
        push_if(&mut shown, filter.matches(row), row)?;
    }
    Ok(shown)
}

/// The list of these tasks.
fn list_value(
    alloc: Global,
    look: Look,
    group: GroupBy,
    rows: &[&TaskInfo],
) -> Result<Value, AllocError>
    ensures { IfOk result (λ value. view value ≡ list_json group (task_json look.detailed look.now) (map (λ row. row.now) rows.now)) }
{
    match group {
        GroupBy::Nodes => by_nodes(alloc, look, rows),
        GroupBy::Parents => by_parents(alloc, look, rows),
        GroupBy::None => plain(alloc, look, rows),
    }
}

/// An object with one member.
fn one_member(alloc: Global, key: &str, value: Value) -> Result<Value, AllocError>
    ensures { IfOk result (λ whole. view whole ≡ object_with ((key.now, view value) ∷ [])) }
{
    let mut members = Map::new(alloc);
    put(&mut members, alloc, key, value)?;
    Ok(object_value(members))
}

fn plain(alloc: Global, look: Look, rows: &[&TaskInfo]) -> Result<Value, AllocError>
    ensures { IfOk result (λ value. view value ≡ list_json groups.None (task_json look.detailed look.now) (map (λ row. row.now) rows.now)) }
{
    let below = HashMap::new(alloc);
    let tasks = listed(alloc, look, &below, 0, rows)?;
    one_member(alloc, "tasks", tasks)
}

fn by_parents(alloc: Global, look: Look, rows: &[&TaskInfo]) -> Result<Value, AllocError>
    ensures { IfOk result (λ value. view value ≡ list_json groups.Parents (task_json look.detailed look.now) (map (λ row. row.now) rows.now)) }
{
    let below = by_parent(alloc, rows)?;
    let tops = tops(alloc, rows)?;
    let tasks = by_id(alloc, look, &below, rows.len(), tops.as_slice())?;
    one_member(alloc, "tasks", tasks)
}

/// The name and the tasks of a node.
fn node_value(alloc: Global, look: Look, node: u32, rows: &[&TaskInfo]) -> Result<Value, AllocError>
    requires { IsNode node }
    ensures { IfOk result (λ value. view value ≡ node_json (task_json look.detailed look.now []) node (map (λ row. row.now) rows.now)) }
{
    let below = HashMap::new(alloc);
    let tasks = by_id(alloc, look, &below, 0, rows)?;
    let mut members = Map::new(alloc);
    put_text(alloc, &mut members, "name", name_of(node))?;
    put(&mut members, alloc, "tasks", tasks)?;
    Ok(object_value(members))
}

/// Puts a node at its name, if it has a task.
fn put_node(
    alloc: Global,
    nodes: &mut Map<String, Value>,
    look: Look,
    groups: &HashMap<u32, Vec<&TaskInfo>>,
    node: u32,
) -> Result<(), AllocError>
    requires { IsNode node }
    ensures { OnOk result (members_view nodes.new.entries ≡ with_node (task_json look.detailed look.now []) node (group_in (nat_eq node) groups.now) (members_view nodes.old.entries)) }
{
    let Some(rows) = groups.get(&node) else {
        return Ok(());
    };
    if rows.is_empty() {
        return Ok(());
    }
    let value = node_value(alloc, look, node, rows.as_slice())?;
    put(nodes, alloc, name_of(node), value)
}

fn by_nodes(alloc: Global, look: Look, rows: &[&TaskInfo]) -> Result<Value, AllocError>
    ensures { IfOk result (λ value. view value ≡ list_json groups.Nodes (task_json look.detailed look.now) (map (λ row. row.now) rows.now)) }
{
    let groups = by_node(alloc, rows)?;
    let mut nodes = Map::new(alloc);
    for node in 1..=15 {
        put_node(alloc, &mut nodes, look, &groups, node)?;
    }
    one_member(alloc, "nodes", object_value(nodes))
}

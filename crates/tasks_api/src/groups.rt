//! Tasks grouped by their parents and by their nodes.

ghost use Rattle.std.specs.Prelude.{◌≡◌, ◌==◌, ℕ, [], ◌∷◌, ◌++◌, if◌then◌else◌, nat_eq, not, false, IfOk, OnOk, map, filter};
ghost use Rattle.std.specs.List.{list_any};
ghost use Rattle.std.specs.HashSet as bag;
ghost use Rattle.std.specs.Option.{option_map_or};
ghost use Rattle.task_ids.specs.declared.task_id.TaskId.{TaskId};
ghost use Rattle.tasks_api.specs.Filters.{is_task, is_child_of};
ghost use Rattle.tasks_api.specs.Groups.{group_in};
ghost use Rattle.tasks_api.specs.Lists.{children_of, on_node, is_top};

use std::alloc::{AllocError, Global};
use std::collections::{HashMap, HashSet};
use std::hash::Hash;
use task_ids::{TaskId, TaskInfo};

/// Tasks below each parent.
pub(crate) type Below<'a> = HashMap<TaskId, Vec<&'a TaskInfo>>;

/// Adds a task to the end of a group. Where memory runs out the groups may lack it.
fn add<'a, K: Eq + Hash + Drop>(
    alloc: Global,
    groups: &mut HashMap<K, Vec<&'a TaskInfo>>,
    key: K,
    row: &'a TaskInfo,
) -> Result<(), AllocError>
    ensures { OnOk result ((other : K) → group_in (K.eq other) groups.new
        ≡ if K.eq key other then group_in (K.eq other) groups.old ++ row.now ∷ [] else group_in (K.eq other) groups.old) }
{
    if let Some(group) = groups.get_mut(&key) {
        group.push(row)?;
        return Ok(());
    }
    let mut group = Vec::new(alloc);
    group.push(row)?;
    groups.insert(key, group)?;
    Ok(())
}

/// Adds a task to those below its parent, if it has one.
fn add_child<'a>(alloc: Global, below: &mut Below<'a>, row: &'a TaskInfo) -> Result<(), AllocError>
    ensures { OnOk result ((t : TaskId) → group_in (is_task t) below.new
        ≡ if is_child_of t row.now.parent then group_in (is_task t) below.old ++ row.now ∷ [] else group_in (is_task t) below.old) }
{
    match row.parent {
        Some(parent) => add(alloc, below, parent, row),
        None => Ok(()),
    }
}

/// The tasks below each parent, in their order.
pub(crate) fn by_parent<'a>(alloc: Global, rows: &[&'a TaskInfo]) -> Result<Below<'a>, AllocError>
    ensures { IfOk result (λ below. (t : TaskId) → group_in (is_task t) below ≡ children_of (map (λ row. row.now) rows.now) t) }
{
    let mut below = HashMap::new(alloc);
    for row in rows {
        add_child(alloc, &mut below, *row)?;
    }
    Ok(below)
}

/// The tasks on each node, in their order.
pub(crate) fn by_node<'a>(
    alloc: Global,
    rows: &[&'a TaskInfo],
) -> Result<HashMap<u32, Vec<&'a TaskInfo>>, AllocError>
    ensures { IfOk result (λ groups. (node : ℕ) → group_in (nat_eq node) groups ≡ on_node node (map (λ row. row.now) rows.now)) }
{
    let mut groups = HashMap::new(alloc);
    for row in rows {
        add(alloc, &mut groups, row.id.node, *row)?;
    }
    Ok(groups)
}

/// The ids of some tasks.
fn ids_of(alloc: Global, rows: &[&TaskInfo]) -> Result<HashSet<TaskId>, AllocError>
    ensures { IfOk result (λ ids. (t : TaskId) → bag.contains is_task ids t ≡ list_any (λ row. is_task t row.id) (map (λ row. row.now) rows.now)) }
{
    let mut ids = HashSet::new(alloc);
    for row in rows {
        ids.insert(row.id)?;
    }
    Ok(ids)
}

/// Adds a task to a list, if it is wanted there.
pub(crate) fn push_if<'a>(
    rows: &mut Vec<&'a TaskInfo>,
    wanted: bool,
    row: &'a TaskInfo,
) -> Result<(), AllocError>
    ensures { OnOk result (map (λ r. r.now) rows.new.items
        ≡ if wanted then map (λ r. r.now) rows.old.items ++ row.now ∷ [] else map (λ r. r.now) rows.old.items) }
{
    if wanted {
        rows.push(row)?;
    }
    Ok(())
}

/// Whether a task's parent is not among some ids.
fn is_top(ids: &HashSet<TaskId>, parent: Option<TaskId>) -> bool
    ensures { result ≡ not (option_map_or (λ t. bag.contains is_task ids.now t) parent false) }
{
    match parent {
        Some(parent) => !ids.contains(&parent),
        None => true,
    }
}

/// The tasks whose parents are not among them.
pub(crate) fn tops<'a>(
    alloc: Global,
    rows: &[&'a TaskInfo],
) -> Result<Vec<&'a TaskInfo>, AllocError>
    ensures { IfOk result (λ tops. map (λ row. row.now) tops.items
        ≡ filter (λ row. is_top (map (λ row. row.now) rows.now) row) (map (λ row. row.now) rows.now)) }
{
    let ids = ids_of(alloc, rows)?;
    let mut tops = Vec::new(alloc);
    for row in rows {
        push_if(&mut tops, is_top(&ids, row.parent), *row)?;
    }
    Ok(tops)
}

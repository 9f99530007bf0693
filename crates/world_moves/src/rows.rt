//! The live tasks as a task list shows them, and those of one parent.

ghost use Rattle.std.specs.Prelude.{◌≡◌, ◌++◌, true, find, map, IfOk, IfErr, OnOk};
ghost use Rattle.std.specs.List.{flat_map};
ghost use Rattle.command_roots.specs.Roots.{rows_of, scripted};
ghost use Rattle.std.specs.Option.{option_copied};
ghost use Rattle.task_events.specs.TaskRows.{row_of};
ghost use Rattle.task_events.specs.Tasks.{is_live};
ghost use Rattle.tasks_api.specs.Filters.{is_child_of, is_task};
ghost use Rattle.tasks_api.specs.Lists.{shown};
ghost use Rattle.world_moves.specs.Cancels.{targets};
ghost use Rattle.world_moves.specs.Listings.{children_among};
ghost use Rattle.world_moves.specs.Ties.{IsTied};

use crate::state::State;
use std::alloc::{AllocError, Global};
use task_events::Stop;
use task_ids::{TaskId, TaskInfo};
use task_table::TaskTable;
use tasks_api::Filter;

/// Adds copies of those of some rows that a filter lets through.
fn add_rows(found: &mut Vec<TaskInfo>, rows: &[TaskInfo], wanted: &Filter) -> Result<(), AllocError>
    ensures { OnOk result (found.new.items ≡ found.old.items ++ shown wanted.now rows.now) }
{
    for row in rows {
        if wanted.matches(row) {
            found.push(row.copy()?)?;
        }
    }
    Ok(())
}

/// Adds copies of the rows of a table that a filter lets through.
fn add_live(found: &mut Vec<TaskInfo>, table: &TaskTable, wanted: &Filter) -> Result<(), AllocError>
    ensures { OnOk result (found.new.items ≡ found.old.items ++ shown wanted.now table.now.live) }
{
    let (first, rest) = table.live();
    add_rows(found, first, wanted)?;
    add_rows(found, rest, wanted)
}

/// Adds the ids of those of some rows that a filter lets through.
fn add_ids(found: &mut Vec<TaskId>, rows: &[TaskInfo], wanted: &Filter) -> Result<(), AllocError>
    ensures { OnOk result (found.new.items ≡ found.old.items ++ map (λ row. row.id) (shown wanted.now rows.now)) }
{
    for row in rows {
        if wanted.matches(row) {
            found.push(row.id)?;
        }
    }
    Ok(())
}

/// Adds the ids of the rows of a table that a filter lets through.
fn add_live_ids(
    found: &mut Vec<TaskId>,
    table: &TaskTable,
    wanted: &Filter,
) -> Result<(), AllocError>
    ensures { OnOk result (found.new.items ≡ found.old.items ++ map (λ row. row.id) (shown wanted.now table.now.live)) }
{
    let (first, rest) = table.live();
    add_ids(found, first, wanted)?;
    add_ids(found, rest, wanted)
}

/// Whether a row is that of a child of the task.
fn is_child(row: &TaskInfo, task: TaskId) -> bool
    ensures { result ≡ is_child_of task row.now.parent }
{
    row.parent.is_some_and(|parent| parent == task)
}

/// Adds the ids of those of some rows that are of children of a task.
fn add_children(
    found: &mut Vec<TaskId>,
    rows: &[TaskInfo],
    parent: TaskId,
) -> Result<(), AllocError>
    ensures { OnOk result (found.new.items ≡ found.old.items ++ children_among parent rows.now) }
{
    for row in rows {
        if is_child(row, parent) {
            found.push(row.id)?;
        }
    }
    Ok(())
}

/// The live children of a task in the table of a node, by ascending number. It fails only for want of memory.
pub fn children_in(
    alloc: Global,
    table: &TaskTable,
    parent: TaskId,
) -> Result<Vec<TaskId>, AllocError>
    ensures { IfOk result (λ ids. ids.items ≡ children_among parent table.now.live) }
{
    let (first, rest) = table.live();
    let mut found = Vec::new(alloc);
    add_children(&mut found, first, parent)?;
    add_children(&mut found, rest, parent)?;
    Ok(found)
}

/// The row of a task, among some.
fn row_among(rows: &[TaskInfo], task: TaskId) -> Option<&TaskInfo>
    ensures { option_copied result ≡ find (λ row. is_task task row.id) rows.now }
{
    rows.iter().find(|row| row.id == task)
}

/// The row of a task in the table of its node.
fn row_in(table: &TaskTable, task: TaskId) -> Option<&TaskInfo>
    ensures { option_copied result ≡ find (λ row. is_task task row.id) table.now.live }
{
    let (first, rest) = table.live();
    match row_among(first, task) {
        Some(row) => Some(row),
        None => row_among(rest, task),
    }
}

/// The row of a live task, as a task list shows it.
pub fn row<'s>(state: &'s State<'_>, task: TaskId) -> Option<&'s TaskInfo>
    requires tied { IsTied state.now }
    requires live { is_live task state.now.history ≡ true }
    ensures { option_copied result ≡ row_of (scripted state.now.script.now) task state.now.history }
{
    row_in(&state.tables[task.node as usize - 1], task)
}

/// The rows of all tables that a filter lets through, copied.
fn rows_in(
    alloc: Global,
    tables: &[TaskTable],
    wanted: &Filter,
) -> Result<Vec<TaskInfo>, AllocError>
    ensures { IfOk result (λ rows. rows.items ≡ flat_map (λ table. shown wanted.now table.live) tables.now) }
{
    let mut found = Vec::new(alloc);
    for table in tables {
        add_live(&mut found, table, wanted)?;
    }
    Ok(found)
}

/// Their ids.
fn ids_in(alloc: Global, tables: &[TaskTable], wanted: &Filter) -> Result<Vec<TaskId>, AllocError>
    ensures { IfOk result (λ ids. ids.items ≡ flat_map (λ table. map (λ row. row.id) (shown wanted.now table.live)) tables.now) }
{
    let mut found = Vec::new(alloc);
    for table in tables {
        add_live_ids(&mut found, table, wanted)?;
    }
    Ok(found)
}

/// Copies of the rows of the live tasks that a filter lets through, by ascending id. It fails only for want of memory (`Memory`).
pub fn rows(state: &State<'_>, wanted: &Filter) -> Result<Vec<TaskInfo>, Stop>
    requires tied { IsTied state.now }
    ensures rows { IfOk result (λ rows. rows.items ≡ shown wanted.now (rows_of state.now.cluster state.now.script.now state.now.history)) }
    ensures memory { IfErr result (λ stop. stop ≡ Stop.Memory) }
{
    match rows_in(state.alloc, state.tables.as_slice(), wanted) {
        Ok(rows) => Ok(rows),
        Err(_) => Err(Stop::Memory),
    }
}

/// The live tasks that a filter lets through, by ascending id. It fails only for want of memory (`Memory`).
pub fn matching(state: &State<'_>, wanted: &Filter) -> Result<Vec<TaskId>, Stop>
    requires tied { IsTied state.now }
    ensures ids { IfOk result (λ ids. ids.items ≡ targets state.now.cluster state.now.script.now wanted.now state.now.history) }
    ensures memory { IfErr result (λ stop. stop ≡ Stop.Memory) }
{
    match ids_in(state.alloc, state.tables.as_slice(), wanted) {
        Ok(ids) => Ok(ids),
        Err(_) => Err(Stop::Memory),
    }
}

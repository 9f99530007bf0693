//! The lines of cancels.

ghost use Rattle.std.specs.Prelude.{◌≡◌, [], ◌∷◌, ◌++◌, OnOk, IfOk, map, filter_map};
ghost use Rattle.std.specs.List.{list_any};
ghost use Rattle.serde_json.specs.Data.{array, string};
ghost use Rattle.serde_json.specs.View.{view, items_of};
ghost use Rattle.task_ids.specs.TaskId.{task_id_text};
ghost use Rattle.task_events.specs.Printed.{reply_line};
ghost use Rattle.line_print.specs.Errors.{not_found};
ghost use Rattle.line_print.specs.Lines.{error_line, named_in, finds_none, cancelled, cancel_line};

use crate::errors::{id_value, not_found};
use crate::members::with_member;
use crate::write::{error_line, reply_line};
use serde_json::{Map, Value};
use std::alloc::{AllocError, Global};
use task_events::{Event, Events};
use task_ids::TaskId;

fn named_in(event: &Event) -> Option<TaskId>
    ensures { result ≡ named_in event.now }
{
    match event {
        Event::Cancel { task, .. } => Some(*task),
        _ => None,
    }
}

fn is_not_found(event: &Event) -> bool
    ensures { result ≡ finds_none event.now }
{
    matches!(event, Event::NotFound { .. })
}

fn finds_none(turn: &Events<'_>) -> bool
    ensures { result ≡ list_any finds_none turn.now }
{
    for event in turn.iter() {
        if is_not_found(event) {
            return true;
        }
    }
    false
}

/// Appends a task's id.
fn push_id(alloc: Global, values: &mut Vec<Value>, task: TaskId) -> Result<(), AllocError>
    ensures { OnOk result (map view values.new.items ≡ map view values.old.items ++ string (task_id_text task) ∷ []) }
{
    let id = id_value(alloc, task)?;
    Ok(values.push(id)?)
}

/// The ids of tasks, in order.
pub(crate) fn ids_value(alloc: Global, tasks: &[TaskId]) -> Result<Value, AllocError>
    ensures { IfOk result (λ value. view value ≡ array (items_of (map (λ t. string (task_id_text t)) tasks.now))) }
{
    let mut values = Vec::new(alloc);
    for task in tasks {
        push_id(alloc, &mut values, *task)?;
    }
    Ok(Value::Array(values))
}

/// The tasks that a cancel named, by the events of its turn.
fn named(alloc: Global, turn: &Events<'_>) -> Result<Vec<TaskId>, AllocError>
    ensures { IfOk result (λ tasks. tasks.items ≡ filter_map named_in turn.now) }
{
    let mut tasks = Vec::new(alloc);
    for event in turn.iter() {
        if let Some(task) = named_in(event) {
            tasks.push(task)?;
        }
    }
    Ok(tasks)
}

/// The tasks that a cancel named, and whether it waited.
fn cancelled(alloc: Global, tasks: &[TaskId], wait: bool) -> Result<Value, AllocError>
    ensures { IfOk result (λ value. view value ≡ cancelled tasks.now wait) }
{
    let ids = ids_value(alloc, tasks)?;
    let told = with_member(alloc, Map::new(alloc), "cancelled", ids)?;
    let members = with_member(alloc, told, "waited", Value::Bool(wait))?;
    Ok(Value::Object(members))
}

/// Appends the line of a cancel that found no task.
pub(crate) fn none_line(
    alloc: Global,
    out: &mut Vec<u8>,
    command: u32,
    target: Option<TaskId>,
) -> Result<(), AllocError>
    ensures { OnOk result (out.new.items ≡ out.old.items ++ error_line command (not_found target)) }
{
    let error = not_found(alloc, target)?;
    error_line(alloc, out, command, error)
}

/// Appends the line of a cancel that named these tasks.
pub(crate) fn cancelled_line(
    alloc: Global,
    out: &mut Vec<u8>,
    command: u32,
    tasks: &[TaskId],
    wait: bool,
) -> Result<(), AllocError>
    ensures { OnOk result (out.new.items ≡ out.old.items ++ reply_line command (cancelled tasks.now wait)) }
{
    let reply = cancelled(alloc, tasks, wait)?;
    reply_line(alloc, out, command, reply)
}

/// Appends the line of a cancel that named tasks, by the events of its turn.
fn named_line(
    alloc: Global,
    out: &mut Vec<u8>,
    command: u32,
    wait: bool,
    turn: &Events<'_>,
) -> Result<(), AllocError>
    ensures { OnOk result (out.new.items ≡ out.old.items ++ reply_line command (cancelled (filter_map named_in turn.now) wait)) }
{
    let tasks = named(alloc, turn)?;
    cancelled_line(alloc, out, command, tasks.as_slice(), wait)
}

/// Appends the line of a cancel, by the events of its turn.
pub(crate) fn cancel_line(
    alloc: Global,
    out: &mut Vec<u8>,
    command: u32,
    target: Option<TaskId>,
    wait: bool,
    turn: &Events<'_>,
) -> Result<(), AllocError>
    ensures { OnOk result (out.new.items ≡ out.old.items ++ cancel_line command target wait turn.now) }
{
    if finds_none(turn) {
        none_line(alloc, out, command, target)
    } else {
        named_line(alloc, out, command, wait, turn)
    }
}

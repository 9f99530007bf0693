//! The lines of gets of tasks, and of what is forgotten and listed of their results.

ghost use Rattle.std.specs.Prelude.{◌≡◌, ◌++◌, OnOk, IfOk, Some, None, if◌then◌else◌, option_map, option_and_then};
ghost use Rattle.serde_json.specs.View.{view};
ghost use Rattle.task_events.specs.Tasks.{reply_of};
ghost use Rattle.line_print.specs.declared.note.Note.TheVariants.{Completed};
ghost use Rattle.line_print.specs.Errors.{not_found};
ghost use Rattle.line_print.specs.Lines.{error_line, status_json, running_text, completed_json, completed_task, get_line, forget_line, results_json, results_line, status_text, text_line, wrote_json};
ghost use Rattle.line_print.specs.Looked.{IsReady};

use crate::cancel_lines::ids_value;
use crate::errors::{id_value, not_found};
use crate::list_lines::text_line;
use crate::members::{with_member, with_number};
use crate::note::Note;
use crate::print::{push, push_json};
use crate::reindex_lines::end_json;
use crate::run::Run;
use crate::write::{error_line, reply_line};
use serde_json::{Map, Value};
use std::alloc::{AllocError, Global};
use task_events::Counts;
use task_ids::TaskId;

/// What a reindex has done so far.
fn status_json(alloc: Global, counts: Counts) -> Result<Value, AllocError>
    ensures { IfOk result (λ value. view value ≡ status_json counts) }
{
    let batches = with_number(alloc, Map::new(alloc), "batches", counts.batches)?;
    let created = with_number(alloc, batches, "created", counts.created)?;
    let total = with_number(alloc, created, "total", counts.total)?;
    let updated = with_number(alloc, total, "updated", counts.updated)?;
    Ok(Value::Object(updated))
}

/// Appends what a task has done so far as a member of an object, where that is known.
fn push_status(alloc: Global, out: &mut Vec<u8>, status: Option<Counts>) -> Result<(), AllocError>
    ensures { OnOk result (out.new.items ≡ out.old.items ++ status_text status) }
{
    let Some(counts) = status else {
        return Ok(());
    };
    let told = status_json(alloc, counts)?;
    push(out, "\"status\":")?;
    let pushed = push_json(alloc, out, &told);
    drop(told);
    pushed?;
    push(out, ",")
}

/// What a get tells of a live task for which it does not wait.
fn running_text(alloc: Global, task: &[u8], status: Option<Counts>) -> Result<Vec<u8>, AllocError>
    ensures { IfOk result (λ text. text.items ≡ running_text task.now status) }
{
    let mut text = Vec::new(alloc);
    push(&mut text, "{\"completed\":false,")?;
    push_status(alloc, &mut text, status)?;
    push(&mut text, "\"task\":")?;
    text.extend_from_slice(task)?;
    push(&mut text, "}")?;
    Ok(text)
}

/// Appends the line of a get of a live task for which it does not wait.
fn running_line(
    alloc: Global,
    out: &mut Vec<u8>,
    command: u32,
    task: &[u8],
    status: Option<Counts>,
) -> Result<(), AllocError>
    ensures { OnOk result (out.new.items ≡ out.old.items ++ text_line command (running_text task.now status)) }
{
    let text = running_text(alloc, task, status)?;
    text_line(alloc, out, command, text.as_slice())
}

/// What a get tells of a task that has ended, with what was stored of it.
fn completed_json(alloc: Global, task: TaskId, response: Option<Value>) -> Result<Value, AllocError>
    ensures { IfOk result (λ value. view value ≡ completed_json task (option_map view response)) }
{
    let told = with_member(alloc, Map::new(alloc), "completed", Value::Bool(true))?;
    let told = match response {
        Some(response) => with_member(alloc, told, "response", response)?,
        None => told,
    };
    let id = id_value(alloc, task)?;
    Ok(Value::Object(with_member(alloc, told, "task", id)?))
}

/// What a task tells that has ended, where that is stored.
fn response_of(
    alloc: Global,
    run: &Run,
    task: TaskId,
    stored: bool,
) -> Result<Option<Value>, AllocError>
    requires ready { IsReady run.now }
    ensures { IfOk result (λ told. option_map view told
        ≡ (if stored then option_and_then (wrote_json run.now.script.now) (reply_of task run.now.history.now) else None)) }
{
    if !stored {
        return Ok(None);
    }
    match run.end_of(Some(task)) {
        Some(event) => end_json(alloc, run.script, event),
        None => Ok(None),
    }
}

/// Appends the line of a get of a task that has ended, with its reply where that is stored.
fn completed_line(
    alloc: Global,
    out: &mut Vec<u8>,
    run: &Run,
    command: u32,
    task: TaskId,
    stored: bool,
) -> Result<(), AllocError>
    requires ready { IsReady run.now }
    ensures { OnOk result (out.new.items ≡ out.old.items ++ get_line run.now.script.now command (Some (Completed task stored)) (reply_of task run.now.history.now)) }
{
    let response = response_of(alloc, run, task, stored)?;
    let told = completed_json(alloc, task, response)?;
    reply_line(alloc, out, command, told)
}

/// Appends the line of a get that found no task and no result.
fn none_line(
    alloc: Global,
    out: &mut Vec<u8>,
    command: u32,
    task: Option<TaskId>,
) -> Result<(), AllocError>
    ensures { OnOk result (out.new.items ≡ out.old.items ++ error_line command (not_found task)) }
{
    let error = not_found(alloc, task)?;
    error_line(alloc, out, command, error)
}

/// Appends the line of a get, of which was noted what it finds.
pub(crate) fn get_line(
    alloc: Global,
    out: &mut Vec<u8>,
    run: &Run,
    command: u32,
    note: Option<&Note>,
) -> Result<(), AllocError>
    requires ready { IsReady run.now }
    ensures { OnOk result (out.new.items ≡ out.old.items ++ get_line run.now.script.now command (option_map (λ note. note.now) note.entry)
        (option_and_then (λ t. reply_of t run.now.history.now) (completed_task (option_map (λ note. note.now) note.entry)))) }
{
    match note {
        Some(Note::Running { task, status }) => {
            running_line(alloc, out, command, task.as_slice(), *status)
        }
        Some(Note::Completed { task, stored }) => {
            completed_line(alloc, out, run, command, *task, *stored)
        }
        Some(Note::NoResult(task)) => none_line(alloc, out, command, *task),
        _ => Ok(()),
    }
}

/// Appends the line of a forget, of which was noted whether it takes a result away.
pub(crate) fn forget_line(
    alloc: Global,
    out: &mut Vec<u8>,
    command: u32,
    note: Option<&Note>,
) -> Result<(), AllocError>
    ensures { OnOk result (out.new.items ≡ out.old.items ++ forget_line command (option_map (λ note. note.now) note.entry)) }
{
    match note {
        Some(Note::Forgotten(stood)) => {
            let told = with_member(alloc, Map::new(alloc), "forgotten", Value::Bool(*stood))?;
            reply_line(alloc, out, command, Value::Object(told))
        }
        _ => Ok(()),
    }
}

/// The tasks whose results stand.
fn results_json(alloc: Global, tasks: &[TaskId]) -> Result<Value, AllocError>
    ensures { IfOk result (λ value. view value ≡ results_json tasks.now) }
{
    let ids = ids_value(alloc, tasks)?;
    let told = with_member(alloc, Map::new(alloc), "tasks", ids)?;
    Ok(Value::Object(told))
}

/// Appends the line of a list of results, which were noted.
pub(crate) fn results_line(
    alloc: Global,
    out: &mut Vec<u8>,
    command: u32,
    note: Option<&Note>,
) -> Result<(), AllocError>
    ensures { OnOk result (out.new.items ≡ out.old.items ++ results_line command (option_map (λ note. note.now) note.entry)) }
{
    match note {
        Some(Note::Results(tasks)) => {
            let told = results_json(alloc, tasks.as_slice())?;
            reply_line(alloc, out, command, told)
        }
        _ => Ok(()),
    }
}

//! The lines of searches, and of what scrolls have in common with them.

ghost use Rattle.std.specs.Prelude.{◌≡◌, ◌≤◌, ◌++◌, length, OnOk, IfOk, Some, None, option_map, option_and_then, if◌then◌else◌};
ghost use Rattle.serde_json.specs.View.{view};
ghost use Rattle.query_parse.specs.Bodies.{body_at};
ghost use Rattle.command_roots.specs.Known.{is_known};
ghost use Rattle.task_events.specs.Tasks.{reply_of};
ghost use Rattle.task_events.specs.Turns.{events_of};
ghost use Rattle.line_print.specs.Errors.{body_error, task_cancelled};
ghost use Rattle.line_print.specs.Lines as lines;
ghost use Rattle.line_print.specs.Lines.{reason_of, first_in, root_in, full_node_in, started, ending, fault_in, start_refusal, refusal, ended_line, search_line};
ghost use Rattle.line_print.specs.Looked.{IsReady};
ghost use Rattle.line_print.specs.Replies.{shards_told};

use crate::errors;
use crate::run::Run;
use crate::told::reason_of;
use crate::write::{Shards, error_line, hits_line};
use query_parse::{BodyError, read_body};
use script_lang::Command;
use serde_json::Value;
use std::alloc::{AllocError, Global};
use task_events::{Event, Events, Reply};
use task_ids::{Body, TaskId};

fn root_in(event: &Event) -> Option<TaskId>
    ensures { result ≡ root_in event.now }
{
    match event {
        Event::Root { task, .. } => Some(*task),
        _ => None,
    }
}

/// The task that a command started, by the events of its turn.
pub(crate) fn started(turn: &Events<'_>) -> Option<TaskId>
    ensures { result ≡ first_in root_in turn.now }
{
    for event in turn.iter() {
        if let Some(task) = root_in(event) {
            return Some(task);
        }
    }
    None
}

fn full_node_in(event: &Event) -> Option<u32>
    ensures { result ≡ full_node_in event.now }
{
    match event {
        Event::RootRejected { node, .. } => Some(*node),
        _ => None,
    }
}

/// The node that had no slot for a command's task, by the events of its turn.
pub(crate) fn full_node(turn: &Events<'_>) -> Option<u32>
    ensures { result ≡ first_in full_node_in turn.now }
{
    for event in turn.iter() {
        if let Some(node) = full_node_in(event) {
            return Some(node);
        }
    }
    None
}

/// The fault of a search's body as JSON, if it has one. With scrolls it must show the first hits, at least one.
fn body_refusal(alloc: Global, scrolls: bool, body: &Body) -> Result<Option<Value>, AllocError>
    ensures { IfOk result (λ error. option_map view error ≡ option_map body_error (fault_in (body_at scrolls (if scrolls then 1 else 0) body.now))) }
{
    match read_body(alloc, body.as_json(), scrolls, u32::from(scrolls)) {
        Ok(read) => {
            drop(read);
            Ok(None)
        }
        Err(BodyError::Memory) => Err(AllocError),
        Err(fault) => {
            let error = errors::body_error(alloc, &fault);
            drop(fault);
            Ok(Some(error?))
        }
    }
}

/// Why a search or a reindex whose body has no fault has no task, if it has none.
pub(crate) fn start_refusal(
    alloc: Global,
    index: &str,
    known: bool,
    full_node: Option<u32>,
) -> Result<Option<Value>, AllocError>
    ensures { IfOk result (λ error. option_map view error ≡ start_refusal index.now known full_node) }
{
    if !known {
        return Ok(Some(errors::index_not_found(alloc, index)?));
    }
    match full_node {
        Some(node) => Ok(Some(errors::rejected(alloc, node)?)),
        None => Ok(None),
    }
}

/// Why a search has no task, by the events of its turn, if it has none.
pub(crate) fn refusal(
    alloc: Global,
    index: &str,
    scrolls: bool,
    body: &Body,
    known: bool,
    turn: &Events<'_>,
) -> Result<Option<Value>, AllocError>
    ensures { IfOk result (λ error. option_map view error
        ≡ refusal index.now (body_at scrolls (if scrolls then 1 else 0) body.now) known (first_in full_node_in turn.now)) }
{
    match body_refusal(alloc, scrolls, body)? {
        Some(error) => Ok(Some(error)),
        None => start_refusal(alloc, index, known, full_node(turn)),
    }
}

/// Appends the line of a search or a scroll whose task was cancelled.
fn cancelled_line(
    alloc: Global,
    out: &mut Vec<u8>,
    script: &[Command],
    command: u32,
    task: TaskId,
    cancel: u32,
) -> Result<(), AllocError>
    ensures { OnOk result (out.new.items
        ≡ out.old.items ++ lines.error_line command (task_cancelled (reason_of script.now cancel) task)) }
{
    let error = errors::task_cancelled(alloc, reason_of(script, cancel), task)?;
    error_line(alloc, out, command, error)
}

/// Appends the line of a search or a scroll whose task ended with a reply.
pub(crate) fn replied_line(
    alloc: Global,
    out: &mut Vec<u8>,
    shards: Shards,
    script: &[Command],
    command: u32,
    reply: &Reply,
) -> Result<(), AllocError>
    ensures { OnOk result (out.new.items
        ≡ out.old.items ++ ended_line (shards_told shards) script.now command (Some reply.now)) }
{
    match reply {
        Reply::Search(reply) => hits_line(alloc, out, shards, command, reply.get()),
        Reply::AllFailed(failed) => {
            let error = errors::all_shards_failed(alloc, failed.get().as_slice())?;
            error_line(alloc, out, command, error)
        }
        Reply::Cancelled { task, cancel, .. } => {
            cancelled_line(alloc, out, script, command, *task, *cancel)
        }
        _ => Ok(()),
    }
}

/// Appends the line of a search or a scroll whose task ended with an event.
fn end_line(
    alloc: Global,
    out: &mut Vec<u8>,
    shards: Shards,
    script: &[Command],
    command: u32,
    event: &Event,
) -> Result<(), AllocError>
    ensures { OnOk result (out.new.items
        ≡ out.old.items ++ ended_line (shards_told shards) script.now command (option_map (λ end. end.1) (ending event.now))) }
{
    match event {
        Event::End { reply, .. } => replied_line(alloc, out, shards, script, command, reply),
        Event::Refuse { task, cancel } => {
            cancelled_line(alloc, out, script, command, *task, *cancel)
        }
        _ => Ok(()),
    }
}

/// Appends the line of a search or a scroll, by how the task that it started ended.
pub(crate) fn task_line(
    alloc: Global,
    out: &mut Vec<u8>,
    run: &Run,
    shards: Shards,
    command: u32,
) -> Result<(), AllocError>
    requires ready { IsReady run.now }
    requires command { command ≤ length run.now.script.now }
    ensures { OnOk result (out.new.items ≡ out.old.items ++ ended_line (shards_told shards) run.now.script.now command
        (option_and_then (λ t. reply_of t run.now.history.now) (started command run.now.history.now))) }
{
    match run.end_of(started(run.turn(command as usize))) {
        Some(event) => end_line(alloc, out, shards, run.script, command, event),
        None => Ok(()),
    }
}

/// Appends the line of a search.
pub(crate) fn search_line(
    alloc: Global,
    out: &mut Vec<u8>,
    run: &Run,
    command: u32,
    index: &str,
    scrolls: bool,
    body: &Body,
) -> Result<(), AllocError>
    requires ready { IsReady run.now }
    requires command { command ≤ length run.now.script.now }
    ensures { OnOk result (out.new.items ≡ out.old.items ++ search_line (λ reply. run.now.cluster.now.shards) run.now.script.now command
        (refusal index.now (body_at scrolls (if scrolls then 1 else 0) body.now) (is_known run.now.corpus.now run.now.script.now index.now) (first_in full_node_in (events_of command run.now.history.now)))
        (option_and_then (λ t. reply_of t run.now.history.now) (started command run.now.history.now))) }
{
    let turn = run.turn(command as usize);
    let known = run.known.contains(index);
    match refusal(alloc, index, scrolls, body, known, turn)? {
        Some(error) => error_line(alloc, out, command, error),
        None => {
            let shards = Shards::OfIndex(run.cluster.shards);
            task_line(alloc, out, run, shards, command)
        }
    }
}

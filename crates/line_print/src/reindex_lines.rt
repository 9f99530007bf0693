//! The lines of reindexes.

ghost use Rattle.std.specs.Prelude.{◌≡◌, ◌≤◌, ◌++◌, length, OnOk, IfOk, Some, option_map, option_and_then};
ghost use Rattle.serde_json.specs.View.{view};
ghost use Rattle.query_parse.specs.Reindexes.{reindex_at};
ghost use Rattle.command_roots.specs.Known.{is_known};
ghost use Rattle.task_events.specs.Printed.{reply_line};
ghost use Rattle.task_events.specs.Tasks.{reply_of};
ghost use Rattle.task_events.specs.Turns.{events_of};
ghost use Rattle.line_print.specs.Lines.{reason_of, first_in, full_node_in, started, ending, reindex_refusal, done_json, cancelled_json, wrote_json, wrote_line, reindex_line};
ghost use Rattle.line_print.specs.Looked.{IsReady};

use crate::errors;
use crate::members::{with_number, with_text};
use crate::run::Run;
use crate::searches::{full_node, start_refusal, started};
use crate::told::reason_of;
use crate::write::{error_line, reply_line};
use query_parse::{ReindexError, read_reindex};
use script_lang::Command;
use serde_json::{Map, Value};
use std::alloc::{AllocError, Global};
use task_events::{Counts, Event, Events, Reply};
use task_ids::Body;

/// Why a reindex has no task, by the events of its turn, if it has none.
fn refusal(
    alloc: Global,
    run: &Run,
    body: &Body,
    turn: &Events<'_>,
) -> Result<Option<Value>, AllocError>
    requires { IsReady run.now }
    ensures { IfOk result (λ error. option_map view error
        ≡ reindex_refusal (is_known run.now.corpus.now run.now.script.now) (reindex_at body.now) (first_in full_node_in turn.now)) }
{
    match read_reindex(alloc, body.as_json()) {
        Ok(read) => {
            let source = read.source.as_str();
            let error = start_refusal(alloc, source, run.known.contains(source), full_node(turn));
            drop(read);
            error
        }
        Err(ReindexError::Memory) => Err(AllocError),
        Err(fault) => {
            let error = errors::reindex_error(alloc, &fault);
            drop(fault);
            Ok(Some(error?))
        }
    }
}

/// What a reindex has done.
fn done_json(alloc: Global, counts: Counts) -> Result<Value, AllocError>
    ensures { IfOk result (λ value. view value ≡ done_json counts) }
{
    let batches = with_number(alloc, Map::new(alloc), "batches", counts.batches)?;
    let created = with_number(alloc, batches, "created", counts.created)?;
    let failures = with_number(alloc, created, "failures", counts.failures)?;
    let total = with_number(alloc, failures, "total", counts.total)?;
    let updated = with_number(alloc, total, "updated", counts.updated)?;
    Ok(Value::Object(updated))
}

/// What a reindex had done when it was cancelled for this reason.
fn cancelled_json(alloc: Global, reason: &str, counts: Counts) -> Result<Value, AllocError>
    ensures { IfOk result (λ value. view value ≡ cancelled_json reason.now counts) }
{
    let batches = with_number(alloc, Map::new(alloc), "batches", counts.batches)?;
    let canceled = with_text(alloc, batches, "canceled", reason)?;
    let created = with_number(alloc, canceled, "created", counts.created)?;
    let total = with_number(alloc, created, "total", counts.total)?;
    let updated = with_number(alloc, total, "updated", counts.updated)?;
    Ok(Value::Object(updated))
}

/// What a reindex tells that ended with a reply.
fn wrote_json(alloc: Global, script: &[Command], reply: &Reply) -> Result<Option<Value>, AllocError>
    ensures { IfOk result (λ told. option_map view told ≡ wrote_json script.now reply.now) }
{
    match reply {
        Reply::Wrote(counts) => Ok(Some(done_json(alloc, counts.get())?)),
        Reply::Cancelled { cancel, counts, .. } => {
            let reason = reason_of(script, *cancel);
            Ok(Some(cancelled_json(alloc, reason, counts.get())?))
        }
        _ => Ok(None),
    }
}

/// What a reindex tells whose task ended with an event.
pub(crate) fn end_json(
    alloc: Global,
    script: &[Command],
    event: &Event,
) -> Result<Option<Value>, AllocError>
    ensures { IfOk result (λ told. option_map view told ≡ option_and_then (wrote_json script.now) (option_map (λ end. end.1) (ending event.now))) }
{
    match event {
        Event::End { reply, .. } => wrote_json(alloc, script, reply),
        Event::Refuse { task, cancel } => {
            let reply = Reply::cancelled(*task, *cancel);
            let told = wrote_json(alloc, script, &reply);
            drop(reply);
            told
        }
        _ => Ok(None),
    }
}

/// Appends the line of a reindex whose task ended with a reply.
pub(crate) fn replied_line(
    alloc: Global,
    out: &mut Vec<u8>,
    script: &[Command],
    command: u32,
    reply: &Reply,
) -> Result<(), AllocError>
    ensures { OnOk result (out.new.items ≡ out.old.items ++ wrote_line script.now command (Some reply.now)) }
{
    match wrote_json(alloc, script, reply)? {
        Some(told) => reply_line(alloc, out, command, told),
        None => Ok(()),
    }
}

/// Appends the line of a reindex whose task ended with an event.
fn end_line(
    alloc: Global,
    out: &mut Vec<u8>,
    script: &[Command],
    command: u32,
    event: &Event,
) -> Result<(), AllocError>
    ensures { OnOk result (out.new.items
        ≡ out.old.items ++ wrote_line script.now command (option_map (λ end. end.1) (ending event.now))) }
{
    match end_json(alloc, script, event)? {
        Some(told) => reply_line(alloc, out, command, told),
        None => Ok(()),
    }
}

/// Appends the line of a reindex.
pub(crate) fn reindex_line(
    alloc: Global,
    out: &mut Vec<u8>,
    run: &Run,
    command: u32,
    body: &Body,
) -> Result<(), AllocError>
    requires ready { IsReady run.now }
    requires command { command ≤ length run.now.script.now }
    ensures { OnOk result (out.new.items ≡ out.old.items ++ reindex_line run.now.script.now command
        (reindex_refusal (is_known run.now.corpus.now run.now.script.now) (reindex_at body.now) (first_in full_node_in (events_of command run.now.history.now)))
        (option_and_then (λ t. reply_of t run.now.history.now) (started command run.now.history.now))) }
{
    let turn = run.turn(command as usize);
    if let Some(error) = refusal(alloc, run, body, turn)? {
        return error_line(alloc, out, command, error);
    }
    match run.end_of(started(turn)) {
        Some(event) => end_line(alloc, out, run.script, command, event),
        None => Ok(()),
    }
}

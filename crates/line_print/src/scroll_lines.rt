//! The lines of scrolls, of clears and of ticks.

ghost use Rattle.std.specs.Prelude.{◌≡◌, ◌≤◌, ◌++◌, length, OnOk, IfOk, option_map, option_and_then};
ghost use Rattle.serde_json.specs.View.{view};
ghost use Rattle.task_events.specs.Printed.{shards_read};
ghost use Rattle.task_events.specs.Tasks.{reply_of};
ghost use Rattle.task_events.specs.Turns.{events_of};
ghost use Rattle.line_print.specs.Lines.{first_in, full_node_in, started, search_line, page_refusal, cleared, clear_line, moment_json, tick_line};
ghost use Rattle.line_print.specs.Looked.{IsReady};

use crate::errors::{context_error, rejected};
use crate::members::{with_member, with_number};
use crate::note::Note;
use crate::run::Run;
use crate::searches::{full_node, task_line};
use crate::write::{Shards, error_line, reply_line};
use serde_json::{Map, Value};
use std::alloc::{AllocError, Global};
use task_events::Events;

/// Why a scroll has no task, by what was noted of it and by the events of its turn, if it has none.
fn page_refusal(
    alloc: Global,
    note: Option<&Note>,
    turn: &Events<'_>,
) -> Result<Option<Value>, AllocError>
    ensures { IfOk result (λ error. option_map view error
        ≡ page_refusal (option_map (λ note. note.now) note.entry) (first_in full_node_in turn.now)) }
{
    if let Some(Note::NoPage { id, error }) = note {
        return Ok(Some(context_error(alloc, *id, *error)?));
    }
    match full_node(turn) {
        Some(node) => Ok(Some(rejected(alloc, node)?)),
        None => Ok(None),
    }
}

/// Appends the line of a scroll.
pub(crate) fn scroll_line(
    alloc: Global,
    out: &mut Vec<u8>,
    run: &Run,
    command: u32,
    note: Option<&Note>,
) -> Result<(), AllocError>
    requires ready { IsReady run.now }
    requires command { command ≤ length run.now.script.now }
    ensures { OnOk result (out.new.items ≡ out.old.items ++ search_line shards_read run.now.script.now command
        (page_refusal (option_map (λ note. note.now) note.entry) (first_in full_node_in (events_of command run.now.history.now)))
        (option_and_then (λ t. reply_of t run.now.history.now) (started command run.now.history.now))) }
{
    match page_refusal(alloc, note, run.turn(command as usize))? {
        Some(error) => error_line(alloc, out, command, error),
        None => task_line(alloc, out, run, Shards::Read, command),
    }
}

/// Whether a clear freed a context.
pub(crate) fn cleared(alloc: Global, freed: bool) -> Result<Value, AllocError>
    ensures { IfOk result (λ value. view value ≡ cleared freed) }
{
    let told = with_number(alloc, Map::new(alloc), "num_freed", u64::from(freed))?;
    let members = with_member(alloc, told, "succeeded", Value::Bool(true))?;
    Ok(Value::Object(members))
}

/// Appends the line of a clear, of which was noted whether it freed a context.
pub(crate) fn clear_line(
    alloc: Global,
    out: &mut Vec<u8>,
    command: u32,
    note: Option<&Note>,
) -> Result<(), AllocError>
    ensures { OnOk result (out.new.items ≡ out.old.items ++ clear_line command (option_map (λ note. note.now) note.entry)) }
{
    match note {
        Some(Note::Freed(freed)) => {
            let reply = cleared(alloc, *freed)?;
            reply_line(alloc, out, command, reply)
        }
        _ => Ok(()),
    }
}

/// The moment by the clock.
pub(crate) fn moment_json(alloc: Global, now: u64) -> Result<Value, AllocError>
    ensures { IfOk result (λ value. view value ≡ moment_json now) }
{
    let told = with_number(alloc, Map::new(alloc), "now", now)?;
    Ok(Value::Object(told))
}

/// Appends the line of a tick, of which the moment after it was noted.
pub(crate) fn tick_line(
    alloc: Global,
    out: &mut Vec<u8>,
    command: u32,
    note: Option<&Note>,
) -> Result<(), AllocError>
    ensures { OnOk result (out.new.items ≡ out.old.items ++ tick_line command (option_map (λ note. note.now) note.entry)) }
{
    match note {
        Some(Note::Moment(now)) => {
            let reply = moment_json(alloc, *now)?;
            reply_line(alloc, out, command, reply)
        }
        _ => Ok(()),
    }
}

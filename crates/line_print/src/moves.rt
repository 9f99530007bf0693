//! The lines of a schedule.

ghost use Rattle.std.specs.Prelude.{◌≡◌, ◌++◌, OnOk, IfOk, option_map, option_and_then};
ghost use Rattle.serde_json.specs.View.{view};
ghost use Rattle.task_events.specs.Printed.{reply_line};
ghost use Rattle.line_print.specs.Lines.{idle_error, moved_line, settled};

use crate::errors::{no_such_message, plain_error};
use crate::members::with_number;
use crate::note::Note;
use crate::told::events_line;
use crate::write::{error_line, reply_line};
use script_lang::Command;
use serde_json::{Map, Value};
use std::alloc::{AllocError, Global};
use task_events::Events;

/// Why a line made nothing happen, if that was noted.
fn idle_error(alloc: Global, note: Option<&Note>) -> Result<Option<Value>, AllocError>
    ensures { IfOk result (λ error. option_map view error ≡ option_and_then idle_error (option_map (λ note. note.now) note.entry)) }
{
    let error = match note {
        Some(Note::NoSuchMessage { in_flight }) => no_such_message(alloc, *in_flight)?,
        Some(Note::NotRunning) => plain_error(alloc, "not_running")?,
        Some(Note::Waiting) => plain_error(alloc, "waiting")?,
        Some(Note::NoListing) => plain_error(alloc, "no_listing")?,
        Some(
            Note::NoPage { .. }
            | Note::Freed(_)
            | Note::Moment(_)
            | Note::Listed(_)
            | Note::Counted(_)
            | Note::Running { .. }
            | Note::Completed { .. }
            | Note::NoResult(_)
            | Note::Forgotten(_)
            | Note::Results(_),
        )
        | None => return Ok(None),
    };
    Ok(Some(error))
}

/// Appends the line of a command that makes something happen, or does not.
pub(crate) fn moved_line(
    alloc: Global,
    out: &mut Vec<u8>,
    script: &[Command],
    command: u32,
    turn: &Events<'_>,
    note: Option<&Note>,
) -> Result<(), AllocError>
    ensures { OnOk result (out.new.items ≡ out.old.items ++ moved_line script.now command turn.now (option_map (λ note. note.now) note.entry)) }
{
    if !turn.is_empty() {
        return events_line(alloc, out, script, command, &[turn.iter()]);
    }
    match idle_error(alloc, note)? {
        Some(error) => error_line(alloc, out, command, error),
        None => Ok(()),
    }
}

/// How many events came.
fn settled(alloc: Global, events: u64) -> Result<Value, AllocError>
    ensures { IfOk result (λ value. view value ≡ settled events) }
{
    let told = with_number(alloc, Map::new(alloc), "events", events)?;
    Ok(Value::Object(told))
}

/// Appends the line of a command that settles or shuffles, with how many events its turn has.
pub(crate) fn settled_line(
    alloc: Global,
    out: &mut Vec<u8>,
    command: u32,
    events: usize,
) -> Result<(), AllocError>
    ensures { OnOk result (out.new.items ≡ out.old.items ++ reply_line command (settled events)) }
{
    let reply = settled(alloc, events as u64)?;
    reply_line(alloc, out, command, reply)
}

//! The texts of events in lines.

ghost use Rattle.std.specs.Prelude.{◌≡◌, ◌++◌, List, OnOk, IfOk, map, flat_map};
ghost use Rattle.json.specs.Print.{quoted};
ghost use Rattle.serde_json.specs.Data.{string};
ghost use Rattle.serde_json.specs.View.{items_of};
ghost use Rattle.serde_json.specs.Written.{items_text};
ghost use Rattle.task_events.specs.declared.event.Event.{Event};
ghost use Rattle.task_events.specs.Printed.{reply_line};
ghost use Rattle.line_print.specs.Lines.{reason_of, reason_for, told, told_all};

use crate::print::{push, push_comma, push_quoted};
use crate::write::push_start;
use event_text::write_event;
use script_lang::Command;
use std::alloc::{AllocError, Global};
use task_events::{Event, Events};

/// The reason of the cancellation of this number, which is that of its command.
pub(crate) fn reason_of(script: &[Command], cancel: u32) -> &str
    ensures { result.now ≡ reason_of script.now cancel }
{
    match script.get((cancel as usize).saturating_sub(1)) {
        Some(Command::Cancel { reason, .. }) => reason.as_str(),
        _ => "",
    }
}

/// The reason that an event's text tells.
fn reason_for<'a>(script: &'a [Command], event: &Event) -> &'a str
    ensures { result.now ≡ reason_for script.now event.now }
{
    match event {
        Event::Refuse { cancel, .. } => reason_of(script, *cancel),
        _ => "",
    }
}

/// Appends the text of an event as a JSON string.
fn push_event(
    alloc: Global,
    out: &mut Vec<u8>,
    script: &[Command],
    event: &Event,
) -> Result<(), AllocError>
    ensures { OnOk result (out.new.items ≡ out.old.items ++ quoted (told script.now event.now)) }
{
    let mut text = String::new(alloc);
    write_event(event, reason_for(script, event), &mut text)?;
    push_quoted(alloc, out, text.as_str())
}

/// Appends the texts of events to a JSON list that is open, and tells whether it has a text by now, as `later` tells of
/// before.
fn push_events(
    alloc: Global,
    out: &mut Vec<u8>,
    script: &[Command],
    later: bool,
    events: &Events<'_>,
) -> Result<bool, AllocError>
    // Whatever comes after them, it goes on as one list.
    ensures { IfOk result (λ has. (more : List Event) →
        out.new.items ++ items_text has (items_of (map (λ event. string (told script.now event)) more))
        ≡ out.old.items ++ items_text later (items_of (map (λ event. string (told script.now event)) (events.now ++ more)))) }
{
    let mut has = later;
    for event in events.iter() {
        push_comma(out, has)?;
        push_event(alloc, out, script, event)?;
        has = true;
    }
    Ok(has)
}

/// Appends the line of a command whose reply is the texts of the events of some turns.
pub(crate) fn events_line(
    alloc: Global,
    out: &mut Vec<u8>,
    script: &[Command],
    command: u32,
    turns: &[Events<'_>],
) -> Result<(), AllocError>
    ensures { OnOk result (out.new.items
        ≡ out.old.items ++ reply_line command (told_all script.now (flat_map (λ turn. turn) turns.now))) }
{
    push_start(alloc, out, command, ",\"reply\":[")?;
    let mut later = false;
    for turn in turns {
        later = push_events(alloc, out, script, later, turn)?;
    }
    push(out, "]}\n")
}

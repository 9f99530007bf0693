// The newest history among printed lines.

use crate::actions::Actions;
use crate::bounds::Bounds;
use crate::event::Event;
use crate::fault::{Fault, MAX_EVENTS};
use serde_json::Value;
use std::alloc::Global;

/// The most characters of a text that is not known which are told.
const MAX_TOLD: usize = 60;

/// The printed line of a `history` command.
#[derive(Drop)]
pub struct HistoryLine {
    /// Its place, from 1.
    line: usize,
    value: Value,
}

/// The newest history of printed lines. Empty lines are passed over.
pub fn newest_history(alloc: Global, bytes: &[u8]) -> Result<HistoryLine, Fault> {
    let mut newest = None;
    take_lines(alloc, bytes, &mut newest)?;
    newest.ok_or(Fault::NoHistory)
}

fn take_lines(alloc: Global, bytes: &[u8], newest: &mut Option<HistoryLine>) -> Result<(), Fault> {
    let mut line = 0_usize;
    for text in bytes.split(|byte| *byte == b'\n') {
        line = line.saturating_add(1);
        if !text.is_empty() {
            take_line(alloc, text, line, newest)?;
        }
    }
    Ok(())
}

/// Takes a printed line in the place of what was newest, if it has a history.
fn take_line(
    alloc: Global,
    text: &[u8],
    line: usize,
    newest: &mut Option<HistoryLine>,
) -> Result<(), Fault> {
    let value = line_value(alloc, text, line)?;
    if is_history(&value) {
        *newest = Some(HistoryLine { line, value });
    }
    Ok(())
}

/// The JSON value of a line.
fn line_value(alloc: Global, text: &[u8], line: usize) -> Result<Value, Fault> {
    match Value::from_slice(alloc, text) {
        Ok(value) => Ok(value),
        Err(error) if error.is_memory() => Err(Fault::Memory),
        Err(_) => Err(Fault::NotJson { line }),
    }
}

/// Whether a printed line is that of a `history` command. Lists of events are printed for moves too, but those begin with the event
/// of a move, and no history does.
pub fn is_history(value: &Value) -> bool {
    match value.get("reply").and_then(Value::as_array) {
        None => false,
        Some(list) => match list.first().and_then(Value::as_str) {
            None => true,
            Some(text) => !Event::parse(text).is_some_and(|event| event.is_of_a_move()),
        },
    }
}

/// What the other lines tell of a history.
#[derive(Drop)]
pub struct Beside {
    pub bounds: Bounds,
    pub actions: Actions,
}

impl Beside {
    /// What printed lines tell of this history among them: of its bounds those before it, and of its tasks all.
    pub fn of(
        alloc: Global,
        bytes: &[u8],
        history: &HistoryLine,
        events: &[Event],
    ) -> Result<Beside, Fault> {
        let mut beside = Beside {
            bounds: Bounds::new(alloc),
            actions: Actions::new(alloc),
        };
        let mut line = 0_usize;
        for text in bytes.split(|byte| *byte == b'\n') {
            line = line.saturating_add(1);
            if !text.is_empty() {
                let value = line_value(alloc, text, line)?;
                if line < history.line {
                    beside.bounds.take(&value, history.texts(), events)?;
                }
                beside.actions.take(alloc, &value)?;
            }
        }
        Ok(beside)
    }
}

impl HistoryLine {
    /// The texts of the events.
    pub fn texts(&self) -> &[Value] {
        match self.value.get("reply").and_then(Value::as_array) {
            Some(list) => list.as_slice(),
            None => &[],
        }
    }

    /// The events, at most as many as a picture shows.
    pub fn events(&self, alloc: Global) -> Result<Vec<Event>, Fault> {
        let texts = self.texts();
        let line = self.line;
        if texts.len() > MAX_EVENTS {
            let events = texts.len();
            return Err(Fault::TooManyEvents { line, events });
        }
        let mut events = Vec::new(alloc);
        for text in texts {
            match text.as_str().and_then(Event::parse) {
                Some(event) => events.push(event)?,
                None => {
                    let event = events.len().saturating_add(1);
                    let text = told(alloc, text)?;
                    return Err(Fault::UnknownEvent { line, event, text });
                }
            }
        }
        Ok(events)
    }
}

/// The beginning of a JSON value, on one line.
fn told(alloc: Global, value: &Value) -> Result<String, Fault> {
    let whole = value.to_string(alloc)?;
    let mut told: String = whole.chars().take(MAX_TOLD).collect(alloc)?;
    if told.len() < whole.len() {
        told.push_str("..")?;
    }
    Ok(told)
}

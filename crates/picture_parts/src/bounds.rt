// Which command of the script made each event.

ghost use Rattle.std.specs.Prelude.{◌≡◌, false, IfSome, vec_len};

use crate::event::Event;
use crate::lines::is_history;
use serde_json::Value;
use std::alloc::{AllocError, Global};

/// The commands of a script, as the printed lines before a history tell them: a line of a move has the events that it made, or how
/// many, and any other command made what its own events tell. Where the lines do not account for each event nothing is known.
#[derive(Drop)]
pub struct Bounds {
    /// The command of each event, as far as the lines have told it.
    commands: Vec<u64>,
    /// Whether a line did not fit the history.
    is_lost: bool,
}

impl Bounds {
    /// Nothing is told yet.
    pub fn new(alloc: Global) -> Bounds {
        Bounds {
            commands: Vec::new(alloc),
            is_lost: false,
        }
    }

    /// The command of the event of a row of a history that has so many, if the lines account for each.
    pub fn command(&self, row: usize, rows: usize) -> Option<u64>
        ensures all { IfSome result (λ _. (self.now.is_lost ≡ false) × (vec_len self.now.commands ≡ rows)) }
    {
        if self.is_lost || self.commands.len() != rows {
            return None;
        }
        self.commands.get(row).copied()
    }

    /// Takes the next line before the history.
    pub fn take(
        &mut self,
        line: &Value,
        texts: &[Value],
        events: &[Event],
    ) -> Result<(), AllocError> {
        let Some(command) = line.get("command").and_then(Value::as_u64) else {
            self.is_lost = true;
            return Ok(());
        };
        let reply = line.get("reply");
        match reply.and_then(Value::as_array) {
            Some(list) if !is_history(line) => self.take_list(command, list.as_slice(), texts),
            _ => match reply.and_then(events_of) {
                Some(many) => self.take_many(command, many, events.len()),
                None => {
                    let is_tick = reply.and_then(|reply| reply.get("now")).is_some();
                    self.take_own(command, is_tick, events)
                }
            },
        }
    }

    /// The events of a move, which its line has.
    fn take_list(
        &mut self,
        command: u64,
        list: &[Value],
        texts: &[Value],
    ) -> Result<(), AllocError> {
        for text in list {
            match texts.get(self.commands.len()) {
                Some(other) if other.as_str() == text.as_str() => self.commands.push(command)?,
                _ => self.is_lost = true,
            }
        }
        Ok(())
    }

    /// So many events.
    fn take_many(&mut self, command: u64, many: u64, rows: usize) -> Result<(), AllocError> {
        for _ in 0..many {
            if self.commands.len() >= rows {
                self.is_lost = true;
                return Ok(());
            }
            self.commands.push(command)?;
        }
        Ok(())
    }

    /// The events that tell what a command did that is no move.
    fn take_own(
        &mut self,
        command: u64,
        is_tick: bool,
        events: &[Event],
    ) -> Result<(), AllocError> {
        let first = self.commands.len();
        let own = if is_tick {
            ticks_at(events, first)
        } else {
            own_from(events, first, command)
        };
        for _ in 0..own {
            self.commands.push(command)?;
        }
        Ok(())
    }
}

/// How many events a reply tells.
fn events_of(reply: &Value) -> Option<u64> {
    reply.get("events").and_then(Value::as_u64)
}

/// How many ticks are at a row, which is one at most.
fn ticks_at(events: &[Event], row: usize) -> usize {
    match events.get(row) {
        Some(Event::Tick) => 1,
        _ => 0,
    }
}

/// How many events from a row on a command made itself.
fn own_from(events: &[Event], row: usize, command: u64) -> usize {
    events
        .iter()
        .skip(row)
        .take_while(|event| is_own(event, command, events))
        .count()
}

/// Whether an event is made by a command itself: it names the command, or marks a task that the command cancels.
fn is_own(event: &Event, command: u64, events: &[Event]) -> bool {
    match event {
        Event::Mark { task } => events.iter().any(|other| other.task() == Some(*task)
            && is_cancel_by(other, command)),
        _ => event.command().map(u64::from) == Some(command),
    }
}

/// Whether this command cancels a task by an event.
fn is_cancel_by(event: &Event, command: u64) -> bool {
    match event {
        Event::Cancel { cancel, .. } => u64::from(*cancel) == command,
        _ => false,
    }
}

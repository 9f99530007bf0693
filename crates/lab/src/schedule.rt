// The moves that a history was made of.

use crate::scene::{Move, Scene};
use script_lang::Command;
use std::alloc::{AllocError, Global};
use task_events::{Event, History};
use task_ids::Action;

/// The action of the task that a command starts, if it starts one.
pub fn started_by(command: Option<&Command>) -> Action {
    match command {
        Some(Command::Scroll { .. }) => Action::Scroll,
        Some(Command::Reindex { .. }) => Action::Reindex,
        _ => Action::Search,
    }
}

/// The command of this number, from 1.
pub fn command_of(commands: &[Command], number: u32) -> Option<&Command> {
    commands.get((number as usize).checked_sub(1)?)
}

/// The moves of each command, from the first, and then those of the closing drain.
pub fn moves_of(
    alloc: Global,
    commands: &[Command],
    history: &History,
) -> Result<Vec<Vec<Move>>, AllocError> {
    let mut turns = Vec::new(alloc);
    let mut scene = Scene::new(alloc);
    let mut turn = Vec::new(alloc);
    let mut number = 0;
    for event in history.events() {
        if let Event::Begin { command } = event {
            if number > 0 {
                turns.push(turn)?;
                turn = Vec::new(alloc);
            }
            number = *command;
        } else if let Some(made) = scene.take(event, started_by(command_of(commands, number)))? {
            turn.push(made)?;
        }
    }
    turns.push(turn)?;
    Ok(turns)
}

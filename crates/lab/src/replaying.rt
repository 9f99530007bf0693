// The schedule of a run, written out move by move.

use crate::fault::Fault;
use crate::input::Input;
use crate::lines::{line_of, push_line, push_renumbered};
use crate::running::{Ran, run};
use crate::scene::Move;
use crate::schedule::moves_of;
use event_text::print_event;
use script_lang::Command;
use std::alloc::{AllocError, Global};
use task_events::{Event, History};
use task_top::{Cluster, Status};

/// How many lines a script has at most.
const MAX_COMMANDS: usize = 65_535;

/// The longest tick that a command makes.
const DAY_MS: u64 = 86_400_000;

/// A command that stands in another's place and makes nothing happen.
const NOTHING: &[u8] = br#"{"summary":true}"#;

/// Which commands are written out as their moves.
#[derive(Clone, Copy, PartialEq, Eq)]
pub enum Chosen {
    /// Those that make moves, and the closing drain.
    All,
    /// Shuffles alone.
    Shuffles,
}

impl Chosen {
    fn has(self, command: &Command) -> bool {
        match command {
            Command::Shuffle { .. } => true,
            Command::Settle | Command::WaitFor { .. } => self == Chosen::All,
            _ => false,
        }
    }
}

/// A script whose schedule is written out, and beside it the script itself, with as many lines, so that commands have equal numbers in
/// both.
#[derive(Drop)]
pub struct Pair {
    pub written: Vec<u8>,
    pub padded: Vec<u8>,
    lines: usize,
}

impl Pair {
    /// No command yet, after the documents.
    fn new(alloc: Global, input: &Input<'_>) -> Result<Pair, AllocError> {
        Ok(Pair {
            written: Vec::from_slice(alloc, input.head)?,
            padded: Vec::from_slice(alloc, input.head)?,
            lines: 0,
        })
    }

    /// Adds the moves of a command. Where there is none it leaves no line.
    fn push_moves(
        &mut self,
        alloc: Global,
        line: &[u8],
        moves: &[Move],
        numbers: &[usize],
    ) -> Result<(), AllocError> {
        for (place, made) in moves.iter().enumerate() {
            push_line(&mut self.written, line_of(alloc, made)?.as_bytes())?;
            if place == 0 {
                push_renumbered(alloc, &mut self.padded, line, numbers)?;
            } else {
                push_line(&mut self.padded, NOTHING)?;
            }
            self.lines = self.lines.saturating_add(1);
        }
        Ok(())
    }

    /// Adds a command as it stands.
    fn push_command(
        &mut self,
        alloc: Global,
        line: &[u8],
        numbers: &[usize],
    ) -> Result<(), AllocError> {
        push_renumbered(alloc, &mut self.written, line, numbers)?;
        push_renumbered(alloc, &mut self.padded, line, numbers)?;
        self.lines = self.lines.saturating_add(1);
        Ok(())
    }

    /// Adds the moves of the closing drain, up to one that no command makes.
    fn push_drain(&mut self, alloc: Global, moves: &[Move]) -> Result<(), AllocError> {
        for made in moves {
            if matches!(made, Move::Tick(ms) if *ms > DAY_MS) {
                return Ok(());
            }
            push_line(&mut self.written, line_of(alloc, made)?.as_bytes())?;
            self.lines = self.lines.saturating_add(1);
        }
        Ok(())
    }
}

/// The script of a run whose schedule is written out.
pub fn written_out(
    alloc: Global,
    input: &Input<'_>,
    ran: &Ran,
    chosen: Chosen,
) -> Result<Pair, Fault> {
    let commands = ran.kept.script.commands.as_slice();
    let turns = moves_of(alloc, commands, &ran.kept.history)?;
    let mut pair = Pair::new(alloc, input)?;
    let mut numbers = Vec::new(alloc);
    let lines = input.commands.iter();
    for ((command, line), moves) in commands.iter().zip(lines).zip(turns.iter()) {
        if chosen.has(command) {
            pair.push_moves(alloc, line, moves.as_slice(), numbers.as_slice())?;
        } else {
            pair.push_command(alloc, line, numbers.as_slice())?;
        }
        numbers.push(pair.lines)?;
    }
    if chosen == Chosen::All {
        if let Some(moves) = turns.get(commands.len()) {
            pair.push_drain(alloc, moves.as_slice())?;
        }
    }
    if pair.lines > MAX_COMMANDS {
        return Err(Fault::TooManyMoves);
    }
    Ok(pair)
}

/// The texts of all events of a history, one a line. Reasons are left out.
fn texts_of(alloc: Global, history: &History) -> Result<Vec<u8>, AllocError> {
    let mut texts = Vec::new(alloc);
    for event in history.events() {
        if !matches!(event, Event::Begin { .. }) {
            print_event(event, "", &mut texts)?;
            texts.extend_from_slice(b"\n")?;
        }
    }
    Ok(texts)
}

/// The input of a run whose whole schedule is written out. It was run, and gave the same history: with as many lines the run itself
/// has the same events, byte for byte.
pub fn replay(
    alloc: Global,
    cluster: &Cluster,
    input: &Input<'_>,
    ran: &Ran,
) -> Result<Vec<u8>, Fault> {
    let pair = written_out(alloc, input, ran, Chosen::All)?;
    let first = run(alloc, cluster, pair.padded.as_slice())?;
    let second = run(alloc, cluster, pair.written.as_slice())?;
    if first.status != Status::Done || second.status != Status::Done {
        return Err(Fault::OtherHistory);
    }
    let wanted = texts_of(alloc, &first.kept.history)?;
    let given = texts_of(alloc, &second.kept.history)?;
    if wanted.as_slice() != given.as_slice() {
        return Err(Fault::OtherHistory);
    }
    Ok(pair.written)
}

// The smallest script that still prints a text.

use crate::fault::Fault;
use crate::input::Input;
use crate::lines::{push_line, push_renumbered};
use crate::replaying::{Chosen, written_out};
use crate::running::{Ran, run};
use serde_json::Value;
use std::alloc::{AllocError, Global};
use task_top::{Cluster, Status};

/// How often all is tried again at most, while something goes.
const ROUNDS: u32 = 50;

/// What is looked for: a text that a script prints on a cluster.
#[derive(Drop)]
pub struct Wanted<'a> {
    pub alloc: Global,
    pub cluster: &'a Cluster,
    pub text: &'a [u8],
}

impl Wanted<'_> {
    /// A whole run of an input that prints the text, if it does.
    fn shown_by(&self, input: &[u8]) -> Result<Option<Ran>, AllocError> {
        let ran = run(self.alloc, self.cluster, input)?;
        let is_shown = ran.status == Status::Done && self.is_in(ran.printed());
        Ok(if is_shown { Some(ran) } else { None })
    }

    fn is_in(&self, printed: &[u8]) -> bool {
        self.text.is_empty()
            || printed
                .windows(self.text.len().max(1))
                .any(|part| part == self.text)
    }
}

/// An input of which parts are taken away: its documents first, and then its commands.
#[derive(Drop)]
struct Draft<'d, 'a> {
    input: &'d Input<'a>,
    /// For each part whether it is still there.
    is_there: Vec<bool>,
}

impl Draft<'_, '_> {
    /// The input that is left, without the parts at `gone`.
    fn text(&self, alloc: Global, gone: &[usize]) -> Result<Vec<u8>, AllocError> {
        let mut text = Vec::new(alloc);
        let mut numbers = Vec::new(alloc);
        let mut number = 0_usize;
        let docs = self.input.docs.len();
        for (place, is_there) in self.is_there.iter().enumerate() {
            let is_left = *is_there && !gone.contains(&place);
            if let Some(doc) = self.input.docs.get(place) {
                if is_left {
                    push_line(&mut text, doc.action)?;
                    push_line(&mut text, doc.source)?;
                }
                continue;
            }
            if place == docs {
                push_line(&mut text, b"--")?;
            }
            let Some(line) = self.input.commands.get(place.saturating_sub(docs)) else {
                continue;
            };
            if is_left {
                push_renumbered(alloc, &mut text, line, numbers.as_slice())?;
                number = number.saturating_add(1);
                numbers.push(number)?;
            } else {
                numbers.push(0)?;
            }
        }
        Ok(text)
    }

    /// The parts that are still there.
    fn left(&self, alloc: Global) -> Result<Vec<usize>, AllocError> {
        let mut left = Vec::new(alloc);
        for (place, is_there) in self.is_there.iter().enumerate() {
            if *is_there {
                left.push(place)?;
            }
        }
        Ok(left)
    }

    /// Tries to take away each piece of so many parts. Says whether one went.
    fn take_pieces(&mut self, wanted: &Wanted<'_>, size: usize) -> Result<bool, AllocError> {
        let left = self.left(wanted.alloc)?;
        let mut went = false;
        for piece in left.as_slice().chunks(size.max(1)) {
            let text = self.text(wanted.alloc, piece)?;
            if wanted.shown_by(text.as_slice())?.is_some() {
                went = true;
                for place in piece {
                    if let Some(is_there) = self.is_there.get_mut(*place) {
                        *is_there = false;
                    }
                }
            }
        }
        Ok(went)
    }

    /// Takes parts away by halves, and at last one by one, for as long as some go.
    fn reduce(&mut self, wanted: &Wanted<'_>) -> Result<(), AllocError> {
        for _ in 0..ROUNDS {
            let mut went = false;
            let mut size = self.left(wanted.alloc)?.len();
            for _ in 0..64 {
                if size == 0 {
                    break;
                }
                went |= self.take_pieces(wanted, size)?;
                size /= 2;
            }
            if !went {
                break;
            }
        }
        Ok(())
    }
}

/// An input without the parts that are not needed.
fn reduced(wanted: &Wanted<'_>, bytes: &[u8]) -> Result<Vec<u8>, AllocError> {
    let input = Input::of(wanted.alloc, bytes)?;
    let parts = input.docs.len().saturating_add(input.commands.len());
    let mut draft = Draft {
        input: &input,
        is_there: vec![in wanted.alloc; true; parts]?,
    };
    draft.reduce(wanted)?;
    draft.text(wanted.alloc, &[])
}

/// The line of a shuffle with so many moves fewer, if it is one that has as many.
fn with_fewer(alloc: Global, line: &[u8], fewer: u64) -> Result<Option<String>, AllocError> {
    let Ok(mut value) = Value::from_slice(alloc, line) else {
        return Ok(None);
    };
    let Some(moves) = value.pointer_mut("/shuffle/moves") else {
        return Ok(None);
    };
    let Some(left) = moves.as_u64().and_then(|many| many.checked_sub(fewer)) else {
        return Ok(None);
    };
    *moves = Value::from(left);
    Ok(Some(value.to_string(alloc)?))
}

/// An input with another line in the place of a command.
fn with_line(
    alloc: Global,
    input: &Input<'_>,
    at: usize,
    other: &[u8],
) -> Result<Vec<u8>, AllocError> {
    let mut text = Vec::from_slice(alloc, input.head)?;
    for (place, line) in input.commands.iter().enumerate() {
        push_line(&mut text, if place == at { other } else { line })?;
    }
    Ok(text)
}

/// An input in which a shuffle has so many moves fewer, where the text is still printed.
fn fewer_moves(
    wanted: &Wanted<'_>,
    bytes: &[u8],
    at: usize,
    fewer: u64,
) -> Result<Option<Vec<u8>>, AllocError> {
    let input = Input::of(wanted.alloc, bytes)?;
    let Some(line) = input.commands.get(at) else {
        return Ok(None);
    };
    let Some(other) = with_fewer(wanted.alloc, line, fewer)? else {
        return Ok(None);
    };
    let text = with_line(wanted.alloc, &input, at, other.as_bytes())?;
    Ok(match wanted.shown_by(text.as_slice())? {
        Some(_) => Some(text),
        None => None,
    })
}

/// Takes moves of a shuffle away, by halves and at last one by one.
fn take_moves(wanted: &Wanted<'_>, bytes: Vec<u8>, at: usize) -> Result<Vec<u8>, AllocError> {
    let mut text = bytes;
    for exponent in (0..20_u32).rev() {
        if let Some(smaller) = fewer_moves(wanted, text.as_slice(), at, 1 << exponent)? {
            text = smaller;
        }
    }
    Ok(text)
}

/// An input whose shuffles are written out as their moves, where the text is still printed, so that moves can be taken away one by one.
fn without_chance(wanted: &Wanted<'_>, bytes: &[u8]) -> Result<Option<Vec<u8>>, Fault> {
    let Some(ran) = wanted.shown_by(bytes)? else {
        return Ok(None);
    };
    let input = Input::of(wanted.alloc, bytes)?;
    let pair = written_out(wanted.alloc, &input, &ran, Chosen::Shuffles)?;
    Ok(match wanted.shown_by(pair.written.as_slice())? {
        Some(_) => Some(pair.written),
        None => None,
    })
}

/// A small script that still prints a text: no document, no command and no move of it can be left out.
pub fn shrink(wanted: &Wanted<'_>, bytes: &[u8]) -> Result<Vec<u8>, Fault> {
    if wanted.shown_by(bytes)?.is_none() {
        return Err(Fault::NotPrinted);
    }
    let mut text = reduced(wanted, bytes)?;
    let commands = Input::of(wanted.alloc, text.as_slice())?.commands.len();
    for at in 0..commands {
        text = take_moves(wanted, text, at)?;
    }
    if let Some(other) = without_chance(wanted, text.as_slice())? {
        text = other;
    }
    Ok(reduced(wanted, text.as_slice())?)
}

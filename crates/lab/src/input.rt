// The parts of an input that the program takes: its documents and its commands, as they are written.

use std::alloc::{AllocError, Global};

/// A document as the input has it: the action's line and the source's.
#[derive(Clone, Copy)]
pub struct DocLines<'a> {
    pub action: &'a [u8],
    pub source: &'a [u8],
}

/// The parts of an input. Lines stand without their ends.
#[derive(Drop)]
pub struct Input<'a> {
    /// The bytes of all documents and of the line `--`, where it is there.
    pub head: &'a [u8],
    pub docs: Vec<DocLines<'a>>,
    /// The lines of the commands. That of number K stands at the place K - 1.
    pub commands: Vec<&'a [u8]>,
}

/// A line without the carriage return before its end.
pub fn without_return(line: &[u8]) -> &[u8] {
    match line {
        [before @ .., b'\r'] => before,
        _ => line,
    }
}

impl<'a> Input<'a> {
    /// The parts of an input that the program takes.
    pub fn of(alloc: Global, bytes: &'a [u8]) -> Result<Input<'a>, AllocError> {
        let mut docs = Vec::new(alloc);
        let mut commands = Vec::new(alloc);
        let mut head = bytes;
        let mut action = None;
        let mut is_script = false;
        let mut at = 0_usize;
        for piece in bytes.split(|byte| *byte == b'\n') {
            at = at.saturating_add(piece.len()).saturating_add(1);
            let line = without_return(piece);
            if is_script {
                if !line.is_empty() {
                    commands.push(line)?;
                }
            } else if let Some(before) = action.take() {
                docs.push(DocLines {
                    action: before,
                    source: line,
                })?;
            } else if line == b"--".as_slice() {
                is_script = true;
                head = bytes.get(..at).unwrap_or(bytes);
            } else if !line.is_empty() {
                action = Some(line);
            }
        }
        Ok(Input {
            head,
            docs,
            commands,
        })
    }
}

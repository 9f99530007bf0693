//! The lines of lists of tasks.

ghost use Rattle.std.specs.Prelude.{◌≡◌, ◌++◌, OnOk, option_map};
ghost use Rattle.line_print.specs.Lines.{text_line, list_line};

use crate::note::Note;
use crate::print::push;
use crate::write::push_start;
use std::alloc::{AllocError, Global};

/// Appends the line of a command whose reply is a text.
pub(crate) fn text_line(
    alloc: Global,
    out: &mut Vec<u8>,
    command: u32,
    text: &[u8],
) -> Result<(), AllocError>
    ensures { OnOk result (out.new.items ≡ out.old.items ++ text_line command text.now) }
{
    push_start(alloc, out, command, ",\"reply\":")?;
    out.extend_from_slice(text)?;
    push(out, "}\n")
}

/// Appends the line of a list, whose reply was noted.
pub(crate) fn list_line(
    alloc: Global,
    out: &mut Vec<u8>,
    command: u32,
    note: Option<&Note>,
) -> Result<(), AllocError>
    ensures { OnOk result (out.new.items ≡ out.old.items ++ list_line command (option_map (λ note. note.now) note.entry)) }
{
    match note {
        Some(Note::Listed(text)) => text_line(alloc, out, command, text.as_slice()),
        _ => Ok(()),
    }
}

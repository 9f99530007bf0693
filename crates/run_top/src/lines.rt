// The lines of a run.
ghost use Rattle.std.specs.Prelude.{◌≡◌, All, IfOk};
ghost use Rattle.line_print.specs.RunLines.{IsPrintable};
ghost use Rattle.run_top.specs.Lines.{printed};

use line_print::print_reply;
use run_book::LineNote;
use script_lang::Command;
use std::alloc::{AllocError, Global};
use task_ids::Cluster;

/// The lines of all commands, by their notes, in order.
pub(crate) fn print_notes(
    alloc: Global,
    cluster: &Cluster,
    script: &[Command],
    notes: &[LineNote],
) -> Result<Vec<u8>, AllocError>
    requires moments { All (λ note. IsPrintable note.reply) notes.now }
    ensures { IfOk result (λ text. text.items ≡ printed cluster.now script.now notes.now) }
{
    let mut text = Vec::new(alloc);
    for (command, note) in script.iter().zip(notes) {
        print_reply(
            alloc,
            &mut text,
            cluster,
            script,
            note.command,
            command,
            &note.reply,
        )?;
    }
    Ok(text)
}

//! The lines of summaries.

ghost use Rattle.std.specs.Prelude.{◌≡◌, ◌++◌, OnOk, IfOk, option_map};
ghost use Rattle.serde_json.specs.View.{view};
ghost use Rattle.line_print.specs.Lines.{summary_json, summary_line};

use crate::members::with_number;
use crate::note::Note;
use crate::write::reply_line;
use serde_json::{Map, Value};
use std::alloc::{AllocError, Global};
use task_events::Summary;

/// How many tasks, bans and writes came and went.
fn summary_json(alloc: Global, summary: &Summary) -> Result<Value, AllocError>
    ensures { IfOk result (λ value. view value ≡ summary_json summary.now) }
{
    let told = with_number(alloc, Map::new(alloc), "bans", summary.bans)?;
    let told = with_number(alloc, told, "cancelled", summary.cancelled)?;
    let told = with_number(alloc, told, "ended", summary.ended)?;
    let told = with_number(alloc, told, "refused", summary.refused)?;
    let told = with_number(alloc, told, "tasks", summary.tasks)?;
    let told = with_number(alloc, told, "unbans", summary.unbans)?;
    let told = with_number(alloc, told, "writes", summary.writes)?;
    Ok(Value::Object(told))
}

/// Appends the line of a summary, with the numbers that were noted.
pub(crate) fn summary_line(
    alloc: Global,
    out: &mut Vec<u8>,
    command: u32,
    note: Option<&Note>,
) -> Result<(), AllocError>
    ensures { OnOk result (out.new.items ≡ out.old.items ++ summary_line command (option_map (λ note. note.now) note.entry)) }
{
    match note {
        Some(Note::Counted(summary)) => {
            let reply = summary_json(alloc, summary)?;
            reply_line(alloc, out, command, reply)
        }
        _ => Ok(()),
    }
}

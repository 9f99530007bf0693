//! All lines of a script's output.

ghost use Rattle.std.specs.Prelude.{◌≡◌, ◌+◌, ◌<◌, ◌≤◌, ◌++◌, None, IfOk, OnOk, length, slice_get, option_map, unwrap_or};
ghost use Rattle.command_roots.specs.Known.{dests_of};
ghost use Rattle.line_print.specs.Lines.{line_of, printed, printed_by, IsFound};
ghost use Rattle.line_print.specs.Looked.{IsReady};

use crate::cancel_lines::cancel_line;
use crate::known::indices_of;
use crate::list_lines::list_line;
use crate::moves::{moved_line, settled_line};
use crate::note::Note;
use crate::reindex_lines::reindex_line;
use crate::result_lines::{forget_line, get_line, results_line};
use crate::run::Run;
use crate::scroll_lines::{clear_line, scroll_line, tick_line};
use crate::searches::search_line;
use crate::summaries::summary_line;
use crate::told::events_line;
use crate::turns::turns_of;
use command_roots::dests_of;
use script_lang::{Command, Script};
use std::alloc::{AllocError, Global};
use task_events::History;
use task_ids::{Cluster, Corpus, Text};

/// Appends the line of a command, which has this number and of which this was noted.
fn command_line(
    alloc: Global,
    out: &mut Vec<u8>,
    run: &Run,
    number: usize,
    command: &Command,
    note: Option<&Note>,
) -> Result<(), AllocError>
    requires ready { IsReady run.now }
    requires number { number ≤ length run.now.script.now }
    requires few { length run.now.script.now ≤ 65535 }
    ensures { OnOk result (out.new.items ≡ out.old.items
        ++ line_of run.now.cluster.now run.now.corpus.now run.now.script.now run.now.history.now number command.now (option_map (λ note. note.now) note.entry)) }
{
    let k = number as u32;
    let turn = run.turn(number);
    match command {
        Command::Search {
            index,
            scroll,
            body,
            ..
        } => { search_line(alloc, out, run, k, index.as_str(), scroll.is_some(), body) }
        Command::Scroll { .. } => scroll_line(alloc, out, run, k, note),
        Command::Reindex { body, .. } => reindex_line(alloc, out, run, k, body),
        Command::ClearScroll { .. } => clear_line(alloc, out, k, note),
        Command::Tick { .. } => tick_line(alloc, out, k, note),
        Command::Cancel { target, wait, .. } => {
            cancel_line(alloc, out, k, run.target(target), *wait, turn)
        }
        Command::ListTasks { .. } => list_line(alloc, out, k, note),
        Command::GetTask { .. } => get_line(alloc, out, run, k, note),
        Command::ForgetTask { .. } => forget_line(alloc, out, k, note),
        Command::ListResults => results_line(alloc, out, k, note),
        Command::Settle | Command::Shuffle { .. } | Command::WaitFor { .. } => {
            settled_line(alloc, out, k, turn.len())
        }
        Command::Summary => summary_line(alloc, out, k, note),
        Command::History => events_line(alloc, out, run.script, k, run.turns_before(number)),
        Command::Deliver { .. } | Command::Step { .. } | Command::ListStep { .. } => {
            moved_line(alloc, out, run.script, k, turn, note)
        }
    }
}

/// What is looked up of a run, in one pass over its events and one over the input's documents and the indices that reindexes write to.
fn run_of<'a>(
    alloc: Global,
    cluster: &'a Cluster,
    corpus: &'a Corpus,
    dests: &'a [Text],
    script: &'a [Command],
    history: &'a History,
) -> Result<Run<'a>, AllocError>
    requires { dests.now ≡ dests_of script.now }
    ensures ready { IfOk result (λ run. IsReady run) }
    ensures same { IfOk result (λ run. (run.cluster.now ≡ cluster.now) × (run.corpus.now ≡ corpus.now) × (run.script.now ≡ script.now) × (run.history.now ≡ history.now)) }
{
    let (turns, ends) = turns_of(alloc, history, script.len())?;
    Ok(Run {
        cluster,
        corpus,
        script,
        history,
        turns,
        ends,
        known: indices_of(alloc, corpus, dests)?,
    })
}

/// What was noted of the command at a place, from 0.
fn note_at(found: &[Option<Note>], place: usize) -> Option<&Note>
    ensures { option_map (λ note. note.now) result ≡ unwrap_or (slice_get found.now place) None }
{
    match found.get(place) {
        Some(note) => note.as_ref(),
        None => None,
    }
}

/// Appends the lines of all commands.
fn run_lines(
    alloc: Global,
    out: &mut Vec<u8>,
    run: &Run,
    found: &[Option<Note>],
) -> Result<(), AllocError>
    requires ready { IsReady run.now }
    requires few { length run.now.script.now ≤ 65535 }
    ensures { OnOk result (out.new.items ≡ out.old.items
        ++ printed_by found.now run.now.cluster.now run.now.corpus.now run.now.script.now run.now.history.now) }
{
    for (place, command) in run.script.iter().enumerate() {
        command_line(alloc, out, run, place + 1, command, note_at(found, place))?;
    }
    Ok(())
}

/// Appends the output of a script after its run: one line of JSON a command, in order.
///
/// A search tells its hits, as Elasticsearch's search API does, and the id by which its context is scrolled, or why it has none; a
/// scroll the next page of them, or why there is none; a reindex what it has written, or why nothing; a clear whether it freed a context; a tick the moment; a cancel the tasks that it
/// named; a list the tasks that it shows; a get a live task or its stored reply, or that there is neither; a forget whether there was one; a
/// list of results their tasks; `deliver`, `step` and `list_step` the events that they made, or why they made none; `settle`, `shuffle`
/// and `wait_for` how many they made; `history` all events before it; `summary` how many tasks, bans and writes came and went.
///
/// At the place of its command `found` has what was noted of it: of each list what it lists, of each get what it finds, of each forget whether a
/// result stands, of each list of results their tasks, of each scroll why it has no page, if it
/// has none, of each clear whether it frees a context, of each tick the moment after it, of each summary its numbers, and of each line of a schedule that made nothing
/// happen why. Where memory runs out a part of the output may have been appended.
pub fn print_lines(
    alloc: Global,
    cluster: &Cluster,
    corpus: &Corpus,
    script: &Script,
    history: &History,
    found: &[Option<Note>],
    out: &mut Vec<u8>,
) -> Result<(), AllocError>
    requires { length script.now.commands ≤ 65535 }
    ensures by { OnOk result (out.new.items ≡ out.old.items ++ printed_by found.now cluster.now corpus.now script.now.commands history.now) }

    // Where `found` tells what there is to note of each command, as above, it is the script's output.
    ensures printed { IsFound cluster.now script.now history.now found.now
        → OnOk result (out.new.items ≡ out.old.items ++ printed cluster.now corpus.now script.now history.now) }
{
    let commands = script.commands.as_slice();
    let dests = dests_of(alloc, commands)?;
    let run = run_of(alloc, cluster, corpus, dests.as_slice(), commands, history)?;
    run_lines(alloc, out, &run, found)
}

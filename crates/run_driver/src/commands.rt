//! A script is driven.
ghost use Rattle.std.specs.Prelude.{◌≡◌, ◌+◌, ◌<◌, ◌≤◌, length, OnOk, IfOk, IfErr};
ghost use Rattle.std.specs.HashSet.{contains_by};
ghost use Rattle.std.specs.Str.{bytes_eq};
ghost use Rattle.run_facts.specs.Cancels.{cancels_of};
ghost use Rattle.run_facts.specs.Inboxes.{IsPoolSize};
ghost use Rattle.run_inboxes.specs.Ends.{SameEnds};
ghost use Rattle.run_book.specs.Entries.{CanDrive, Keeps, SameRun, is_known_to};
ghost use Rattle.run_driver.specs.Causes.{IsCauseAt};
ghost use Rattle.run_driver.specs.Drives.{AreNotes};

use crate::gate::LineGate;
use crate::hearing::{Note, answer_of, send_all, wait_for_answer, wait_for_pages, wait_for_root};
use run_book::{Book, LineNote, Needs};
use run_facts::Run;
use run_inboxes::Ends;
use script_lang::Command;
use std::alloc::Global;
use std::collections::HashSet;
use std::sync::Wait;
use task_events::Stop;
use task_ids::Cluster;

/// Waits for what has to be known before the next command begins.
#[tactic(auto, using(run_inboxes::proofs::Same::same_ends, run_inboxes::proofs::Same::ends_on, run_book::proofs::Keeping::same_run))]
fn wait_before<W: Run, R: Wait>(
    rt: &R,
    ends: &mut Ends<Note<W>>,
    book: &mut Book<'_, W>,
) -> Result<(), Stop>
    requires keeps { Keeps W.cancels W.setting book.old }
    ensures keeps { OnOk result (Keeps W.cancels W.setting book.new) }
    ensures run { SameRun book.old book.new }
    ensures begun { length book.new.entries.items ≡ length book.old.entries.items }
    ensures ends { SameEnds ends.old ends.new }
    ensures fails { IfErr result (IsCauseAt ends.new.inbox) }
{
    match book.needs() {
        Needs::Nothing => Ok(()),
        Needs::Root(earlier) => wait_for_root(rt, ends, book, earlier),
        Needs::Answer(earlier) => wait_for_answer(rt, ends, book, earlier),
        Needs::Pages => wait_for_pages(rt, ends, book),
    }
}

/// Does the next command.
#[tactic(auto, using(run_inboxes::proofs::Same::same_ends, run_inboxes::proofs::Same::ends_on, run_book::proofs::Keeping::same_run))]
fn do_next<W: Run, R: Wait>(
    rt: &R,
    ends: &mut Ends<Note<W>>,
    book: &mut Book<'_, W>,
) -> Result<(), Stop>
    requires keeps { Keeps W.cancels W.setting book.old }
    ensures keeps { OnOk result (Keeps W.cancels W.setting book.new) }
    ensures run { SameRun book.old book.new }
    ensures ends { SameEnds ends.old ends.new }
    ensures fails { IfErr result (IsCauseAt ends.new.inbox) }
{
    wait_before(rt, ends, book)?;
    match book.begin() {
        Ok(posts) => send_all(rt, ends, book, posts),
        Err(_) => Err(Stop::Memory),
    }
}

/// Does so many commands in order. It passes the gate before each.
#[tactic(auto, using(run_inboxes::proofs::Same::same_ends, run_inboxes::proofs::Same::ends_on, run_book::proofs::Keeping::same_run))]
fn do_all<W: Run, G: LineGate, R: Wait>(
    rt: &R,
    ends: &mut Ends<Note<W>>,
    book: &mut Book<'_, W>,
    commands: usize,
    gate: &G,
) -> Result<(), Stop>
    requires keeps { Keeps W.cancels W.setting book.old }
    requires few { commands ≤ 65535 }
    ensures keeps { OnOk result (Keeps W.cancels W.setting book.new) }
    ensures run { SameRun book.old book.new }
    ensures ends { SameEnds ends.old ends.new }
    ensures fails { IfErr result (IsCauseAt ends.new.inbox) }
{
    for before in 0..commands {
        gate.pass(before as u32 + 1);
        do_next(rt, ends, book)?;
    }
    Ok(())
}

/// Tells each data worker that every due moment is past.
#[tactic(auto, using(run_inboxes::proofs::Same::same_ends, run_inboxes::proofs::Same::ends_on, run_book::proofs::Keeping::same_run))]
fn drain<W: Run, R: Wait>(
    rt: &R,
    ends: &mut Ends<Note<W>>,
    book: &mut Book<'_, W>,
) -> Result<(), Stop>
    requires keeps { Keeps W.cancels W.setting book.old }
    ensures keeps { OnOk result (Keeps W.cancels W.setting book.new) }
    ensures run { SameRun book.old book.new }
    ensures ends { SameEnds ends.old ends.new }
    ensures fails { IfErr result (IsCauseAt ends.new.inbox) }
{
    match book.drain() {
        Ok(posts) => send_all(rt, ends, book, posts),
        Err(_) => Err(Stop::Memory),
    }
}

/// The answers of all commands, of which there are so many.
#[tactic(auto, using(run_inboxes::proofs::Same::same_ends, run_inboxes::proofs::Same::ends_on, run_book::proofs::Keeping::same_run))]
fn answers<W: Run, R: Wait>(
    rt: &R,
    alloc: Global,
    ends: &mut Ends<Note<W>>,
    book: &mut Book<'_, W>,
    commands: usize,
) -> Result<Vec<LineNote>, Stop>
    requires keeps { Keeps W.cancels W.setting book.old }
    requires count { commands ≡ length book.old.script.now }
    ensures ends { SameEnds ends.old ends.new }
    ensures fails { IfErr result (IsCauseAt ends.new.inbox) }
    ensures notes { IfOk result (λ notes. AreNotes W.cancels W.setting (is_known_to book.old) book.old.script.now notes.items) }
{
    let mut notes = Vec::new(alloc);
    for before in 0..commands {
        let note = answer_of(rt, ends, book, before as u32 + 1)?;
        if notes.push(note).is_err() {
            return Err(Stop::Memory);
        }
    }
    Ok(notes)
}

/// Sends the commands of a script to the workers of a run, and gives what each came to, in order.
///
/// It sends a command and goes on, and waits only where a line says so: a cancel of a command's task for that task's id, `wait_for`
/// for an answer, and a scroll, a clear and a tick for the searches and scrolls before that open or use a context. At last it tells
/// the workers that every due moment is past, and waits for every answer. It passes the gate before each command.
///
/// Each node of the cluster has so many data workers, from 1 to 4. The ends are the driver's: its inbox, and a sender into each inbox of
/// the run, for each node its control worker's and then its data workers'.
///
/// It fails where a worker tells that it has stopped, for that cause, and for want of memory (`Memory`).
#[tactic(auto, using(run_inboxes::proofs::Same::same_ends, run_inboxes::proofs::Same::ends_on, run_book::proofs::Keeping::same_run))]
pub fn drive<'a, W: Run, G: LineGate, R: Wait>(
    rt: &R,
    alloc: Global,
    cluster: &Cluster,
    workers: u32,
    known: &'a HashSet<&'a str>,
    script: &'a [Command],
    ends: &mut Ends<Note<W>>,
    gate: &G,
) -> Result<Vec<LineNote>, Stop>
    requires can { CanDrive W.cancels W.setting cluster.now.nodes script.now }
    requires workers { IsPoolSize workers }
    ensures ends { SameEnds ends.old ends.new }
    ensures fails { IfErr result (IsCauseAt ends.new.inbox) }
    ensures notes { IfOk result (λ notes. AreNotes W.cancels W.setting (λ index. contains_by (λ k. bytes_eq index k.now) known.now) script.now notes.items) }
{
    let mut book = Book::<W>::new(alloc, cluster, workers, script, known);
    do_all(rt, ends, &mut book, script.len(), gate)?;
    drain(rt, ends, &mut book)?;
    answers(rt, alloc, ends, &mut book, script.len())
}

// The top calls.
ghost use Rattle.std.specs.Prelude.{◌<◌, ◌≡◌, ◌≤◌, ◌↔◌, ℕ, List, [], length, IfSome, Some};
ghost use Rattle.std.specs.declared.marker.Brand.{Brand};
ghost use Rattle.es_io.specs.Bytes.{IfGave};
ghost use Rattle.script_lang.specs.declared.command.Mode.TheVariants.{Run};
ghost use Rattle.script_lang.specs.Fits.{AllFit};
ghost use Rattle.command_roots.specs.Known.{is_known};
ghost use Rattle.top_parts.specs.Reading.{max_input, Reads};
ghost use Rattle.top_parts.specs.Status.{IsReadWhole, TellsFault};
ghost use Rattle.run_book.specs.Runs.{setting_of};
ghost use Rattle.run_driver.specs.Drives.{AreNotes};
ghost use Rattle.run_cluster.specs.Notes.{AreClear};
ghost use Rattle.run_facts.specs.Inboxes.{IsPoolSize};
ghost use Rattle.run_top.specs.Kept.{AnswersInput, HaveRun, IsAfterReading, IsCancelOf, RanAsRead, WritesLines};

use crate::kept::RunKept;
use crate::lines::print_notes;
use crate::running::{Ran, run_script};
use es_io::{Gate, Sink, Source, Spawner, write_all_of};
use run_cluster::RunStop;
use script_lang::{Mode, Script};
use std::alloc::Global;
use std::sync::Wait;
use std::thread::Threads;
use task_events::Stop;
use task_ids::{Cause, Cluster, Corpus, Items};
use top_parts::{Status, Unread, read_whole};

/// Reads an input to its end, runs its script over threads, and writes the line of each command, as [`pool_top`] does with one data worker on
/// each node. Its clauses are those of that call.
pub fn run_top<S: Source, K: Sink, P: Spawner, G: Gate, R: Threads + Wait + Sync>(
    rt: &R,
    alloc: Global,
    cluster: &Cluster,
    input: &mut S,
    out: &mut K,
    spawner: &mut P,
    gate: &G,
) -> (Status, RunKept)
    ensures input { IfSome (S.left input.old) (λ bytes. AnswersInput cluster.now bytes result.0 result.1) }
    ensures ended { IsReadWhole result.0 → IfSome (S.left input.old) (λ _. S.left input.new ≡ Some []) }
    ensures too_long { IfGave (S.left input.old) (S.left input.new) (λ n. (max_input < n) ↔ (result.0 ≡ Status.Refused 0 Cause.TooLong)) }
    ensures source_told { TellsFault (S.faults input.old) (S.faults input.new) (result.0 ≡ Status.ReadFault) }
    ensures thread_told { TellsFault (P.faults spawner.old) (P.faults spawner.new) (result.0 ≡ Status.NoThread) }
    ensures sink_told { TellsFault (K.faults out.old) (K.faults out.new) (result.0 ≡ Status.WriteFault) }
    ensures run { RanAsRead cluster.now 1 result.0 result.1 }
    ensures output { WritesLines cluster.now (K.written out.old) (K.written out.new) result.0 result.1 }
{
    pool_top(rt, alloc, cluster, 1, input, out, spawner, gate)
}

/// Reads an input to its end, runs its script over threads, and writes the line of each command.
///
/// The input is documents as Elasticsearch's bulk API takes them, a line `--`, and the lines of a script. Each node of the cluster is a
/// control worker and so many data workers, from 1 to 4, in threads of their own, which share nothing but the node's board and send each
/// other letters. The shards of a node are shared out among its data workers, and so are its slots; roots are on the first of them.
///
/// The commands go out in the order of the script, each while earlier ones may still be at work: a cancel of a command's task waits for
/// that task's id, `wait_for` for an answer, and a scroll, a clear and a tick for the searches and scrolls before that open or use a
/// context. After the last command every answer is waited for, and the workers end.
///
/// The lines are written once all has run. Where the run comes to an early end nothing is written: where a worker could not be given a
/// thread (`NoThread`), a node had to give a number after its last one (`NumbersSpent`), or memory ran out (`Memory`). Where several of
/// these were met, the first of them is told. All workers that were started have ended when it comes back, and it may wait for ever where
/// one of them does.
pub fn pool_top<S: Source, K: Sink, P: Spawner, G: Gate, R: Threads + Wait + Sync>(
    rt: &R,
    alloc: Global,
    cluster: &Cluster,
    workers: u32,
    input: &mut S,
    out: &mut K,
    spawner: &mut P,
    gate: &G,
) -> (Status, RunKept)
    requires workers { IsPoolSize workers }
    // Where the source tells its bytes: they were read as what is kept, or they are refused so.
    ensures input { IfSome (S.left input.old) (λ bytes. AnswersInput cluster.now bytes result.0 result.1) }
    // Where it was read and memory did not run out, nothing of it is left.
    ensures ended { IsReadWhole result.0 → IfSome (S.left input.old) (λ _. S.left input.new ≡ Some []) }
    // It is refused as too long exactly where the source gave more bytes than an input may have, whatever memory there was.
    ensures too_long { IfGave (S.left input.old) (S.left input.new) (λ n. (max_input < n) ↔ (result.0 ≡ Status.Refused 0 Cause.TooLong)) }
    // That the source failed is told exactly where it has failed in this call, whatever memory there was.
    ensures source_told { TellsFault (S.faults input.old) (S.faults input.new) (result.0 ≡ Status.ReadFault) }
    // That a worker was given no thread is told exactly where the spawner has failed.
    ensures thread_told { TellsFault (P.faults spawner.old) (P.faults spawner.new) (result.0 ≡ Status.NoThread) }
    // That the sink failed is told exactly where it has failed.
    ensures sink_told { TellsFault (K.faults out.old) (K.faults out.new) (result.0 ≡ Status.WriteFault) }
    // In a whole run each command has its note, and each is what such a command may come to: a reply is cancelled only by a cancel of the
    // script, a cancel that waits has the receipt of its last task, a tick tells the sum of the ticks, and a list each row once. Nothing
    // stands on any node's board then. The control worker and the data workers of each node made turns, each of which is what such a worker
    // does; they are over all letters that its inbox took, in order, and what they gave for each inbox is what it sent there, in order. What
    // an inbox took of each sender is a beginning of what that one sent there, in its order, and all of it where the numbers of its tally are
    // equal. Of any other run nothing is kept.
    ensures run { RanAsRead cluster.now workers result.0 result.1 }
    // Where the sink tells its bytes: they grew by the lines of the commands, each by its note.
    ensures output { WritesLines cluster.now (K.written out.old) (K.written out.new) result.0 result.1 }
{
    match read_whole(alloc, Mode::Run, cluster, input) {
        Ok((corpus, script)) => {
            run_and_print(
                rt, alloc, cluster, workers, corpus, script, out, spawner, gate,
            )
        }
        Err(Unread::Refused { line, cause }) => {
            (Status::Refused(line, cause), RunKept::nothing(alloc))
        }
        Err(Unread::ReadFault) => (Status::ReadFault, RunKept::nothing(alloc)),
        Err(Unread::Memory) => (Status::Memory, RunKept::nothing(alloc)),
    }
}

// Runs what was read, and writes the line of each command.
fn run_and_print<K: Sink, P: Spawner, G: Gate, R: Threads + Wait + Sync>(
    rt: &R,
    alloc: Global,
    cluster: &Cluster,
    workers: u32,
    corpus: Corpus,
    script: Script,
    out: &mut K,
    spawner: &mut P,
    gate: &G,
) -> (Status, RunKept)
    requires workers { IsPoolSize workers }
    requires fits { AllFit cluster.now.nodes [] script.commands }
    requires few { length script.commands ≤ 65535 }
    ensures status { IsAfterReading result.0 }
    ensures input { (bytes : List ℕ) → Reads Run cluster.now bytes corpus script → AnswersInput cluster.now bytes result.0 result.1 }
    ensures thread_told { TellsFault (P.faults spawner.old) (P.faults spawner.new) (result.0 ≡ Status.NoThread) }
    ensures sink_told { TellsFault (K.faults out.old) (K.faults out.new) (result.0 ≡ Status.WriteFault) }
    ensures run { RanAsRead cluster.now workers result.0 result.1 }
    ensures output { WritesLines cluster.now (K.written out.old) (K.written out.new) result.0 result.1 }
{
    match run_script(
        rt,
        alloc,
        cluster,
        workers,
        &corpus,
        script.commands.as_slice(),
        spawner,
        gate,
    ) {
        Ok(ran) => write_lines(alloc, cluster, corpus, script, ran, out),
        Err(RunStop::NoThread) => (Status::NoThread, RunKept::unrun(alloc, corpus, script)),
        Err(RunStop::Stopped(Stop::NumbersSpent)) => {
            (Status::NumbersSpent, RunKept::unrun(alloc, corpus, script))
        }
        // No run over threads has a history that could be full, so memory ran out.
        Err(RunStop::NoMemory | RunStop::Stopped(_)) => {
            (Status::Memory, RunKept::unrun(alloc, corpus, script))
        }
    }
}

// Writes the line of each command after a whole run.
fn write_lines<K: Sink>(
    alloc: Global,
    cluster: &Cluster,
    corpus: Corpus,
    script: Script,
    ran: Ran,
    out: &mut K,
) -> (Status, RunKept)
    requires lines { AreNotes (IsCancelOf script.commands) (setting_of cluster.now corpus script.commands) (is_known corpus script.commands) script.commands ran.lines.items }
    requires nodes { AreClear cluster.now.nodes ran.nodes.items }
    ensures status { IsAfterReading result.0 }
    ensures input { (bytes : List ℕ) → Reads Run cluster.now bytes corpus script → AnswersInput cluster.now bytes result.0 result.1 }
    ensures thread { result.0 ≡ Status.NoThread → ⊥ }
    ensures sink_told { TellsFault (K.faults out.old) (K.faults out.new) (result.0 ≡ Status.WriteFault) }
    ensures run { (workers : ℕ) → HaveRun Brand (IsCancelOf script.commands) cluster.now corpus workers ran.nodes.items → RanAsRead cluster.now workers result.0 result.1 }
    ensures output { WritesLines cluster.now (K.written out.old) (K.written out.new) result.0 result.1 }
{
    let Ran { lines, nodes } = ran;
    let commands = script.commands.as_slice();
    let text = match print_notes(alloc, cluster, commands, lines.as_slice()) {
        Ok(text) => text,
        Err(_) => return (Status::Memory, RunKept::unrun(alloc, corpus, script)),
    };
    let kept = RunKept {
        corpus,
        script,
        lines: Items::from_vec(lines),
        nodes: Items::from_vec(nodes),
    };
    match write_all_of(out, text.as_slice()) {
        Ok(()) => (Status::Done, kept),
        Err(_) => (Status::WriteFault, kept),
    }
}

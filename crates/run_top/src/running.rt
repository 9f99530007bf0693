// A script runs over threads.
ghost use Rattle.std.specs.Prelude.{◌≡◌, ◌≤◌, [], length, IfOk, MatchResult};
ghost use Rattle.std.specs.HashSet.{contains_by};
ghost use Rattle.std.specs.Str.{bytes_eq};
ghost use Rattle.std.specs.declared.marker.Brand.{Brand};
ghost use Rattle.script_lang.specs.Fits.{AllFit};
ghost use Rattle.command_roots.specs.Known.{is_known};
ghost use Rattle.run_driver.specs.Drives.{AreNotes};
ghost use Rattle.run_book.specs.Entries.{CanDrive};
ghost use Rattle.run_facts.specs.Inboxes.{IsPoolSize};
ghost use Rattle.run_book.specs.Runs.{setting_of};
ghost use Rattle.run_threads.specs.Causes.{IsCauseOf};
ghost use Rattle.run_cluster.specs.Notes.{AreClear};
ghost use Rattle.run_top.specs.Kept.{HaveRun, IsCancelOf};

use crate::driver::{ScriptDriver, Task};
use command_roots::dests_of;
use es_io::{Gate, Spawner};
use line_print::indices_of;
use run_book::LineNote;
use run_cluster::{NodeNote, RunNotes, RunStop, run_cluster};
use run_driver::DriverGate;
use run_facts::Run;
use script_lang::Command;
use std::alloc::Global;
use std::collections::HashSet;
use std::marker::Brand;
use std::sync::Wait;
use std::thread::Threads;
use task_ids::{Cluster, Corpus};

/// For how many letters each inbox has room.
const CAPACITY: u32 = 64;

/// What a script over threads came to.
#[derive(Drop)]
pub(crate) struct Ran {
    pub(crate) lines: Vec<LineNote>,
    pub(crate) nodes: Vec<NodeNote>,
}

// A script whose cancels are those of the run.
fn run_named<W: Run + Send, P: Spawner, G: Gate, R: Threads + Wait + Sync>(
    rt: &R,
    alloc: Global,
    cluster: &Cluster,
    workers: u32,
    corpus: &Corpus,
    known: &HashSet<&str>,
    script: &[Command],
    spawner: &mut P,
    gate: &G,
) -> Result<Ran, RunStop>
    requires setting { (W.setting.corpus ≡ corpus.now) × (W.setting.shards ≡ cluster.now.shards) }
    requires workers { IsPoolSize workers }
    requires can { CanDrive W.cancels W.setting cluster.now.nodes script.now }
    ensures lines { IfOk result (λ ran. AreNotes W.cancels W.setting (λ index. contains_by (λ k. bytes_eq index k.now) known.now) script.now ran.lines.items) }
    ensures nodes { IfOk result (λ ran. AreClear cluster.now.nodes ran.nodes.items) }
    ensures ran { IfOk result (λ ran. HaveRun W W.cancels cluster.now corpus.now workers ran.nodes.items) }
    ensures cause { MatchResult result (λ _. P.faults spawner.new ≡ P.faults spawner.old) (IsCauseOf (P.faults spawner.old) (P.faults spawner.new)) }
{
    let mut driver = ScriptDriver::<W, DriverGate<'_, G>> {
        alloc,
        task: Task::new(cluster, workers, script),
        known,
        gate: DriverGate { gate },
        notes: Vec::new(alloc),
    };
    let RunNotes { nodes, driver: _ } = run_cluster(
        rt,
        alloc,
        cluster,
        workers,
        corpus,
        CAPACITY,
        spawner,
        gate,
        &mut driver,
    )?;
    let ScriptDriver { notes, .. } = driver;
    Ok(Ran {
        lines: notes,
        nodes,
    })
}

// Runs a script over threads, with these indices.
fn run_known<P: Spawner, G: Gate, R: Threads + Wait + Sync>(
    rt: &R,
    alloc: Global,
    cluster: &Cluster,
    workers: u32,
    corpus: &Corpus,
    known: &HashSet<&str>,
    script: &[Command],
    spawner: &mut P,
    gate: &G,
) -> Result<Ran, RunStop>
    requires workers { IsPoolSize workers }
    requires fits { AllFit cluster.now.nodes [] script.now }
    requires few { length script.now ≤ 65535 }
    ensures lines { IfOk result (λ ran. AreNotes (IsCancelOf script.now) (setting_of cluster.now corpus.now script.now) (λ index. contains_by (λ k. bytes_eq index k.now) known.now) script.now ran.lines.items) }
    ensures nodes { IfOk result (λ ran. AreClear cluster.now.nodes ran.nodes.items) }
    ensures ran { IfOk result (λ ran. HaveRun Brand (IsCancelOf script.now) cluster.now corpus.now workers ran.nodes.items) }
    ensures cause { MatchResult result (λ _. P.faults spawner.new ≡ P.faults spawner.old) (IsCauseOf (P.faults spawner.old) (P.faults spawner.new)) }
{
    run_named::<Brand, P, G, R>(
        rt, alloc, cluster, workers, corpus, known, script, spawner, gate,
    )
}

/// Runs a script over threads.
pub(crate) fn run_script<P: Spawner, G: Gate, R: Threads + Wait + Sync>(
    rt: &R,
    alloc: Global,
    cluster: &Cluster,
    workers: u32,
    corpus: &Corpus,
    script: &[Command],
    spawner: &mut P,
    gate: &G,
) -> Result<Ran, RunStop>
    requires workers { IsPoolSize workers }
    requires fits { AllFit cluster.now.nodes [] script.now }
    requires few { length script.now ≤ 65535 }
    ensures lines { IfOk result (λ ran. AreNotes (IsCancelOf script.now) (setting_of cluster.now corpus.now script.now) (is_known corpus.now script.now) script.now ran.lines.items) }
    ensures nodes { IfOk result (λ ran. AreClear cluster.now.nodes ran.nodes.items) }
    ensures ran { IfOk result (λ ran. HaveRun Brand (IsCancelOf script.now) cluster.now corpus.now workers ran.nodes.items) }
    ensures cause { MatchResult result (λ _. P.faults spawner.new ≡ P.faults spawner.old) (IsCauseOf (P.faults spawner.old) (P.faults spawner.new)) }
{
    let dests = dests_of(alloc, script)?;
    let known = indices_of(alloc, corpus, dests.as_slice())?;
    run_known(
        rt, alloc, cluster, workers, corpus, &known, script, spawner, gate,
    )
}

//! The program `tasktree`: it replays a script of task trees or runs it over threads, and prints one line of JSON for each command, or writes an
//! input for that.
//!
//! It reads standard input and writes to standard output. What went wrong stands on standard error, and the exit
//! status says which kind it was.
#![tactic(auto)]

ghost use Rattle.std.specs.Prelude.{◌≡◌, ◌≤◌, ◌⊎◌, IfErr, IfOk};
ghost use Rattle.command_line.specs.Plan.{HasWorkers};

use es_io::{OpenGate, Sink, Source, StdSink, StdSource, ThreadSpawner};
use run_top::{pool_top, run_top};
use std::alloc::Global;
use std::env;
use std::io::ErrorKind;
use std::mem::forget;
use std::process::ExitCode;
use std::rt::Env;
use std::sync::Wait;
use std::thread::Threads;
use task_ids::Cluster;
use task_top::{Plan, PlanError, Status, gen_top, plan, sim_top};

#[cfg(test)]
mod tests;

/// The words after the program's name. A word that is not UTF-8 makes the command line a faulty one.
fn words<R: Env + AllocGlobal>(rt: &R) -> Result<Vec<String>, Status>
    ensures { IfErr result (λ status. (status ≡ Status.Usage) ⊎ (status ≡ Status.Memory)) }
{
    let mut args = match env::args(rt) {
        Ok(args) => args,
        Err(error) if error.kind() == ErrorKind::OutOfMemory => return Err(Status::Memory),
        Err(_) => return Err(Status::Usage),
    };
    drop(args.next());
    match args.collect(rt.alloc()) {
        Ok(words) => Ok(words),
        Err(_) => Err(Status::Memory),
    }
}

/// What the command line asks for.
fn planned<R: Env + AllocGlobal>(rt: &R) -> Result<Plan, Status>
    ensures workers { IfOk result HasWorkers }
    ensures error { IfErr result (λ status. (status ≡ Status.Usage) ⊎ (status ≡ Status.Memory)) }
{
    let words = words(rt)?;
    match plan(rt.alloc(), words.as_slice()) {
        Ok(plan) => Ok(plan),
        Err(PlanError::Usage) => Err(Status::Usage),
        Err(PlanError::Memory) => Err(Status::Memory),
    }
}

/// Replays the script of an input.
fn replay<S: Source, K: Sink>(
    alloc: Global,
    cluster: &Cluster,
    input: &mut S,
    out: &mut K,
) -> Status {
    let (status, kept) = sim_top(alloc, cluster, input, out);
    // The process ends, and all of its memory with it; to free it piece by piece before that is work for nothing.
    forget(kept);
    status
}

/// Runs the script of an input over threads, with one data worker on each node.
fn run<S: Source, K: Sink, R: Threads + Wait + Sync>(
    rt: &R,
    alloc: Global,
    cluster: &Cluster,
    input: &mut S,
    out: &mut K,
) -> Status {
    let mut spawner = ThreadSpawner::new();
    let (status, kept) = run_top(rt, alloc, cluster, input, out, &mut spawner, &OpenGate);
    forget(kept);
    status
}

/// The same with so many data workers on each node.
fn run_pool<S: Source, K: Sink, R: Threads + Wait + Sync>(
    rt: &R,
    alloc: Global,
    cluster: &Cluster,
    workers: u32,
    input: &mut S,
    out: &mut K,
) -> Status
    requires { (1 ≤ workers) × (workers ≤ 4) }
{
    let mut spawner = ThreadSpawner::new();
    let (status, kept) = pool_top(
        rt,
        alloc,
        cluster,
        workers,
        input,
        out,
        &mut spawner,
        &OpenGate,
    );
    forget(kept);
    status
}

fn main(rt: HostRuntime) -> ExitCode {
    let alloc = rt.alloc();
    let mut input = StdSource::new(rt.stdin());
    let mut out = StdSink::new(rt.stdout());
    let status = match planned(&rt) {
        Ok(Plan::Sim(cluster)) => replay(alloc, &cluster, &mut input, &mut out),
        Ok(Plan::Run(cluster)) => run(&rt, alloc, &cluster, &mut input, &mut out),
        Ok(Plan::Pool { cluster, workers }) => {
            run_pool(&rt, alloc, &cluster, workers, &mut input, &mut out)
        }
        Ok(Plan::Gen(number)) => gen_top(alloc, number, &mut out),
        Err(status) => status,
    };
    if status != Status::Done {
        let _ = eprintln!(rt; "{status}");
    }
    ExitCode::from(status.exit_code())
}

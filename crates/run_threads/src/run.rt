// Workers in threads, with a driver.
ghost use Rattle.std.specs.Prelude.{◌≡◌, [], Some, IfOk, IfErr, IfNone, OnOk, MatchResult};
ghost use denote.Param.Send.{IsSend};
ghost use Rattle.run_inboxes.specs.Ends.{SameEnds};
ghost use Rattle.run_inboxes.specs.Pairs.{Pairwise};
ghost use Rattle.node_worker.specs.Job.{Gives};
ghost use Rattle.run_facts.specs.declared.Of.{Of};
ghost use Rattle.run_threads.specs.Causes.{AllEnded, EachEnded, IfStopped, IsCauseOf};
ghost use Rattle.run_threads.specs.Jobs.{jobs_of, all_jobs, lists_of, Drained};

use crate::cause::RunStop;
use crate::drive::Drive;
use crate::ending::{Watch, settle};
use crate::finish::{finish_all, finish_each};
use crate::start::{Thread, start_all, start_each};
use es_io::Spawner;
use node_link::{Letter, RunName};
use node_worker::{Rest, Turns, Worker};
use run_facts::{Of, Run};
use run_inboxes::Ends;
use std::alloc::Global;
use std::sync::Wait;
use std::sync::atomic::AtomicU32;
use std::thread;
use std::thread::{Scope, Threads};
use task_events::Stop;

/// The workers of a cluster before they run, and the driver's ends of their inboxes.
#[derive(Drop)]
pub struct Workers<N: RunName, C: Turns<N>, D: Turns<N>> {
    /// The control worker of each node.
    pub controls: Vec<Worker<N, C>>,
    /// The data workers of each node, worker 0 first. Each node has as many.
    pub datas: Vec<Vec<Worker<N, D>>>,
    /// What the driver sends and takes by.
    pub driver: Ends<Letter<N>>,
}

/// What the workers of a cluster left, and the driver's ends of their inboxes.
#[derive(Drop)]
pub struct WorkersRest<N: RunName, C, D> {
    /// What the control worker of each node left.
    pub controls: Vec<Rest<N, C>>,
    /// What the data workers of each node left, worker 0 first.
    pub datas: Vec<Vec<Rest<N, D>>>,
    /// What the driver sent and took by.
    pub driver: Ends<Letter<N>>,
}

// The threads of the workers that were started.
struct Crew<'s, 'c, N: RunName + Send, C: Turns<N> + Send + Drop, D: Turns<N> + Send + Drop> {
    controls: Vec<Thread<'s, 'c, Worker<N, C>>>,
    datas: Vec<Vec<Thread<'s, 'c, Worker<N, D>>>>,
}

impl<
    's,
    'c: 's,
    N: RunName + Send + 's,
    C: Turns<N> + Send + Drop + 's,
    D: Turns<N> + Send + Drop + 's,
> Crew<'s, 'c, N, C, D> {
    // Starts all of these workers, or those up to the first that can't be started.
    fn start<E, P: Spawner, R: Wait + Sync>(
        &mut self,
        rt: &'s R,
        scope: &'s Scope<'s, E>,
        alloc: Global,
        controls: Vec<Worker<N, C>>,
        datas: Vec<Vec<Worker<N, D>>>,
        done: &'c AtomicU32,
        spawner: &mut P,
    ) -> Result<(), RunStop>
        requires { (self.old.controls.items ≡ []) × (self.old.datas.items ≡ []) }
        ensures controls { IfOk result (λ _. jobs_of self.new.controls.items ≡ controls.items) }
        ensures datas { IfOk result (λ _. all_jobs self.new.datas.items ≡ lists_of datas.items) }
        ensures quiet { OnOk result (P.faults spawner.new ≡ P.faults spawner.old) }
        ensures cause { IfErr result (IsCauseOf (P.faults spawner.old) (P.faults spawner.new)) }
    {
        start_each(rt, scope, alloc, &mut self.datas, datas, done, spawner)?;
        start_all(rt, scope, &mut self.controls, controls, done, spawner)?;
        Ok(())
    }
}

// How long the first of these lists is, or 0 where there is none.
fn first_len<T>(lists: &[Vec<T>]) -> usize {
    match lists.first() {
        Some(own) => own.len(),
        None => 0,
    }
}

// How long all of these lists are together.
fn count_all<T>(lists: &[Vec<T>]) -> usize {
    let mut count = 0usize;
    for own in lists {
        count = count.saturating_add(own.len());
    }
    count
}

// Lets the driver do its part, where all workers were started, and tells what was met.
#[tactic(auto, using(run_inboxes::proofs::Same::same_ends))]
fn driven<W: Run, V: Drive<Of<W>>, R: Wait>(
    rt: &R,
    drive: &mut V,
    driver: &mut Ends<Letter<Of<W>>>,
    begun: Result<(), RunStop>,
) -> Option<Stop>
    ensures same { SameEnds driver.old driver.new }
    ensures done { IfNone result (V.done drive.old drive.new) }
{
    match begun {
        Ok(()) => match drive.drive(rt, driver) {
            Ok(()) => None,
            Err(stop) => Some(stop),
        },
        Err(cause) => Some(cause.told()),
    }
}

// Starts the workers, drives them, and waits until they have ended.
#[tactic(auto, using(run_inboxes::proofs::Same::ends_on, crate::proofs::Ended::all_ended, crate::proofs::Ended::each_ended))]
fn run_in<
    's,
    'c: 's,
    E,
    W: Run + Send + 's,
    C: Turns<Of<W>> + Send + Drop + 's,
    D: Turns<Of<W>> + Send + Drop + 's,
    P: Spawner,
    V: Drive<Of<W>>,
    R: Threads + Wait + Sync,
>(
    rt: &'s R,
    scope: &'s Scope<'s, E>,
    alloc: Global,
    workers: Workers<Of<W>, C, D>,
    done: &'c AtomicU32,
    spawner: &mut P,
    drive: &mut V,
) -> Result<WorkersRest<Of<W>, C, D>, RunStop>
    ensures controls { IfOk result (λ rest. Pairwise (Drained C.did C.at_rest C.fits) workers.controls.items rest.controls.items) }
    ensures datas { IfOk result (λ rest. Pairwise (Pairwise (Drained D.did D.at_rest D.fits)) (lists_of workers.datas.items) (lists_of rest.datas.items)) }
    ensures driver { IfOk result (λ rest. SameEnds workers.driver rest.driver) }
    ensures done { OnOk result (V.done drive.old drive.new) }
    ensures first_controls { IfErr result (IfStopped (λ stop. AllEnded (Gives {N = Of W} C.did C.at_rest C.fits) workers.controls.items (Some stop))) }
    ensures first_datas { IfErr result (IfStopped (λ stop. EachEnded (Gives {N = Of W} D.did D.at_rest D.fits) (lists_of workers.datas.items) (Some stop))) }
    ensures cause { MatchResult result (λ _. P.faults spawner.new ≡ P.faults spawner.old) (IsCauseOf (P.faults spawner.old) (P.faults spawner.new)) }
{
    let Workers {
        controls,
        datas,
        mut driver,
    } = workers;
    let mut crew = Crew {
        controls: Vec::new(alloc),
        datas: Vec::new(alloc),
    };
    let size = first_len(datas.as_slice());
    let begun = crew.start(rt, scope, alloc, controls, datas, done, spawner);
    let met = driven(rt, drive, &mut driver, begun);
    let watch = Watch {
        workers: size,
        controls: crew.controls.len(),
        datas: count_all(crew.datas.as_slice()),
        done,
    };
    let met = settle(rt, &mut driver, met, &watch);
    let mut rest = WorkersRest {
        controls: Vec::new(alloc),
        datas: Vec::new(alloc),
        driver,
    };
    let Crew { controls, datas } = crew;
    let met = finish_all(rt, controls, &mut rest.controls, met);
    let met = finish_each(rt, alloc, datas, &mut rest.datas, met);
    match begun {
        Ok(()) => match met {
            None => Ok(rest),
            Some(stop) => Err(RunStop::Stopped(stop)),
        },
        Err(RunStop::NoThread) => Err(RunStop::NoThread),
        Err(_) => Err(RunStop::NoMemory),
    }
}

// The same, and hands back what it was lent for the time of the threads.
fn run_lent<
    's,
    'c: 's,
    'p,
    'v,
    E,
    W: Run + Send + 's,
    C: Turns<Of<W>> + Send + Drop + 's,
    D: Turns<Of<W>> + Send + Drop + 's,
    P: Spawner,
    V: Drive<Of<W>>,
    R: Threads + Wait + Sync,
>(
    rt: &'s R,
    scope: &'s Scope<'s, E>,
    alloc: Global,
    workers: Workers<Of<W>, C, D>,
    done: &'c AtomicU32,
    spawner: &'p mut P,
    drive: &'v mut V,
) -> (
    Result<WorkersRest<Of<W>, C, D>, RunStop>,
    &'p mut P,
    &'v mut V,
)
    ensures controls { IfOk result.0 (λ rest. Pairwise (Drained C.did C.at_rest C.fits) workers.controls.items rest.controls.items) }
    ensures datas { IfOk result.0 (λ rest. Pairwise (Pairwise (Drained D.did D.at_rest D.fits)) (lists_of workers.datas.items) (lists_of rest.datas.items)) }
    ensures driver { IfOk result.0 (λ rest. SameEnds workers.driver rest.driver) }
    ensures done { OnOk result.0 (V.done drive.old result.2.now) }
    ensures first_controls { IfErr result.0 (IfStopped (λ stop. AllEnded (Gives {N = Of W} C.did C.at_rest C.fits) workers.controls.items (Some stop))) }
    ensures first_datas { IfErr result.0 (IfStopped (λ stop. EachEnded (Gives {N = Of W} D.did D.at_rest D.fits) (lists_of workers.datas.items) (Some stop))) }
    ensures cause { MatchResult result.0 (λ _. P.faults result.1.now ≡ P.faults spawner.old) (IsCauseOf (P.faults spawner.old) (P.faults result.1.now)) }
    ensures back { (result.1.ghost_name ≡ spawner.entry.ghost_name) × (result.2.ghost_name ≡ drive.entry.ghost_name) }
{
    let end = run_in(rt, scope, alloc, workers, done, spawner, drive);
    (end, spawner, drive)
}

/// Runs these workers, each in a thread of its own, with a driver. Once the driver has every answer, they are told to leave, and what they
/// left is handed back. Where a worker could not be started, or one of them or the driver had to stop, all that were started are told to
/// stop and have ended when this comes back. Where all were started, each has ended as its job owes, and of the causes for which some had to
/// stop, the first is told, in the order NumbersSpent, Memory.
pub fn run_workers<
    W: Run + Send,
    C: Turns<Of<W>> + Send + Drop,
    D: Turns<Of<W>> + Send + Drop,
    P: Spawner,
    V: Drive<Of<W>>,
    R: Threads + Wait + Sync,
>(
    rt: &R,
    alloc: Global,
    workers: Workers<Of<W>, C, D>,
    spawner: &mut P,
    drive: &mut V,
) -> Result<WorkersRest<Of<W>, C, D>, RunStop>
    ensures controls { IfOk result (λ rest. Pairwise (Drained C.did C.at_rest C.fits) workers.controls.items rest.controls.items) }
    ensures datas { IfOk result (λ rest. Pairwise (Pairwise (Drained D.did D.at_rest D.fits)) (lists_of workers.datas.items) (lists_of rest.datas.items)) }
    ensures driver { IfOk result (λ rest. SameEnds workers.driver rest.driver) }
    ensures done { OnOk result (V.done drive.old drive.new) }
    ensures first_controls { IfErr result (IfStopped (λ stop. AllEnded (Gives {N = Of W} C.did C.at_rest C.fits) workers.controls.items (Some stop))) }
    ensures first_datas { IfErr result (IfStopped (λ stop. EachEnded (Gives {N = Of W} D.did D.at_rest D.fits) (lists_of workers.datas.items) (Some stop))) }
    ensures cause { MatchResult result (λ _. P.faults spawner.new ≡ P.faults spawner.old) (IsCauseOf (P.faults spawner.old) (P.faults spawner.new)) }
{
    let count = AtomicU32::new(0);
    let done = &count;
    let (end, spawner_back, drive_back) = thread::scope(
        thread::scope_env(),
        rt,
        move |scope| -> (Result<WorkersRest<Of<W>, C, D>, RunStop>, &mut P, &mut V)
            requires { IsSend W.row × IsSend C.row × IsSend D.row }
            ensures controls { IfOk result.0 (λ rest. Pairwise (Drained C.did C.at_rest C.fits) workers.controls.items rest.controls.items) }
            ensures datas { IfOk result.0 (λ rest. Pairwise (Pairwise (Drained D.did D.at_rest D.fits)) (lists_of workers.datas.items) (lists_of rest.datas.items)) }
            ensures driver { IfOk result.0 (λ rest. SameEnds workers.driver rest.driver) }
            ensures done { OnOk result.0 (V.done drive.entry.now result.2.now) }
            ensures first_controls { IfErr result.0 (IfStopped (λ stop. AllEnded (Gives {N = Of W} C.did C.at_rest C.fits) workers.controls.items (Some stop))) }
            ensures first_datas { IfErr result.0 (IfStopped (λ stop. EachEnded (Gives {N = Of W} D.did D.at_rest D.fits) (lists_of workers.datas.items) (Some stop))) }
            ensures cause { MatchResult result.0 (λ _. P.faults result.1.now ≡ P.faults spawner.entry.now) (IsCauseOf (P.faults spawner.entry.now) (P.faults result.1.now)) }
            ensures back { (result.1.ghost_name ≡ spawner.entry.ghost_name) × (result.2.ghost_name ≡ drive.entry.ghost_name) }
        { run_lent(rt, scope, alloc, workers, done, spawner, drive) },
    );
    let _ = spawner_back;
    let _ = drive_back;
    end
}

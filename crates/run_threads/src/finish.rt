// The end of many workers.
ghost use Rattle.std.specs.Prelude.{◌≡◌, ◌++◌, ◌∷◌, [], ◌≤◌, List, None, Some, MatchOption, IfSome};
ghost use Rattle.node_worker.specs.declared.worker.WorkerOut.TheVariants.{Drained as drained_with};
ghost use Rattle.run_inboxes.specs.Pairs.{Pairwise};
ghost use Rattle.node_worker.specs.Job.{Gives};
ghost use Rattle.run_threads.specs.Causes.{IsNoLater, cause_of, AllEnded, EachEnded};
ghost use Rattle.run_threads.specs.Jobs.{jobs_of, all_jobs, lists_of, Drained};

use crate::cause::also;
use crate::start::{Thread, finish};
use node_link::RunName;
use node_worker::{Rest, Turns, Worker, WorkerOut};
use std::alloc::Global;
use std::thread::Threads;
use task_events::Stop;

// Takes what a worker left, where it drained, and tells the cause for which it did not, or that memory ran out.
fn keep<R: Drop>(rests: &mut Vec<R>, out: WorkerOut<R>) -> Option<Stop>
    ensures none { result ≡ None → (rest : R) × (out ≡ drained_with rest) × (rests.new.items ≡ rests.old.items ++ rest ∷ []) }
    ensures cause { IsNoLater (cause_of out) result }
{
    match out {
        WorkerOut::Drained(rest) => match rests.push(rest) {
            Ok(()) => None,
            Err(_) => Some(Stop::Memory),
        },
        WorkerOut::Stopped(stop, _) => Some(stop),
    }
}

// The same of a worker that ends after others.
fn keep_also<R: Drop>(rests: &mut Vec<R>, out: WorkerOut<R>, met: Option<Stop>) -> Option<Stop>
    ensures none { result ≡ None → (met ≡ None) × ((rest : R) × (out ≡ drained_with rest) × (rests.new.items ≡ rests.old.items ++ rest ∷ [])) }
    ensures kept { IsNoLater met result }
    ensures cause { IsNoLater (cause_of out) result }
{
    match keep(rests, out) {
        Some(stop) => Some(also(met, stop)),
        None => met,
    }
}

/// Waits for all of these workers, and takes what those left that drained. It tells the first of what was met before, of the causes for which
/// some did not drain, and of want of memory. Only where there is none, all have drained.
pub(crate) fn finish_all<'s, 'c, N: RunName + Send, T: Turns<N> + Send + Drop, R: Threads>(
    rt: &R,
    started: Vec<Thread<'s, 'c, Worker<N, T>>>,
    rests: &mut Vec<Rest<N, T>>,
    met: Option<Stop>,
) -> Option<Stop>
    requires { rests.old.items ≡ [] }
    ensures none { result ≡ None → (met ≡ None) × Pairwise (Drained T.did T.at_rest T.fits) (jobs_of started.entry.items) rests.new.items }
    ensures kept { IsNoLater met result }
    ensures ended { AllEnded (Gives {N = N} T.did T.at_rest T.fits) (jobs_of started.entry.items) result }
{
    let mut met = met;
    for thread in started {
        met = keep_also(rests, finish(rt, thread), met);
    }
    met
}

// Takes what the workers of one list left, and tells what was met, or that memory ran out.
fn keep_list<R: Drop>(lists: &mut Vec<Vec<R>>, rests: Vec<R>, met: Option<Stop>) -> Option<Stop>
    ensures none { result ≡ None → (met ≡ None) × (lists.new.items ≡ lists.old.items ++ rests ∷ []) }
    ensures kept { IsNoLater met result }
{
    match lists.push(rests) {
        Ok(()) => met,
        Err(_) => Some(also(met, Stop::Memory)),
    }
}

/// Waits for the workers of each of these lists, as `finish_all` does for one, and keeps what those of each list left together.
pub(crate) fn finish_each<'s, 'c, N: RunName + Send, T: Turns<N> + Send + Drop, R: Threads>(
    rt: &R,
    alloc: Global,
    started: Vec<Vec<Thread<'s, 'c, Worker<N, T>>>>,
    rests: &mut Vec<Vec<Rest<N, T>>>,
    met: Option<Stop>,
) -> Option<Stop>
    requires { rests.old.items ≡ [] }
    ensures none { result ≡ None → (met ≡ None) × Pairwise (Pairwise (Drained T.did T.at_rest T.fits)) (all_jobs started.entry.items) (lists_of rests.new.items) }
    ensures kept { IsNoLater met result }
    ensures ended { EachEnded (Gives {N = N} T.did T.at_rest T.fits) (all_jobs started.entry.items) result }
{
    let mut met = met;
    for threads in started {
        let mut left = Vec::new(alloc);
        met = finish_all(rt, threads, &mut left, met);
        met = keep_list(rests, left, met);
    }
    met
}

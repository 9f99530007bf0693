// Many jobs, each in a thread of its own.
ghost use Rattle.std.specs.Prelude.{◌≡◌, ◌++◌, IfOk, IfErr, OnOk};
ghost use Rattle.es_io.specs.Worker.{job_of};
ghost use Rattle.run_threads.specs.Causes.{IsCauseOf};
ghost use Rattle.run_threads.specs.Jobs.{jobs_of, all_jobs, lists_of};

use crate::cause::RunStop;
use crate::counted::Counted;
use es_io::{Job, Spawner, Started};
use std::alloc::Global;
use std::sync::Wait;
use std::sync::atomic::AtomicU32;
use std::thread::{Scope, Threads};

/// A job that runs in a thread, and is counted when it is done.
pub(crate) type Thread<'s, 'c, J> = Started<'s, Counted<'c, J>>;

/// Starts these jobs in order, up to the first that can't be started. Each counts itself when it is done.
pub(crate) fn start_all<'s, 'c: 's, E, J: Job + 's, P: Spawner, R: Wait + Sync>(
    rt: &'s R,
    scope: &'s Scope<'s, E>,
    started: &mut Vec<Thread<'s, 'c, J>>,
    jobs: Vec<J>,
    done: &'c AtomicU32,
    spawner: &mut P,
) -> Result<(), RunStop>
    ensures jobs { IfOk result (λ _. jobs_of started.new.items ≡ jobs_of started.old.items ++ jobs.items) }
    ensures quiet { OnOk result (P.faults spawner.new ≡ P.faults spawner.old) }
    ensures cause { IfErr result (IsCauseOf (P.faults spawner.old) (P.faults spawner.new)) }
{
    for job in jobs {
        if started.reserve(1).is_err() {
            return Err(RunStop::NoMemory);
        }
        match spawner.start(rt, scope, Counted { job, done }) {
            Ok(thread) => started.push_reserved(thread),
            Err(_) => return Err(RunStop::NoThread),
        }
    }
    Ok(())
}

/// Starts the jobs of each of these lists in order, up to the first that can't be started, and keeps the threads of each list together.
pub(crate) fn start_each<'s, 'c: 's, E, J: Job + 's, P: Spawner, R: Wait + Sync>(
    rt: &'s R,
    scope: &'s Scope<'s, E>,
    alloc: Global,
    started: &mut Vec<Vec<Thread<'s, 'c, J>>>,
    lists: Vec<Vec<J>>,
    done: &'c AtomicU32,
    spawner: &mut P,
) -> Result<(), RunStop>
    ensures jobs { IfOk result (λ _. all_jobs started.new.items ≡ all_jobs started.old.items ++ lists_of lists.items) }
    ensures quiet { OnOk result (P.faults spawner.new ≡ P.faults spawner.old) }
    ensures cause { IfErr result (IsCauseOf (P.faults spawner.old) (P.faults spawner.new)) }
{
    for jobs in lists {
        if started.reserve(1).is_err() {
            return Err(RunStop::NoMemory);
        }
        let mut own = Vec::new(alloc);
        let begun = start_all(rt, scope, &mut own, jobs, done, spawner);
        started.push_reserved(own);
        begun?;
    }
    Ok(())
}

/// Waits until the job is done, and gives its output.
pub(crate) fn finish<'s, 'c, J: Job, R: Threads>(rt: &R, thread: Thread<'s, 'c, J>) -> J::Out
    ensures { J.gives (job_of thread.entry).job result }
{
    thread.finish(rt)
}

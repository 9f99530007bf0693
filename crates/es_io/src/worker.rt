// Jobs, and how each is started in a thread of its own.
ghost use Rattle.std.specs.Prelude.{◌≡◌, ℕ, ◌≤◌, [], IfOk, IsOk, OnOk, OnErr, is_err};
ghost use Rattle.es_io.specs.Count.{Rose, next_count};
ghost use Rattle.es_io.specs.Memory.{is_failing};
ghost use Rattle.es_io.specs.Worker.{job_of};

use crate::Failed;
use std::marker::{Model, PhantomData};
use std::snapshot::Snapshot;
use std::sync::Wait;
use std::thread::{Promise, PromisedHandle, Scope, Threads};

/// Work for a thread of its own.
pub trait Job: Send + Drop {
    /// What the thread gives back.
    type Out: Send + Drop;

    /// What the output owes to what the job holds.
    ghost gives: { Self → Self.Out → Type 0 };

    /// Does the work. It may wait for other threads.
    fn run<R: Wait>(self, rt: &R) -> Self::Out
        ensures { gives self result };
}

// The promise of a thread that runs this job: it has no bytes.
#[derive(Drop)]
struct Owed<J>(Snapshot<J>);

impl<J: Job> Promise<J::Out> for Owed<J> {
    ghost kept_by = { λ owed out. J.gives owed.0.value out };
}

/// A job that runs in a thread.
#[derive(Drop)]
pub struct Started<'s, J: Job> {
    handle: PromisedHandle<J::Out, Owed<J>>,
    scope: PhantomData<&'s ()>,
}

impl<'s, J: Job> Started<'s, J> {
    /// Waits until the job is done, and gives its output.
    pub fn finish<R: Threads>(self, rt: &R) -> J::Out
        ensures { J.gives (job_of self.entry) result }
    {
        let Started { handle, scope: _ } = self;
        handle.join(rt)
    }
}

/// Starts jobs. An implementation says at which calls it fails; `start` itself is the same for all.
pub trait Spawner {
    /// How often a job could not be started: a count that never falls, and stands still at 2^64 - 1.
    ghost faults: { Self → ℕ };

    /// Whether the next job may have a thread. It is `Failed` exactly where the count of faults rose.
    fn may_start(&mut self) -> Result<(), Failed>
        ensures monotone { faults self.old ≤ faults self.new }
        ensures quiet { OnOk result (faults self.new ≡ faults self.old) }
        ensures cause { OnErr result (Rose (faults self.old) (faults self.new)) };

    /// Counts a thread that could not be made as a fault.
    fn count_fault(&mut self)
        ensures monotone { faults self.old ≤ faults self.new }
        ensures counted { Rose (faults self.old) (faults self.new) };

    /// Starts a job in a thread of its own, which ends within the scope, so that the job may borrow what the scope's
    /// maker owns. It is `Failed` exactly where the spawner has failed; the job is then dropped and never runs.
    final fn start<'s, E, J: Job + 's, R: Wait + Sync>(
        &mut self,
        rt: &'s R,
        scope: &'s Scope<'s, E>,
        job: J,
    ) -> Result<Started<'s, J>, Failed>
        ensures started { IfOk result (λ s. job_of s ≡ job) }
        ensures monotone { faults self.old ≤ faults self.new }
        ensures quiet { OnOk result (faults self.new ≡ faults self.old) }
        ensures cause { OnErr result (Rose (faults self.old) (faults self.new)) }
    {
        self.may_start()?;
        let owed = Owed(Snapshot::of(&job));
        let started = scope.spawn_with(
            owed,
            move || -> J::Out
                ensures { J.gives job result }
            { job.run(rt) },
        );
        match started {
            Ok(handle) => Ok(Started {
                handle,
                scope: PhantomData,
            }),
            Err(_) => {
                self.count_fault();
                Err(Failed)
            }
        }
    }
}

/// Starts each job in a thread of the system. It counts each thread that the system refused.
///
/// Trusted, since no contract can say it: that the thread runs, beside the others.
#[derive(Drop)]
pub struct ThreadSpawner {
    faults: u64,
}

impl Model for ThreadSpawner {
    ghost use Rattle.std.specs.Prelude.{ℕ};

    ghost Value = { ℕ };

    ghost view = { λ s. s.faults };
}

impl ThreadSpawner {
    /// A spawner that has not failed yet.
    pub fn new() -> ThreadSpawner
        ensures { result ≡ 0 }
    {
        ThreadSpawner { faults: 0 }
    }
}

impl Spawner for ThreadSpawner {
    ghost faults = { λ faults. faults };

    /// It refuses no job itself.
    fn may_start(&mut self) -> Result<(), Failed>
        ensures never { IsOk result }
        ensures same { self.new ≡ self.old }
    {
        Ok(())
    }

    fn count_fault(&mut self)
        ensures after { self.new ≡ next_count self.old }
        ensures monotone { self.old ≤ self.new }
    {
        self.faults = self.faults.saturating_add(1);
    }
}

/// Starts jobs in threads of the system, and fails at the calls that it was told. For tests.
#[derive(Drop)]
pub struct ListSpawner {
    failing: Vec<u64>,
    calls: u64,
    faults: u64,
}

impl Model for ListSpawner {
    ghost use Rattle.es_io.specs.Worker.{SpawnerState};

    ghost Value = { SpawnerState };

    ghost view = { λ s. record { failing = s.failing.items; calls = s.calls; faults = s.faults } };
}

impl ListSpawner {
    /// `failing` lists the calls of `start`, counted from 1, that fail. It takes no memory.
    pub fn new(failing: Vec<u64>) -> ListSpawner
        ensures { result ≡ record { failing = failing.items; calls = 0; faults = 0 } }
    {
        ListSpawner {
            failing,
            calls: 0,
            faults: 0,
        }
    }
}

impl Spawner for ListSpawner {
    ghost faults = { λ s. s.faults };

    /// It fails exactly at the calls that are listed.
    fn may_start(&mut self) -> Result<(), Failed>
        ensures fails { is_err result ≡ is_failing self.old.failing (next_count self.old.calls) }
        ensures after { OnOk result (self.new ≡ record self.old { calls = next_count self.old.calls }) }
        ensures failed { OnErr result (self.new ≡ record self.old { calls = next_count self.old.calls; faults = next_count self.old.faults }) }
        ensures monotone { self.old.faults ≤ self.new.faults }
    {
        self.calls = self.calls.saturating_add(1);
        if self.failing.contains(&self.calls) {
            self.count_fault();
            return Err(Failed);
        }
        Ok(())
    }

    fn count_fault(&mut self)
        ensures after { self.new ≡ record self.old { faults = next_count self.old.faults } }
        ensures monotone { self.old.faults ≤ self.new.faults }
    {
        self.faults = self.faults.saturating_add(1);
    }
}

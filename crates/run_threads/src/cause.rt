// Why a run over threads stopped.
ghost use Rattle.std.specs.Prelude.{◌≡◌, ◌⊎◌, ◌≤◌, Some, IfSome};
ghost use Rattle.run_threads.specs.Causes.{rank, IsNoLater};

use std::alloc::AllocError;
use task_events::Stop;

/// Why a run over threads came to an early end.
#[derive(Clone, Copy, Debug, PartialEq, Eq)]
pub enum RunStop {
    /// A worker could not be given a thread.
    NoThread,
    /// Memory ran out before all workers were started, or after all of them had drained.
    NoMemory,
    /// All workers were started, and one of them or the driver had to stop.
    Stopped(Stop),
}

impl From<AllocError> for RunStop {
    ghost use Rattle.std.specs.Prelude.{◌≡◌};
    ghost use Rattle.run_threads.specs.declared.cause.RunStop.TheVariants.{NoMemory};

    ghost from_gives = { λ _ cause. cause ≡ NoMemory };

    fn from(_: AllocError) -> RunStop {
        RunStop::NoMemory
    }
}

impl RunStop {
    /// What the workers are told where a run stops for this cause.
    pub(crate) fn told(self) -> Stop {
        match self {
            RunStop::NoThread | RunStop::NoMemory => Stop::Memory,
            RunStop::Stopped(stop) => stop,
        }
    }
}

// How early a cause is told: NumbersSpent before all, and Memory last.
fn rank(stop: Stop) -> u32
    ensures { result ≡ rank stop }
{
    match stop {
        Stop::NumbersSpent => 0,
        Stop::HistoryFull => 1,
        Stop::Memory => 2,
    }
}

/// The cause that is told where this one is met after others, or after none.
pub(crate) fn also(met: Option<Stop>, stop: Stop) -> Stop
    ensures told { (result ≡ stop) ⊎ (met ≡ Some result) }
    ensures early { rank result ≤ rank stop }
    ensures kept { IsNoLater met (Some result) }
{
    match met {
        Some(before) if rank(before) <= rank(stop) => before,
        _ => stop,
    }
}

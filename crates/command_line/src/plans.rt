ghost use Rattle.std.specs.Prelude.{◌≡◌};

use std::alloc::AllocError;
use task_ids::Cluster;
use thiserror::Error;

/// What the program is asked to do.
#[derive(Clone, Copy)]
pub enum Plan {
    /// Replay a script, step by step, on a cluster of this size.
    Sim(Cluster),
    /// Run a script on a cluster of this size whose workers are threads.
    Run(Cluster),
    /// The same with so many data workers on each node, from 1 to 4.
    Pool { cluster: Cluster, workers: u32 },
    /// Write the input that this number makes.
    Gen(u64),
}

/// Why the words of a command line are no plan.
#[derive(Clone, Copy, Debug, PartialEq, Eq, Error)]
pub enum PlanError {
    /// The command's definition does not take them.
    #[error("the words are in none of the accepted forms")]
    Usage,
    /// Memory ran out.
    #[error("out of memory")]
    Memory,
}

impl From<AllocError> for PlanError {
    ghost use Rattle.command_line.specs.declared.plans.PlanError.TheVariants.{Memory};

    ghost from_gives = { λ _ error. error ≡ Memory };

    fn from(_error: AllocError) -> PlanError {
        PlanError::Memory
    }
}

// Why a worker halts.
ghost use Rattle.std.specs.Prelude.{◌≡◌};

use task_events::Stop;

// Why a worker does no other turn or step.
pub(crate) enum Halt {
    // A letter told it to stop.
    Told(Stop),
    // A turn or a step failed.
    Failed(Stop),
}

impl From<Stop> for Halt {
    ghost use Rattle.node_worker.specs.declared.halt.Halt.TheVariants.{Failed};

    ghost from_gives = { λ stop halt. halt ≡ Failed stop };

    fn from(stop: Stop) -> Halt {
        Halt::Failed(stop)
    }
}

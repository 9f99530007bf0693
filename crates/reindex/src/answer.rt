//! The counts of a task that has done nothing.

ghost use Rattle.std.specs.Prelude.{◌≡◌};
ghost use Rattle.task_events.specs.Tasks.{no_counts};

use task_events::Counts;

/// The counts of a task that has done nothing.
pub(crate) fn no_counts() -> Counts
    ensures { result ≡ no_counts }
{
    Counts {
        total: 0,
        created: 0,
        updated: 0,
        batches: 0,
        failures: 0,
    }
}

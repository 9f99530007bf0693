//! What work does next.
ghost use Rattle.std.specs.Prelude.{◌≡◌, ℕ, List, IfOk, IfErr};
ghost use Rattle.task_ids.specs.declared.doc.Doc.{Doc};
ghost use Rattle.task_work.specs.Works.{IsWorkOn, next_of, due_in};
ghost use Rattle.data_parts.specs.Clocks.{moment_by};
ghost use Rattle.data_parts.specs.Steps.{takes_turn};

use crate::clock::Clock;
use crate::memory::or_memory;
use task_events::{Do, Stop};
use task_work::Work;

/// Whether work takes a turn next. It takes no memory.
pub fn takes_turn(work: &Work) -> bool
    ensures { result ≡ takes_turn work.now }
{
    match work {
        Work::Query(_, found) => found.is_none(),
        Work::Fetch(_, found) => found.is_none(),
        Work::BulkShard(part) => !part.is_done(),
        _ => false,
    }
}

/// The moment by which work goes on, in milliseconds: now, or that for which it waits where that counts as past.
pub fn moment_of(work: &Work, clock: &Clock) -> u64
    ensures { (writes : List Doc) → result ≡ moment_by clock.now.ms clock.now.draining (due_in (next_of work.now writes clock.now.ms)) }
{
    clock.moment(work.due(clock.now()))
}

/// What work does next by this clock. It fails only for want of memory (`Memory`).
pub fn plan_of(work: &Work, clock: &Clock) -> Result<Do, Stop>
    ensures step { (writes : List Doc) → IsWorkOn work.now writes
        → IfOk result (λ step. step ≡ next_of work.now writes (moment_by clock.now.ms clock.now.draining (due_in (next_of work.now writes clock.now.ms)))) }
    ensures memory { IfErr result (λ stop. stop ≡ Stop.Memory) }
{
    let moment = moment_of(work, clock);
    or_memory(work.next(moment))
}

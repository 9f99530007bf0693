//! The replies of tasks that end.
ghost use Rattle.std.specs.Prelude.{◌≡◌, ℕ, IfOk, IfErr};
ghost use Rattle.data_parts.specs.Endings.{reply_of};

use crate::memory::or_memory;
use std::alloc::Global;
use task_events::{Reply, Stop};
use task_ids::TaskId;
use task_work::Work;

/// Why a task ends.
#[derive(Drop)]
pub enum Ending {
    /// A ban of its parent stands, with this cancellation.
    Refused(u32),
    /// It is marked, with this cancellation.
    Marked(u32),
    /// Its plan says that it ends with this reply.
    Finished(Reply),
}

/// The reply of a task that ends so, where its end gave this mark. It fails only for want of memory (`Memory`).
pub fn reply_of(
    alloc: Global,
    task: TaskId,
    ending: Ending,
    mark: Option<u32>,
    work: &Work,
) -> Result<Reply, Stop>
    ensures reply { IfOk result (λ reply. reply ≡ reply_of task ending mark work.now) }
    ensures memory { IfErr result (λ stop. stop ≡ Stop.Memory) }
{
    match (ending, mark) {
        (Ending::Refused(cancel), _) => Ok(Reply::cancelled(task, cancel)),
        (Ending::Marked(cancel), _) => or_memory(work.cancelled(alloc, task, cancel)),
        (Ending::Finished(_), Some(cancel)) => or_memory(work.cancelled(alloc, task, cancel)),
        (Ending::Finished(reply), None) => Ok(reply),
    }
}

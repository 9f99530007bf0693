//! The results of tasks that have ended, which stand until they are forgotten, and the commands that wait for a task to end.
//!
//! After Elasticsearch's task management API, where the result of a task outlives it.
#![tactic(auto)]

ghost use Rattle.std.specs.Prelude.{◌≡◌, None, Some, false, true};
ghost use Rattle.task_events.specs.declared.reply.Reply.TheVariants.{Cancelled};
ghost use Rattle.task_results.specs.Example.{cancelled, forgotten, half, marked, over, reply, running, script};
ghost use Rattle.task_results.specs.Stands.{ResultStands, result_at, told_at_end};

mod table;
mod waits;

pub use table::ResultTable;
use task_ids::TaskId;

/// The result of a reindex does not stand while it runs, stands when it has ended, and does not stand when it was forgotten; nor does it ever
/// where its command does not store it.
///
/// It computes nothing: its contract is the example.
pub fn example(task: TaskId)
    ensures running { result_at (script true task) task (running task) ≡ None }
    ensures over { ResultStands (script true task) task reply (over task) }
    ensures forgotten { result_at (script true task) task (forgotten task) ≡ None }
    ensures not_stored { result_at (script false task) task (over task) ≡ None }
{}

/// Who waits for a reindex that is cancelled is told nothing at its mark; once it has ended he is told what it has written until then, and
/// that result stands.
///
/// It computes nothing: its contract is the example.
pub fn example_of_waiting(task: TaskId)
    ensures marked { told_at_end (script true task) task (marked task) ≡ None }
    ensures waits { result_at (script true task) task (marked task) ≡ None }
    ensures told { told_at_end (script true task) task (cancelled task) ≡ Some (Cancelled task 4 half) }
    ensures stands { ResultStands (script true task) task (Cancelled task 4 half) (cancelled task) }
    ensures not_stored { told_at_end (script false task) task (cancelled task) ≡ None }
{}

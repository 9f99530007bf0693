//! The work of a search, and of a page of one.

ghost use Rattle.std.specs.Prelude.{◌≡◌, IfOk};
ghost use Rattle.search_phase.specs.Searching.{next_step, reply_with};
ghost use Rattle.task_work.specs.Works.{SearchEndsPlainly};

use search_phase::{RootPlan, SearchRoot};
use shared_value::Shared;
use std::alloc::AllocError;
use task_events::{Do, Reply, SearchReply};

/// The reply with the answer of a search, which tells of the failed shards alone where all have failed.
fn reply_with(shards: usize, answer: SearchReply) -> Result<Reply, AllocError>
    ensures { IfOk result (λ reply. reply ≡ reply_with shards answer) }
{
    if answer.failed.as_slice().len() == shards {
        let SearchReply { failed, .. } = answer;
        return Ok(Reply::AllFailed(Shared::new(failed.allocator(), failed)?));
    }
    Ok(Reply::Search(Shared::new(answer.failed.allocator(), answer)?))
}

/// What a search or a page does next.
pub(crate) fn next_of_search(root: &SearchRoot) -> Result<Do, AllocError>
    ensures step { IfOk result (λ step. step ≡ next_step root.now) }
    ensures plain { IfOk result (λ step. SearchEndsPlainly root.now step) }
{
    match root.plan()? {
        RootPlan::Ask(request) => Ok(Do::AskNext(request)),
        RootPlan::Wait => Ok(Do::Wait(None)),
        RootPlan::Finish => Ok(Do::Finish(reply_with(root.shards(), root.finish()?)?)),
    }
}

//! The work of a page of a search.

ghost use Rattle.std.specs.Prelude.{◌≡◌, IfOk};
ghost use Rattle.task_events.specs.Readings.{page_reading};
ghost use Rattle.search_phase.specs.Searching.{IsSearching, new_search};

use search_phase::{Context, SearchRoot};
use std::alloc::{AllocError, Global};
use task_ids::TaskId;

/// A page of a context, which has asked for nothing yet.
pub(crate) fn new_page(
    alloc: Global,
    task: TaskId,
    shards: u32,
    context: &Context,
) -> Result<SearchRoot, AllocError>
    ensures search { IfOk result (λ root. root ≡ new_search (page_reading context.now)) }
    ensures sound { IfOk result IsSearching }
{
    SearchRoot::new(alloc, task, context.ask.get(), shards, Some(context))
}

//! How each task ended.

ghost use Rattle.std.specs.Prelude.{◌≡◌, ◌+◌, List, Some, OnOk, slice_get, option_map};
ghost use Rattle.task_events.specs.declared.event.Event.{Event};
ghost use Rattle.line_print.specs.Lines.{ending};
ghost use Rattle.line_print.specs.Ends.{AreEndsOfFirst};

use std::alloc::AllocError;
use std::collections::HashMap;
use task_events::Event;
use task_ids::TaskId;

/// The task that ends with an event.
fn ended(event: &Event) -> Option<TaskId>
    ensures { result ≡ option_map (λ end. end.0) (ending event.now) }
{
    match event {
        Event::Refuse { task, .. } | Event::End { task, .. } => Some(*task),
        _ => None,
    }
}

/// Notes the place of an event, from the oldest at 0, for the task that ends with it, where one does.
pub(crate) fn note_end(
    event: &Event,
    at: usize,
    ends: &mut HashMap<TaskId, usize>,
) -> Result<(), AllocError>
    ensures { OnOk result ((events : List Event) → slice_get events at ≡ Some event.now
        → AreEndsOfFirst at events ends.old → AreEndsOfFirst (at + 1) events ends.new) }
{
    if let Some(task) = ended(event) {
        ends.insert(task, at)?;
    }
    Ok(())
}

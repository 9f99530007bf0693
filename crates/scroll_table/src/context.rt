ghost use Rattle.std.specs.Prelude.{◌≡◌, Some};
ghost use Rattle.scroll_table.specs.Ends as ends;
ghost use Rattle.scroll_table.specs.Contexts.{answer_for, lent};

use task_events::Context;
use task_ids::TaskId;

/// Why a context is not given.
#[derive(Clone, Copy, Debug, PartialEq, Eq)]
pub enum PageError {
    /// No context of that id and that owner is there, or it has expired.
    Missing,
    /// A task uses it.
    Busy,
}

/// The moment at which the context expires, unless it is used before; none where it has no keep-alive, where a task uses it, or where no
/// clock shows that moment.
pub fn end_of(context: &Context) -> Option<u64>
    ensures { result ≡ ends.end_of context.now }
{
    if context.busy.is_some() {
        return None;
    }
    match context.keep_ms {
        Some(keep_ms) => context.last_ms.checked_add(keep_ms),
        None => None,
    }
}

/// The context, where this task may use it now.
pub(crate) fn answer(context: &Context, by: Option<TaskId>, now: u64) -> Result<&Context, PageError>
    ensures { lent result ≡ answer_for by now (Some context.now) }
{
    if !context.is_owned_by(by) || context.is_expired(now) {
        return Err(PageError::Missing);
    }
    if context.busy.is_some() {
        return Err(PageError::Busy);
    }
    Ok(context)
}

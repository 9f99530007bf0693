//! The contexts of pages: a search opens one at its end, a page takes one and gives it back, and they are cleared and expire.

ghost use Rattle.std.specs.Prelude.{◌≡◌, ◌≤◌, Some, None, length, IsSomeAnd, IsSome, IfErr, OnOk, option_copied};
ghost use Rattle.scroll_table.specs.Contexts.{answer_for, lent};
ghost use Rattle.task_ids.specs.declared.task_id.TaskId.{TaskId};
ghost use Rattle.task_events.specs.Contexts.{after_begin, after_taking, asked_page, unexpired, without_owned};
ghost use Rattle.world_moves.specs.Paging.{context_in, after_opening, after_return, CanTake};

use scroll_table::{PageError, ScrollTable};
use task_events::{Context, HitKey, Request, ScrollAsk, Stop};
use task_ids::TaskId;

/// The context of an id, where one stands, in the tables of the nodes, from the first on.
pub fn context_at(contexts: &[ScrollTable], id: TaskId) -> Option<&Context>
    ensures { option_copied result ≡ context_in contexts.now id }
{
    match contexts.get(id.node as usize - 1) {
        Some(table) => table.get(id),
        None => None,
    }
}

/// Whether a command may ask for a page of the context of an id now, or why it may not.
pub fn peek(contexts: &[ScrollTable], id: TaskId, now: u64) -> Result<&Context, PageError>
    ensures { lent result ≡ answer_for None now (context_in contexts.now id) }
{
    match contexts.get(id.node as usize - 1) {
        Some(table) => table.peek(id, None, now),
        None => Err(PageError::Missing),
    }
}

/// The context of which a request asks for a page.
pub fn page_asked<'a>(contexts: &'a [ScrollTable], request: &Request) -> Option<&'a Context>
    ensures { option_copied result ≡ asked_page (λ id. context_in contexts.now id) (Some request.now) }
{
    match request {
        Request::Scroll(ask) => context_at(contexts, ask.get().id),
        _ => None,
    }
}

/// Takes the context of an id away, if one is given, unless a task uses it or it belongs to one.
pub fn clear(contexts: &mut Vec<ScrollTable>, id: Option<TaskId>)
    ensures cleared { (q : TaskId) → context_in contexts.new.items q ≡ after_begin id q (context_in contexts.old.items q) }
    ensures as_many { length contexts.new.items ≡ length contexts.old.items }
{
    let Some(id) = id else {
        return;
    };
    let place = id.node as usize - 1;
    if place < contexts.len() {
        contexts[place].clear(id, None);
    }
}

/// A task takes the context of which it is asked to show a page, where it is asked for one.
pub fn take(contexts: &mut Vec<ScrollTable>, request: &Request, now: u64, user: TaskId)
    requires usable { CanTake now contexts.old.items request.now }
    ensures taken { (q : TaskId) → context_in contexts.new.items q ≡ after_taking now user (Some request.now) q (context_in contexts.old.items q) }
    ensures as_many { length contexts.new.items ≡ length contexts.old.items }
{
    if let Request::Scroll(ask) = request {
        take_asked(contexts, *ask.get(), now, user);
    }
}

/// A task takes the context of the page that it is asked to show.
pub fn take_asked(contexts: &mut Vec<ScrollTable>, ask: ScrollAsk, now: u64, user: TaskId)
    requires usable { CanTake now contexts.old.items (Request.Scroll ask) }
    ensures taken { (q : TaskId) → context_in contexts.new.items q ≡ after_taking now user (Some (Request.Scroll ask)) q (context_in contexts.old.items q) }
    ensures as_many { length contexts.new.items ≡ length contexts.old.items }
{
    let table = &mut contexts[ask.id.node as usize - 1];
    match table.page(ask.id, ask.owner, now, ask.keep, user) {
        Ok(()) => {}
        Err(_) => unreachable!(),
    }
}

/// A task gives back the context of which it has shown a page, where it has one, with another cursor where one is given.
pub fn give_back(
    contexts: &mut Vec<ScrollTable>,
    page: Option<TaskId>,
    after: Option<HitKey>,
    now: u64,
)
    requires used { (id : TaskId) → page ≡ Some id → IsSomeAnd (context_in contexts.old.items id) (λ c. IsSome c.busy) }
    ensures returned { (q : TaskId) → context_in contexts.new.items q ≡ after_return now page after q (context_in contexts.old.items q) }
    ensures as_many { length contexts.new.items ≡ length contexts.old.items }
{
    let Some(id) = page else {
        drop(after);
        return;
    };
    contexts[id.node as usize - 1].give_back(id, after, now);
}

/// A task opens its context, where it has one to open. It fails only for want of memory (`Memory`).
pub fn open(
    contexts: &mut Vec<ScrollTable>,
    task: TaskId,
    opened: Option<Context>,
) -> Result<(), Stop>
    requires there { task.node ≤ length contexts.old.items }
    requires own { (c : Context) → opened ≡ Some c → c.id ≡ task }
    requires fresh { IsSome opened → context_in contexts.old.items task ≡ None }
    ensures opened { OnOk result ((q : TaskId) → context_in contexts.new.items q ≡ after_opening opened task q (context_in contexts.old.items q)) }
    ensures as_many { OnOk result (length contexts.new.items ≡ length contexts.old.items) }
    ensures memory { IfErr result (λ stop. stop ≡ Stop.Memory) }
{
    let Some(context) = opened else {
        return Ok(());
    };
    match contexts[task.node as usize - 1].start(context) {
        Ok(()) => Ok(()),
        Err(_) => Err(Stop::Memory),
    }
}

/// Takes away each context that was not used for its keep-alive.
pub fn expire(contexts: &mut Vec<ScrollTable>, now: u64)
    ensures left { (q : TaskId) → context_in contexts.new.items q ≡ unexpired now (context_in contexts.old.items q) }
    ensures as_many { length contexts.new.items ≡ length contexts.old.items }
{
    for table in contexts.iter_mut() {
        table.expire(now);
    }
}

/// Takes away each context that belongs to a task, unless a task uses it.
pub fn clear_owned(contexts: &mut Vec<ScrollTable>, owner: TaskId)
    ensures left { (q : TaskId) → context_in contexts.new.items q ≡ without_owned owner (context_in contexts.old.items q) }
    ensures as_many { length contexts.new.items ≡ length contexts.old.items }
{
    for table in contexts.iter_mut() {
        table.clear_owned(owner);
    }
}

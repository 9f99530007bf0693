//! The contexts of slices, and the context over which a root's page is worked.
ghost use Rattle.std.specs.Prelude.{◌≡◌, ◌↔◌, None, Some, false, IsTrue, IfOk, IfErr, OnOk, OnErr, option_copied};
ghost use Rattle.std.specs.FinMap as finite;
ghost use Rattle.task_events.specs.Contexts.{cursor_in};
ghost use Rattle.node_parts.specs.Opening.{FitsContext};
ghost use Rattle.reply_facts.specs.Letters.{context_of_start};
ghost use Rattle.data_parts.specs.Slices.{context_for, with_use_by, is_used_by, with_return, opens_owned, CanKeep, Opens, Settles};

use crate::memory::or_memory;
use node_link::{Page, Start};
use node_parts::contexts::{cursor_of, opened_by};
use scroll_table::ScrollTable;
use std::alloc::{AllocError, Global};
use task_events::{Context, Reply, Request, ScrollAsk, ShardCounts, Stop, copy_key};
use task_ids::TaskId;
use task_work::Work;

/// The context that a page stands for. It fails only for want of memory.
fn context_of_page(ask: &ScrollAsk, page: &Page) -> Result<Context, AllocError>
    ensures { IfOk result (λ context. Some context ≡ context_of_start (Request.Scroll ask.now) (Some page.now)) }
{
    Ok(Context {
        id: ask.id,
        ask: page.ask.copy()?,
        shards: page.shards.copy()?,
        after: copy_key(&page.after)?,
        keep_ms: None,
        last_ms: 0,
        owner: ask.owner,
        busy: None,
    })
}

/// The context over which the page of a root that starts a scroll is worked. It fails only for want of memory (`Memory`).
pub fn context_of(start: &Start) -> Result<Option<Context>, Stop>
    ensures context { IfOk result (λ context. context ≡ context_of_start start.now.request start.now.page) }
    ensures memory { IfErr result (λ stop. stop ≡ Stop.Memory) }
{
    let Request::Scroll(ask) = &start.request else {
        return Ok(None);
    };
    let Some(page) = &start.page else {
        return Ok(None);
    };
    let context = or_memory(context_of_page(ask.get(), page.get()))?;
    Ok(Some(context))
}

/// The context of which a request asks for a page, where its task may use it at this moment in milliseconds.
pub fn context_for<'a>(
    contexts: &'a ScrollTable,
    request: &Request,
    now: u64,
) -> Option<&'a Context>
    ensures { option_copied result ≡ context_for contexts.now request.now now }
{
    let Request::Scroll(ask) = request else {
        return None;
    };
    let ask = ask.get();
    match contexts.peek(ask.id, ask.owner, now) {
        Ok(context) => Some(context),
        Err(_) => None,
    }
}

/// The task of a request uses the context of which it asks for a page from this moment on, in milliseconds, where it may. It takes no
/// memory.
pub fn use_context(contexts: &mut ScrollTable, task: TaskId, request: &Request, now: u64)
    ensures { contexts.new ≡ with_use_by contexts.old task request.now now }
{
    if let Request::Scroll(ask) = request {
        let ask = ask.get();
        let _ = contexts.page(ask.id, ask.owner, now, ask.keep, task);
    }
}

/// Whether the task is the one that uses a context.
fn is_used_by(task: TaskId, context: &Context) -> bool
    ensures { result ≡ is_used_by task context.now }
{
    match context.busy {
        Some(user) => task == user,
        None => false,
    }
}

/// Whether the task uses the context of this id.
fn uses(contexts: &ScrollTable, task: TaskId, id: TaskId) -> bool
    ensures none { finite.get contexts.now id ≡ None → result ≡ false }
    ensures some { (c : _) → finite.get contexts.now id ≡ Some c → result ≡ is_used_by task c }
{
    match contexts.get(id) {
        Some(context) => is_used_by(task, context),
        None => false,
    }
}

/// Whether the work is a search whose context belongs to a task.
fn opens_owned(work: &Work) -> bool
    ensures { result ≡ opens_owned work.now }
{
    match work {
        Work::Search(root) => root.ask().owner.is_some(),
        _ => false,
    }
}

/// Whether a context can keep the shards that a reply tells. It fails only for want of memory.
fn can_keep(alloc: Global, reply: &Reply) -> Result<bool, AllocError>
    ensures { IfOk result (λ can. IsTrue can ↔ CanKeep reply.now) }
{
    let Reply::Search(reply) = reply else {
        return Ok(true);
    };
    let counts = Vec::from_slice(alloc, reply.get().shards.as_slice())?;
    match ShardCounts::new(counts) {
        Ok(_) => Ok(true),
        Err(_) => Ok(false),
    }
}

/// A page that has ended gives its context back, with its last row as the cursor where it shows one.
fn give_back(
    contexts: &mut ScrollTable,
    task: TaskId,
    page: Option<TaskId>,
    reply: &Reply,
    now: u64,
) -> Result<(), Stop>
    ensures returned { OnOk result (contexts.new ≡ with_return contexts.old task page reply.now now) }
    ensures memory { IfErr result (λ stop. stop ≡ Stop.Memory) }
{
    let Some(id) = page else {
        return Ok(());
    };
    let cursor = or_memory(cursor_of(reply))?;
    if uses(contexts, task, id) {
        contexts.give_back(id, cursor, now);
    }
    Ok(())
}

/// A search of a slice that has ended with hits opens its context.
fn open(
    alloc: Global,
    contexts: &mut ScrollTable,
    task: TaskId,
    work: &Work,
    reply: &Reply,
    now: u64,
) -> Result<(), Stop>
    ensures opens { OnOk result (Opens contexts.old contexts.new task work.now reply.now now) }
    ensures memory { IfErr result (λ stop. stop ≡ Stop.Memory) }
{
    if !opens_owned(work) || contexts.get(task).is_some() {
        return Ok(());
    }
    if !or_memory(can_keep(alloc, reply))? {
        return Ok(());
    }
    match or_memory(opened_by(alloc, work, task, reply, now))? {
        Some(context) => or_memory(contexts.start(context)),
        None => Ok(()),
    }
}

/// What the end of a task does to the contexts of its core, at this moment in milliseconds: a page gives its context back, a search of a
/// slice opens one, and a slice leaves none behind. It fails only for want of memory (`Memory`).
pub fn settle(
    alloc: Global,
    contexts: &mut ScrollTable,
    task: TaskId,
    page: Option<TaskId>,
    work: &Work,
    reply: &Reply,
    now: u64,
) -> Result<(), Stop>
    ensures settles { OnOk result (Settles contexts.old contexts.new task page work.now reply.now now) }
    ensures memory { IfErr result (λ stop. stop ≡ Stop.Memory) }
{
    give_back(contexts, task, page, reply, now)?;
    open(alloc, contexts, task, work, reply, now)?;
    contexts.clear_owned(task);
    Ok(())
}

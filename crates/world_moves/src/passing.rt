//! The first step of a child that goes on.

ghost use Rattle.std.specs.Prelude.{◌≡◌, ◌∷◌, ◌↔◌, ◌≤◌, ℕ, true, length, Err, None, Some, IsSome, IfOk, IfErr, OnOk, OnErr, cond, option_map, option_and_then};
ghost use Rattle.std.specs.BTreeMap.{is_at};
ghost use Rattle.task_ids.specs.TaskIdOrder.{task_id_cmp};
ghost use Rattle.task_ids.specs.declared.task_id.TaskId.{TaskId};
ghost use Rattle.task_events.specs.declared.history.TheConstants.{MAX_EVENTS};
ghost use Rattle.task_events.specs.declared.request.ScrollAsk.{ScrollAsk};
ghost use Rattle.task_events.specs.Bans.{ban_over};
ghost use Rattle.task_events.specs.Contexts.{after_taking};
ghost use Rattle.task_events.specs.Tasks.{is_live, is_new};
ghost use Rattle.task_work.specs.Works.{new_work};
ghost use Rattle.world_moves.specs.Paging.{context_in, passed, CanTake};
ghost use Rattle.world_moves.specs.Ties.{IsTied, Keeps, task_at};

use crate::append::append;
use crate::pages::{context_at, take_asked};
use crate::state::State;
use node_parts::running::Running;
use scroll_table::ScrollTable;
use shared_value::Shared;
use std::collections::BTreeMap;
use task_events::{Event, MAX_EVENTS, Request, ScrollAsk, Stop};
use task_ids::{Boxed, TaskId};
use task_work::Work;

/// The page that a live task is asked for, where it is asked for one.
fn page_of(tasks: &BTreeMap<TaskId, Boxed<Running>>, task: TaskId) -> Option<ScrollAsk>
    ensures { result ≡ option_and_then (λ running. running.page) (task_at tasks.now task) }
{
    match tasks.get(&task) {
        Some(running) => running.get().page,
        None => None,
    }
}

/// The work of a page over its context, as that stands. It fails only for want of memory (`Memory`).
fn page_work(state: &State<'_>, task: TaskId, page: Option<ScrollAsk>) -> Result<Option<Work>, Stop>
    requires there { (ask : ScrollAsk) → page ≡ Some ask → IsSome (context_in state.now.contexts.items ask.id) }
    ensures work { IfOk result (λ work. work
        ≡ option_and_then (λ ask. new_work task (Request.Scroll ask) state.now.cluster.shards (context_in state.now.contexts.items ask.id)) page) }
    ensures memory { IfErr result (λ stop. stop ≡ Stop.Memory) }
{
    let Some(ask) = page else {
        return Ok(None);
    };
    let Ok(page) = Shared::new(state.alloc, ask) else {
        return Err(Stop::Memory);
    };
    let request = Request::Scroll(page);
    let context = context_at(state.contexts.as_slice(), ask.id);
    let work = Work::new(state.alloc, task, &request, &state.cluster, context);
    drop(request);
    match work {
        Ok(work) => Ok(Some(work)),
        Err(_) => Err(Stop::Memory),
    }
}

/// A task passes, and goes on with other work where this is given.
fn let_pass(tasks: &mut BTreeMap<TaskId, Boxed<Running>>, task: TaskId, work: Option<Work>)
    ensures { (q : TaskId) → task_at tasks.new q
        ≡ cond (is_at (task_id_cmp task) q) (option_map (passed work) (task_at tasks.old q)) (task_at tasks.old q) }
{
    let Some(running) = tasks.get_mut(&task) else {
        drop(work);
        return;
    };
    let running = running.get_mut();
    running.is_new = false;
    if let Some(work) = work {
        running.work = work;
    }
}

/// A task takes the context of its page, where it is asked for one.
fn take_page(contexts: &mut Vec<ScrollTable>, page: Option<ScrollAsk>, now: u64, user: TaskId)
    requires usable { (ask : ScrollAsk) → page ≡ Some ask → CanTake now contexts.old.items (Request.Scroll ask) }
    ensures taken { (q : TaskId) → context_in contexts.new.items q
        ≡ after_taking now user (option_map Request.Scroll page) q (context_in contexts.old.items q) }
    ensures as_many { length contexts.new.items ≡ length contexts.old.items }
{
    if let Some(ask) = page {
        take_asked(contexts, ask, now, user);
    }
}

/// A child goes on that finds no ban of its parent on its node. One that is to show a page takes its context, and goes through that as it stands.
///
/// It fails where the history is full (`HistoryFull`, at 4,000,000 events) or memory runs out (`Memory`); then nothing
/// was appended.
pub fn pass(state: &mut State<'_>, task: TaskId) -> Result<(), Stop>
    requires tied { IsTied state.old }
    requires live { is_live task state.old.history ≡ true }
    requires first { is_new task state.old.history ≡ true }
    requires no_ban { ban_over task state.old.history ≡ None }
    ensures happened { OnOk result (state.new.history ≡ Event.Pass task ∷ state.old.history) }
    ensures tied { OnOk result (IsTied state.new) }
    ensures keeps { Keeps state.old state.new }
    ensures err { OnErr result (state.new.history ≡ state.old.history) }
    ensures full { (result ≡ Err Stop.HistoryFull) ↔ (length state.old.history ≡ MAX_EVENTS) }
    ensures numbers { result ≡ Err Stop.NumbersSpent → ⊥ }
    ensures room { OnOk result (length state.new.history ≤ MAX_EVENTS) }
{
    if state.history.len() == MAX_EVENTS {
        return Err(Stop::HistoryFull);
    }
    let page = page_of(&state.tasks, task);
    let work = page_work(state, task, page)?;
    match append(&mut state.history, Event::Pass { task }) {
        Ok(()) => {}
        Err(stop) => {
            drop(work);
            return Err(stop);
        }
    }
    let_pass(&mut state.tasks, task, work);
    take_page(&mut state.contexts, page, state.clock, task);
    Ok(())
}

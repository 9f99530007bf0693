//! The end of a live task.

ghost use Rattle.std.specs.Prelude.{◌≡◌, ◌≢◌, ◌∷◌, ◌++◌, ◌≤◌, true, false, length, [], Err, None, Some, IsSome, IsSomeAnd, IfErr, OnOk, OnErr};
ghost use Rattle.child_track.specs.Track.{unanswered, sealed};
ghost use Rattle.task_table.specs.Table.{IsLive, without_task};
ghost use Rattle.task_events.specs.declared.history.TheConstants.{MAX_EVENTS};
ghost use Rattle.task_events.specs.Allowed.{RefuseAllowed};
ghost use Rattle.task_events.specs.Asks as events;
ghost use Rattle.task_events.specs.Bans.{mark_of};
ghost use Rattle.task_events.specs.Tasks.{is_live, is_new};
ghost use Rattle.task_events.specs.declared.reply.Reply.TheVariants.{Cancelled};
ghost use Rattle.world_moves.specs.Cancels.{with_answers, with_due};
ghost use Rattle.world_moves.specs.Flights.{told_parent};
ghost use Rattle.world_moves.specs.Moves.{IsPartOf, IsCutShort, MayLeave};
ghost use Rattle.world_moves.specs.Ties.{IsTied, Keeps, task_at, KeepsLaws, counts_in};
ghost use Rattle.node_parts.specs.Opening.{FitsContext, opened_by, used_by};
ghost use Rattle.node_parts.specs.Running.{DoesNext};
ghost use Rattle.world_moves.specs.Paging.{context_in, after_opening, after_return};
ghost use Rattle.task_events.specs.Contexts.{cursor_in, without_owned};
ghost use Rattle.task_ids.specs.declared.task_id.TaskId.{TaskId};

use crate::append::append;
use crate::flight::{Flight, Sent};
use crate::pages::{clear_owned, give_back, open};
use crate::performing::perform;
use crate::sending::send;
use crate::state::State;
use child_track::Receipt;
use node_parts::contexts::{cursor_of, opened_by, used_by};
use node_parts::running::Running;
use scroll_table::ScrollTable;
use std::alloc::Global;
use task_events::{Do, Event, MAX_EVENTS, Reply, Stop};
use task_ids::{Boxed, TaskId};
use task_table::TaskTable;
use task_work::Work;

/// Takes a task out of the table of its node. Its receipt is left.
fn end_in(table: &mut TaskTable, running: Boxed<Running>) -> Receipt
    requires live { IsLive table.old running.ticket.id }
    requires track { running.track.task ≡ running.ticket.id }
    requires answered { unanswered running.track ≡ 0 }
    ensures receipt { result ≡ sealed running.track running.ticket.token }
    ensures row { table.new ≡ without_task table.old running.ticket.id.number }
{
    let (ticket, track) = running.into_inner().into_parts();
    let ended = table.end(ticket, track);
    ended.receipt
}

/// Sends the receipt of a task that has ended to the task that asked for it, where there is one.
fn tell_parent(flight: &mut Flight, receipt: Receipt, at: usize) -> Result<(), Stop>
    ensures ok { OnOk result (flight.new ≡ flight.old ++ told_parent receipt at) }
    ensures err { IfErr result (λ stop. stop ≡ Stop.Memory) }
{
    if receipt.parent().is_none() {
        return Ok(());
    }
    send(flight, Sent::Answer { receipt, at })
}

/// Notes what the end of a task makes of contexts: a page gives its own back, a search with hits opens one, and those go that belong to
/// the task. It fails only for want of memory (`Memory`).
fn note_end(
    alloc: Global,
    contexts: &mut Vec<ScrollTable>,
    running: &Boxed<Running>,
    task: TaskId,
    reply: &Reply,
    now: u64,
) -> Result<(), Stop>
    requires used { (id : TaskId) → used_by running.now ≡ Some id → IsSomeAnd (context_in contexts.old.items id) (λ c. IsSome c.busy) }
    requires there { task.node ≤ length contexts.old.items }
    requires fits { FitsContext running.now.work reply.now }
    requires one { IsSome (opened_by running.now.work task reply.now now) → used_by running.now ≡ None }
    requires fresh { IsSome (opened_by running.now.work task reply.now now) → context_in contexts.old.items task ≡ None }
    ensures ended { OnOk result ((q : TaskId) → context_in contexts.new.items q
        ≡ without_owned task (after_opening (opened_by running.now.work task reply.now now) task q
        (after_return now (used_by running.now) (cursor_in reply.now) q (context_in contexts.old.items q)))) }
    ensures as_many { OnOk result (length contexts.new.items ≡ length contexts.old.items) }
    ensures memory { IfErr result (λ stop. stop ≡ Stop.Memory) }
{
    let running = running.get();
    let Ok(after) = cursor_of(reply) else {
        return Err(Stop::Memory);
    };
    give_back(contexts, used_by(running), after, now);
    let Ok(opened) = opened_by(alloc, &running.work, task, reply, now) else {
        return Err(Stop::Memory);
    };
    open(contexts, task, opened)?;
    clear_owned(contexts, task);
    Ok(())
}

/// Notes what it makes of contexts that a cancelled task leaves: the one that it uses is given back, and those go that belong to it. A
/// child that has not passed has none.
fn note_leave(contexts: &mut Vec<ScrollTable>, running: &Boxed<Running>, task: TaskId, now: u64)
    requires used { (id : TaskId) → used_by running.now ≡ Some id → IsSomeAnd (context_in contexts.old.items id) (λ c. IsSome c.busy) }
    ensures left { running.now.is_new ≡ false → (q : TaskId) → context_in contexts.new.items q
        ≡ without_owned task (after_return now (used_by running.now) None q (context_in contexts.old.items q)) }
    ensures refused { running.now.is_new ≡ true → contexts.new.items ≡ contexts.old.items }
    ensures as_many { length contexts.new.items ≡ length contexts.old.items }
{
    let running = running.get();
    if running.is_new {
        return;
    }
    give_back(contexts, used_by(running), None, now);
    clear_owned(contexts, task);
}

/// A task that has passed and whose work ends next ends with its reply. The task that asked for it is told.
///
/// It fails where the history is full (`HistoryFull`, at 4,000,000 events), which takes no memory to find, or else where memory runs out
/// (`Memory`); then nothing was appended.
pub fn finish(state: &mut State<'_>, task: TaskId, reply: Reply) -> Result<(), Stop>
    requires tied { IsTied state.old }
    requires live { is_live task state.old.history ≡ true }
    requires passed { is_new task state.old.history ≡ false }
    requires unmarked { mark_of task state.old.history ≡ None }
    requires next { DoesNext (task_at state.old.tasks task) state.old.clock (Do.Finish reply) }
    ensures happened { OnOk result (state.new.history ≡ Event.End task reply ∷ state.old.history) }
    ensures tied { OnOk result (IsTied state.new) }
    ensures keeps { Keeps state.old state.new }
    ensures room { OnOk result (length state.new.history ≤ MAX_EVENTS) }
    ensures err { OnErr result (state.new.history ≡ state.old.history) }
    ensures full { result ≡ Err Stop.HistoryFull → length state.old.history ≡ MAX_EVENTS }
    ensures numbers { result ≡ Err Stop.NumbersSpent → ⊥ }
    ensures memory { result ≡ Err Stop.Memory → length state.old.history ≢ MAX_EVENTS }
{
    if state.history.len() == MAX_EVENTS {
        drop(reply);
        return Err(Stop::HistoryFull);
    }
    let Some(running) = state.tasks.remove(&task) else {
        unreachable!()
    };
    match note_end(
        state.alloc,
        &mut state.contexts,
        &running,
        task,
        &reply,
        state.clock,
    ) {
        Ok(()) => {}
        Err(stop) => {
            drop(running);
            drop(reply);
            return Err(stop);
        }
    }
    let receipt = end_in(&mut state.tables[task.node as usize - 1], running);
    let at = state.history.len();
    match tell_parent(&mut state.flight, receipt, at) {
        Ok(()) => {}
        Err(stop) => {
            drop(reply);
            return Err(stop);
        }
    }
    append(&mut state.history, Event::End { task, reply })
}

/// A cancelled task ends, or a child is refused, with this event. The task that asked for it is told. Where a cancellation of
/// it is under way, the answers follow that come due, its unbans are sent if its bans are placed, and the ban of its parent is
/// acknowledged if of the listed children it was the last to stop.
///
/// Where it fails, the event may have come.
fn leave(state: &mut State<'_>, task: TaskId, event: Event) -> Result<(), Stop>
    requires tied { IsTied state.old }
    requires leaves { MayLeave (counts_in state.old task) task event state.old.history }
    ensures happened { OnOk result (state.new.history ≡ with_answers task (event ∷ state.old.history)) }
    ensures tied { OnOk result (IsTied state.new) }
    ensures keeps { Keeps state.old state.new }
    ensures room { OnOk result (length state.new.history ≤ MAX_EVENTS) }
    ensures part { OnErr result (IsPartOf state.old.history state.new.history (with_answers task (event ∷ state.old.history))) }
    ensures laws { OnErr result (KeepsLaws state.new) }
    ensures full { result ≡ Err Stop.HistoryFull → IsCutShort (λ past. IsPartOf state.old.history past (with_answers task (event ∷ state.old.history))) state.new.history }
    ensures numbers { result ≡ Err Stop.NumbersSpent → ⊥ }
{
    let place = task.node as usize - 1;
    let Some(running) = state.tasks.remove(&task) else {
        unreachable!()
    };
    note_leave(&mut state.contexts, &running, task, state.clock);
    let receipt = end_in(&mut state.tables[place], running);
    let at = state.history.len();
    match tell_parent(&mut state.flight, receipt, at) {
        Ok(()) => {}
        Err(stop) => {
            drop(event);
            return Err(stop);
        }
    }
    append(&mut state.history, event)?;
    let core = &mut state.cores[place];
    if !core.has(task) {
        return Ok(());
    }
    let Ok(acts) = core.ended(task, receipt) else {
        return Err(Stop::Memory);
    };
    perform(
        &mut state.flight,
        &mut state.history,
        &mut state.left,
        task.node,
        acts.as_slice(),
    )
}

/// A child that has not passed is refused with the number of the ban of its parent on its node.
///
/// It fails where the history is full (`HistoryFull`, at 4,000,000 events) or memory runs out (`Memory`); the first of
/// its events may stand then. A history that is full from the start is found before memory is asked for.
pub fn refuse(state: &mut State<'_>, task: TaskId, cancel: u32) -> Result<(), Stop>
    requires tied { IsTied state.old }
    requires refused { RefuseAllowed task cancel state.old.history }
    ensures happened { OnOk result (state.new.history ≡ with_due (Event.Refuse task cancel) state.old.history) }
    ensures tied { OnOk result (IsTied state.new) }
    ensures keeps { Keeps state.old state.new }
    ensures room { OnOk result (length state.new.history ≤ MAX_EVENTS) }
    ensures part { OnErr result (IsPartOf state.old.history state.new.history (with_due (Event.Refuse task cancel) state.old.history)) }
    ensures laws { OnErr result (KeepsLaws state.new) }
    ensures full { result ≡ Err Stop.HistoryFull → IsCutShort (λ past. IsPartOf state.old.history past (with_due (Event.Refuse task cancel) state.old.history)) state.new.history }
    ensures numbers { result ≡ Err Stop.NumbersSpent → ⊥ }
    ensures memory { result ≡ Err Stop.Memory → length state.old.history ≢ MAX_EVENTS }
{
    if state.history.len() == MAX_EVENTS {
        return Err(Stop::HistoryFull);
    }
    leave(state, task, Event::Refuse { task, cancel })
}

/// A marked task whose asks are all answered ends as cancelled, with the number of its mark.
///
/// It fails where the history is full (`HistoryFull`, at 4,000,000 events) or memory runs out (`Memory`); the first of
/// its events may stand then. A history that is full from the start is found before memory is asked for.
pub fn finish_cancelled(state: &mut State<'_>, task: TaskId, cancel: u32) -> Result<(), Stop>
    requires tied { IsTied state.old }
    requires live { is_live task state.old.history ≡ true }
    requires passed { is_new task state.old.history ≡ false }
    requires marked { mark_of task state.old.history ≡ Some cancel }
    requires answered { events.unanswered task state.old.history ≡ [] }
    ensures happened { OnOk result (state.new.history ≡ with_due (Event.End task (Cancelled task cancel (counts_in state.old task))) state.old.history) }
    ensures tied { OnOk result (IsTied state.new) }
    ensures keeps { Keeps state.old state.new }
    ensures room { OnOk result (length state.new.history ≤ MAX_EVENTS) }
    ensures part { OnErr result (IsPartOf state.old.history state.new.history (with_due (Event.End task (Cancelled task cancel (counts_in state.old task))) state.old.history)) }
    ensures laws { OnErr result (KeepsLaws state.new) }
    ensures full { result ≡ Err Stop.HistoryFull → IsCutShort (λ past. IsPartOf state.old.history past (with_due (Event.End task (Cancelled task cancel (counts_in state.old task))) state.old.history)) state.new.history }
    ensures numbers { result ≡ Err Stop.NumbersSpent → ⊥ }
    ensures memory { result ≡ Err Stop.Memory → length state.old.history ≢ MAX_EVENTS }
{
    if state.history.len() == MAX_EVENTS {
        return Err(Stop::HistoryFull);
    }
    let Some(running) = state.tasks.get(&task) else {
        unreachable!()
    };
    let reply = match running.get().work.cancelled(state.alloc, task, cancel) {
        Ok(reply) => reply,
        Err(_) => return Err(Stop::Memory),
    };
    leave(state, task, Event::End { task, reply })
}

//! The next step of a live task.

ghost use Rattle.std.specs.Prelude.{◌≡◌, true, false, not, Some, None, IfOk, IfErr, OnOk, OnErr};
ghost use Rattle.task_events.specs.Bans.{mark_of, ban_over};
ghost use Rattle.task_events.specs.Tasks.{is_live, is_new};
ghost use Rattle.world_moves.specs.Facts.{awaited_by, none_awaited};
ghost use Rattle.world_moves.specs.Moves.{IsPartly, StopsMove};
ghost use Rattle.world_steps.specs.Runs.{AnswersStep, HasRoom, Steps};
ghost use Rattle.world_moves.specs.Ties.{IsTied, Keeps, task_at, KeepsLaws};
ghost use Rattle.node_parts.specs.Running.{DoesNext};

use task_events::{Do, Stop};
use task_ids::TaskId;
use world_moves::asks::ask;
use world_moves::ends::{finish, finish_cancelled, refuse};
use world_moves::passing::pass;
use world_moves::state::State;
use world_moves::turns::turn;

/// What came of a step.
#[derive(Clone, Copy, PartialEq, Eq)]
pub enum Stepped {
    /// The task made its step.
    Done,
    /// It waits.
    Waiting,
    /// No live task has this id.
    NotRunning,
}

/// The number of the ban of a child's parent that stands on its node.
fn ban_over(state: &State<'_>, task: TaskId) -> Option<u32>
    requires tied { IsTied state.now }
    requires live { is_live task state.now.history ≡ true }
    ensures { result ≡ ban_over task state.now.history }
{
    let running = state.tasks.get(&task)?;
    let parent = running.get().ticket.parent()?;
    state.bans[task.node as usize - 1].find(parent)
}

/// A task that has passed and is not marked does what its work says.
fn work_on(state: &mut State<'_>, task: TaskId, next: Do) -> Result<Stepped, Stop>
    requires tied { IsTied state.old }
    requires live { is_live task state.old.history ≡ true }
    requires passed { is_new task state.old.history ≡ false }
    requires unmarked { mark_of task state.old.history ≡ None }
    requires next { DoesNext (task_at state.old.tasks task) state.old.clock next }
    ensures stepped { IfOk result (λ stepped. AnswersStep state.old.cluster state.old.corpus.now state.old.script.now task state.old.history stepped state.new.history) }
    ensures tied { OnOk result (IsTied state.new) }
    ensures keeps { Keeps state.old state.new }
    ensures room { IfOk result (λ stepped. HasRoom stepped state.new.history) }
    ensures part { OnErr result (IsPartly (Steps state.old.cluster state.old.corpus.now state.old.script.now task) state.old.history state.new.history) }
    ensures laws { OnErr result (KeepsLaws state.new) }
    ensures stop { IfErr result (λ stop. StopsMove (Steps state.old.cluster state.old.corpus.now state.old.script.now task) state.old.history state.new.history stop) }
{
    match next {
        Do::AskNext(request) => ask(state, task, request)?,
        Do::Turn => turn(state, task)?,
        Do::Wait(_) => return Ok(Stepped::Waiting),
        Do::Finish(reply) => finish(state, task, reply)?,
    }
    Ok(Stepped::Done)
}

/// A child that has not passed makes its first step: it goes on, or is refused where a ban of its parent stands on its node.
fn first_step(state: &mut State<'_>, task: TaskId) -> Result<Stepped, Stop>
    requires tied { IsTied state.old }
    requires live { is_live task state.old.history ≡ true }
    requires first { is_new task state.old.history ≡ true }
    ensures stepped { IfOk result (λ stepped. AnswersStep state.old.cluster state.old.corpus.now state.old.script.now task state.old.history stepped state.new.history) }
    ensures tied { OnOk result (IsTied state.new) }
    ensures keeps { Keeps state.old state.new }
    ensures room { IfOk result (λ stepped. HasRoom stepped state.new.history) }
    ensures part { OnErr result (IsPartly (Steps state.old.cluster state.old.corpus.now state.old.script.now task) state.old.history state.new.history) }
    ensures laws { OnErr result (KeepsLaws state.new) }
    ensures stop { IfErr result (λ stop. StopsMove (Steps state.old.cluster state.old.corpus.now state.old.script.now task) state.old.history state.new.history stop) }
{
    let stepped = match ban_over(state, task) {
        Some(cancel) => refuse(state, task, cancel),
        None => pass(state, task),
    };
    match stepped {
        Ok(()) => Ok(Stepped::Done),
        Err(stop) => Err(stop),
    }
}

/// A marked task that has passed ends once its asks are answered.
fn leave_or_wait(
    state: &mut State<'_>,
    task: TaskId,
    cancel: u32,
    waits: bool,
) -> Result<Stepped, Stop>
    requires tied { IsTied state.old }
    requires live { is_live task state.old.history ≡ true }
    requires passed { is_new task state.old.history ≡ false }
    requires marked { mark_of task state.old.history ≡ Some cancel }
    requires waits { waits ≡ not (none_awaited (awaited_by task state.old.history)) }
    ensures stepped { IfOk result (λ stepped. AnswersStep state.old.cluster state.old.corpus.now state.old.script.now task state.old.history stepped state.new.history) }
    ensures tied { OnOk result (IsTied state.new) }
    ensures keeps { Keeps state.old state.new }
    ensures room { IfOk result (λ stepped. HasRoom stepped state.new.history) }
    ensures part { OnErr result (IsPartly (Steps state.old.cluster state.old.corpus.now state.old.script.now task) state.old.history state.new.history) }
    ensures laws { OnErr result (KeepsLaws state.new) }
    ensures stop { IfErr result (λ stop. StopsMove (Steps state.old.cluster state.old.corpus.now state.old.script.now task) state.old.history state.new.history stop) }
{
    if waits {
        return Ok(Stepped::Waiting);
    }
    match finish_cancelled(state, task, cancel) {
        Ok(()) => Ok(Stepped::Done),
        Err(stop) => Err(stop),
    }
}

/// A live task makes its next step, unless it waits.
pub(crate) fn act(state: &mut State<'_>, task: TaskId) -> Result<Stepped, Stop>
    requires tied { IsTied state.old }
    ensures stepped { IfOk result (λ stepped. AnswersStep state.old.cluster state.old.corpus.now state.old.script.now task state.old.history stepped state.new.history) }
    ensures tied { OnOk result (IsTied state.new) }
    ensures keeps { Keeps state.old state.new }
    ensures room { IfOk result (λ stepped. HasRoom stepped state.new.history) }
    ensures part { OnErr result (IsPartly (Steps state.old.cluster state.old.corpus.now state.old.script.now task) state.old.history state.new.history) }
    ensures laws { OnErr result (KeepsLaws state.new) }
    ensures stop { IfErr result (λ stop. StopsMove (Steps state.old.cluster state.old.corpus.now state.old.script.now task) state.old.history state.new.history stop) }
{
    let Some(running) = state.tasks.get(&task) else {
        return Ok(Stepped::NotRunning);
    };
    let running = running.get();
    if running.is_new {
        return first_step(state, task);
    }
    if let Some(cancel) = running.track.closed() {
        let waits = running.track.unanswered() > 0;
        return leave_or_wait(state, task, cancel, waits);
    }
    match running.work.next(state.clock) {
        Ok(next) => match work_on(state, task, next) {
            Ok(stepped) => Ok(stepped),
            Err(stop) => Err(stop),
        },
        Err(_) => Err(Stop::Memory),
    }
}

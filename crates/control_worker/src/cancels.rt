//! Cancels, acknowledgements and the ends of tasks.
ghost use Rattle.std.specs.Prelude.{◌≡◌, ◌++◌, ◌∷◌, [], true, false, Some, None, map, IfOk, OnOk, Contains};
ghost use Rattle.std.specs.Option.{ForSome};
ghost use Rattle.task_ids.specs.Limits.{IsCancel};
ghost use Rattle.cancel_core.specs.Cancellations.{entry_of};
ghost use Rattle.node_boards.specs.Seats.{SameMarks};
ghost use Rattle.control_worker.specs.declared.act.ControlAct.TheVariants.{Core};
ghost use Rattle.control_worker.specs.View.{view_of, is_here, is_under_way, is_open};
ghost use Rattle.control_worker.specs.Steps.{Makes, Quietly, Stays, at};
ghost use Rattle.control_worker.specs.Cancels.{Begins, Joins, Starts, Seeks, Cancels, is_awaited, Acked, Acks, Ends, EndsOf};
ghost use Rattle.control_worker.specs.Together.{Together, MayHear};

use crate::act::ControlAct;
use crate::control_core::ControlCore;
use cancel_core::{Act, Waiter};
use child_track::Receipt;
use node_boards::ControlBoard;
use std::alloc::AllocError;
use task_ids::{BoardName, TaskId};
use task_table::MarkAnswer;

/// Adds the acts of the node's cancellations.
fn add_acts(acts: &mut Vec<ControlAct>, more: &[Act]) -> Result<(), AllocError>
    ensures { OnOk result (acts.new.items ≡ acts.old.items ++ map Core more.now) }
{
    for act in more {
        acts.push(ControlAct::Core(*act))?;
    }
    Ok(())
}

/// Begins the cancellation of a task that was just marked: a ban goes to each node of its mask.
#[tactic(auto, using(crate::proofs::Cancelling::makes_begins, crate::proofs::Belonging::together_unmoved))]
pub(crate) fn begin<N: BoardName, B: ControlBoard<N>>(
    core: &mut ControlCore,
    board: &mut B,
    task: TaskId,
    cancel: u32,
    waiter: Option<Waiter>,
    acts: &mut Vec<ControlAct>,
) -> Result<(), AllocError>
    requires together { Together (B.bans board.old) (B.slots board.old) N.allowed (view_of core.old) }
    requires fresh { is_under_way task (view_of core.old) ≡ false }
    requires marked { B.marked board.old task.number }
    requires cancel { IsCancel cancel }
    requires waiter { ForSome waiter (MayHear N.allowed) }
    ensures together { Together (B.bans board.new) (B.slots board.new) N.allowed (view_of core.new) }
    ensures marks { SameMarks (B.marked board.old) (B.marked board.new) }
    ensures listings { core.new.cancels.listings ≡ core.old.cancels.listings }
    ensures kept { core.new.kept ≡ core.old.kept }
    ensures did { OnOk result (Makes B.rests (Begins task cancel waiter) (at board.old core.old acts.old.items) (at board.new core.new acts.new.items)) }
{
    let nodes = board.mask(task.number);
    let more = core.cancels.begin(task, cancel, nodes, waiter)?;
    core.marks = core.marks.saturating_add(1);
    add_acts(acts, &more)
}

/// Joins a waiter to the cancellation of a task, where one is under way and the task has not ended.
#[tactic(auto, using(crate::proofs::Cancelling::quiet_joined, crate::proofs::Making::quiet_yes, crate::proofs::Making::quiet_no, crate::proofs::Making::quiet_nothing, crate::proofs::Waiting::stays_unmoved))]
fn join(
    core: &mut ControlCore,
    task: TaskId,
    waiter: Waiter,
    acts: &mut Vec<ControlAct>,
) -> Result<(), AllocError>
    requires waiter { IsCancel waiter.cancel }
    ensures same { Stays (Some waiter) (view_of core.old) (view_of core.new) }
    ensures did { OnOk result (Quietly (Joins task waiter) (view_of core.old) acts.old.items (view_of core.new) acts.new.items) }
{
    if !core.cancels.has(task) || core.cancels.has_ended(task) {
        return Ok(());
    }
    let more = core.cancels.joined(task, waiter)?;
    add_acts(acts, &more)
}

/// Cancels a task that was just marked.
#[tactic(auto, using(crate::proofs::Making::makes_yes, crate::proofs::Making::makes_no, crate::proofs::Making::makes_quietly))]
fn start<N: BoardName, B: ControlBoard<N>>(
    core: &mut ControlCore,
    board: &mut B,
    task: TaskId,
    waiter: Waiter,
    acts: &mut Vec<ControlAct>,
) -> Result<(), AllocError>
    requires together { Together (B.bans board.old) (B.slots board.old) N.allowed (view_of core.old) }
    requires marked { B.marked board.old task.number }
    requires waiter { MayHear N.allowed waiter }
    ensures together { Together (B.bans board.new) (B.slots board.new) N.allowed (view_of core.new) }
    ensures did { OnOk result (Makes B.rests (Starts task waiter) (at board.old core.old acts.old.items) (at board.new core.new acts.new.items)) }
{
    if core.cancels.has(task) {
        return join(core, task, waiter, acts);
    }
    begin(core, board, task, waiter.cancel, Some(waiter), acts)
}

/// Cancels a task by id. False where it was not found. For a task of another node the board is not asked, since its number
/// says nothing here.
#[tactic(auto, using(crate::proofs::Cancelling::finds_marked, crate::proofs::Cancelling::finds_known, crate::proofs::Cancelling::misses_number, crate::proofs::Cancelling::misses_other, crate::proofs::Belonging::together_unmoved))]
pub(crate) fn cancel_task<N: BoardName, B: ControlBoard<N>>(
    core: &mut ControlCore,
    board: &mut B,
    task: TaskId,
    waiter: Waiter,
    acts: &mut Vec<ControlAct>,
) -> Result<bool, AllocError>
    requires together { Together (B.bans board.old) (B.slots board.old) N.allowed (view_of core.old) }
    requires waiter { MayHear N.allowed waiter }
    ensures together { Together (B.bans board.new) (B.slots board.new) N.allowed (view_of core.new) }
    ensures did { IfOk result (λ found. Makes B.rests (Seeks task waiter found) (at board.old core.old acts.old.items) (at board.new core.new acts.new.items)) }
{
    if task.node != core.node() {
        return Ok(false);
    }
    match board.mark(task.number, waiter.cancel) {
        MarkAnswer::Marked => {
            start(core, board, task, waiter, acts)?;
            Ok(true)
        }
        MarkAnswer::Already(_) => {
            join(core, task, waiter, acts)?;
            Ok(true)
        }
        MarkAnswer::NotFound => Ok(false),
    }
}

/// Takes in a cancel by id.
#[tactic(auto, using(crate::proofs::Cancelling::cancels_found, crate::proofs::Cancelling::cancels_missed))]
pub(crate) fn take_cancel<N: BoardName, B: ControlBoard<N>>(
    core: &mut ControlCore,
    board: &mut B,
    task: TaskId,
    waiter: Waiter,
    acts: &mut Vec<ControlAct>,
) -> Result<(), AllocError>
    requires together { Together (B.bans board.old) (B.slots board.old) N.allowed (view_of core.old) }
    requires waiter { MayHear N.allowed waiter }
    ensures together { Together (B.bans board.new) (B.slots board.new) N.allowed (view_of core.new) }
    ensures did { OnOk result (Makes B.rests (Cancels task waiter) (at board.old core.old acts.old.items) (at board.new core.new acts.new.items)) }
{
    if cancel_task(core, board, task, waiter, acts)? {
        return Ok(());
    }
    acts.push(ControlAct::NotFound {
        cancel: waiter.cancel,
    })?;
    Ok(())
}

/// Whether the node is awaited for the parent.
fn is_awaited(core: &ControlCore, parent: TaskId, from: u32) -> bool
    ensures is { result ≡ is_awaited parent from (view_of core.now) }
    ensures there { result ≡ true → Contains (entry_of core.now.cancels parent).awaited from }
{
    core.cancels.awaits(parent, from)
}

/// Takes in that an awaited node has placed the ban of a parent.
#[tactic(auto, using(crate::proofs::Cancelling::quiet_acked, crate::proofs::Waiting::stays_unmoved))]
fn note_ack(
    core: &mut ControlCore,
    parent: TaskId,
    from: u32,
    acts: &mut Vec<ControlAct>,
) -> Result<(), AllocError>
    requires { Contains (entry_of core.old.cancels parent).awaited from }
    ensures same { Stays None (view_of core.old) (view_of core.new) }
    ensures did { OnOk result (Quietly (Acked parent from) (view_of core.old) acts.old.items (view_of core.new) acts.new.items) }
{
    let more = core.cancels.acked(parent, from)?;
    add_acts(acts, &more)
}

/// Takes in that a node has placed the ban of a parent, where it is awaited for that.
#[tactic(auto, using(crate::proofs::Making::quiet_yes, crate::proofs::Making::quiet_no, crate::proofs::Making::quiet_nothing, crate::proofs::Waiting::stays_unmoved))]
pub(crate) fn take_ack(
    core: &mut ControlCore,
    parent: TaskId,
    from: u32,
    acts: &mut Vec<ControlAct>,
) -> Result<(), AllocError>
    ensures same { Stays None (view_of core.old) (view_of core.new) }
    ensures did { OnOk result (Quietly (Acks parent from) (view_of core.old) acts.old.items (view_of core.new) acts.new.items) }
{
    if is_awaited(core, parent, from) {
        return note_ack(core, parent, from, acts);
    }
    Ok(())
}

/// Takes in that the task has ended, where a cancellation of it is under way.
#[tactic(auto, using(crate::proofs::Cancelling::quiet_ended, crate::proofs::Making::quiet_yes, crate::proofs::Making::quiet_no, crate::proofs::Making::quiet_nothing, crate::proofs::Waiting::stays_unmoved))]
fn end_task(
    core: &mut ControlCore,
    task: TaskId,
    receipt: Receipt,
    acts: &mut Vec<ControlAct>,
) -> Result<(), AllocError>
    requires own { receipt.task ≡ Some task }
    ensures same { Stays None (view_of core.old) (view_of core.new) }
    ensures did { OnOk result (Quietly (Ends task receipt) (view_of core.old) acts.old.items (view_of core.new) acts.new.items) }
{
    if !core.cancels.has(task) || core.cancels.has_ended(task) {
        return Ok(());
    }
    let more = core.cancels.ended(task, receipt)?;
    add_acts(acts, &more)
}

/// Takes in that a task has ended.
#[tactic(auto, using(crate::proofs::Cancelling::quiet_ends, crate::proofs::Making::quiet_nothing, crate::proofs::Waiting::stays_unmoved))]
pub(crate) fn take_end(
    core: &mut ControlCore,
    receipt: Receipt,
    acts: &mut Vec<ControlAct>,
) -> Result<(), AllocError>
    ensures same { Stays None (view_of core.old) (view_of core.new) }
    ensures did { OnOk result (Quietly (EndsOf receipt.task receipt) (view_of core.old) acts.old.items (view_of core.new) acts.new.items) }
{
    match receipt.task() {
        Some(task) => end_task(core, task, receipt, acts),
        None => Ok(()),
    }
}

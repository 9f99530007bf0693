//! The listing of a ban's children.
ghost use Rattle.std.specs.Prelude.{◌≡◌, ℕ, ◌++◌, ◌∷◌, [], List, None, false, All, IfOk, OnOk};
ghost use Rattle.task_ids.specs.Limits.{IsNode, IsCancel};
ghost use Rattle.task_ids.specs.declared.task_id.TaskId.{TaskId};
ghost use Rattle.cancel_core.specs.Listings.{has_listing};
ghost use Rattle.node_boards.specs.Calls.{list};
ghost use Rattle.node_boards.specs.Seats.{HasBanAt, SameMarks};
ghost use Rattle.control_worker.specs.View.{view_of};
ghost use Rattle.control_worker.specs.Steps.{Each, Makes, Quietly, Stays, at};
ghost use Rattle.control_worker.specs.Bans.{AreTasks, is_number, Awaits, BeginsChild, Lists};
ghost use Rattle.control_worker.specs.Together.{Together};

use crate::act::ControlAct;
use crate::cancels::begin;
use crate::control_core::{Ban, ControlCore};
use node_boards::ControlBoard;
use std::alloc::{AllocError, Global};
use task_ids::{BoardName, TaskId};

/// The greatest number of a task.
const MAX_NUMBER: u32 = 1_048_575;

/// Whether a task may have this number.
fn is_number(number: u32) -> bool
    ensures { result ≡ is_number number }
{
    1 <= number && number <= MAX_NUMBER
}

/// Adds the task of the node with this number, if a task may have it.
#[tactic(auto, using(crate::proofs::Listed::number_in_range, crate::proofs::Listed::tasks_more, crate::proofs::Listed::tasks_past))]
fn add_task(tasks: &mut Vec<TaskId>, node: u32, number: u32) -> Result<(), AllocError>
    requires { IsNode node }
    ensures { (numbers : List ℕ) → AreTasks node numbers tasks.old.items → OnOk result (AreTasks node (numbers ++ number ∷ []) tasks.new.items) }
{
    if !is_number(number) {
        return Ok(());
    }
    tasks.push(TaskId { node, number })?;
    Ok(())
}

/// The tasks of the node with these numbers. A number that no task can have is passed over; a board hands none over.
#[tactic(auto, using(crate::proofs::Listed::tasks_none))]
fn tasks_of(alloc: Global, node: u32, numbers: &[u32]) -> Result<Vec<TaskId>, AllocError>
    requires { IsNode node }
    ensures { IfOk result (λ tasks. AreTasks node numbers.now tasks.items) }
{
    let mut tasks = Vec::new(alloc);
    for &number in numbers {
        add_task(&mut tasks, node, number)?;
    }
    Ok(tasks)
}

/// Begins the cancellation of a child that was just marked, unless it is under way.
#[tactic(auto, using(crate::proofs::Listed::child_known, crate::proofs::Listed::child_new))]
fn begin_child<N: BoardName, B: ControlBoard<N>>(
    core: &mut ControlCore,
    board: &mut B,
    child: TaskId,
    cancel: u32,
    acts: &mut Vec<ControlAct>,
) -> Result<(), AllocError>
    requires together { Together (B.bans board.old) (B.slots board.old) N.allowed (view_of core.old) }
    requires marked { B.marked board.old child.number }
    requires cancel { IsCancel cancel }
    ensures together { Together (B.bans board.new) (B.slots board.new) N.allowed (view_of core.new) }
    ensures marks { SameMarks (B.marked board.old) (B.marked board.new) }
    ensures listings { core.new.cancels.listings ≡ core.old.cancels.listings }
    ensures kept { core.new.kept ≡ core.old.kept }
    ensures did { OnOk result (Makes B.rests (BeginsChild cancel child) (at board.old core.old acts.old.items) (at board.new core.new acts.new.items)) }
{
    if core.cancels.has(child) {
        return Ok(());
    }
    begin(core, board, child, cancel, None, acts)
}

/// Begins the cancellation of each child that has none.
fn begin_each<N: BoardName, B: ControlBoard<N>>(
    core: &mut ControlCore,
    board: &mut B,
    children: &[TaskId],
    cancel: u32,
    acts: &mut Vec<ControlAct>,
) -> Result<(), AllocError>
    requires together { Together (B.bans board.old) (B.slots board.old) N.allowed (view_of core.old) }
    requires marked { All (λ (t : TaskId). B.marked board.old t.number) children.now }
    requires cancel { IsCancel cancel }
    ensures together { Together (B.bans board.new) (B.slots board.new) N.allowed (view_of core.new) }
    ensures listings { core.new.cancels.listings ≡ core.old.cancels.listings }
    ensures kept { core.new.kept ≡ core.old.kept }
    ensures did { OnOk result (Makes B.rests (Each (BeginsChild cancel) children.now) (at board.old core.old acts.old.items) (at board.new core.new acts.new.items)) }
{
    for &child in children {
        begin_child(core, board, child, cancel, acts)?;
    }
    Ok(())
}

/// The ban is acknowledged once the listed children have stopped, which may be at once.
#[tactic(auto, using(crate::proofs::Listed::quiet_awaits, crate::proofs::Waiting::stays_listed, crate::proofs::Waiting::stays_unmoved))]
fn await_children(
    core: &mut ControlCore,
    parent: TaskId,
    children: &[TaskId],
    acts: &mut Vec<ControlAct>,
) -> Result<(), AllocError>
    requires once { has_listing core.old.cancels parent ≡ false }
    ensures same { Stays None (view_of core.old) (view_of core.new) }
    ensures did { OnOk result (Quietly (Awaits parent children.now) (view_of core.old) acts.old.items (view_of core.new) acts.new.items) }
{
    match core.cancels.ban_listed(parent, children)? {
        Some(act) => {
            acts.push(ControlAct::Core(act))?;
            Ok(())
        }
        None => Ok(()),
    }
}

/// Lists the ban at a place: the children that the board hands over.
fn list_children<N: BoardName, B: ControlBoard<N>>(
    core: &mut ControlCore,
    board: &mut B,
    place: u32,
) -> Result<Vec<TaskId>, AllocError>
    requires together { Together (B.bans board.old) (B.slots board.old) N.allowed (view_of core.old) }
    requires put { HasBanAt (B.bans board.old) place × B.unlisted board.old place }
    ensures together { Together (B.bans board.new) (B.slots board.new) N.allowed (view_of core.new) }
    ensures same { view_of core.new ≡ view_of core.old }
    ensures kept { core.new.kept ≡ core.old.kept }
    ensures marked { IfOk result (λ children. All (λ (t : TaskId). B.marked board.new t.number) children.items) }
    ensures did { IfOk result (λ children. (numbers : List ℕ) × B.rests board.old board.new (list place numbers) × AreTasks core.old.node numbers children.items) }
{
    let count = board.list(place, &mut core.found);
    let children = tasks_of(core.alloc, core.node(), &core.found[..count as usize])?;
    Ok(children)
}

/// Lists a ban that was put: cancels the children that the board hands over, and waits for them with its acknowledgement.
pub(crate) fn list_ban<N: BoardName, B: ControlBoard<N>>(
    core: &mut ControlCore,
    board: &mut B,
    place: u32,
    ban: Ban,
    acts: &mut Vec<ControlAct>,
) -> Result<(), AllocError>
    requires together { Together (B.bans board.old) (B.slots board.old) N.allowed (view_of core.old) }
    requires put { HasBanAt (B.bans board.old) place × B.unlisted board.old place }
    requires cancel { IsCancel ban.cancel }
    requires once { has_listing core.old.cancels ban.parent ≡ false }
    ensures together { Together (B.bans board.new) (B.slots board.new) N.allowed (view_of core.new) }
    ensures kept { core.new.kept.items ≡ core.old.kept.items }
    ensures did { OnOk result (Makes B.rests (Lists ban place) (at board.old core.old acts.old.items) (at board.new core.new acts.new.items)) }
{
    let children = list_children(core, board, place)?;
    begin_each(core, board, &children, ban.cancel, acts)?;
    await_children(core, ban.parent, &children, acts)
}

//! The tasks that a filter lets through.
ghost use Rattle.std.specs.Prelude.{◌≡◌, IfOk, OnOk};
ghost use Rattle.control_worker.specs.View.{view_of};
ghost use Rattle.control_worker.specs.Steps.{Makes, at};
ghost use Rattle.control_worker.specs.Matches.{SeeksOne, SeeksEach, Matches};
ghost use Rattle.control_worker.specs.Together.{Together, MayHear};

use crate::act::ControlAct;
use crate::cancels::cancel_task;
use crate::control_core::ControlCore;
use cancel_core::Waiter;
use node_boards::ControlBoard;
use std::alloc::AllocError;
use task_ids::{BoardName, Items, TaskId, TaskInfo};

/// Cancels the task of a row, and adds it where it was found.
#[tactic(auto, using(crate::proofs::Matching::one_found, crate::proofs::Matching::one_missed))]
fn cancel_row<N: BoardName, B: ControlBoard<N>>(
    core: &mut ControlCore,
    board: &mut B,
    row: &TaskInfo,
    waiter: Waiter,
    found: &mut Vec<TaskId>,
    acts: &mut Vec<ControlAct>,
) -> Result<(), AllocError>
    requires together { Together (B.bans board.old) (B.slots board.old) N.allowed (view_of core.old) }
    requires waiter { MayHear N.allowed waiter }
    ensures together { Together (B.bans board.new) (B.slots board.new) N.allowed (view_of core.new) }
    ensures did { OnOk result (SeeksOne B.rests waiter row.now.id found.old.items found.new.items (at board.old core.old acts.old.items) (at board.new core.new acts.new.items)) }
{
    if !cancel_task(core, board, row.id, waiter, acts)? {
        return Ok(());
    }
    found.push(row.id)?;
    Ok(())
}

/// Cancels the task of each row, and gives those that were found.
fn cancel_each<N: BoardName, B: ControlBoard<N>>(
    core: &mut ControlCore,
    board: &mut B,
    rows: &[TaskInfo],
    waiter: Waiter,
    acts: &mut Vec<ControlAct>,
) -> Result<Vec<TaskId>, AllocError>
    requires together { Together (B.bans board.old) (B.slots board.old) N.allowed (view_of core.old) }
    requires waiter { MayHear N.allowed waiter }
    ensures together { Together (B.bans board.new) (B.slots board.new) N.allowed (view_of core.new) }
    ensures did { IfOk result (λ found. SeeksEach B.rests waiter rows.now found.items (at board.old core.old acts.old.items) (at board.new core.new acts.new.items)) }
{
    let mut found = Vec::new(core.alloc);
    for row in rows {
        cancel_row(core, board, row, waiter, &mut found, acts)?;
    }
    Ok(found)
}

/// Cancels each task that a filter lets through on this node, and names those that were found.
pub(crate) fn take_matches<N: BoardName, B: ControlBoard<N>>(
    core: &mut ControlCore,
    board: &mut B,
    rows: &[TaskInfo],
    waiter: Waiter,
    acts: &mut Vec<ControlAct>,
) -> Result<(), AllocError>
    requires together { Together (B.bans board.old) (B.slots board.old) N.allowed (view_of core.old) }
    requires waiter { MayHear N.allowed waiter }
    ensures together { Together (B.bans board.new) (B.slots board.new) N.allowed (view_of core.new) }
    ensures did { OnOk result (Makes B.rests (Matches waiter rows.now) (at board.old core.old acts.old.items) (at board.new core.new acts.new.items)) }
{
    let mut found = cancel_each(core, board, rows, waiter, acts)?;
    found.sort_unstable();
    acts.push(ControlAct::Named {
        node: core.node(),
        cancel: waiter.cancel,
        tasks: Items::from_vec(found),
    })?;
    Ok(())
}

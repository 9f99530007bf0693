//! One turn, and what it gave.
ghost use Rattle.std.specs.Prelude.{◌≡◌, ◌≤◌, IfOk};
ghost use Rattle.task_ids.specs.Limits.{IsCancel, IsSlotCount};
ghost use Rattle.node_link.specs.Lawful.{IsLawful};
ghost use Rattle.node_boards.specs.Seats.{HasNoBan};
ghost use Rattle.control_worker.specs.View.{view_of};
ghost use Rattle.control_worker.specs.Together.{Together};

use cancel_core::Act;
use control_worker::{ControlAct, ControlCore, control_turn};
use node_boards::ControlBoard;
use node_link::{Body, Letter};
use std::alloc::{AllocError, Global};
use task_ids::AnyCancel;

/// A new core of node 1 with so many data workers, which belongs to this seat of a board with so many slots.
pub(crate) fn new_core<C: ControlBoard<AnyCancel>>(
    alloc: Global,
    control: &C,
    workers: u32,
    slots: u32,
) -> Result<ControlCore, AllocError>
    requires workers { (1 ≤ workers) × (workers ≤ 4) }
    requires fresh { HasNoBan (C.bans control.now) }
    requires count { IsSlotCount slots }
    requires slots { C.slots control.now ≡ slots }
    ensures { IfOk result (λ core. Together (C.bans control.now) (C.slots control.now) IsCancel (view_of core)) }
{
    let core = ControlCore::new(alloc, 1, workers, slots)?;
    Ok(core)
}

/// A turn over a letter that says this.
pub(crate) fn turn<C: ControlBoard<AnyCancel>>(
    core: &mut ControlCore,
    control: &mut C,
    body: Body,
) -> Result<Vec<ControlAct>, AllocError>
    requires together { Together (C.bans control.old) (C.slots control.old) IsCancel (view_of core.old) }
    requires lawful { IsLawful IsCancel body }
    ensures together { Together (C.bans control.new) (C.slots control.new) IsCancel (view_of core.new) }
{
    control_turn(core, control, Letter::new(body))
}

/// Whether the one act is this act of the node's cancellations.
pub(crate) fn is_one(acts: &[ControlAct], act: Act) -> bool {
    match acts {
        [ControlAct::Core(one)] => *one == act,
        _ => false,
    }
}

/// Whether the acts are these two of the node's cancellations.
pub(crate) fn are_two(acts: &[ControlAct], first: Act, second: Act) -> bool {
    match acts {
        [ControlAct::Core(one), ControlAct::Core(other)] => *one == first && *other == second,
        _ => false,
    }
}

/// Whether the one act tells that a cancel finds no task.
pub(crate) fn is_not_found(acts: &[ControlAct], number: u32) -> bool {
    match acts {
        [ControlAct::NotFound { cancel }] => *cancel == number,
        _ => false,
    }
}

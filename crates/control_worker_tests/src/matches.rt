//! A play of a filter's cancel on a node with two data workers, the second of which tells its part first, and twice.
ghost use Rattle.std.specs.Prelude.{◌<◌, IfOk};
ghost use Rattle.task_ids.specs.Limits.{IsCancel, IsNumber};
ghost use Rattle.node_link.specs.Lawful.{IsLawful};
ghost use Rattle.node_boards.specs.Seats.{IsFresh};
ghost use Rattle.control_worker.specs.View.{view_of};
ghost use Rattle.control_worker.specs.Together.{Together};

use crate::cancels::{TASK, claim_root, row};
use crate::turns::turn;
use child_track::ChildTrack;
use control_worker::{ControlAct, ControlCore};
use node_boards::{ControlBoard, DataBoard};
use node_link::Body;
use std::alloc::{AllocError, Global};
use task_ids::{AnyCancel, Items, TaskId};

/// The part that a data worker tells: one task.
fn part(alloc: Global, worker: u32, number: u32) -> Result<Body, AllocError>
    requires worker { worker < 4 }
    requires number { IsNumber number }
    ensures { IfOk result (IsLawful IsCancel) }
{
    let rows = vec![in alloc; row(alloc, TaskId { node: 1, number })]?;
    Ok(Body::Matches {
        worker,
        cancel: 9,
        rows: Items::from_vec(rows),
        wait: false,
    })
}

/// Whether the acts answer the cancel of the task, and name just this one.
fn name_task(acts: &[ControlAct]) -> bool {
    match acts {
        [
            ControlAct::Core(_),
            ControlAct::Named {
                node,
                cancel,
                tasks,
            },
        ] => *node == 1 && *cancel == 9 && tasks.as_slice() == [TASK].as_slice(),
        _ => false,
    }
}

/// Whether the tasks of both parts are cancelled with the last part, and nothing is done before.
fn gathers<C: ControlBoard<AnyCancel>>(
    alloc: Global,
    core: &mut ControlCore,
    control: &mut C,
) -> Result<bool, AllocError>
    requires together { Together (C.bans control.old) (C.slots control.old) IsCancel (view_of core.old) }
    ensures together { Together (C.bans control.new) (C.slots control.new) IsCancel (view_of core.new) }
{
    let first = turn(core, control, part(alloc, 1, 1)?)?;
    let again = turn(core, control, part(alloc, 1, 1)?)?;
    let other = turn(core, control, part(alloc, 2, 1)?)?;
    let waits = first.is_empty() && again.is_empty() && other.is_empty() && !core.is_idle();
    let last = turn(core, control, part(alloc, 0, 9)?)?;
    Ok(waits && name_task(&last))
}

/// Whether the whole play comes out, with a live root that worker 1 tells, and one that has ended that worker 0 tells.
pub(crate) fn gathers_matches<D: DataBoard<AnyCancel>, C: ControlBoard<AnyCancel>>(
    alloc: Global,
    data: &mut D,
    core: &mut ControlCore,
    control: &mut C,
) -> Result<bool, AllocError>
    requires fresh { IsFresh (D.has data.old) (D.drawn data.old) }
    requires together { Together (C.bans control.old) (C.slots control.old) IsCancel (view_of core.old) }
{
    let Some(ticket) = claim_root(data) else {
        return Ok(false);
    };
    let is_gathered = gathers(alloc, core, control);
    let id = ticket.id();
    let ended = data.end(ticket, ChildTrack::new(alloc, id));
    let is_gathered = is_gathered?;
    let receipt = ended.receipt;
    let done = turn(core, control, Body::Ended { receipt })?;
    Ok(is_gathered && done.is_empty() && core.is_idle())
}

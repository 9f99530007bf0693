//! Plays of bans: one that is kept back, and one that waits for a child.
ghost use Rattle.std.specs.Prelude.{◌≡◌, None, Some, IfSome};
ghost use Rattle.task_ids.specs.Limits.{IsCancel};
ghost use Rattle.node_boards.specs.Seats.{HasTicket, IsFresh};
ghost use Rattle.control_worker.specs.View.{view_of};
ghost use Rattle.control_worker.specs.Together.{Together};

use crate::turns::{is_one, turn};
use cancel_core::Act;
use child_track::ChildTrack;
use control_worker::ControlCore;
use node_boards::{ControlBoard, DataBoard};
use node_link::Body;
use std::alloc::{AllocError, Global};
use task_ids::{AnyCancel, TaskId};
use task_table::{Check, Full, Ticket, Track};

const FIRST: TaskId = TaskId { node: 2, number: 1 };

const SECOND: TaskId = TaskId { node: 3, number: 1 };

/// Whether a second ban is kept back while the first has the one place, and is put and acknowledged once the first is
/// taken away. A ban for another node, and one that is kept back already, is passed over.
pub(crate) fn keeps_a_ban_back<C: ControlBoard<AnyCancel>>(
    core: &mut ControlCore,
    control: &mut C,
) -> Result<bool, AllocError>
    requires together { Together (C.bans control.old) (C.slots control.old) IsCancel (view_of core.old) }
    ensures together { Together (C.bans control.new) (C.slots control.new) IsCancel (view_of core.new) }
{
    let stray = turn(
        core,
        control,
        Body::Ban {
            parent: SECOND,
            cancel: 5,
            to: 2,
        },
    )?;
    let first = turn(
        core,
        control,
        Body::Ban {
            parent: FIRST,
            cancel: 4,
            to: 1,
        },
    )?;
    let second = turn(
        core,
        control,
        Body::Ban {
            parent: SECOND,
            cancel: 5,
            to: 1,
        },
    )?;
    let again = turn(
        core,
        control,
        Body::Ban {
            parent: SECOND,
            cancel: 5,
            to: 1,
        },
    )?;
    let is_kept = core.keeps_back();
    let third = turn(
        core,
        control,
        Body::Unban {
            parent: FIRST,
            to: 1,
        },
    )?;
    let is_silent = stray.is_empty() && second.is_empty() && again.is_empty();
    let is_put = is_one(
        &first,
        Act::SendAck {
            to: 2,
            parent: FIRST,
        },
    ) && is_one(
        &third,
        Act::SendAck {
            to: 3,
            parent: SECOND,
        },
    );
    let last = turn(
        core,
        control,
        Body::Unban {
            parent: SECOND,
            to: 1,
        },
    )?;
    Ok(is_silent && is_kept && is_put && !core.keeps_back() && last.is_empty() && !core.has_ban())
}

/// Registers a child of the first parent under the number 1.
fn claim_child<D: DataBoard<AnyCancel>>(alloc: Global, data: &mut D) -> Option<Ticket>
    requires fresh { IsFresh (D.has data.old) (D.drawn data.old) }
    ensures held { IfSome result (HasTicket (D.has data.new)) }
{
    let mut asks = ChildTrack::new(alloc, FIRST);
    let number = data.draw()?;
    let Ok(token) = asks.ask(1) else {
        return None;
    };
    let parent = token.parent();
    match data.claim(number, Some(parent), Some(token)) {
        Ok(ticket) => Some(ticket),
        Err(Full(token)) => {
            if let Some(token) = token {
                let _receipt = token.reject();
            }
            None
        }
    }
}

/// Whether the task passes its check and is cleared to ask on node 3.
fn is_cleared<D: DataBoard<AnyCancel>>(data: &mut D, ticket: &Ticket) -> bool
    requires held { HasTicket (D.has data.old) ticket.now }
{
    match data.check(ticket) {
        Check::Clear => data.track(ticket, 3) == Track::Cleared,
        Check::Banned(_) => false,
    }
}

/// Whether the ban of the first parent bans its child's node, and is acknowledged once that has acknowledged.
fn waits_for_a_child<C: ControlBoard<AnyCancel>>(
    core: &mut ControlCore,
    control: &mut C,
) -> Result<bool, AllocError>
    requires together { Together (C.bans control.old) (C.slots control.old) IsCancel (view_of core.old) }
{
    let child = TaskId { node: 1, number: 1 };
    let first = turn(
        core,
        control,
        Body::Ban {
            parent: FIRST,
            cancel: 4,
            to: 1,
        },
    )?;
    let is_banned = is_one(
        &first,
        Act::SendBan {
            to: 3,
            parent: child,
            cancel: 4,
        },
    );
    let placed = turn(
        core,
        control,
        Body::Ack {
            parent: child,
            from: 3,
        },
    )?;
    let late = turn(
        core,
        control,
        Body::Ack {
            parent: child,
            from: 3,
        },
    )?;
    let is_placed = is_one(
        &placed,
        Act::SendAck {
            to: 2,
            parent: FIRST,
        },
    );
    Ok(is_banned && is_placed && late.is_empty() && core.marks() == 1 && !core.is_idle())
}

/// The same, with a live child that asks on node 3.
pub(crate) fn cancels_a_child<D: DataBoard<AnyCancel>, C: ControlBoard<AnyCancel>>(
    alloc: Global,
    data: &mut D,
    core: &mut ControlCore,
    control: &mut C,
) -> Result<bool, AllocError>
    requires fresh { IsFresh (D.has data.old) (D.drawn data.old) }
    requires together { Together (C.bans control.old) (C.slots control.old) IsCancel (view_of core.old) }
{
    let Some(ticket) = claim_child(alloc, data) else {
        return Ok(false);
    };
    let is_cleared = is_cleared(data, &ticket);
    ticket.give_up();
    Ok(waits_for_a_child(core, control)? && is_cleared)
}

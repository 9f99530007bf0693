//! A play of cancels: one that waits, one that joins it, one by a filter, and those that find no task.
ghost use Rattle.std.specs.Prelude.{◌≡◌, None, All, IfOk, IfSome, IsSome};
ghost use Rattle.task_ids.specs.Limits.{IsCancel};
ghost use Rattle.node_link.specs.Lawful.{IsLawfulRow};
ghost use Rattle.node_boards.specs.Seats.{HasTicket, IsFresh};
ghost use Rattle.control_worker.specs.View.{view_of};
ghost use Rattle.control_worker.specs.Together.{Together};

use crate::turns::{are_two, is_not_found, is_one, turn};
use cancel_core::Act;
use child_track::{ChildTrack, Receipt};
use control_worker::{ControlAct, ControlCore};
use node_boards::{ControlBoard, DataBoard};
use node_link::Body;
use std::alloc::{AllocError, Global};
use task_ids::{Action, AnyCancel, Headers, Items, TaskId, TaskInfo, Text};
use task_table::{Check, Full, Ticket, Track};

/// The task that is cancelled.
pub(crate) const TASK: TaskId = TaskId { node: 1, number: 1 };

/// Registers a root.
pub(crate) fn claim_root<D: DataBoard<AnyCancel>>(data: &mut D) -> Option<Ticket>
    requires fresh { IsFresh (D.has data.old) (D.drawn data.old) }
    ensures held { IfSome result (HasTicket (D.has data.new)) }
{
    let number = data.draw()?;
    match data.claim(number, None, None) {
        Ok(ticket) => Some(ticket),
        Err(Full(token)) => {
            if let Some(token) = token {
                let _receipt = token.reject();
            }
            None
        }
    }
}

/// Whether the task passes its check and is cleared to ask on node 3.
fn is_cleared<D: DataBoard<AnyCancel>>(data: &mut D, ticket: &Ticket) -> bool
    requires held { HasTicket (D.has data.old) ticket.now }
    ensures held { HasTicket (D.has data.new) ticket.now }
{
    match data.check(ticket) {
        Check::Clear => data.track(ticket, 3) == Track::Cleared,
        Check::Banned(_) => false,
    }
}

/// A row of a live task.
pub(crate) fn row(alloc: Global, id: TaskId) -> TaskInfo
    ensures { IsLawfulRow IsCancel result }
{
    TaskInfo {
        id,
        action: Action::Search,
        description: Text::new(String::new(alloc)),
        start_ms: 0,
        parent: None,
        headers: Headers::none(),
        cancelled: None,
    }
}

/// The rows of the task and of one that has ended.
fn rows(alloc: Global) -> Result<Items<TaskInfo>, AllocError>
    ensures { IfOk result (All (IsLawfulRow IsCancel)) }
{
    let rows = vec![in alloc; row(alloc, TaskId { node: 1, number: 9 }), row(alloc, TASK)]?;
    Ok(Items::from_vec(rows))
}

/// Whether cancels of a task that is not there, and of one of another node, find none.
fn misses<C: ControlBoard<AnyCancel>>(
    core: &mut ControlCore,
    control: &mut C,
) -> Result<bool, AllocError>
    requires together { Together (C.bans control.old) (C.slots control.old) IsCancel (view_of core.old) }
    ensures together { Together (C.bans control.new) (C.slots control.new) IsCancel (view_of core.new) }
{
    let ended = TaskId { node: 1, number: 9 };
    let there = TaskId { node: 2, number: 1 };
    let missed = turn(
        core,
        control,
        Body::Cancel {
            cancel: 7,
            task: ended,
            wait: false,
        },
    )?;
    let other = turn(
        core,
        control,
        Body::Cancel {
            cancel: 8,
            task: there,
            wait: true,
        },
    )?;
    Ok(is_not_found(&missed, 7) && is_not_found(&other, 8))
}

/// Whether a filter's cancel names the one task of its rows that is live.
fn names<C: ControlBoard<AnyCancel>>(
    alloc: Global,
    core: &mut ControlCore,
    control: &mut C,
) -> Result<bool, AllocError>
    requires together { Together (C.bans control.old) (C.slots control.old) IsCancel (view_of core.old) }
    ensures together { Together (C.bans control.new) (C.slots control.new) IsCancel (view_of core.new) }
{
    let rows = rows(alloc)?;
    let body = Body::Matches {
        worker: 0,
        cancel: 9,
        rows,
        wait: false,
    };
    let named = turn(core, control, body)?;
    match named.as_slice() {
        [
            ControlAct::Named {
                node,
                cancel,
                tasks,
            },
        ] => {
            let is_ours = *node == 1 && *cancel == 9;
            Ok(is_ours && tasks.as_slice() == [TASK].as_slice())
        }
        _ => Ok(false),
    }
}

/// Whether the first cancel bans the task's node, and another joins it. Both that do not wait are answered once the ban is
/// placed, by their numbers.
fn begins<C: ControlBoard<AnyCancel>>(
    alloc: Global,
    core: &mut ControlCore,
    control: &mut C,
) -> Result<bool, AllocError>
    requires together { Together (C.bans control.old) (C.slots control.old) IsCancel (view_of core.old) }
    ensures together { Together (C.bans control.new) (C.slots control.new) IsCancel (view_of core.new) }
{
    let first = turn(
        core,
        control,
        Body::Cancel {
            cancel: 5,
            task: TASK,
            wait: true,
        },
    )?;
    let second = turn(
        core,
        control,
        Body::Cancel {
            cancel: 6,
            task: TASK,
            wait: false,
        },
    )?;
    let is_named = names(alloc, core, control)?;
    let placed = turn(
        core,
        control,
        Body::Ack {
            parent: TASK,
            from: 3,
        },
    )?;
    let late = turn(
        core,
        control,
        Body::Ack {
            parent: TASK,
            from: 3,
        },
    )?;
    let is_banned = is_one(
        &first,
        Act::SendBan {
            to: 3,
            parent: TASK,
            cancel: 5,
        },
    );
    let sixth = Act::AnswerPlaced {
        cancel: 6,
        task: TASK,
    };
    let ninth = Act::AnswerPlaced {
        cancel: 9,
        task: TASK,
    };
    let is_answered = are_two(&placed, sixth, ninth) && late.is_empty();
    Ok(is_banned && second.is_empty() && is_named && is_answered)
}

/// Whether the end of the task takes its ban away, and answers the cancel that waits.
fn ends<C: ControlBoard<AnyCancel>>(
    core: &mut ControlCore,
    control: &mut C,
    receipt: Receipt,
) -> Result<bool, AllocError>
    requires together { Together (C.bans control.old) (C.slots control.old) IsCancel (view_of core.old) }
    requires task { IsSome receipt.task }
{
    let acts = turn(core, control, Body::Ended { receipt })?;
    let gone = Act::SendUnban {
        to: 3,
        parent: TASK,
    };
    let done = Act::AnswerDone {
        cancel: 5,
        task: TASK,
        receipt,
    };
    Ok(are_two(&acts, gone, done) && core.is_idle() && core.marks() == 1)
}

/// Whether the whole play comes out, with a live root that asks on node 3.
pub(crate) fn cancels_a_root<D: DataBoard<AnyCancel>, C: ControlBoard<AnyCancel>>(
    alloc: Global,
    data: &mut D,
    core: &mut ControlCore,
    control: &mut C,
) -> Result<bool, AllocError>
    requires fresh { IsFresh (D.has data.old) (D.drawn data.old) }
    requires together { Together (C.bans control.old) (C.slots control.old) IsCancel (view_of core.old) }
{
    let Some(ticket) = claim_root(data) else {
        return Ok(false);
    };
    let is_cleared = is_cleared(data, &ticket);
    let is_begun = begins(alloc, core, control);
    let id = ticket.id();
    let ended = data.end(ticket, ChildTrack::new(alloc, id));
    let is_missed = misses(core, control)?;
    Ok(is_cleared && is_begun? && is_missed && ends(core, control, ended.receipt)?)
}

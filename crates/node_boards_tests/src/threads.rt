//! A child registers on a plain board while its parent is banned there, each in a thread of its own. Whoever comes first,
//! the child is stopped: its check tells of the ban, or the list marks it.
ghost use Rattle.std.specs.Prelude.{◌≡◌, None, IfSome};
ghost use Rattle.node_boards.specs.Seats.{HasTicket, HasNoBan, IsFresh};

use child_track::{AskToken, ChildTrack};
use node_boards::{ControlBoard, DataBoard, PlainBoard, PlainControl, PlainData, PlainParts};
use std::alloc::{AllocError, Global};
use std::sync::Wait;
use std::test::Fail;
use std::thread;
use std::thread::Threads;
use task_ids::{AnyCancel, TaskId};
use task_table::{Check, Full, Ticket};

/// The task that is banned.
const PARENT: TaskId = TaskId { node: 2, number: 1 };

const CANCEL: u32 = 5;

const ROUNDS: u32 = 20;

/// A token on its way to a thread. Where it is let go, the token is spent.
struct Carried {
    token: AskToken,
}

impl Drop for Carried {
    fn drop(self) {
        let Carried { token } = self;
        let _receipt = token.reject();
    }
}

impl Carried {
    fn into_token(self) -> AskToken {
        let Carried { token } = self;
        token
    }
}

/// The child registers, and then looks for a ban of its parent.
fn enter<D: DataBoard<AnyCancel> + Drop>(
    mut seat: D,
    carried: Carried,
) -> (D, Option<(Ticket, Check)>)
    requires { D.drawn seat ≡ None }
    ensures { IfSome result.1 (λ child. HasTicket (D.has result.0) child.0) }
{
    let token = carried.into_token();
    let Some(number) = seat.draw() else {
        let _receipt = token.reject();
        return (seat, None);
    };
    match seat.claim(number, Some(token.parent()), Some(token)) {
        Ok(ticket) => {
            let check = seat.check(&ticket);
            (seat, Some((ticket, check)))
        }
        Err(Full(token)) => {
            if let Some(token) = token {
                let _receipt = token.reject();
            }
            (seat, None)
        }
    }
}

/// Puts the ban of the parent, and then marks the children that are there. Gives how many these are.
fn ban<C: ControlBoard<AnyCancel> + Drop>(mut control: C) -> u32
    requires { HasNoBan (C.bans control) × (C.slots control ≡ 4) }
{
    match control.ban(PARENT, CANCEL) {
        Ok(place) => control.list(place, &mut [0; 4]),
        Err(_) => 0,
    }
}

/// Both at once. Whether the child was stopped, and its ask answered.
fn is_stopped<R: Threads + Wait + Sync>(rt: &R, alloc: Global) -> Result<bool, AllocError> {
    let PlainParts {
        board,
        control,
        mut seats,
    } = PlainBoard::<AnyCancel>::new(alloc, 1, 4, 1, 1)?;
    let seat = PlainData::new(rt, &board, seats.pop().ok_or(AllocError)?);
    let control = PlainControl::new(rt, &board, control);
    let mut asks = ChildTrack::new(alloc, PARENT);
    let Ok(token) = asks.ask(1) else {
        return Err(AllocError);
    };
    let carried = Carried { token };
    let ((mut seat, child), marked) = thread::join(
        rt,
        move || enter(seat, carried),
        move || ban(control),
    );
    let Some((ticket, check)) = child else {
        return Ok(false);
    };
    let id = ticket.id();
    let ended = seat.end(ticket, ChildTrack::new(alloc, id));
    let is_marked = marked == 1 && ended.mark == Some(CANCEL);
    let is_told = check == Check::Banned(CANCEL) || is_marked;
    Ok(is_told && asks.answer(ended.receipt).is_ok())
}

#[test]
fn a_child_is_stopped_whoever_comes_first(rt: HostRuntime) -> Result<(), Fail> {
    for _ in 0..ROUNDS {
        assert!(rt; is_stopped(&rt, rt.alloc())?);
    }
    Ok(())
}

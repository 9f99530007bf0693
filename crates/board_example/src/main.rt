//! The program `board_example`: a child registers on a node while the ban of its parent is put there, each in a thread of its own.
//!
//! Whoever comes first, the child is stopped: its check finds the ban, or the listing marks it.
#![tactic(auto)]

ghost use Rattle.std.specs.Prelude.{◌≡◌, IfSome};
ghost use Rattle.race_board.specs.Calls.{HasTicket};
ghost use Rattle.race_board.specs.Keys.{task_key};
ghost use Rattle.race_board.specs.Lists.{NoneOf};
ghost use Rattle.race_board.specs.Seats.{seat_view, control_view, board_size, IsSeatOf, IsControlOf};

use child_track::{AskToken, ChildTrack, Receipt};
use race_board::{AnyCancel, BoardParts, Check, ControlSeat, DataSeat, Full, RaceBoard};
use std::alloc::{AllocError, Global};
use std::thread::Threads;
use std::{io, thread};
use task_ids::TaskId;
use task_table::Ticket;

type Board = RaceBoard<AnyCancel>;

type Seat = DataSeat<AnyCancel>;

type Control = ControlSeat<AnyCancel>;

const ROUNDS: u32 = 100;

const CANCEL: u32 = 5;

/// The task that is banned.
fn parent_task() -> TaskId {
    TaskId { node: 2, number: 1 }
}

/// A token on its way to a thread. Where it is let go, the token is spent.
struct Carried {
    token: AskToken,
}

impl Drop for Carried {
    fn drop(self) {
        let Carried { token } = self;
        let _receipt = token.reject();
    }
}

impl Carried {
    fn into_token(self) -> AskToken {
        let Carried { token } = self;
        token
    }
}

/// Spends the token of a request for which there is no room.
fn spend(token: Option<AskToken>) -> Option<Receipt> {
    match token {
        Some(token) => Some(token.reject()),
        None => None,
    }
}

/// The child registers, and then looks for a ban of its parent.
fn enter(board: &Board, mut seat: Seat, carried: Carried) -> (Seat, Option<(Ticket, Check)>)
    requires fits { IsSeatOf board.now seat }
    requires free { (seat_view seat).drawn ≡ 0 }
    ensures fits { IsSeatOf board.now result.0 }
    ensures held { IfSome result.1 (λ child. HasTicket (seat_view result.0) child.0) }
{
    let token = carried.into_token();
    let Some(number) = board.draw(&mut seat) else {
        let _receipt = token.reject();
        return (seat, None);
    };
    let parent = token.parent();
    match board.claim(&mut seat, number, Some(parent), Some(token)) {
        Ok(ticket) => {
            let check = board.check(&mut seat, &ticket);
            (seat, Some((ticket, check)))
        }
        Err(Full(token)) => {
            let _receipt = spend(token);
            (seat, None)
        }
    }
}

/// Puts the ban of the parent, and then marks the children that are there. Gives how many these are.
fn ban(board: &Board, mut control: Control, parent: TaskId) -> (Control, u32)
    requires fits { IsControlOf board.now control }
    requires slots { (board_size board.now).slots ≡ 4 }
    requires new { NoneOf (control_view control) (board_size board.now) (task_key parent) }
    ensures fits { IsControlOf board.now result.0 }
{
    let Ok(place) = board.ban(&mut control, parent, CANCEL) else {
        return (control, 0);
    };
    let mut found = [0u32; 4];
    let marked = board.list(&mut control, place, &mut found);
    (control, marked)
}

/// Both at once, each in a thread of its own. Gives the child and how many were marked.
fn race<R: Threads + Sync>(
    rt: &R,
    board: &Board,
    seat: Seat,
    control: Control,
    parent: TaskId,
    carried: Carried,
) -> (Seat, Option<(Ticket, Check)>, u32)
    requires seat { IsSeatOf board.now seat × ((seat_view seat).drawn ≡ 0) }
    requires control { IsControlOf board.now control × ((board_size board.now).slots ≡ 4) × NoneOf (control_view control) (board_size board.now) (task_key parent) }
    ensures fits { IsSeatOf board.now result.0 }
    ensures held { IfSome result.1 (λ child. HasTicket (seat_view result.0) child.0) }
{
    let ((seat, child), (_control, marked)) = thread::join(
        rt,
        move || enter(board, seat, carried),
        move || ban(board, control, parent),
    );
    (seat, child, marked)
}

/// Whether the child of one round was stopped, and its ask answered.
fn is_stopped<R: Threads + Sync>(rt: &R, alloc: Global) -> Result<bool, AllocError> {
    let BoardParts {
        board,
        control,
        mut seats,
    } = Board::new(alloc, 1, 4, 1, 1)?;
    let Some(seat) = seats.pop() else {
        return Ok(false);
    };
    let parent = parent_task();
    let mut asks = ChildTrack::new(alloc, parent);
    let Ok(token) = asks.ask(1) else {
        return Err(AllocError);
    };
    let (mut seat, child, marked) = race(rt, &board, seat, control, parent, Carried { token });
    let Some((ticket, check)) = child else {
        return Ok(false);
    };
    let id = ticket.id();
    let ended = board.end(&mut seat, ticket, ChildTrack::new(alloc, id));
    let is_marked = marked == 1 && ended.mark == Some(CANCEL);
    let is_told = check == Check::Banned(CANCEL) || is_marked;
    Ok(is_told && asks.answer(ended.receipt).is_ok())
}

fn main(rt: HostRuntime) -> io::Result<()> {
    let mut stopped = 0u32;
    for _ in 0..ROUNDS {
        if is_stopped(&rt, rt.alloc())? {
            stopped = stopped.wrapping_add(1);
        }
    }
    println!(rt; "{ROUNDS} rounds, the child was stopped in {stopped}")
}

//! Single calls on a board of few slots, with one place for a ban and one data seat.
ghost use Rattle.std.specs.Prelude.{◌≡◌, ◌≢◌, ℕ, true, IfOk, IfSome, OnOk};
ghost use Rattle.child_track.specs.Token.{token_parent};
ghost use Rattle.task_ids.specs.declared.task_id.TaskId.{TaskId};
ghost use Rattle.task_table.specs.TicketParts.{TicketParts};
ghost use Rattle.race_board.specs.Board.{ban};
ghost use Rattle.race_board.specs.Calls.{HasTicket};
ghost use Rattle.race_board.specs.Checks.{IsClear, MayAsk};
ghost use Rattle.race_board.specs.Keys.{task_key};
ghost use Rattle.race_board.specs.Lists.{NoneOf};
ghost use Rattle.race_board.specs.Seats.{seat_view, control_view, board_size, IsSeatOf, IsControlOf};
ghost use Rattle.task_ids.specs.Limits.{IsCancel, IsSlotCount};

use child_track::{AskToken, ChildTrack};
use race_board::{AnyCancel, BoardParts, Check, ControlSeat, DataSeat, Full, RaceBoard, Track};
use std::alloc::{AllocError, Global};
use std::test::Fail;
use task_ids::TaskId;
use task_table::{MarkAnswer, Ticket};

type Board = RaceBoard<AnyCancel>;

type Control = ControlSeat<AnyCancel>;

type Seat = DataSeat<AnyCancel>;

/// The task whose children are banned.
const PARENT: TaskId = TaskId { node: 2, number: 1 };

/// Another task of that node.
const OTHER: TaskId = TaskId { node: 2, number: 2 };

/// A board of node 1 with its two seats.
fn small(alloc: Global, slots: u32) -> Result<(Board, Control, Seat), AllocError>
    requires slots { IsSlotCount slots }
    ensures control { IfOk result (λ p. IsControlOf p.0 p.1 × ((board_size p.0).slots ≡ slots) × ((board_size p.0).bans ≡ 1) × ((board_size p.0).seats ≡ 1)) }
    ensures unbanned { IfOk result (λ p. (t : TaskId) → NoneOf (control_view p.1) (board_size p.0) (task_key t)) }
    ensures seat { IfOk result (λ p. IsSeatOf p.0 p.2 × ((seat_view p.2).drawn ≡ 0)) }
{
    let BoardParts {
        board,
        control,
        mut seats,
    } = Board::new(alloc, 1, slots, 1, 1)?;
    match seats.pop() {
        Some(seat) => Ok((board, control, seat)),
        None => Err(AllocError),
    }
}

fn parent_of(token: &Option<AskToken>) -> Option<TaskId>
    ensures { result ≡ token_parent token.now }
{
    match token {
        Some(token) => Some(token.parent()),
        None => None,
    }
}

fn spend(token: Option<AskToken>) {
    if let Some(token) = token {
        let _receipt = token.reject();
    }
}

/// Registers a task under the next number. Gives its ticket, or which refusal came.
fn enter(board: &Board, seat: &mut Seat, token: Option<AskToken>) -> Result<Ticket, &'static str>
    requires fits { IsSeatOf board.now seat.old }
    requires free { (seat_view seat.old).drawn ≡ 0 }
    ensures fits { IsSeatOf board.now seat.new }
    ensures held { IfOk result (HasTicket (seat_view seat.new)) }
    ensures free { OnOk result ((seat_view seat.new).drawn ≡ 0) }
{
    let Some(number) = board.draw(seat) else {
        spend(token);
        return Err("no number");
    };
    let parent = parent_of(&token);
    match board.claim(seat, number, parent, token) {
        Ok(ticket) => Ok(ticket),
        Err(Full(token)) => {
            spend(token);
            Err("full")
        }
    }
}

/// Whether a claim of the number 2 is refused, since the slot is taken.
fn is_full(board: &Board, seat: &mut Seat) -> bool
    requires fits { IsSeatOf board.now seat.old }
    requires free { (seat_view seat.old).drawn ≡ 0 }
    ensures fits { IsSeatOf board.now seat.new }
    ensures held { result ≡ true → (t : TicketParts) → HasTicket (seat_view seat.old) t → HasTicket (seat_view seat.new) t }
{
    let Some(number) = board.draw(seat) else {
        return false;
    };
    match board.claim(seat, number, None, None) {
        Ok(ticket) => {
            ticket.give_up();
            false
        }
        Err(Full(token)) => {
            let is_given_back = token.is_none();
            spend(token);
            is_given_back && number == 2
        }
    }
}

/// Whether the parent's ban gets the one place, and another parent's none.
fn bans_one(board: &Board, control: &mut Control) -> bool
    requires fits { IsControlOf board.now control.old }
    requires size { (board_size board.now).bans ≡ 1 }
    requires new { (t : TaskId) → NoneOf (control_view control.old) (board_size board.now) (task_key t) }
    ensures fits { IsControlOf board.now control.new }
    ensures stands { result ≡ true → ((ban (control_view control.new) 0).parent ≢ 0) × ((ban (control_view control.new) 0).next ≡ 0) }
{
    match board.ban(control, PARENT, 4) {
        Ok(0) => !board.unban(control, OTHER) && board.ban(control, OTHER, 5).is_err(),
        _ => false,
    }
}

/// Whether a list of the ban marks the task 1 alone.
fn lists_one(board: &Board, control: &mut Control) -> bool
    requires fits { IsControlOf board.now control.old }
    requires size { ((board_size board.now).slots ≡ 1) × ((board_size board.now).bans ≡ 1) }
    requires stands { ((ban (control_view control.old) 0).parent ≢ 0) × ((ban (control_view control.old) 0).next ≡ 0) }
    ensures fits { IsControlOf board.now control.new }
{
    let mut found = [0u32; 1];
    board.list(control, 0, &mut found) == 1 && found[0] == 1
}

/// Whether the task asks nowhere, since it is marked with the cancellation, and ends with that mark.
fn ends_marked(alloc: Global, board: &Board, seat: &mut Seat, ticket: Ticket, cancel: u32) -> bool
    requires fits { IsSeatOf board.now seat.old }
    requires held { HasTicket (seat_view seat.old) ticket }
    requires clear { IsClear (seat_view seat.old) ticket.id.number }
    ensures fits { IsSeatOf board.now seat.new }
{
    let is_seen = board.look(seat, &ticket) == Some(cancel);
    let is_told = board.track(seat, &ticket, 3) == Track::Cancelled(cancel);
    board.untrack(seat, &ticket, 3);
    let id = ticket.id();
    let ended = board.end(seat, ticket, ChildTrack::new(alloc, id));
    is_seen && is_told && ended.mark == Some(cancel)
}

/// Whether a board closes empty, with the number 2 as the last.
fn closes_empty(
    alloc: Global,
    board: Board,
    control: Control,
    seat: Seat,
) -> Result<bool, AllocError>
    requires control { IsControlOf board control }
    requires seat { IsSeatOf board seat }
    requires size { (board_size board).seats ≡ 1 }
{
    let mut seats = Vec::with_capacity(alloc, 1)?;
    seats.push(seat)?;
    let closed = board.close(control, seats);
    Ok(closed.live() == 0 && closed.bans() == 0 && closed.drawn() == 2)
}

/// Whether a task that passed its check is listed, seen marked and ended, and is found no more.
fn is_stopped(
    alloc: Global,
    board: &Board,
    control: &mut Control,
    seat: &mut Seat,
    ticket: Ticket,
) -> bool
    requires control { IsControlOf board.now control.old }
    requires seat { IsSeatOf board.now seat.old }
    requires held { HasTicket (seat_view seat.old) ticket }
    requires size { ((board_size board.now).slots ≡ 1) × ((board_size board.now).bans ≡ 1) }
    requires new { (t : TaskId) → NoneOf (control_view control.old) (board_size board.now) (task_key t) }
    ensures control { IsControlOf board.now control.new }
    ensures seat { IsSeatOf board.now seat.new }
{
    if board.check(seat, &ticket) != Check::Clear || !bans_one(board, control) {
        ticket.give_up();
        return false;
    }
    let is_listed = lists_one(board, control);
    let is_known = board.mark(control, 1, 5) == MarkAnswer::Already(4);
    let is_ended = ends_marked(alloc, board, seat, ticket, 4);
    let is_gone = board.mark(control, 1, 5) == MarkAnswer::NotFound;
    is_listed && is_known && is_ended && is_gone
}

#[test]
fn a_child_that_passed_its_check_is_listed(rt: HostRuntime) -> Result<(), Fail> {
    let alloc = rt.alloc();
    let (board, mut control, mut seat) = small(alloc, 1)?;
    let mut asks = ChildTrack::new(alloc, PARENT);
    let token = asks.ask(1)?;
    let ticket = enter(&board, &mut seat, Some(token))?;
    assert!(rt; ticket.id() == TaskId { node: 1, number: 1 });
    assert!(rt; is_full(&board, &mut seat));
    assert!(rt; is_stopped(alloc, &board, &mut control, &mut seat, ticket));
    assert!(rt; board.unban(&mut control, PARENT));
    assert!(rt; !board.unban(&mut control, PARENT));
    assert!(rt; closes_empty(alloc, board, control, seat)?);
    Ok(())
}

/// Whether a task is told of the ban, is listed all the same, and ends with its mark.
fn is_refused(
    alloc: Global,
    board: &Board,
    control: &mut Control,
    seat: &mut Seat,
    ticket: Ticket,
) -> bool
    requires control { IsControlOf board.now control.old }
    requires seat { IsSeatOf board.now seat.old }
    requires held { HasTicket (seat_view seat.old) ticket }
    requires size { ((board_size board.now).slots ≡ 1) × ((board_size board.now).bans ≡ 1) }
    requires stands { ((ban (control_view control.old) 0).parent ≢ 0) × ((ban (control_view control.old) 0).next ≡ 0) }
    ensures control { IsControlOf board.now control.new }
    ensures seat { IsSeatOf board.now seat.new }
{
    let is_told = board.check(seat, &ticket) == Check::Banned(4);
    let is_listed = lists_one(board, control);
    let id = ticket.id();
    let ended = board.end(seat, ticket, ChildTrack::new(alloc, id));
    is_told && is_listed && ended.mark == Some(4)
}

#[test]
fn a_child_that_comes_after_the_ban_is_told_so(rt: HostRuntime) -> Result<(), Fail> {
    let alloc = rt.alloc();
    let (board, mut control, mut seat) = small(alloc, 1)?;
    assert!(rt; bans_one(&board, &mut control));
    let mut asks = ChildTrack::new(alloc, PARENT);
    let token = asks.ask(1)?;
    let ticket = enter(&board, &mut seat, Some(token))?;
    assert!(rt; is_refused(alloc, &board, &mut control, &mut seat, ticket));
    Ok(())
}

/// Whether a root that is cleared to ask on node 2 is marked once, with that node in its mask, and asks no more.
fn is_marked_once(
    alloc: Global,
    board: &Board,
    control: &mut Control,
    seat: &mut Seat,
    root: Ticket,
) -> bool
    requires control { IsControlOf board.now control.old }
    requires seat { IsSeatOf board.now seat.old }
    requires held { HasTicket (seat_view seat.old) root }
    ensures control { IsControlOf board.now control.new }
    ensures seat { IsSeatOf board.now seat.new }
{
    if board.check(seat, &root) != Check::Clear {
        root.give_up();
        return false;
    }
    let is_cleared = board.track(seat, &root, 2) == Track::Cleared;
    let is_missed = board.mark(control, 2, 7) == MarkAnswer::NotFound;
    let nodes = match board.mark(control, 1, 7) {
        MarkAnswer::Marked => board.mask(control, 1).0,
        MarkAnswer::Already(_) | MarkAnswer::NotFound => 0,
    };
    let is_known = board.mark(control, 1, 8) == MarkAnswer::Already(7);
    let is_ended = ends_marked(alloc, board, seat, root, 7);
    is_cleared && is_missed && nodes == 4 && is_known && is_ended
}

#[test]
fn a_root_is_marked_with_the_first_number(rt: HostRuntime) -> Result<(), Fail> {
    let alloc = rt.alloc();
    let (board, mut control, mut seat) = small(alloc, 1)?;
    let root = enter(&board, &mut seat, None)?;
    assert!(rt; is_marked_once(alloc, &board, &mut control, &mut seat, root));
    Ok(())
}

/// Whether the task is marked with the cancellation now.
fn marks(board: &Board, control: &mut Control, number: u32, cancel: u32) -> bool
    requires fits { IsControlOf board.now control.old }
    requires cancel { IsCancel cancel }
    requires new { (t : TaskId) → NoneOf (control_view control.old) (board_size board.now) (task_key t) }
    ensures fits { IsControlOf board.now control.new }
    ensures new { (t : TaskId) → NoneOf (control_view control.new) (board_size board.now) (task_key t) }
{
    board.mark(control, number, cancel) == MarkAnswer::Marked
}

/// Whether a list of the ban hands over the tasks 1 and 2 alone.
fn lists_two(board: &Board, control: &mut Control) -> bool
    requires fits { IsControlOf board.now control.old }
    requires size { ((board_size board.now).slots ≡ 4) × ((board_size board.now).bans ≡ 1) }
    requires stands { ((ban (control_view control.old) 0).parent ≢ 0) × ((ban (control_view control.old) 0).next ≡ 0) }
    ensures fits { IsControlOf board.now control.new }
{
    let mut found = [0u32; 4];
    board.list(control, 0, &mut found) == 2 && found[0] == 1 && found[1] == 2
}

/// Whether of the children 1, 2 and 4 and the root 3 a list hands over 1, which it marks, and 2, which was marked before:
/// 3 and 4 were marked too, but 3 is no child, and 4 has ended.
fn hands_over_marked(
    alloc: Global,
    board: &Board,
    control: &mut Control,
    seat: &mut Seat,
    fourth: Ticket,
) -> bool
    requires control { IsControlOf board.now control.old }
    requires seat { IsSeatOf board.now seat.old }
    requires held { HasTicket (seat_view seat.old) fourth }
    requires size { ((board_size board.now).slots ≡ 4) × ((board_size board.now).bans ≡ 1) }
    requires new { (t : TaskId) → NoneOf (control_view control.old) (board_size board.now) (task_key t) }
    ensures control { IsControlOf board.now control.new }
    ensures seat { IsSeatOf board.now seat.new }
{
    let second_is_marked = marks(board, control, 2, 7);
    let third_is_marked = marks(board, control, 3, 7);
    let fourth_is_marked = marks(board, control, 4, 7);
    let id = fourth.id();
    let ended = board.end(seat, fourth, ChildTrack::new(alloc, id));
    if !bans_one(board, control) {
        return false;
    }
    let is_listed = lists_two(board, control);
    let is_new = board.mark(control, 1, 5) == MarkAnswer::Already(4);
    let is_kept = board.mark(control, 2, 5) == MarkAnswer::Already(7);
    let was_marked = second_is_marked && third_is_marked && fourth_is_marked;
    was_marked && ended.mark == Some(7) && is_listed && is_new && is_kept
}

#[test]
fn a_child_that_was_marked_before_is_listed(rt: HostRuntime) -> Result<(), Fail> {
    let alloc = rt.alloc();
    let (board, mut control, mut seat) = small(alloc, 4)?;
    let mut asks = ChildTrack::new(alloc, PARENT);
    let first = asks.ask(1)?;
    enter(&board, &mut seat, Some(first))?.give_up();
    let second = asks.ask(1)?;
    enter(&board, &mut seat, Some(second))?.give_up();
    enter(&board, &mut seat, None)?.give_up();
    let fourth = asks.ask(1)?;
    let fourth = enter(&board, &mut seat, Some(fourth))?;
    assert!(rt; hands_over_marked(alloc, &board, &mut control, &mut seat, fourth));
    Ok(())
}

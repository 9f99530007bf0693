//! One play on a board of node 1 with one slot and one place, through the traits.
ghost use Rattle.std.specs.Prelude.{◌≡◌, None, Some, true, IfOk, IfSome, OnOk};
ghost use Rattle.task_ids.specs.declared.task_id.TaskId.{TaskId};
ghost use Rattle.task_table.specs.TicketParts.{TicketParts};
ghost use Rattle.race_board.specs.Keys.{task_key};
ghost use Rattle.node_boards.specs.Seats.{HasTicket, HasBanAt, HasBanOf, HasNoBan, IsFresh};

use child_track::ChildTrack;
use node_boards::{ControlBoard, DataBoard};
use std::alloc::Global;
use task_ids::{AnyCancel, TaskId};
use task_table::{Check, Full, MarkAnswer, Ticket, Track};

/// The task whose children are banned.
const PARENT: TaskId = TaskId { node: 2, number: 1 };

/// Another task of that node.
const OTHER: TaskId = TaskId { node: 2, number: 2 };

/// Registers a child of the parent under a number, and gives its ticket where there is a slot.
fn claim_child<D: DataBoard<AnyCancel>>(alloc: Global, seat: &mut D, number: u32) -> Option<Ticket>
    requires drawn { D.drawn seat.old ≡ Some number }
    ensures held { IfSome result (HasTicket (D.has seat.new)) }
    ensures used { IfSome result (λ _. D.drawn seat.new ≡ None) }
{
    let mut asks = ChildTrack::new(alloc, PARENT);
    let Ok(token) = asks.ask(1) else {
        return None;
    };
    let parent = token.parent();
    match seat.claim(number, Some(parent), Some(token)) {
        Ok(ticket) => Some(ticket),
        Err(Full(token)) => {
            if let Some(token) = token {
                let _receipt = token.reject();
            }
            None
        }
    }
}

/// The number of a root for which the one slot is not free.
fn draw_for_none<D: DataBoard<AnyCancel>>(seat: &mut D) -> Option<u32>
    requires free { D.drawn seat.old ≡ None }
    ensures drawn { IfSome result (λ n. D.drawn seat.new ≡ Some n) }
    ensures held { IfSome result (λ _. (t : TicketParts) → HasTicket (D.has seat.old) t → HasTicket (D.has seat.new) t) }
{
    let number = seat.draw()?;
    match seat.claim(number, None, None) {
        Ok(ticket) => {
            ticket.give_up();
            None
        }
        Err(Full(token)) => {
            if let Some(token) = token {
                let _receipt = token.reject();
            }
            Some(number)
        }
    }
}

/// Whether the task passes its check and is cleared to ask on node 3.
fn is_cleared<D: DataBoard<AnyCancel>>(seat: &mut D, ticket: &Ticket) -> bool
    requires held { HasTicket (D.has seat.old) ticket.now }
    ensures held { HasTicket (D.has seat.new) ticket.now }
    ensures clear { result ≡ true → D.clear seat.new ticket.now.id.number }
    ensures drawn { D.drawn seat.new ≡ D.drawn seat.old }
{
    match seat.check(ticket) {
        Check::Clear => seat.track(ticket, 3) == Track::Cleared,
        Check::Banned(_) => false,
    }
}

/// Whether the task 1 is marked once, with node 3 in its mask, and no task has the number 9.
fn is_marked_once<C: ControlBoard<AnyCancel>>(control: &mut C) -> bool
    requires new { HasNoBan (C.bans control.old) }
    requires room { C.slots control.old ≡ 1 }
    ensures new { HasNoBan (C.bans control.new) }
    ensures room { C.slots control.new ≡ 1 }
{
    let is_asking = match control.mark(1, 5) {
        MarkAnswer::Marked => control.mask(1).has(3),
        MarkAnswer::Already(_) | MarkAnswer::NotFound => false,
    };
    let is_known = control.mark(1, 6) == MarkAnswer::Already(5);
    let is_missed = control.mark(9, 5) == MarkAnswer::NotFound;
    is_asking && is_known && is_missed
}

/// Whether the task sees its mark, is cleared to ask no more, and ends with the mark.
fn ends_marked<D: DataBoard<AnyCancel>>(
    alloc: Global,
    seat: &mut D,
    ticket: Ticket,
    cancel: u32,
) -> bool
    requires held { HasTicket (D.has seat.old) ticket }
    requires clear { D.clear seat.old ticket.id.number }
    ensures drawn { D.drawn seat.new ≡ D.drawn seat.old }
{
    let is_seen = seat.look(&ticket) == Some(cancel);
    let is_told = seat.track(&ticket, 4) == Track::Cancelled(cancel);
    seat.untrack(&ticket, 4);
    let id = ticket.id();
    let ended = seat.end(ticket, ChildTrack::new(alloc, id));
    is_seen && is_told && ended.mark == Some(cancel)
}

/// Whether the parent's ban gets the one place, and another parent's none, until the ban is taken away again.
fn has_room_for_one<C: ControlBoard<AnyCancel>>(
    control: &mut C,
    parent: TaskId,
    other: TaskId,
) -> bool
    requires new { HasNoBan (C.bans control.old) }
    ensures unbanned { ¬ HasBanOf (C.bans control.new) (task_key parent) }
    ensures room { C.slots control.new ≡ C.slots control.old }
{
    let is_first = control.ban(parent, 4) == Ok(0);
    let is_alone = !control.unban(other) && control.ban(other, 5).is_err();
    let is_gone = control.unban(parent) && !control.unban(parent);
    is_first && is_alone && is_gone
}

/// Whether the parent's ban gets the first place.
fn bans_one<C: ControlBoard<AnyCancel>>(control: &mut C, parent: TaskId) -> bool
    requires new { ¬ HasBanOf (C.bans control.old) (task_key parent) }
    ensures stands { result ≡ true → HasBanAt (C.bans control.new) 0 × C.unlisted control.new 0 }
    ensures room { C.slots control.new ≡ C.slots control.old }
{
    matches!(control.ban(parent, 4), Ok(0))
}

/// Whether a list hands over the late child alone, and its ban is taken away once.
fn lists_one<C: ControlBoard<AnyCancel>>(control: &mut C, number: u32) -> bool
    requires stands { HasBanAt (C.bans control.old) 0 × C.unlisted control.old 0 }
    requires room { C.slots control.old ≡ 1 }
{
    let mut found = [0u32; 1];
    let is_listed = control.list(0, &mut found) == 1 && found[0] == number;
    is_listed && control.unban(PARENT) && !control.unban(PARENT)
}

/// Whether the child is told of its parent's ban, is listed all the same, and ends with the mark of the list.
fn is_stopped<D: DataBoard<AnyCancel>, C: ControlBoard<AnyCancel>>(
    alloc: Global,
    seat: &mut D,
    control: &mut C,
    ticket: Ticket,
) -> bool
    requires held { HasTicket (D.has seat.old) ticket }
    requires stands { HasBanAt (C.bans control.old) 0 × C.unlisted control.old 0 }
    requires room { C.slots control.old ≡ 1 }
{
    let id = ticket.id();
    let is_told = seat.check(&ticket) == Check::Banned(4);
    let is_listed = lists_one(control, id.number);
    let is_seen = seat.look(&ticket) == Some(4);
    let ended = seat.end(ticket, ChildTrack::new(alloc, id));
    is_told && is_listed && is_seen && ended.mark == Some(4)
}

/// Whether the first child fills the board, is marked and ends. Gives the number that was drawn meanwhile.
fn plays_a_mark<D: DataBoard<AnyCancel>, C: ControlBoard<AnyCancel>>(
    alloc: Global,
    seat: &mut D,
    control: &mut C,
) -> Option<u32>
    requires seat { D.drawn seat.old ≡ None }
    requires control { HasNoBan (C.bans control.old) × (C.slots control.old ≡ 1) }
    ensures drawn { IfSome result (λ n. D.drawn seat.new ≡ Some n) }
    ensures control { IfSome result (λ _. HasNoBan (C.bans control.new) × (C.slots control.new ≡ 1)) }
{
    let first = seat.draw()?;
    let ticket = claim_child(alloc, seat, first)?;
    let Some(second) = draw_for_none(seat) else {
        ticket.give_up();
        return None;
    };
    if ticket.id() != (TaskId { node: 1, number: 1 }) || !is_cleared(seat, &ticket) {
        ticket.give_up();
        return None;
    }
    let is_marked = is_marked_once(control);
    if ends_marked(alloc, seat, ticket, 5) && is_marked {
        Some(second)
    } else {
        None
    }
}

/// Whether the whole play comes out: a child that is marked, and a late one that its parent's ban meets.
pub(crate) fn plays<D: DataBoard<AnyCancel>, C: ControlBoard<AnyCancel>>(
    alloc: Global,
    seat: &mut D,
    control: &mut C,
) -> bool
    requires seat { IsFresh (D.has seat.old) (D.drawn seat.old) }
    requires control { HasNoBan (C.bans control.old) × (C.slots control.old ≡ 1) }
{
    let Some(second) = plays_a_mark(alloc, seat, control) else {
        return false;
    };
    let parent = PARENT;
    if second != 2 || !has_room_for_one(control, parent, OTHER) || !bans_one(control, parent) {
        return false;
    }
    match claim_child(alloc, seat, second) {
        Some(late) => is_stopped(alloc, seat, control, late),
        None => false,
    }
}

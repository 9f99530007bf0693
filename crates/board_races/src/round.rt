//! One round, on whichever board.
ghost use Rattle.std.specs.Prelude.{◌≡◌, ◌+◌, ◌<◌, ◌^◌, length, None, true};
ghost use Rattle.node_boards.specs.Seats.{HasTicket, HasNoBan};
ghost use Rattle.board_races.specs.Held.{IsHeld};

use crate::control::{CANCEL, Cancelled, cancel};
use crate::data::{
    CHILD_ASKS, Carried, Child, Entry, HERE, ROOT_ASKS, ask_more, enter, forget_ask, plant,
};
use crate::fates::{Fate, Outcome};
use crate::start::Pace;
use child_track::{ChildTrack, NodeSet};
use node_boards::{ControlBoard, DataBoard};
use std::alloc::{AllocError, Global};
use std::thread;
use std::thread::Threads;
use task_ids::AnyCancel;
use task_table::{Check, Ticket, Track};

/// The seats of a board: two for the children, one for the root, and the control seat.
#[derive(Drop)]
pub struct Seats<D, C> {
    pub first: D,
    pub second: D,
    pub root: D,
    pub control: C,
}

/// What the seats did.
struct Raced<D, C> {
    first: (D, Entry),
    second: (D, Entry),
    root: (D, Track),
    control: (C, Cancelled),
}

/// Two asks of the root on this node. There are none where memory runs out.
fn ask_twice(asks: &mut ChildTrack) -> Option<(Carried, Carried)>
    requires room { length asks.old.asks + 2 < 2 ^ 32 }
    ensures task { asks.new.task ≡ asks.old.task }
{
    let Ok(one) = asks.ask(HERE) else {
        return None;
    };
    let Ok(other) = asks.ask(HERE) else {
        let _receipt = one.reject();
        return None;
    };
    Some((Carried::new(one), Carried::new(other)))
}

/// Two data seats enter the children of the tokens, each in a thread of its own.
fn enter_both<R: Threads + Sync, D: DataBoard<AnyCancel> + Send + Drop>(
    rt: &R,
    seats: (D, D),
    tokens: (Carried, Carried),
    pace: &Pace,
) -> ((D, Entry), (D, Entry))
    requires first { D.drawn seats.0 ≡ None }
    requires second { D.drawn seats.1 ≡ None }
    ensures first { IsHeld (D.has result.0.0) result.0.1 }
    ensures second { IsHeld (D.has result.1.0) result.1.1 }
{
    let (first, second) = seats;
    let (one, other) = tokens;
    thread::join(
        rt,
        move || enter(first, one, pace),
        move || enter(second, other, pace),
    )
}

/// The root asks once more, and the control seat cancels it, each in a thread of its own.
fn ask_and_cancel<
    R: Threads + Sync,
    D: DataBoard<AnyCancel> + Send + Drop,
    C: ControlBoard<AnyCancel> + Send + Drop,
>(rt: &R, seat: D, ticket: &Ticket, control: C, pace: &Pace) -> ((D, Track), (C, Cancelled))
    requires seat { HasTicket (D.has seat) ticket.now × D.clear seat ticket.now.id.number }
    requires control { (C.slots control ≡ 4) × HasNoBan (C.bans control) }
    ensures seat { HasTicket (D.has result.0.0) ticket.now × (D.drawn result.0.0 ≡ D.drawn seat) }
{
    let root = ticket.id();
    thread::join(
        rt,
        move || ask_more(seat, ticket, pace),
        move || cancel(control, root, pace),
    )
}

/// How a task ended that was told Clear.
fn fate_of(track: Track, mark: Option<u32>, mask: Option<NodeSet>, node: u32) -> Fate {
    if mark != Some(CANCEL) {
        return Fate::Wrong;
    }
    match track {
        Track::Cancelled(_) => Fate::MarkedFirst,
        Track::Cleared => match mask {
            Some(nodes) if nodes.has(node) => Fate::AskedFirst,
            _ => Fate::Wrong,
        },
    }
}

/// How a child ended.
fn child_fate(check: Check, ask: Option<Track>, mark: Option<u32>, mask: Option<NodeSet>) -> Fate {
    match (check, ask) {
        (Check::Banned(CANCEL), None) => Fate::Banned,
        (Check::Clear, Some(track)) => fate_of(track, mark, mask, CHILD_ASKS),
        _ => Fate::Wrong,
    }
}

/// Ends an entry's child, and answers its ask.
fn end_child<D: DataBoard<AnyCancel>>(
    alloc: Global,
    seat: &mut D,
    entry: Entry,
    cancelled: &Cancelled,
    asks: &mut ChildTrack,
) -> Fate
    requires held { IsHeld (D.has seat.old) entry }
    ensures task { asks.new.task ≡ asks.old.task }
{
    let Child { ticket, check, ask } = match entry {
        Entry::Live(child) => child,
        Entry::Rejected(_) => return Fate::Wrong,
    };
    forget_ask(seat, &ticket, ask);
    let id = ticket.id();
    let ended = seat.end(ticket, ChildTrack::new(alloc, id));
    if asks.answer(ended.receipt).is_err() {
        return Fate::Wrong;
    }
    child_fate(check, ask, ended.mark, cancelled.mask_of(id.number))
}

/// Ends the root, whose asks were answered.
fn end_root<D: DataBoard<AnyCancel>>(
    seat: &mut D,
    ticket: Ticket,
    track: Track,
    cancelled: &Cancelled,
    asks: ChildTrack,
) -> Fate
    requires held { HasTicket (D.has seat.old) ticket }
    requires task { asks.task ≡ ticket.id }
    ensures drawn { D.drawn seat.new ≡ D.drawn seat.old }
{
    if asks.unanswered() != 0 {
        ticket.give_up();
        return Fate::Wrong;
    }
    let ended = seat.end(ticket, asks);
    match cancelled.root {
        Some(nodes) if nodes.has(HERE) => fate_of(track, ended.mark, Some(nodes), ROOT_ASKS),
        _ => Fate::Wrong,
    }
}

/// Whether one task more finds a slot. It is given up, and so stays on the board.
fn takes_a_slot<D: DataBoard<AnyCancel>>(seat: &mut D) -> bool
    requires free { D.drawn seat.old ≡ None }
    ensures free { result ≡ true → D.drawn seat.new ≡ None }
{
    match plant(seat) {
        Some(ticket) => {
            ticket.give_up();
            true
        }
        None => false,
    }
}

/// Whether each of the four slots is free.
fn has_free_slots<D: DataBoard<AnyCancel>>(seat: &mut D) -> bool
    requires free { D.drawn seat.old ≡ None }
{
    takes_a_slot(seat) && takes_a_slot(seat) && takes_a_slot(seat) && takes_a_slot(seat)
}

/// The end of a round: all tasks end, the ban goes, and each slot is free again.
fn finish<D: DataBoard<AnyCancel> + Drop, C: ControlBoard<AnyCancel> + Drop>(
    alloc: Global,
    raced: Raced<D, C>,
    ticket: Ticket,
    mut asks: ChildTrack,
) -> Outcome
    requires first { IsHeld (D.has raced.first.0) raced.first.1 }
    requires second { IsHeld (D.has raced.second.0) raced.second.1 }
    requires root { HasTicket (D.has raced.root.0) ticket × (D.drawn raced.root.0 ≡ None) }
    requires task { asks.task ≡ ticket.id }
{
    let Raced {
        first: (mut one, entry),
        second: (mut other, other_entry),
        root: (mut seat, track),
        control: (mut control, cancelled),
    } = raced;
    let id = ticket.id();
    let first = end_child(alloc, &mut one, entry, &cancelled, &mut asks);
    let second = end_child(alloc, &mut other, other_entry, &cancelled, &mut asks);
    let root = end_root(&mut seat, ticket, track, &cancelled, asks);
    let is_unbanned = control.unban(id);
    let is_empty = has_free_slots(&mut seat);
    Outcome {
        first,
        second,
        root,
        is_empty: is_unbanned && is_empty,
    }
}

/// All four seats at once.
fn all_at_once<
    R: Threads + Sync,
    D: DataBoard<AnyCancel> + Send + Drop,
    C: ControlBoard<AnyCancel> + Send + Drop,
>(
    rt: &R,
    seats: Seats<D, C>,
    tokens: (Carried, Carried),
    ticket: &Ticket,
    pace: &Pace,
) -> Raced<D, C>
    requires first { D.drawn seats.first ≡ None }
    requires second { D.drawn seats.second ≡ None }
    requires root { HasTicket (D.has seats.root) ticket.now × D.clear seats.root ticket.now.id.number × (D.drawn seats.root ≡ None) }
    requires control { (C.slots seats.control ≡ 4) × HasNoBan (C.bans seats.control) }
    ensures first { IsHeld (D.has result.first.0) result.first.1 }
    ensures second { IsHeld (D.has result.second.0) result.second.1 }
    ensures root { HasTicket (D.has result.root.0) ticket.now × (D.drawn result.root.0 ≡ None) }
{
    let Seats {
        first,
        second,
        root,
        control,
    } = seats;
    let ((first, second), (root, control)) = thread::join(
        rt,
        move ||
            requires first { D.drawn first ≡ None }
            requires second { D.drawn second ≡ None }
        { enter_both(rt, (first, second), tokens, pace) },
        move ||
            requires root { HasTicket (D.has root) ticket.now × D.clear root ticket.now.id.number × (D.drawn root ≡ None) }
            requires control { (C.slots control ≡ 4) × HasNoBan (C.bans control) }
        { ask_and_cancel(rt, root, ticket, control, pace) },
    );
    Raced {
        first,
        second,
        root,
        control,
    }
}

/// The round of that number on the new seats of a board.
pub fn play<
    R: Threads + Sync,
    D: DataBoard<AnyCancel> + Send + Drop,
    C: ControlBoard<AnyCancel> + Send + Drop,
>(rt: &R, alloc: Global, mut seats: Seats<D, C>, round: u32) -> Result<Outcome, AllocError>
    requires first { D.drawn seats.first ≡ None }
    requires second { D.drawn seats.second ≡ None }
    requires root { D.drawn seats.root ≡ None }
    requires control { (C.slots seats.control ≡ 4) × HasNoBan (C.bans seats.control) }
{
    let Some(ticket) = plant(&mut seats.root) else {
        return Ok(Outcome::WRONG);
    };
    let mut asks = ChildTrack::new(alloc, ticket.id());
    let Some(tokens) = ask_twice(&mut asks) else {
        ticket.give_up();
        return Err(AllocError);
    };
    let pace = Pace::of(round);
    let raced = all_at_once(rt, seats, tokens, &ticket, &pace);
    Ok(finish(alloc, raced, ticket, asks))
}

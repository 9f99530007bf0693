//! What data seats do in a round, on whichever board.
ghost use Rattle.std.specs.Prelude.{◌≡◌, None, IfSome};
ghost use Rattle.node_boards.specs.Seats.{HasTicket};
ghost use Rattle.board_races.specs.Held.{IsHeld};

use crate::start::Pace;
use child_track::{AskToken, Receipt};
use node_boards::DataBoard;
use task_ids::AnyCancel;
use task_table::{Check, Full, Ticket, Track};

/// The node that each child asks.
pub const CHILD_ASKS: u32 = 2;

/// The node that the root asks while it is marked.
pub const ROOT_ASKS: u32 = 3;

/// The node of the board.
pub const HERE: u32 = 1;

/// A token on its way to a thread. Where it is let go, the token is spent, and its ask stays unanswered.
pub struct Carried {
    token: AskToken,
}

impl Drop for Carried {
    fn drop(self) {
        let Carried { token } = self;
        let _receipt = token.reject();
    }
}

impl Carried {
    /// The token, which goes to a thread.
    pub fn new(token: AskToken) -> Carried {
        Carried { token }
    }

    fn into_token(self) -> AskToken {
        let Carried { token } = self;
        token
    }
}

/// A live child, with what it was told of its parent's ban, and of its ask where it might ask.
pub struct Child {
    pub ticket: Ticket,
    pub check: Check,
    pub ask: Option<Track>,
}

/// What became of a token: a child, or the receipt of a request for which no number or slot was left.
pub enum Entry {
    Live(Child),
    Rejected(Option<Receipt>),
}

/// Spends the token of a request that is rejected.
fn spent(token: Option<AskToken>) -> Option<Receipt> {
    match token {
        Some(token) => Some(token.reject()),
        None => None,
    }
}

/// Notes an ask of the child, where it was told Clear.
fn ask_where_clear<D: DataBoard<AnyCancel>>(
    seat: &mut D,
    ticket: &Ticket,
    check: Check,
) -> Option<Track>
    requires held { HasTicket (D.has seat.old) ticket.now }
    requires clear { check ≡ Check.Clear → D.clear seat.old ticket.now.id.number }
    ensures held { HasTicket (D.has seat.new) ticket.now }
{
    match check {
        Check::Clear => Some(seat.track(ticket, CHILD_ASKS)),
        Check::Banned(_) => None,
    }
}

/// Takes the node out of the child's mask again, where it was cleared to ask there.
pub fn forget_ask<D: DataBoard<AnyCancel>>(seat: &mut D, ticket: &Ticket, ask: Option<Track>)
    requires held { HasTicket (D.has seat.old) ticket.now }
    ensures held { HasTicket (D.has seat.new) ticket.now }
{
    if ask == Some(Track::Cleared) {
        seat.untrack(ticket, CHILD_ASKS);
    }
}

/// The first turn of a child: its check, its ask, and a look at its mark.
fn work<D: DataBoard<AnyCancel>>(seat: &mut D, ticket: Ticket, pace: &Pace) -> Child
    requires held { HasTicket (D.has seat.old) ticket }
    ensures held { HasTicket (D.has seat.new) result.ticket }
{
    let check = seat.check(&ticket);
    pace.hold_child();
    let ask = ask_where_clear(seat, &ticket, check);
    let _mark = seat.look(&ticket);
    Child { ticket, check, ask }
}

/// Registers the token's child, once all threads are here, and does its first turn.
pub fn enter<D: DataBoard<AnyCancel> + Drop>(mut seat: D, token: Carried, pace: &Pace) -> (D, Entry)
    requires free { D.drawn seat ≡ None }
    ensures held { IsHeld (D.has result.0) result.1 }
{
    pace.begin();
    let token = token.into_token();
    let Some(number) = seat.draw() else {
        return (seat, Entry::Rejected(spent(Some(token))));
    };
    let parent = token.parent();
    match seat.claim(number, Some(parent), Some(token)) {
        Ok(ticket) => {
            let child = work(&mut seat, ticket, pace);
            (seat, Entry::Live(child))
        }
        Err(Full(token)) => (seat, Entry::Rejected(spent(token))),
    }
}

/// Registers the root, which asks on the board's own node first. There is none where no number or slot was left.
pub fn plant<D: DataBoard<AnyCancel>>(seat: &mut D) -> Option<Ticket>
    requires free { D.drawn seat.old ≡ None }
    ensures held { IfSome result (HasTicket (D.has seat.new)) }
    ensures clear { IfSome result (λ t. D.clear seat.new t.id.number) }
    ensures free { IfSome result (λ _. D.drawn seat.new ≡ None) }
{
    let number = seat.draw()?;
    let ticket = match seat.claim(number, None, None) {
        Ok(ticket) => ticket,
        Err(Full(token)) => {
            let _receipt = spent(token);
            return None;
        }
    };
    if seat.check(&ticket) != Check::Clear {
        ticket.give_up();
        return None;
    }
    let _track = seat.track(&ticket, HERE);
    Some(ticket)
}

/// The root asks on one node more, once all threads are here.
pub fn ask_more<D: DataBoard<AnyCancel> + Drop>(
    mut seat: D,
    ticket: &Ticket,
    pace: &Pace,
) -> (D, Track)
    requires held { HasTicket (D.has seat) ticket.now }
    requires clear { D.clear seat ticket.now.id.number }
    ensures held { HasTicket (D.has result.0) ticket.now × (D.drawn result.0 ≡ D.drawn seat) }
{
    pace.begin();
    let track = seat.track(ticket, ROOT_ASKS);
    (seat, track)
}

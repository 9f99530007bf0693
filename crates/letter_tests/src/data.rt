//! What a data worker does with letters.
ghost use Rattle.std.specs.Prelude.{◌≡◌, false};
ghost use Rattle.node_link.specs.Lawful.{IsPlace, IsWorker, is_page};
ghost use Rattle.race_board.specs.Calls.{HasTicket};
ghost use Rattle.race_board.specs.Seats.{seat_view, IsSeatOf};

use crate::run::{RunOf, Script};
use node_link::{Body, Letter, Place, RootAnswered};
use race_board::{DataSeat, RaceBoard};
use std::alloc::Global;
use task_events::{AnsweredRequest, Reply};
use task_ids::Items;
use task_table::{Check, Ticket};

/// What a data worker without a task tells its control worker of a cancellation by a filter. There is none where the letter is none.
pub fn matches_of<W: Script>(
    alloc: Global,
    worker: u32,
    letter: &Letter<RunOf<W>>,
) -> Option<Letter<RunOf<W>>>
    requires { IsWorker worker }
{
    match letter.body() {
        Body::CancelMatching { cancel, wait, .. } => Some(Letter::new(Body::Matches {
            worker,
            cancel: *cancel,
            rows: Items::new(alloc),
            wait: *wait,
        })),
        _ => None,
    }
}

/// The answer of a root that its check refuses, which tells the number of the ban. There is none where no ban was met.
pub fn refusal<W: Script>(
    board: &RaceBoard<RunOf<W>>,
    seat: &mut DataSeat<RunOf<W>>,
    ticket: &Ticket,
    place: Place,
    request: AnsweredRequest,
) -> Option<Letter<RunOf<W>>>
    requires fits { IsSeatOf board.now seat.old }
    requires ticket { HasTicket (seat_view seat.old) ticket.now }
    requires place { IsPlace place }
    requires request { is_page request ≡ false }
    ensures fits { IsSeatOf board.now seat.new }
{
    match board.check(seat, ticket) {
        Check::Clear => None,
        Check::Banned(cancel) => Some(Letter::new(Body::RootAnswer(RootAnswered {
            place,
            request,
            reply: Reply::cancelled(ticket.id(), cancel),
            page: None,
        }))),
    }
}

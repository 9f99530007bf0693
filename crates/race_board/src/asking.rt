//! The calls of a live task on the nodes that it asks. Each takes `&self` and no memory, and none waits.
ghost use Rattle.std.specs.Prelude.{◌≡◌, ◌≢◌, ℕ, ◌+◌, ◌-◌, ◌^◌, ◌<◌, ◌≤◌, []};
ghost use Rattle.task_ids.specs.Limits.{IsNode};
ghost use Rattle.race_board.specs.Seats.{seat_view, board_size, IsSeatOf};
ghost use Rattle.race_board.specs.Kinds.{tracks, untracks};
ghost use Rattle.race_board.specs.Walks.{Walks};
ghost use Rattle.race_board.specs.Calls.{Longer, HasTicket};
ghost use Rattle.race_board.specs.Checks.{IsClear, Tracks, CancelledBy, Untracks, all_but, track_events};

use crate::board::RaceBoard;
use crate::seats::DataSeat;
use crate::words::mark_in;
use task_ids::BoardName;
use task_table::{Ticket, Track};

// The bit of a node in a mask.
fn node_bit(node: u32) -> u64
    requires { IsNode node }
    ensures bit { result ≡ 2 ^ node }
    ensures small { result ≤ 32768 }
{
    1 << node
}

impl<N: BoardName> RaceBoard<N> {
    /// Notes in the task's mask that it will ask on the node, and looks after that whether it is marked.
    pub fn track(&self, seat: &mut DataSeat<N>, ticket: &Ticket, to: u32) -> Track
        requires fits { IsSeatOf self.now seat.old }
        requires ticket { HasTicket (seat_view seat.old) ticket.now }
        requires clear { IsClear (seat_view seat.old) ticket.now.id.number }
        requires node { IsNode to }
        ensures fits { IsSeatOf self.now seat.new }
        ensures steps { Longer (seat_view seat.old) (seat_view seat.new) }
        ensures held { HasTicket (seat_view seat.new) ticket.now }
        ensures clear { IsClear (seat_view seat.new) ticket.now.id.number }
        ensures moments { Walks (tracks (2 ^ to)) (seat_view seat.old) (seat_view seat.new) (track_events ticket.now.id.number result) }
        ensures tracks { Tracks (seat_view seat.old) (seat_view seat.new) ticket.now.id.number (2 ^ to) result }
        ensures allowed { CancelledBy N.allowed result }
    {
        let slot = seat.slot_of(ticket.id().number);
        self.words.set_bits(&mut seat.place, slot, node_bit(to));
        match mark_in(self.words.track_look(&mut seat.place, slot)) {
            Some(mark) => Track::Cancelled(mark),
            None => Track::Cleared,
        }
    }

    /// Takes the node out of the task's mask. The caller sees to it that no unanswered ask of the task goes there.
    pub fn untrack(&self, seat: &mut DataSeat<N>, ticket: &Ticket, to: u32)
        requires fits { IsSeatOf self.now seat.old }
        requires ticket { HasTicket (seat_view seat.old) ticket.now }
        requires node { IsNode to }
        ensures fits { IsSeatOf self.now seat.new }
        ensures held { HasTicket (seat_view seat.new) ticket.now }
        ensures moments { Walks (untracks (all_but to)) (seat_view seat.old) (seat_view seat.new) [] }
        ensures untracks { Untracks (seat_view seat.old) (seat_view seat.new) (board_size self.now) ticket.now.id.number to }
    {
        let slot = seat.slot_of(ticket.id().number);
        let kept = u64::MAX - node_bit(to);
        self.words.keep_bits(&mut seat.place, slot, kept);
    }
}

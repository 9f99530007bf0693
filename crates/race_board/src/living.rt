//! The calls of a live task: its check, its looks and its end. Each takes `&self` and no memory, and none waits.
ghost use Rattle.std.specs.Prelude.{◌≡◌, ◌≢◌, ℕ, ◌+◌, ◌-◌, ◌<◌, IfSome};
ghost use Rattle.child_track.specs.Track.{unanswered, sealed};
ghost use Rattle.race_board.specs.Seats.{seat_view, board_size, IsSeatOf};
ghost use Rattle.race_board.specs.Kinds.{checks, looks};
ghost use Rattle.race_board.specs.Walks.{Walks};
ghost use Rattle.race_board.specs.Calls.{Longer, HasTicket};
ghost use Rattle.race_board.specs.Checks.{Checks, MayAsk, BannedBy, Ends, EndsSo, Looks, check_events, look_events};

use crate::board::RaceBoard;
use crate::seats::DataSeat;
use crate::words::{banned_of, by_of, key_of, mark_in};
use child_track::ChildTrack;
use task_ids::BoardName;
use task_table::{Check, Ended, Ticket};

impl<N: BoardName> RaceBoard<N> {
    /// Looks for a ban of the task's parent, by one load of each ban word until one has it. A root is clear.
    pub fn check(&self, seat: &mut DataSeat<N>, ticket: &Ticket) -> Check
        requires fits { IsSeatOf self.now seat.old }
        requires ticket { HasTicket (seat_view seat.old) ticket.now }
        ensures fits { IsSeatOf self.now seat.new }
        ensures steps { Longer (seat_view seat.old) (seat_view seat.new) }
        ensures held { HasTicket (seat_view seat.new) ticket.now }
        ensures clear { MayAsk (seat_view seat.new) ticket.now.id.number result }
        ensures moments { Walks (checks ticket.now.id.number) (seat_view seat.old) (seat_view seat.new) (check_events ticket.now result) }
        ensures checked { Checks (seat_view seat.old) (seat_view seat.new) ticket.now (board_size self.now) result }
        ensures allowed { BannedBy N.allowed result }
    {
        let Some(parent) = ticket.parent() else {
            return Check::Clear;
        };
        let parent = key_of(parent);
        let slot = seat.slot_of(ticket.id().number);
        for place in 0..self.words.size.bans {
            let seen = self.words.check(&mut seat.place, slot, place);
            if banned_of(seen) == parent {
                return Check::Banned(by_of(seen) as u32);
            }
        }
        Check::Clear
    }

    /// The mark in the task's word, by one load.
    pub fn look(&self, seat: &mut DataSeat<N>, ticket: &Ticket) -> Option<u32>
        requires fits { IsSeatOf self.now seat.old }
        requires ticket { HasTicket (seat_view seat.old) ticket.now }
        ensures fits { IsSeatOf self.now seat.new }
        ensures held { HasTicket (seat_view seat.new) ticket.now }
        ensures moments { Walks looks (seat_view seat.old) (seat_view seat.new) (look_events ticket.now.id.number result) }
        ensures looks { Looks (seat_view seat.old) (seat_view seat.new) ticket.now.id.number result }
        ensures allowed { IfSome result N.allowed }
    {
        let slot = seat.slot_of(ticket.id().number);
        mark_in(self.words.look(&mut seat.place, slot))
    }

    /// Ends the task by one swap, which frees its slot and gives its mark. The ticket and the track, in which nothing is
    /// unanswered, are spent.
    pub fn end(&self, seat: &mut DataSeat<N>, ticket: Ticket, track: ChildTrack) -> Ended
        requires fits { IsSeatOf self.now seat.old }
        requires ticket { HasTicket (seat_view seat.old) ticket }
        requires track { track.task ≡ ticket.id }
        requires answered { unanswered track ≡ 0 }
        ensures fits { IsSeatOf self.now seat.new }
        ensures receipt { result.receipt ≡ sealed track ticket.token }
        ensures moments { EndsSo (seat_view seat.old) (seat_view seat.new) ticket.id.number }
        ensures ended { Ends (seat_view seat.old) (seat_view seat.new) ticket.id.number result.mark }
        ensures allowed { IfSome result.mark N.allowed }
    {
        let slot = seat.slot_of(ticket.id().number);
        let seen = self.words.end(&mut seat.place, slot);
        seat.words[slot] = 0;
        Ended {
            receipt: ticket.seal(track),
            mark: mark_in(seen),
        }
    }
}

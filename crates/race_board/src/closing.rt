//! The end of a board.
ghost use Rattle.std.specs.Prelude.{◌≡◌, ℕ, ◌<◌, ◌≤◌, [], length, All};
ghost use Rattle.race_board.specs.Board.{both, tickets_out};
ghost use Rattle.race_board.specs.Seats.{seat_view, control_view, board_size, IsSeatOf, IsControlOf};
ghost use Rattle.race_board.specs.Closing.{bans_out, all_tickets, greatest_drawn, Last};

use crate::board::RaceBoard;
use crate::board_words::BoardWords;
use crate::plays::Glue;
use crate::rule::Place;
use crate::seats::{ControlSeat, DataSeat};
use crate::words::{banned_of, number_of};
use task_ids::BoardName;

/// What was left on a board when it closed.
#[derive(Clone, Copy, PartialEq, Eq)]
pub struct Closed {
    live: u32,
    bans: u32,
    drawn: u32,
}

impl Closed {
    /// How many tickets were still out.
    pub fn live(&self) -> u32
        ensures { result ≡ self.now.live }
    {
        self.live
    }

    /// How many bans still stood.
    pub fn bans(&self) -> u32
        ensures { result ≡ self.now.bans }
    {
        self.bans
    }

    /// The greatest number that one of the seats drew, or 0.
    pub fn drawn(&self) -> u32
        ensures { result ≡ self.now.drawn }
    {
        self.drawn
    }
}

impl<N: BoardName> DataSeat<N> {
    // How many tickets it still has.
    fn count_tickets(&self) -> u32
        requires few { (seat_view self.now).size.slots ≤ 1024 }
        ensures count { result ≡ tickets_out (seat_view self.now) }
        ensures few { result ≤ 1024 }
    {
        let mut count = 0;
        for slot in 0..self.words.len() {
            if number_of(self.words[slot]) != 0 {
                count += 1;
            }
        }
        count
    }
}

impl<N: BoardName> ControlSeat<N> {
    // How many bans it still has.
    fn count_bans(&self) -> u32
        requires few { (control_view self.now).size.bans ≤ 1024 }
        ensures count { result ≡ bans_out (control_view self.now) }
    {
        let mut count = 0;
        for place in 0..self.bans.len() {
            if banned_of(self.bans[place]) != 0 {
                count += 1;
            }
        }
        count
    }
}

impl<N: BoardName> BoardWords<N> {
    // Frees the words, once the control seat has joined all others.
    fn free(self, place: Place)
        requires fits { place.table_id ≡ self.table.shared.table_id }
        requires control { (place.me.0.lead ≡ 1) × (length place.me.0.bans ≡ self.size.bans) }
        requires whole { (place.me.0.to_deal ≡ 0) × (place.me.0.joined ≡ self.size.seats) }
        ensures last { Last self.size place.me.0.taken (bans_out place.me.0) }
    {
        let BoardWords { table, size: _ } = self;
        table.close_with(place).free();
    }
}

impl<N: BoardName> RaceBoard<N> {
    // The control seat takes in the tickets of a data seat.
    fn take_in(&self, place: &mut Place, seat: DataSeat<N>)
        requires fits { (place.old.table_id ≡ self.now.words.table.shared.table_id) × (place.old.me.0.lead ≡ 1) }
        requires seat { IsSeatOf self.now seat }
        ensures fits { place.new.table_id ≡ place.old.table_id }
        ensures joined { place.new.me.0 ≡ both place.old.me.0 (seat_view seat) }
    {
        let DataSeat {
            place: other,
            words: _,
            most: _,
            told: _,
            name: _,
        } = seat;
        self.words.table.shared.join_seat::<Glue>(place, other);
    }

    /// Closes the board with all its seats, and tells what was left.
    pub fn close(self, control: ControlSeat<N>, seats: Vec<DataSeat<N>>) -> Closed
        requires control { IsControlOf self control }
        requires seats { All (IsSeatOf self) seats.items }
        requires whole { length seats.items ≡ (board_size self).seats }
        ensures live { result.live ≡ all_tickets seats.items }
        ensures bans { result.bans ≡ bans_out (control_view control) }
        ensures drawn { result.drawn ≡ greatest_drawn seats.items }
        ensures last { Last (board_size self) result.live result.bans }
    {
        let bans = control.count_bans();
        let ControlSeat {
            mut place,
            bans: _,
            marked: _,
            name: _,
        } = control;
        let mut live = 0;
        let mut drawn = 0;
        for seat in seats {
            live += seat.count_tickets();
            drawn = seat.most.max(drawn);
            self.take_in(&mut place, seat);
        }
        let RaceBoard { words, node: _ } = self;
        words.free(place);
        Closed { live, bans, drawn }
    }
}

//! What a control worker asks of a plain board.
ghost use Rattle.std.specs.Prelude.{◌≡◌, ℕ};
ghost use Rattle.node_boards.specs.PlainNew.{IsNewControl};
ghost use Rattle.node_boards.specs.PlainSeats.{KeepsBan};
ghost use Rattle.node_boards.specs.Seats.{HasNoBan};

use crate::control_board::ControlBoard;
use crate::plain_board::PlainBoard;
use crate::plain_control::PlainControlSeat;
use crate::plain_rows::free_place;
use child_track::NodeSet;
use std::sync::Wait;
use task_ids::{BoardName, TaskId};
use task_table::{MarkAnswer, NoRoom};

/// The control seat of a plain board with its board, and the handle by which it waits for the board's lock.
#[derive(Drop)]
pub struct PlainControl<'b, N: BoardName, R> {
    rt: &'b R,
    board: &'b PlainBoard<N>,
    seat: PlainControlSeat<N>,
}

impl<'b, N: BoardName, R> PlainControl<'b, N, R> {
    /// A new seat of this board, which has so many slots and places.
    pub fn new(
        rt: &'b R,
        board: &'b PlainBoard<N>,
        seat: PlainControlSeat<N>,
    ) -> PlainControl<'b, N, R>
        requires { (slots : ℕ) × (places : ℕ) × IsNewControl seat slots places }
        ensures is { (result.board.now ≡ board.now) × (result.seat ≡ seat) }
        ensures fresh { HasNoBan (KeepsBan result.seat.bans.items) }
    {
        PlainControl { rt, board, seat }
    }
}

impl<'b, N: BoardName, R: Wait> ControlBoard<N> for PlainControl<'b, N, R> {
    ghost use Rattle.std.specs.Prelude.{length};
    ghost use Rattle.node_boards.specs.PlainSeats.{KeepsBan, KeepsUnlisted, KeepsMark};

    ghost slots = { λ s. length s.seat.marked.items };

    ghost places = { λ s. length s.seat.bans.items };

    ghost bans = { λ s. KeepsBan s.seat.bans.items };

    ghost unlisted = { λ s. KeepsUnlisted s.seat.bans.items };

    ghost marked = { λ s. KeepsMark s.seat.marked.items };

    // Nothing is known of what lies under the lock from one call to the next.
    ghost rests = { λ s t call. Unit {0} };

    fn ban(&mut self, parent: TaskId, cancel: u32) -> Result<u32, NoRoom> {
        let Some(place) = free_place(&self.seat.bans) else {
            return Err(NoRoom);
        };
        self.board.table.lock(self.rt).put(place, parent, cancel);
        self.seat.place(place, parent, cancel);
        Ok(place as u32)
    }

    fn list(&mut self, place: u32, found: &mut [u32]) -> u32 {
        let place = place as usize;
        let mut table = self.board.table.lock(self.rt);
        let count = self.seat.list(&mut table, place, found);
        self.seat.note_listed(place);
        count as u32
    }

    fn mark(&mut self, number: u32, cancel: u32) -> MarkAnswer {
        let mut table = self.board.table.lock(self.rt);
        self.seat.mark(&mut table, number, cancel)
    }

    fn mask(&mut self, number: u32) -> NodeSet {
        NodeSet(self.board.table.lock(self.rt).asks(number))
    }

    fn unban(&mut self, parent: TaskId) -> bool {
        let Some(place) = self.seat.let_go(parent) else {
            return false;
        };
        self.board.table.lock(self.rt).lift(place);
        true
    }
}

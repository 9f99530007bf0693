//! What a data worker asks of a race board.
ghost use Rattle.std.specs.Prelude.{◌≡◌};
ghost use Rattle.race_board.specs.Seats.{IsSeatOf};

use crate::data_board::DataBoard;
use child_track::{AskToken, ChildTrack};
use race_board::{DataSeat, RaceBoard};
use task_ids::{BoardName, TaskId};
use task_table::{Check, Ended, Full, Ticket, Track};

/// A data seat of a race board with its board. No call waits.
#[derive(Drop)]
pub struct RaceData<'b, N: BoardName> {
    board: &'b RaceBoard<N>,
    seat: DataSeat<N>,
    ghost fits: { IsSeatOf board.now seat },
}

impl<'b, N: BoardName> RaceData<'b, N> {
    ghost use Rattle.std.specs.Prelude.{false};
    ghost use Rattle.race_board.specs.Seats.{seat_view, IsNew};
    ghost use Rattle.node_boards.specs.Seats.{IsFresh};
    ghost use Rattle.node_boards.specs.Race.{HoldsTicket, unused, was_told};

    /// A new seat of this board.
    pub fn new(board: &'b RaceBoard<N>, seat: DataSeat<N>) -> RaceData<'b, N>
        requires { IsNew board.now seat }
        ensures is { (result.board.now ≡ board.now) × (result.seat ≡ seat) }
        ensures fresh { IsFresh (HoldsTicket (seat_view result.seat)) (unused (seat_view result.seat)) }
        ensures told { was_told (seat_view result.seat) ≡ false }
    {
        RaceData { board, seat }
    }

    /// The seat, as its board's `close` takes it.
    pub fn into_seat(self) -> DataSeat<N>
        ensures seat { result ≡ self.entry.seat }
        ensures fits { IsSeatOf self.entry.board.now result }
    {
        self.seat
    }
}

impl<'b, N: BoardName> DataBoard<N> for RaceData<'b, N> {
    ghost use Rattle.race_board.specs.Seats.{seat_view, board_size};
    ghost use Rattle.race_board.specs.Checks.{IsClear};
    ghost use Rattle.node_boards.specs.Race.{HoldsTicket, DataRests, unused, was_told};

    ghost node = { λ s. s.board.now.node };

    ghost has = { λ s. HoldsTicket (seat_view s.seat) };

    ghost drawn = { λ s. unused (seat_view s.seat) };

    ghost told = { λ s. was_told (seat_view s.seat) };

    ghost clear = { λ s. IsClear (seat_view s.seat) };

    // The seat stays with its board, so that the board can be closed with it in the end.
    ghost rests = { λ s t call. (t.board.now ≡ s.board.now) × DataRests (board_size s.board.now) (seat_view s.seat) (seat_view t.seat) call };

    fn draw(&mut self) -> Option<u32> {
        self.board.draw(&mut self.seat)
    }

    fn claim(
        &mut self,
        number: u32,
        parent: Option<TaskId>,
        token: Option<AskToken>,
    ) -> Result<Ticket, Full> {
        self.board.claim(&mut self.seat, number, parent, token)
    }

    fn check(&mut self, ticket: &Ticket) -> Check {
        self.board.check(&mut self.seat, ticket)
    }

    fn track(&mut self, ticket: &Ticket, to: u32) -> Track {
        self.board.track(&mut self.seat, ticket, to)
    }

    fn untrack(&mut self, ticket: &Ticket, to: u32) {
        self.board.untrack(&mut self.seat, ticket, to);
    }

    fn look(&mut self, ticket: &Ticket) -> Option<u32> {
        self.board.look(&mut self.seat, ticket)
    }

    fn end(&mut self, ticket: Ticket, track: ChildTrack) -> Ended {
        self.board.end(&mut self.seat, ticket, track)
    }
}

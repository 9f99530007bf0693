//! What a control worker asks of a race board.
ghost use Rattle.std.specs.Prelude.{◌≡◌};
ghost use Rattle.race_board.specs.Seats.{IsControlOf, control_view};
ghost use Rattle.node_boards.specs.Race.{OneBanEach};

use crate::control_board::ControlBoard;
use child_track::NodeSet;
use race_board::{ControlSeat, RaceBoard};
use task_ids::{BoardName, TaskId};
use task_table::{MarkAnswer, NoRoom};

/// The control seat of a race board with its board. No call waits.
#[derive(Drop)]
pub struct RaceControl<'b, N: BoardName> {
    board: &'b RaceBoard<N>,
    seat: ControlSeat<N>,
    ghost fits: { IsControlOf board.now seat },
    ghost one_each: { OneBanEach (control_view seat) },
}

impl<'b, N: BoardName> RaceControl<'b, N> {
    ghost use Rattle.race_board.specs.Board.{newcomer};
    ghost use Rattle.race_board.specs.Seats.{board_size};
    ghost use Rattle.node_boards.specs.Seats.{HasNoBan};
    ghost use Rattle.node_boards.specs.Race.{HoldsBan};

    /// A new seat of this board.
    pub fn new(board: &'b RaceBoard<N>, seat: ControlSeat<N>) -> RaceControl<'b, N>
        requires fits { IsControlOf board.now seat }
        requires new { control_view seat ≡ newcomer (board_size board.now) 1 0 }
        ensures is { (result.board.now ≡ board.now) × (result.seat ≡ seat) }
        ensures fresh { HasNoBan (HoldsBan (control_view result.seat)) }
    {
        RaceControl { board, seat }
    }

    /// The seat, as its board's `close` takes it.
    pub fn into_seat(self) -> ControlSeat<N>
        ensures seat { result ≡ self.entry.seat }
        ensures fits { IsControlOf self.entry.board.now result }
    {
        self.seat
    }
}

impl<'b, N: BoardName> ControlBoard<N> for RaceControl<'b, N> {
    ghost use Rattle.race_board.specs.Seats.{control_view, board_size};
    ghost use Rattle.node_boards.specs.Race.{HoldsBan, IsUnlisted, HasMarked, ControlRests};

    ghost slots = { λ s. (board_size s.board.now).slots };

    ghost places = { λ s. (board_size s.board.now).bans };

    ghost bans = { λ s. HoldsBan (control_view s.seat) };

    ghost unlisted = { λ s. IsUnlisted (control_view s.seat) };

    ghost marked = { λ s. HasMarked (control_view s.seat) };

    // The seat stays with its board, so that the board can be closed with it in the end.
    ghost rests = { λ s t call. (t.board.now ≡ s.board.now) × ControlRests (board_size s.board.now) (control_view s.seat) (control_view t.seat) call };

    fn ban(&mut self, parent: TaskId, cancel: u32) -> Result<u32, NoRoom> {
        self.board.ban(&mut self.seat, parent, cancel)
    }

    fn list(&mut self, place: u32, found: &mut [u32]) -> u32 {
        self.board.list(&mut self.seat, place, found)
    }

    fn mark(&mut self, number: u32, cancel: u32) -> MarkAnswer {
        self.board.mark(&mut self.seat, number, cancel)
    }

    fn mask(&mut self, number: u32) -> NodeSet {
        self.board.mask(&mut self.seat, number)
    }

    fn unban(&mut self, parent: TaskId) -> bool {
        self.board.unban(&mut self.seat, parent)
    }
}

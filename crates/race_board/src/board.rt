//! A board, and a new one with its seats.
ghost use Rattle.std.specs.Prelude.{◌≡◌, ℕ, ◌+◌, ◌-◌, ◌<◌, ◌≤◌, [], length, slice_index, replicate, IfOk, All};
ghost use Rattle.task_ids.specs.Limits.{IsNode, IsSlotCount};
ghost use Rattle.race_board.specs.Board.{newcomer};

use crate::board_words::BoardWords;
use crate::seats::{ControlSeat, DataSeat};
use task_ids::BoardName;

/// One node's words, which its seats share: a counter, a word and a mask for each slot, and the ban words.
#[derive(Drop)]
pub struct RaceBoard<N: BoardName> {
    pub(crate) words: BoardWords<N>,
    pub(crate) node: u32,
    ghost noded: { IsNode node },
}

/// A new board with all its seats.
pub struct BoardParts<N: BoardName> {
    pub board: RaceBoard<N>,
    pub control: ControlSeat<N>,
    pub seats: Vec<DataSeat<N>>,
}

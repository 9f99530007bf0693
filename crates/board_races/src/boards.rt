//! A round on each of the two boards: the one of words, which threads share without a lock, and the plain one behind its lock.
ghost use Rattle.std.specs.Prelude.{◌≡◌, None, IfSome, All};
ghost use Rattle.node_boards.specs.PlainNew.{IsNewData};
ghost use Rattle.race_board.specs.Seats.{IsNew};

use crate::data::HERE;
use crate::fates::Outcome;
use crate::round::{Seats, play};
use node_boards::{
    PlainBoard, PlainControl, PlainData, PlainDataSeat, PlainParts, RaceControl, RaceData,
};
use race_board::{BoardParts, DataSeat, RaceBoard};
use std::alloc::{AllocError, Global};
use std::sync::Wait;
use std::thread::Threads;
use task_ids::AnyCancel;

/// The slots of a board.
const SLOTS: u32 = 4;

/// The bans that it has room for.
const BANS: u32 = 2;

/// Its data seats.
const SEATS: u32 = 3;

/// The three data seats of a new board of words.
fn three_of_words(
    mut seats: Vec<DataSeat<AnyCancel>>,
    board: &RaceBoard<AnyCancel>,
) -> Option<
    (
        DataSeat<AnyCancel>,
        DataSeat<AnyCancel>,
        DataSeat<AnyCancel>,
    ),
>
    requires new { All (IsNew board.now) seats.items }
    ensures new { IfSome result (λ t. IsNew board.now t.0 × IsNew board.now t.1 × IsNew board.now t.2) }
{
    let first = seats.pop()?;
    let second = seats.pop()?;
    let third = seats.pop()?;
    Some((first, second, third))
}

/// The round of that number on a new board of words.
pub fn race_on_words<R: Threads + Sync>(
    rt: &R,
    alloc: Global,
    round: u32,
) -> Result<Outcome, AllocError> {
    let BoardParts {
        board,
        control,
        seats,
    } = RaceBoard::<AnyCancel>::new(alloc, HERE, SLOTS, BANS, SEATS)?;
    let Some((first, second, root)) = three_of_words(seats, &board) else {
        return Ok(Outcome::WRONG);
    };
    let seats = Seats {
        first: RaceData::new(&board, first),
        second: RaceData::new(&board, second),
        root: RaceData::new(&board, root),
        control: RaceControl::new(&board, control),
    };
    play(rt, alloc, seats, round)
}

/// The three data seats of a new plain board.
fn three_plain(
    mut seats: Vec<PlainDataSeat<AnyCancel>>,
) -> Option<
    (
        PlainDataSeat<AnyCancel>,
        PlainDataSeat<AnyCancel>,
        PlainDataSeat<AnyCancel>,
    ),
>
    requires new { All IsNewData seats.items }
    ensures new { IfSome result (λ t. IsNewData t.0 × IsNewData t.1 × IsNewData t.2) }
{
    let first = seats.pop()?;
    let second = seats.pop()?;
    let third = seats.pop()?;
    Some((first, second, third))
}

/// The round of that number on a new plain board.
pub fn race_on_a_lock<R: Threads + Wait + Sync>(
    rt: &R,
    alloc: Global,
    round: u32,
) -> Result<Outcome, AllocError> {
    let PlainParts {
        board,
        control,
        seats,
    } = PlainBoard::<AnyCancel>::new(alloc, HERE, SLOTS, BANS, SEATS)?;
    let Some((first, second, root)) = three_plain(seats) else {
        return Ok(Outcome::WRONG);
    };
    let seats = Seats {
        first: PlainData::new(rt, &board, first),
        second: PlainData::new(rt, &board, second),
        root: PlainData::new(rt, &board, root),
        control: PlainControl::new(rt, &board, control),
    };
    play(rt, alloc, seats, round)
}

//! The play on both kinds of boards.
ghost use Rattle.std.specs.Prelude.{◌≡◌, IfOk, length, All};

use crate::play::plays;
use node_boards::{PlainBoard, PlainControl, PlainData, PlainParts, RaceControl, RaceData};
use race_board::{BoardParts, RaceBoard};
use std::alloc::AllocError;
use std::test::Fail;
use task_ids::AnyCancel;

#[test]
fn a_plain_board_plays(rt: HostRuntime) -> Result<(), Fail> {
    let alloc = rt.alloc();
    let PlainParts {
        board,
        control,
        mut seats,
    } = PlainBoard::<AnyCancel>::new(alloc, 1, 1, 1, 1)?;
    let mut data = PlainData::new(&rt, &board, seats.pop().ok_or(AllocError)?);
    let mut control = PlainControl::new(&rt, &board, control);
    assert!(rt; plays(alloc, &mut data, &mut control));
    Ok(())
}

#[test]
fn a_race_board_plays(rt: HostRuntime) -> Result<(), Fail> {
    let alloc = rt.alloc();
    let BoardParts {
        board,
        control,
        mut seats,
    } = RaceBoard::<AnyCancel>::new(alloc, 1, 1, 1, 1)?;
    let mut data = RaceData::new(&board, seats.pop().ok_or(AllocError)?);
    let mut control = RaceControl::new(&board, control);
    assert!(rt; plays(alloc, &mut data, &mut control));
    Ok(())
}

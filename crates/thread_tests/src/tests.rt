//! Each play, a hundred times over each kind of board.
use crate::ends::Name;
use crate::plays::{cancels, leaves, stops};
use node_boards::{PlainBoard, PlainControl, PlainData, PlainParts, RaceControl, RaceData};
use race_board::{BoardParts, RaceBoard};
use std::alloc::AllocError;

const ROUNDS: u32 = 100;

#[test]
fn it_leaves_over_a_plain_board(rt: HostRuntime) -> Result<(), AllocError> {
    for _ in 0..ROUNDS {
        let PlainParts {
            board,
            control,
            seats: _,
        } = PlainBoard::<Name>::new(rt.alloc(), 1, 4, 2, 1)?;
        let control = PlainControl::new(&rt, &board, control);
        assert!(rt; leaves(&rt, rt.alloc(), control)?);
    }
    Ok(())
}

#[test]
fn it_leaves_over_a_race_board(rt: HostRuntime) -> Result<(), AllocError> {
    for _ in 0..ROUNDS {
        let BoardParts {
            board,
            control,
            seats: _,
        } = RaceBoard::<Name>::new(rt.alloc(), 1, 4, 2, 1)?;
        let control = RaceControl::new(&board, control);
        assert!(rt; leaves(&rt, rt.alloc(), control)?);
    }
    Ok(())
}

#[test]
fn it_stops_over_a_plain_board(rt: HostRuntime) -> Result<(), AllocError> {
    for _ in 0..ROUNDS {
        let PlainParts {
            board,
            control,
            seats: _,
        } = PlainBoard::<Name>::new(rt.alloc(), 1, 4, 2, 1)?;
        let control = PlainControl::new(&rt, &board, control);
        assert!(rt; stops(&rt, rt.alloc(), control)?);
    }
    Ok(())
}

#[test]
fn it_stops_over_a_race_board(rt: HostRuntime) -> Result<(), AllocError> {
    for _ in 0..ROUNDS {
        let BoardParts {
            board,
            control,
            seats: _,
        } = RaceBoard::<Name>::new(rt.alloc(), 1, 4, 2, 1)?;
        let control = RaceControl::new(&board, control);
        assert!(rt; stops(&rt, rt.alloc(), control)?);
    }
    Ok(())
}

#[test]
fn it_cancels_over_a_plain_board(rt: HostRuntime) -> Result<(), AllocError> {
    for _ in 0..ROUNDS {
        let PlainParts {
            board,
            control,
            mut seats,
        } = PlainBoard::<Name>::new(rt.alloc(), 1, 4, 2, 1)?;
        let data = PlainData::new(&rt, &board, seats.pop().ok_or(AllocError)?);
        let control = PlainControl::new(&rt, &board, control);
        assert!(rt; cancels(&rt, rt.alloc(), data, control)?);
    }
    Ok(())
}

#[test]
fn it_cancels_over_a_race_board(rt: HostRuntime) -> Result<(), AllocError> {
    for _ in 0..ROUNDS {
        let BoardParts {
            board,
            control,
            mut seats,
        } = RaceBoard::<Name>::new(rt.alloc(), 1, 4, 2, 1)?;
        let data = RaceData::new(&board, seats.pop().ok_or(AllocError)?);
        let control = RaceControl::new(&board, control);
        assert!(rt; cancels(&rt, rt.alloc(), data, control)?);
    }
    Ok(())
}

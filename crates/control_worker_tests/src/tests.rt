//! The plays on both kinds of boards, of node 1 with one place. Each board has one slot, but for the race board that keeps a ban back.
ghost use Rattle.std.specs.Prelude.{◌≡◌, IfOk, length, All};

use crate::bans::{cancels_a_child, keeps_a_ban_back};
use crate::cancels::cancels_a_root;
use crate::matches::gathers_matches;
use crate::turns::new_core;
use node_boards::{PlainBoard, PlainControl, PlainData, PlainParts, RaceControl, RaceData};
use race_board::{BoardParts, RaceBoard};
use std::alloc::AllocError;
use std::test::Fail;
use task_ids::AnyCancel;

#[test]
fn a_plain_board_keeps_a_ban_back(rt: HostRuntime) -> Result<(), Fail> {
    let alloc = rt.alloc();
    let PlainParts {
        board,
        control,
        mut seats,
    } = PlainBoard::<AnyCancel>::new(alloc, 1, 1, 1, 1)?;
    let mut data = PlainData::new(&rt, &board, seats.pop().ok_or(AllocError)?);
    let mut control = PlainControl::new(&rt, &board, control);
    let mut core = new_core(alloc, &control, 1, 1)?;
    assert!(rt; keeps_a_ban_back(&mut core, &mut control)?);
    assert!(rt; cancels_a_child(alloc, &mut data, &mut core, &mut control)?);
    Ok(())
}

#[test]
fn a_race_board_keeps_a_ban_back(rt: HostRuntime) -> Result<(), Fail> {
    let alloc = rt.alloc();
    let BoardParts {
        board,
        control,
        mut seats,
    } = RaceBoard::<AnyCancel>::new(alloc, 1, 4, 1, 1)?;
    let mut data = RaceData::new(&board, seats.pop().ok_or(AllocError)?);
    let mut control = RaceControl::new(&board, control);
    let mut core = new_core(alloc, &control, 1, 4)?;
    assert!(rt; keeps_a_ban_back(&mut core, &mut control)?);
    assert!(rt; cancels_a_child(alloc, &mut data, &mut core, &mut control)?);
    Ok(())
}

#[test]
fn a_plain_board_cancels_a_root(rt: HostRuntime) -> Result<(), Fail> {
    let alloc = rt.alloc();
    let PlainParts {
        board,
        control,
        mut seats,
    } = PlainBoard::<AnyCancel>::new(alloc, 1, 1, 1, 1)?;
    let mut data = PlainData::new(&rt, &board, seats.pop().ok_or(AllocError)?);
    let mut control = PlainControl::new(&rt, &board, control);
    let mut core = new_core(alloc, &control, 1, 1)?;
    assert!(rt; cancels_a_root(alloc, &mut data, &mut core, &mut control)?);
    Ok(())
}

#[test]
fn a_race_board_cancels_a_root(rt: HostRuntime) -> Result<(), Fail> {
    let alloc = rt.alloc();
    let BoardParts {
        board,
        control,
        mut seats,
    } = RaceBoard::<AnyCancel>::new(alloc, 1, 1, 1, 1)?;
    let mut data = RaceData::new(&board, seats.pop().ok_or(AllocError)?);
    let mut control = RaceControl::new(&board, control);
    let mut core = new_core(alloc, &control, 1, 1)?;
    assert!(rt; cancels_a_root(alloc, &mut data, &mut core, &mut control)?);
    Ok(())
}

#[test]
fn a_plain_board_gathers_matches(rt: HostRuntime) -> Result<(), Fail> {
    let alloc = rt.alloc();
    let PlainParts {
        board,
        control,
        mut seats,
    } = PlainBoard::<AnyCancel>::new(alloc, 1, 1, 1, 1)?;
    let mut data = PlainData::new(&rt, &board, seats.pop().ok_or(AllocError)?);
    let mut control = PlainControl::new(&rt, &board, control);
    let mut core = new_core(alloc, &control, 2, 1)?;
    assert!(rt; gathers_matches(alloc, &mut data, &mut core, &mut control)?);
    Ok(())
}

#[test]
fn a_race_board_gathers_matches(rt: HostRuntime) -> Result<(), Fail> {
    let alloc = rt.alloc();
    let BoardParts {
        board,
        control,
        mut seats,
    } = RaceBoard::<AnyCancel>::new(alloc, 1, 1, 1, 1)?;
    let mut data = RaceData::new(&board, seats.pop().ok_or(AllocError)?);
    let mut control = RaceControl::new(&board, control);
    let mut core = new_core(alloc, &control, 2, 1)?;
    assert!(rt; gathers_matches(alloc, &mut data, &mut core, &mut control)?);
    Ok(())
}

ghost use Rattle.std.specs.Prelude.{◌≡◌, IfOk};
ghost use Rattle.race_board.specs.Seats.{seat_view, IsSeatOf};

use race_board::{AnyCancel, BoardParts, DataSeat, RaceBoard};
use std::alloc::{AllocError, Global};
use std::test::Fail;
use std::thread;
use std::thread::Threads;
use task_ids::TaskId;
use task_table::MarkAnswer;

type Board = RaceBoard<AnyCancel>;

// Draws a number, or 0 where none is left.
fn number_of(board: &Board, mut seat: DataSeat<AnyCancel>) -> u32
    requires { IsSeatOf board.now seat × ((seat_view seat).drawn ≡ 0) }
{
    board.draw(&mut seat).unwrap_or(0)
}

// The numbers that two seats draw at once, on a new board.
fn drawn_by_two<R: Threads>(rt: &R, alloc: Global) -> Result<(u32, u32), AllocError> {
    let BoardParts {
        board,
        control: _,
        mut seats,
    } = Board::new(alloc, 1, 3, 2, 2)?;
    let (Some(first), Some(second)) = (seats.pop(), seats.pop()) else {
        return Ok((0, 0));
    };
    let shared = &board;
    Ok(thread::join(
        rt,
        move || number_of(shared, first),
        move || number_of(shared, second),
    ))
}

#[test]
fn two_seats_draw_the_first_two_numbers(rt: HostRuntime) -> Result<(), Fail> {
    for _ in 0..1000 {
        let (one, other) = drawn_by_two(&rt, rt.alloc())?;
        assert_eq!(rt; one.min(other), 1);
        assert_eq!(rt; one.max(other), 2);
    }
    Ok(())
}

#[test]
fn a_new_board_has_no_task_to_mark_and_no_ban_to_take_away(rt: HostRuntime) -> Result<(), Fail> {
    let BoardParts {
        board,
        mut control,
        seats: _,
    } = Board::new(rt.alloc(), 1, 1, 1, 1)?;
    let parent = TaskId { node: 2, number: 1 };
    assert!(rt; board.mark(&mut control, 1, 4) == MarkAnswer::NotFound);
    assert!(rt; !board.unban(&mut control, parent));
    Ok(())
}

//! What a control worker does with letters.
ghost use Rattle.race_board.specs.Seats.{IsControlOf};

use cancel_core::{Act, CancelCore, Waiter};
use node_link::{Body, Letter, RunName};
use race_board::{ControlSeat, RaceBoard};
use std::alloc::AllocError;
use task_table::MarkAnswer;

/// Puts the ban of a letter, where the letter tells one and no ban of its parent stood: the place of its word. A ban of its parent that
/// stood is taken away.
pub fn put_ban<N: RunName>(
    board: &RaceBoard<N>,
    seat: &mut ControlSeat<N>,
    letter: Letter<N>,
) -> Option<u32>
    requires fits { IsControlOf board.now seat.old }
    ensures fits { IsControlOf board.now seat.new }
{
    match letter.into_body() {
        Body::Ban {
            parent,
            cancel,
            to: _,
        } if !board.unban(seat, parent) => board.ban(seat, parent, cancel).ok(),
        _ => None,
    }
}

/// Marks the task that a letter cancels, and begins its cancellation with the nodes of its mask: the acts that are due. There are none
/// where the letter cancels no task by its id, or no task was marked. It fails only for want of memory.
pub fn begin_cancel<N: RunName>(
    board: &RaceBoard<N>,
    seat: &mut ControlSeat<N>,
    core: &mut CancelCore,
    letter: Letter<N>,
) -> Result<Option<Vec<Act>>, AllocError>
    requires fits { IsControlOf board.now seat.old }
    ensures fits { IsControlOf board.now seat.new }
{
    let Body::Cancel { cancel, task, wait } = letter.into_body() else {
        return Ok(None);
    };
    match board.mark(seat, task.number, cancel) {
        MarkAnswer::Marked if !core.has(task) => {
            let asked = board.mask(seat, task.number);
            let waiter = Waiter { cancel, wait };
            Ok(Some(core.begin(task, cancel, asked, Some(waiter))?))
        }
        _ => Ok(None),
    }
}

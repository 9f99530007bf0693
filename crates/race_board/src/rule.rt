//! The rule of the table.
use crate::views::{Size, View};
use atomic_table::{Seat, TableRule};
use std::marker::PhantomData;
use task_ids::BoardName;

pub(crate) struct Race<N> {
    name: PhantomData<N>,
}

impl<N: BoardName> TableRule<(), View, Size> for Race<N> {
    ghost use Rattle.race_board.specs.Board.{newcomer};
    ghost use Rattle.race_board.specs.Turn.{Rule};

    ghost holds = { Rule N.allowed };

    ghost first = { λ z. newcomer z 1 z.seats };
}

pub(crate) type Place = Seat<(), View>;

//! A board that is a plain table behind one lock, and a new one with its seats.
ghost use Rattle.std.specs.Prelude.{◌≡◌, ◌≤◌, length, IfOk, All};
ghost use Rattle.task_ids.specs.Limits.{IsNode, IsSlotCount};
ghost use Rattle.node_boards.specs.PlainNew.{IsNewData, IsNewControl};

use crate::plain_control::PlainControlSeat;
use crate::plain_data::PlainDataSeat;
use crate::plain_table::Table;
use std::alloc::{AllocError, Global};
use std::sync::Mutex;
use task_ids::BoardName;

/// One node's slots and bans, behind one lock. All its memory is there from the start.
#[derive(Drop)]
pub struct PlainBoard<N: BoardName> {
    pub(crate) table: Mutex<Table<N>>,
    pub(crate) node: u32,
    ghost noded: { IsNode node },
}

/// A new plain board with all its seats.
pub struct PlainParts<N: BoardName> {
    pub board: PlainBoard<N>,
    pub control: PlainControlSeat<N>,
    pub seats: Vec<PlainDataSeat<N>>,
}

impl<N: BoardName> PlainBoard<N> {
    /// A board of the node with all its slots and places free, its control seat and its data seats. It fails only for
    /// want of memory, and no later call takes any.
    pub fn new(
        alloc: Global,
        node: u32,
        slots: u32,
        bans: u32,
        data_seats: u32,
    ) -> Result<PlainParts<N>, AllocError>
        requires node { IsNode node }
        requires words { IsSlotCount slots × IsSlotCount bans }
        requires seats { (1 ≤ data_seats) × (data_seats ≤ 4) }
        ensures board { IfOk result (λ p. p.board.node ≡ node) }
        ensures control { IfOk result (λ p. IsNewControl p.control slots bans) }
        ensures seats { IfOk result (λ p. (length p.seats.items ≡ data_seats) × All IsNewData p.seats.items) }
    {
        let mut seats = Vec::with_capacity(alloc, data_seats as usize)?;
        for _ in 0..data_seats {
            seats.push(PlainDataSeat::new(alloc, slots)?)?;
        }
        let control = PlainControlSeat::new(alloc, slots, bans)?;
        let table = Table::new(alloc, slots as usize, bans as usize)?;
        let board = PlainBoard {
            table: Mutex::new(table),
            node,
        };
        Ok(PlainParts {
            board,
            control,
            seats,
        })
    }
}

//! A new board with its seats.
ghost use Rattle.std.specs.Prelude.{◌≡◌, ℕ, ◌+◌, ◌-◌, ◌<◌, ◌≤◌, [], length, slice_index, replicate, IfOk, All};
ghost use Rattle.task_ids.specs.Limits.{IsNode, IsSlotCount};
ghost use Rattle.task_ids.specs.declared.task_id.TaskId.{TaskId};
ghost use Rattle.race_board.specs.Board.{newcomer};
ghost use Rattle.race_board.specs.Keys.{task_key};
ghost use Rattle.race_board.specs.Lists.{NoneOf};
ghost use Rattle.race_board.specs.Seats.{seat_view, control_view, board_size, IsSeatOf, IsControlOf, IsNew};

use crate::board::{BoardParts, RaceBoard};
use crate::board_words::BoardWords;
use crate::plays::Deal;
use crate::rule::Place;
use crate::seats::{ControlSeat, DataSeat};
use crate::views::Size;
use std::alloc::{AllocError, Global};
use std::marker::PhantomData;
use task_ids::BoardName;

fn zeros(alloc: Global, count: usize) -> Result<Vec<u64>, AllocError>
    ensures { IfOk result (λ v. (length v.items ≡ count) × ((i : ℕ) → slice_index v.items i ≡ 0)) }
{
    Ok(vec![in alloc; 0u64; count]?)
}

fn small_zeros(alloc: Global, count: usize) -> Result<Vec<u32>, AllocError>
    ensures { IfOk result (λ v. (length v.items ≡ count) × (v.items ≡ replicate count 0)) }
{
    Ok(vec![in alloc; 0u32; count]?)
}

impl<N: BoardName> RaceBoard<N> {
    // The board alone, with the place of its control seat.
    fn open(alloc: Global, node: u32, size: Size) -> Result<(RaceBoard<N>, Place), AllocError>
        requires node { IsNode node }
        requires size { IsSlotCount size.slots × IsSlotCount size.bans × (size.seats ≤ 4) }
        ensures { IfOk result (λ r. (r.0.node ≡ node) × (r.0.words.size ≡ size) × (r.1.table_id ≡ r.0.words.table.shared.table_id) × (r.1.me ≡ (newcomer size 1 size.seats, []))) }
    {
        let (words, place) = BoardWords::open(alloc, size)?;
        Ok((RaceBoard { words, node }, place))
    }

    // Splits one data seat off.
    fn deal(&self, control: &mut Place, words: Vec<u64>) -> DataSeat<N>
        requires fits { (control.old.table_id ≡ self.now.words.table.shared.table_id) × (control.old.me.0.size ≡ self.now.words.size) × (control.old.me.0.lead ≡ 1) × (0 < control.old.me.0.to_deal) × (control.old.me.1 ≡ []) }
        requires blank { (length words.items ≡ self.now.words.size.slots) × ((i : ℕ) → slice_index words.items i ≡ 0) }
        ensures control { (control.new.table_id ≡ control.old.table_id) × (control.new.me ≡ (record control.old.me.0 { to_deal = control.old.me.0.to_deal - 1 }, [])) }
        ensures seat { IsNew self.now result }
    {
        let place = self.words.table.shared.split_seat::<Deal>(control);
        DataSeat {
            place,
            words,
            most: 0,
            told: false,
            name: PhantomData,
        }
    }

    /// A board of the node with all its words free, its control seat and its data seats. It fails only for want of
    /// memory, and no later call takes any.
    pub fn new(
        alloc: Global,
        node: u32,
        slots: u32,
        bans: u32,
        data_seats: u32,
    ) -> Result<BoardParts<N>, AllocError>
        requires node { IsNode node }
        requires words { IsSlotCount slots × IsSlotCount bans }
        requires seats { (1 ≤ data_seats) × (data_seats ≤ 4) }
        ensures board { IfOk result (λ p. (p.board.node ≡ node) × (board_size p.board ≡ record { slots = slots; bans = bans; seats = data_seats })) }
        ensures control { IfOk result (λ p. IsControlOf p.board p.control × (control_view p.control ≡ newcomer (board_size p.board) 1 0)) }
        ensures free { IfOk result (λ p. (t : TaskId) → NoneOf (control_view p.control) (board_size p.board) (task_key t)) }
        ensures seats { IfOk result (λ p. (length p.seats.items ≡ data_seats) × All (IsNew p.board) p.seats.items) }
    {
        let size = Size {
            slots: slots as usize,
            bans: bans as usize,
            seats: data_seats as usize,
        };
        let (board, mut place) = RaceBoard::open(alloc, node, size)?;
        let mut seats = Vec::with_capacity(alloc, size.seats)?;
        for _ in 0..size.seats {
            let words = zeros(alloc, size.slots)?;
            seats.push(board.deal(&mut place, words))?;
        }
        let bans = zeros(alloc, size.bans)?;
        let marked = small_zeros(alloc, size.slots)?;
        let control = ControlSeat {
            place,
            bans,
            marked,
            name: PhantomData,
        };
        Ok(BoardParts {
            board,
            control,
            seats,
        })
    }
}

//! The words of a board. Each function is one step on one word: a load, a swap, a fetch or a compare and exchange.
ghost use Rattle.std.specs.Prelude.{◌≡◌, ◌≢◌, ℕ, ◌+◌, ◌*◌, ◌-◌, ◌%◌, ◌^◌, ◌<◌, ◌≤◌, [], ◌==◌, length, slice_index, IfOk, bit_or, bit_and};
ghost use Rattle.race_board.specs.Board.{newcomer};

use crate::rule::{Place, Race};
use crate::views::{Size, View};
use atomic_table::Table;
use std::alloc::{AllocError, Global};
use task_ids::BoardName;

pub(crate) type WordTable<N> = Table<(), View, Size, Race<N>, Global>;

/// The words, and how many there are of each kind. Word 0 is the counter. The task words follow, the ban words after
/// them, and the masks of the task words last.
#[derive(Drop)]
pub(crate) struct BoardWords<N: BoardName> {
    pub(crate) table: WordTable<N>,
    pub(crate) size: Size,
    ghost counted: { table.shared.table_id.words ≡ 2 * size.slots + size.bans + 1 },
    ghost keyed: { table.shared.key ≡ size },
    ghost slotless: { table.shared.table_id.slots ≡ 0 },
    ghost bounded: { (size.slots < 1025) × (0 < size.slots) × (size.bans < 1025) × (0 < size.bans) × (size.seats ≤ 4) },
}

impl<N: BoardName> BoardWords<N> {
    /// New words, all 0, with the place of the control seat.
    pub(crate) fn open(alloc: Global, size: Size) -> Result<(BoardWords<N>, Place), AllocError>
        requires { (size.slots < 1025) × (0 < size.slots) × (size.bans < 1025) × (0 < size.bans) × (size.seats ≤ 4) }
        ensures { IfOk result (λ r. (r.0.size ≡ size) × (r.1.table_id ≡ r.0.table.shared.table_id) × (r.1.me ≡ (newcomer size 1 size.seats, []))) }
    {
        let words = vec![in alloc; 0u64; 2 * size.slots + size.bans + 1]?;
        let (table, place) = Table::of_words(alloc, words.as_slice(), &size)?;
        Ok((BoardWords { table, size }, place))
    }
}

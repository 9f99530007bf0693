//! The seats, with the plain data that their calls read.
ghost use Rattle.std.specs.Prelude.{◌≡◌, ◌≢◌, ℕ, ◌+◌, ◌<◌, [], length, slice_index, true, false};
ghost use Rattle.race_board.specs.Words.{number, parent, by, ban_word};
ghost use Rattle.race_board.specs.Board.{hold, ban, Lasts};
ghost use Rattle.race_board.specs.declared.views.Progress.TheVariants.{Clear};

use crate::rule::Place;
use crate::words::number_of;
use std::marker::PhantomData;
use task_ids::BoardName;

/// The seat of a data worker. It has the tickets of the tasks that were claimed with it.
#[derive(Drop)]
pub struct DataSeat<N: BoardName> {
    pub(crate) place: Place,
    /// For each slot the word of the seat's ticket there, with no mark, or 0.
    pub(crate) words: Vec<u64>,
    /// The greatest number that it drew, or 0.
    pub(crate) most: u32,
    /// Whether a draw told it that no number is left.
    pub(crate) told: bool,
    pub(crate) name: PhantomData<N>,
    ghost bare: { place.me.1 ≡ [] },
    ghost role: { place.me.0.lead ≡ 0 },
    ghost sized: { (length words.items ≡ place.me.0.size.slots) × (length place.me.0.held ≡ place.me.0.size.slots) },
    ghost tickets: { (i : ℕ) → (number (slice_index words.items i) ≡ (hold place.me.0 i).number) × (parent (slice_index words.items i) ≡ (hold place.me.0 i).parent) },
    ghost distinct: { (i j : ℕ) → (hold place.me.0 i).number ≢ 0 → (hold place.me.0 i).number ≡ (hold place.me.0 j).number → i ≡ j },
    ghost roots: { (i : ℕ) → (hold place.me.0 i).parent ≡ 0 → (hold place.me.0 i).check ≡ Clear },
    ghost calm: { (i : ℕ) → (hold place.me.0 i).seek ≡ 0 },
    ghost refused: { (told ≡ false → place.me.0.told ≡ 0) × (told ≡ true → place.me.0.told ≡ 1) },
    ghost drawn: { place.me.0.drawn < 1048576 },
    ghost greatest: { place.me.0.most ≡ most },
    ghost present: { place.me.0.gone ≡ 0 },
}

/// The seat of a node's control worker. It has the bans that were put with it.
#[derive(Drop)]
pub struct ControlSeat<N: BoardName> {
    pub(crate) place: Place,
    /// For each place the word of the ban there, or 0.
    pub(crate) bans: Vec<u64>,
    /// For each slot the number that was marked there last, or 0.
    pub(crate) marked: Vec<u32>,
    pub(crate) name: PhantomData<N>,
    ghost bare: { place.me.1 ≡ [] },
    ghost role: { place.me.0.lead ≡ 1 },
    ghost sized: { (length bans.items ≡ place.me.0.size.bans) × (length place.me.0.bans ≡ place.me.0.size.bans) },
    ghost latest: { (length marked.items ≡ place.me.0.size.slots) × (marked.items ≡ place.me.0.last) },
    ghost lasts: { Lasts place.me.0 },
    ghost idle: { (place.me.0.about ≡ 0) × (place.me.0.loaded ≡ 0) × (place.me.0.half ≡ 0) },
    ghost whole: { (place.me.0.to_deal ≡ 0) × (place.me.0.joined ≡ 0) × (place.me.0.taken ≡ 0) },
    ghost standing: { (j : ℕ) → (slice_index bans.items j ≡ ban_word (ban place.me.0 j).parent (ban place.me.0 j).cancel) × ((ban place.me.0 j).parent < 16777216) × ((ban place.me.0 j).cancel < 65536) × ((ban place.me.0 j).parent ≢ 0 → (ban place.me.0 j).cancel ≢ 0) },
}

impl<N: BoardName> DataSeat<N> {
    // The slot of the ticket with that number.
    pub(crate) fn slot_of(&self, sought: u32) -> usize
        requires { (i : ℕ) × ((hold self.now.place.me.0 i).number ≡ sought) × (sought ≢ 0) }
        ensures { (result < length self.now.words.items) × ((hold self.now.place.me.0 result).number ≡ sought) × (sought ≢ 0) }
    {
        for i in 0..self.words.len() {
            if number_of(self.words[i]) == u64::from(sought) {
                return i;
            }
        }
        unreachable!()
    }
}

//! The calls of the control seat on bans. Each takes `&self` and no memory, and none waits.
ghost use Rattle.std.specs.Prelude.{◌≡◌, ◌≢◌, ℕ, ◌+◌, ◌<◌, ◌≤◌, ◌++◌, [], ◌∷◌, true, length, take, slice_index, IfOk, IfErr, IfSome, IfNone, MatchBool};
ghost use Rattle.task_ids.specs.Limits.{IsCancel};
ghost use Rattle.race_board.specs.Board.{ban, In};
ghost use Rattle.race_board.specs.Keys.{task_key};
ghost use Rattle.race_board.specs.Seats.{control_view, board_size, IsControlOf};
ghost use Rattle.race_board.specs.Words.{ban_word};
ghost use Rattle.race_board.specs.Events.{ban_put, listed, ban_gone};
ghost use Rattle.race_board.specs.Kinds.{bans, lists, unbans};
ghost use Rattle.race_board.specs.Walks.{Walks};
ghost use Rattle.race_board.specs.Own.{IsListed, Stops};
ghost use Rattle.race_board.specs.Calls.{Longer};
ghost use Rattle.race_board.specs.Lists.{Bans, NoneOf, Unbans, Listing, Passes, WasLast, Hands, HandsOver, new_to, as_list, marks_with, pass_events};

use crate::board::RaceBoard;
use crate::rule::Place;
use crate::seats::ControlSeat;
use crate::words::{ban_of, banned_of, by_of, cancel_of, key_of, number_of, parent_of};
use task_ids::{BoardName, TaskId};
use task_table::NoRoom;

impl<N: BoardName> ControlSeat<N> {
    // The place of the ban whose parent has the key, or with 0 a place where no ban stands.
    fn place_of(&self, key: u64) -> Option<usize>
        ensures found { IfSome result (λ j. (j < length self.now.bans.items) × ((ban self.now.place.me.0 j).parent ≡ key)) }
        ensures none { IfNone result ((j : ℕ) → j < length self.now.bans.items → (ban self.now.place.me.0 j).parent ≢ key) }
    {
        for place in 0..self.bans.len() {
            if banned_of(self.bans[place]) == key {
                return Some(place);
            }
        }
        None
    }
}

impl<N: BoardName> RaceBoard<N> {
    /// Puts a ban of the parent, and gives the place of its word. There is no room exactly where every ban word holds a
    /// ban; then no step was taken.
    pub fn ban(&self, seat: &mut ControlSeat<N>, parent: TaskId, cancel: u32) -> Result<u32, NoRoom>
        requires fits { IsControlOf self.now seat.old }
        requires new { NoneOf (control_view seat.old) (board_size self.now) (task_key parent) }
        requires cancel { IsCancel cancel × N.allowed cancel }
        ensures fits { IsControlOf self.now seat.new }
        ensures moments { IfOk result (λ j. Walks (bans (ban_word (task_key parent) cancel)) (control_view seat.old) (control_view seat.new) (ban_put j (task_key parent) cancel ∷ [])) }
        ensures put { IfOk result (λ j. Bans (control_view seat.old) (control_view seat.new) (board_size self.now) (task_key parent) cancel j) }
        ensures full { IfErr result (λ _. (control_view seat.new ≡ control_view seat.old) × NoneOf (control_view seat.old) (board_size self.now) 0) }
    {
        let Some(place) = seat.place_of(0) else {
            return Err(NoRoom);
        };
        let word = ban_of(key_of(parent), u64::from(cancel));
        self.words.put(&mut seat.place, place, word);
        seat.bans[place] = word;
        Ok(place as u32)
    }

    /// Takes the ban of the parent away. It is false exactly where the seat has none; then no step was taken.
    pub fn unban(&self, seat: &mut ControlSeat<N>, parent: TaskId) -> bool
        requires fits { IsControlOf self.now seat.old }
        ensures fits { IsControlOf self.now seat.new }
        ensures moments { result ≡ true → (j : ℕ) × ((ban (control_view seat.old) j).parent ≡ task_key parent) × Walks unbans (control_view seat.old) (control_view seat.new) (ban_gone j ∷ []) }
        ensures gone { MatchBool result
            (Unbans (control_view seat.old) (control_view seat.new) (board_size self.now) (task_key parent))
            ((control_view seat.new ≡ control_view seat.old) × NoneOf (control_view seat.old) (board_size self.now) (task_key parent)) }
    {
        let Some(place) = seat.place_of(key_of(parent)) else {
            return false;
        };
        self.words.lift(&mut seat.place, place);
        seat.bans[place] = 0;
        true
    }

    // Looks at the slot that the scan of the ban at a place comes to, and marks the ban's child there, unless it is
    // marked already. Gives the child's number, where it is marked now.
    fn pass_slot(
        &self,
        seat: &mut Place,
        place: usize,
        slot: usize,
        parent: u64,
        cancel: u32,
    ) -> Option<u32>
        requires fits { (seat.old.table_id ≡ self.now.words.table.shared.table_id) × (seat.old.me.1 ≡ []) × (seat.old.me.0.size ≡ self.now.words.size) }
        requires control { (seat.old.me.0.lead ≡ 1) × (length seat.old.me.0.bans ≡ self.now.words.size.bans) × (seat.old.me.0.about ≡ 0) × (seat.old.me.0.half ≡ 0) }
        requires here { (place < self.now.words.size.bans) × (slot < self.now.words.size.slots) }
        requires ban { ((ban seat.old.me.0 place).parent ≡ parent) × ((ban seat.old.me.0 place).cancel ≡ cancel) × ((ban seat.old.me.0 place).next ≡ slot) × (parent ≢ 0) × (cancel ≢ 0) × (cancel < 65536) }
        ensures fits { (seat.new.table_id ≡ seat.old.table_id) × (seat.new.me.1 ≡ []) }
        ensures steps { Longer seat.old.me.0 seat.new.me.0 }
        ensures moments { Walks (lists place cancel) seat.old.me.0 seat.new.me.0 (pass_events self.now.words.size place cancel slot (new_to seat.old.me.0 (as_list result))) }
        ensures hands { Hands seat.old.me.0 seat.new.me.0 parent cancel slot result }
        ensures last { IfSome result (WasLast seat.old.me.0 slot) }
        ensures passes { Passes seat.old.me.0 seat.new.me.0 place slot result }
    {
        let seen = self.words.scan(seat, place, slot);
        if parent_of(seen) != parent {
            return None;
        }
        let number = number_of(seen) as u32;
        if cancel_of(seen) != 0 {
            // Only the control seat marks, so this seat has marked the child.
            return Some(number);
        }
        if self.words.strike_child(seat, place, slot, seen, cancel) != seen {
            return None;
        }
        Some(number)
    }

    /// Scans the slots once, and marks each unmarked live child of the ban's parent. `found`, with room for one number
    /// per slot, begins with the numbers of those that it marked and of those that it saw marked, which this seat had
    /// marked before. They stand in the order of their slots, and the answer is how many they are.
    pub fn list(&self, seat: &mut ControlSeat<N>, place: u32, found: &mut [u32]) -> u32
        requires fits { IsControlOf self.now seat.old }
        requires ban { (place < (board_size self.now).bans) × ((ban (control_view seat.old) place).parent ≢ 0) × ((ban (control_view seat.old) place).next ≡ 0) }
        requires room { length found.old ≡ (board_size self.now).slots }
        ensures fits { IsControlOf self.now seat.new }
        ensures steps { Longer (control_view seat.old) (control_view seat.new) }
        ensures found { (length found.new ≡ length found.old) × (result ≤ length found.new) }
        ensures moments { Walks (lists place (ban (control_view seat.old) place).cancel) (control_view seat.old) (control_view seat.new) (marks_with (ban (control_view seat.old) place).cancel (new_to (control_view seat.old) (take result found.new)) ++ listed place ∷ []) }
        ensures done { IsListed (board_size self.now) (control_view seat.new) place }
        ensures stops { Stops (board_size self.now) (control_view seat.new) place }
        ensures known { (k : ℕ) → k < result → In (slice_index found.new k) (control_view seat.new).marked }
        ensures handed { HandsOver (control_view seat.old) (control_view seat.new) (ban (control_view seat.old) place).parent (ban (control_view seat.old) place).cancel (board_size self.now).slots (take result found.new) }
        ensures listed { Listing (control_view seat.old) (control_view seat.new) place (board_size self.now).slots ((control_view seat.old).marked ++ new_to (control_view seat.old) (take result found.new)) }
    {
        let place = place as usize;
        let parent = banned_of(seat.bans[place]);
        let cancel = by_of(seat.bans[place]) as u32;
        let mut count = 0;
        for slot in 0..self.words.size.slots {
            if let Some(number) = self.pass_slot(&mut seat.place, place, slot, parent, cancel) {
                // Where the child was marked before, this is the number that stands there.
                seat.marked[slot] = number;
                found[count] = number;
                count += 1;
            }
        }
        count as u32
    }
}

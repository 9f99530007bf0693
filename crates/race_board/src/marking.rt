//! The calls of the control seat on marks and masks. Each takes `&self` and no memory, and none waits.
ghost use Rattle.std.specs.Prelude.{◌≡◌, ◌≢◌, ℕ, ◌+◌, ◌<◌, ◌⊎◌, [], length, slice_index, IfSome, IfNone};
ghost use Rattle.task_ids.specs.Limits.{IsCancel};
ghost use Rattle.race_board.specs.Words.{number, cancel};
ghost use Rattle.race_board.specs.Board.{In};
ghost use Rattle.race_board.specs.Seats.{control_view, board_size, IsControlOf};
ghost use Rattle.race_board.specs.Kinds.{marks, masks};
ghost use Rattle.race_board.specs.Walks.{Walks};
ghost use Rattle.race_board.specs.Own.{AtTheEnd, HasCleared};
ghost use Rattle.race_board.specs.Calls.{Longer};
ghost use Rattle.race_board.specs.Turn.{MayMark};
ghost use Rattle.race_board.specs.Lists.{Marks, MarksSeen, AlreadyBy, KnownBy, IsMask, mark_events};

use crate::board::RaceBoard;
use crate::seats::ControlSeat;
use crate::words::{is_word_of, mark_in, number_of};
use child_track::NodeSet;
use task_ids::BoardName;
use task_table::MarkAnswer;

impl<N: BoardName> RaceBoard<N> {
    /// Marks the live task with that number, unless it is marked already. It is not found where one scan of the slots
    /// met no live word of that number, or where the task ended before the exchange.
    pub fn mark(&self, seat: &mut ControlSeat<N>, number: u32, cancel: u32) -> MarkAnswer
        requires fits { IsControlOf self.now seat.old }
        requires cancel { IsCancel cancel × N.allowed cancel }
        ensures fits { IsControlOf self.now seat.new }
        ensures steps { Longer (control_view seat.old) (control_view seat.new) }
        ensures moments { Walks (marks cancel) (control_view seat.old) (control_view seat.new) (mark_events number cancel result) }
        ensures known { KnownBy (control_view seat.new) number result }
        ensures marks { Marks (control_view seat.old) (control_view seat.new) (board_size self.now) number cancel result }
        ensures allowed { AlreadyBy N.allowed result }
    {
        for slot in 0..self.words.size.slots {
            let seen = self.words.note(&mut seat.place, slot);
            if is_word_of(seen, number) {
                return self.mark_seen(seat, slot, seen, cancel);
            }
        }
        MarkAnswer::NotFound
    }

    // Marks a slot where its word is still the one that was seen.
    fn mark_seen(
        &self,
        seat: &mut ControlSeat<N>,
        slot: usize,
        seen: u64,
        cancel: u32,
    ) -> MarkAnswer
        requires fits { IsControlOf self.now seat.old }
        requires slot { slot < (board_size self.now).slots }
        requires seen { (seen ≢ 0) × MayMark N.allowed seen }
        requires cancel { IsCancel cancel × N.allowed cancel }
        ensures fits { IsControlOf self.now seat.new }
        ensures steps { Longer (control_view seat.old) (control_view seat.new) }
        ensures moments { Walks (marks cancel) (control_view seat.old) (control_view seat.new) (mark_events (number seen) cancel result) }
        ensures marks { MarksSeen (control_view seat.old) (control_view seat.new) slot seen cancel result }
        ensures allowed { AlreadyBy N.allowed result }
    {
        if let Some(mark) = mark_in(seen) {
            return MarkAnswer::Already(mark);
        }
        if self.words.strike(&mut seat.place, slot, seen, cancel) != seen {
            return MarkAnswer::NotFound;
        }
        seat.marked[slot] = number_of(seen) as u32;
        MarkAnswer::Marked
    }

    /// The nodes in the mask of a task that this seat has marked, by a load of the mask and one of the task's word after
    /// it. There is none where the word is no longer that task's.
    pub fn mask(&self, seat: &mut ControlSeat<N>, number: u32) -> NodeSet
        requires fits { IsControlOf self.now seat.old }
        requires marked { In number (control_view seat.old).marked }
        ensures fits { IsControlOf self.now seat.new }
        ensures moments { Walks masks (control_view seat.old) (control_view seat.new) [] }
        ensures cleared { AtTheEnd (board_size self.now) (control_view seat.old) (control_view seat.new) (HasCleared number result.0) }
        ensures known { (control_view seat.new).marked ≡ (control_view seat.old).marked }
        ensures mask { IsMask (control_view seat.old) (control_view seat.new) (board_size self.now) number result.0 }
    {
        let Some(slot) = seat.slot_marked(number) else {
            return NodeSet(0);
        };
        let mask = self.words.load_mask(&mut seat.place, slot);
        let seen = self.words.load_masked(&mut seat.place, slot);
        if is_word_of(seen, number) {
            NodeSet(mask as u16)
        } else {
            NodeSet(0)
        }
    }
}

impl<N: BoardName> ControlSeat<N> {
    // The slot in which the task was marked last.
    fn slot_marked(&self, number: u32) -> Option<usize>
        ensures found { IfSome result (λ i. (i < length self.now.marked.items) × (slice_index self.now.place.me.0.last i ≡ number)) }
        ensures none { IfNone result ((i : ℕ) → i < length self.now.marked.items → slice_index self.now.place.me.0.last i ≢ number) }
    {
        for slot in 0..self.marked.len() {
            if self.marked[slot] == number {
                return Some(slot);
            }
        }
        None
    }
}

//! Drawing numbers, and claiming slots. Each call takes `&self` and no memory, and none waits.
ghost use Rattle.std.specs.Prelude.{◌≡◌, ◌≢◌, ℕ, ◌+◌, ◌-◌, ◌<◌, ◌≤◌, [], ◌∷◌, MatchOption, MatchResult, IfOk, IfErr, OnOk, OnErr, IfSome, IfNone};
ghost use Rattle.child_track.specs.Token.{token_parent};
ghost use Rattle.race_board.specs.Words.{number, parent, cancel, task_word};
ghost use Rattle.race_board.specs.Keys.{parent_key};
ghost use Rattle.race_board.specs.Steps.{did, noted, drew};
ghost use Rattle.race_board.specs.Seats.{seat_view, board_size, IsSeatOf};
ghost use Rattle.race_board.specs.Events.{put};
ghost use Rattle.race_board.specs.Kinds.{draws, claims};
ghost use Rattle.race_board.specs.Walks.{Walks};
ghost use Rattle.race_board.specs.Calls.{Longer, HasTicket, OnlySteps, Refuses, SawFull, Takes, TakesAt};

use crate::board::RaceBoard;
use crate::seats::DataSeat;
use crate::words::{parent_key_of, task_of};
use child_track::AskToken;
use task_ids::{BoardName, TaskId};
use task_table::{Full, Ticket};

const LAST_NUMBER: u64 = 1_048_575;

impl<N: BoardName> RaceBoard<N> {
    /// The next number of the node, or none where 1,048,575 was given. A seat that was told so is told so again, and
    /// takes no further step.
    pub fn draw(&self, seat: &mut DataSeat<N>) -> Option<u32>
        requires fits { IsSeatOf self.now seat.old }
        requires free { (seat_view seat.old).drawn ≡ 0 }
        ensures fits { IsSeatOf self.now seat.new }
        ensures moments { Walks draws (seat_view seat.old) (seat_view seat.new) [] }
        ensures drawn { IfSome result (λ n. (n ≢ 0) × ((seat_view seat.old).told ≡ 0) × (seat_view seat.new ≡ noted (drew (seat_view seat.old) n) (did 0 (n - 1) n))) }
        ensures none { IfNone result (Refuses (seat_view seat.old) (seat_view seat.new)) }
    {
        if seat.told {
            return None;
        }
        let seen = self.words.draw(&mut seat.place);
        if seen < LAST_NUMBER {
            let number = seen as u32 + 1;
            seat.most = seat.most.max(number);
            return Some(number);
        }
        seat.told = true;
        None
    }

    // Puts the word of the drawn number into the first slot that is found free.
    fn take_slot(&self, seat: &mut DataSeat<N>, word: u64) -> Option<usize>
        requires fits { IsSeatOf self.now seat.old }
        requires word { ((seat_view seat.old).drawn ≢ 0) × (number word ≡ (seat_view seat.old).drawn) × (cancel word ≡ 0) }
        ensures fits { IsSeatOf self.now seat.new }
        ensures steps { Longer (seat_view seat.old) (seat_view seat.new) }
        ensures moments { MatchOption result
            (Walks (claims word) (seat_view seat.old) (seat_view seat.new) [])
            (λ _. Walks (claims word) (seat_view seat.old) (seat_view seat.new) (put (number word) (parent word) ∷ [])) }
        ensures taken { MatchOption result
            (OnlySteps (seat_view seat.old) (seat_view seat.new) × SawFull (seat_view seat.old) (seat_view seat.new) (board_size self.now).slots)
            (λ i. TakesAt (seat_view seat.old) (seat_view seat.new) i (number word) (parent word)) }
    {
        for slot in 0..self.words.size.slots {
            if self.words.claim(&mut seat.place, slot, word) == 0 {
                seat.words[slot] = word;
                return Some(slot);
            }
        }
        None
    }

    /// Registers a task under a number that this seat drew and has not used, and gives its ticket. A token goes with
    /// it exactly where it has a parent, and is that parent's.
    ///
    /// It is full where each slot was found taken, one after the other. Then the number stays unused.
    pub fn claim(
        &self,
        seat: &mut DataSeat<N>,
        number: u32,
        parent: Option<TaskId>,
        token: Option<AskToken>,
    ) -> Result<Ticket, Full>
        requires fits { IsSeatOf self.now seat.old }
        requires drawn { ((seat_view seat.old).drawn ≡ number) × (number ≢ 0) }
        requires token { token_parent token ≡ parent }
        ensures fits { IsSeatOf self.now seat.new }
        ensures steps { Longer (seat_view seat.old) (seat_view seat.new) }
        ensures moments { MatchResult result
            (λ _. Walks (claims (task_word number (parent_key parent))) (seat_view seat.old) (seat_view seat.new) (put number (parent_key parent) ∷ []))
            (λ _. Walks (claims (task_word number (parent_key parent))) (seat_view seat.old) (seat_view seat.new) []) }
        ensures ticket { IfOk result (λ t. (t.id.node ≡ self.now.node) × (t.id.number ≡ number) × (t.token ≡ token)) }
        ensures held { IfOk result (HasTicket (seat_view seat.new)) }
        ensures takes { OnOk result (Takes (seat_view seat.old) (seat_view seat.new) number (parent_key parent)) }
        ensures full { OnErr result (OnlySteps (seat_view seat.old) (seat_view seat.new) × SawFull (seat_view seat.old) (seat_view seat.new) (board_size self.now).slots) }
        ensures given_back { IfErr result (λ full. full.0 ≡ token) }
    {
        let word = task_of(u64::from(number), parent_key_of(parent));
        match self.take_slot(seat, word) {
            Some(_) => {
                let id = TaskId {
                    node: self.node,
                    number,
                };
                Ok(Ticket::new(id, token))
            }
            None => Err(Full(token)),
        }
    }
}

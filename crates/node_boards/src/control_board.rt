//! A board as a control worker asks it.
ghost use Rattle.std.specs.Prelude.{◌≡◌, ◌≢◌, ℕ, ◌<◌, ◌≤◌, ◌⊎◌, ◌↔◌, true, false, length, take, slice_index, Contains, IfOk, OnErr};
ghost use Rattle.task_ids.specs.Limits.{IsCancel};
ghost use Rattle.race_board.specs.Keys.{task_key};
ghost use Rattle.race_board.specs.Lists.{AlreadyBy};
ghost use Rattle.node_boards.specs.Calls.{ban, list, mark, mask, unban};
ghost use Rattle.node_boards.specs.Seats.{HasBanAt, HasBanOf, SameBans, OneBanMore, OneBanLess, SameMarks, Keeps, KeepsOthers};

use child_track::NodeSet;
use task_ids::{BoardName, TaskId};
use task_table::{MarkAnswer, NoRoom};

/// What a control worker asks of its node's board, by a seat of its own. No call takes memory.
///
/// A proof knows what the seat itself knows, and what was answered, as at [`DataBoard`](crate::DataBoard).
pub trait ControlBoard<N: BoardName> {
    ghost use Rattle.std.specs.Prelude.{ℕ};
    ghost use Rattle.node_boards.specs.Calls.{ControlCall};

    /// How many tasks the board has room for.
    ghost slots: { Self → ℕ };

    /// How many bans the board has room for.
    ghost places: { Self → ℕ };

    /// The seat has a ban at this place, of the parent with this key, with this cancel.
    ghost bans: { Self → ℕ → ℕ → ℕ → Type 0 };

    /// The ban at this place was not listed yet.
    ghost unlisted: { Self → ℕ → Type 0 };

    /// The seat knows that it has marked the task with this number. It may forget so once it has marked another in the
    /// same slot.
    ghost marked: { Self → ℕ → Type 0 };

    /// What the answer of a call rests on, by the board's own steps: the seat before it and after it.
    ghost rests: { Self → Self → ControlCall → Type 0 };

    /// Puts a ban of the parent, and gives its place. There is no room exactly where each place has a ban; then nothing
    /// has changed.
    fn ban(&mut self, parent: TaskId, cancel: u32) -> Result<u32, NoRoom>
        requires new { ¬ HasBanOf (bans self.old) (task_key parent) }
        requires cancel { IsCancel cancel × N.allowed cancel }
        ensures rests { rests self.old self.new (ban parent cancel result) }
        ensures put { IfOk result (λ j. (j < places self.old) × OneBanMore (bans self.old) (bans self.new) j (task_key parent) cancel × unlisted self.new j) }
        ensures full { OnErr result (SameBans (bans self.old) (bans self.new) × ((j : ℕ) → j < places self.old → HasBanAt (bans self.old) j)) }
        ensures unlisted { Keeps (unlisted self.old) (unlisted self.new) }
        ensures marks { SameMarks (marked self.old) (marked self.new) }
        ensures size { (slots self.new ≡ slots self.old) × (places self.new ≡ places self.old) };

    /// Scans the slots once, and marks each unmarked live child of the ban's parent. `found`, with room for one number
    /// per slot, begins with the numbers of those that it marked and of those that it saw marked, which this seat had
    /// marked before. The answer is how many they are.
    fn list(&mut self, place: u32, found: &mut [u32]) -> u32
        requires ban { HasBanAt (bans self.old) place × unlisted self.old place }
        requires room { length found.old ≡ slots self.old }
        ensures rests { rests self.old self.new (list place (take result found.new)) }
        ensures found { (length found.new ≡ length found.old) × (result ≤ length found.new) }
        ensures handed { (n : ℕ) → Contains (take result found.new) n → marked self.new n }
        ensures marks { (n : ℕ) → marked self.new n → marked self.old n ⊎ Contains (take result found.new) n }
        ensures bans { SameBans (bans self.old) (bans self.new) }
        ensures unlisted { KeepsOthers (unlisted self.old) (unlisted self.new) place }
        ensures size { (slots self.new ≡ slots self.old) × (places self.new ≡ places self.old) };

    /// Marks the live task with that number, unless it is marked already. It is not found where no live task of that
    /// number was met.
    fn mark(&mut self, number: u32, cancel: u32) -> MarkAnswer
        requires cancel { IsCancel cancel × N.allowed cancel }
        ensures rests { rests self.old self.new (mark number cancel result) }
        ensures allowed { AlreadyBy N.allowed result }
        ensures known { result ≡ MarkAnswer.Marked → marked self.new number }
        ensures marks { (n : ℕ) → marked self.new n → marked self.old n ⊎ ((result ≡ MarkAnswer.Marked) × (n ≡ number)) }
        ensures same { result ≢ MarkAnswer.Marked → SameMarks (marked self.old) (marked self.new) }
        ensures bans { SameBans (bans self.old) (bans self.new) × Keeps (unlisted self.old) (unlisted self.new) }
        ensures size { (slots self.new ≡ slots self.old) × (places self.new ≡ places self.old) };

    /// The nodes in the mask of a task that this seat has marked. There is none where the task has ended.
    fn mask(&mut self, number: u32) -> NodeSet
        requires marked { marked self.old number }
        ensures rests { rests self.old self.new (mask number result) }
        ensures marks { SameMarks (marked self.old) (marked self.new) }
        ensures bans { SameBans (bans self.old) (bans self.new) × Keeps (unlisted self.old) (unlisted self.new) }
        ensures size { (slots self.new ≡ slots self.old) × (places self.new ≡ places self.old) };

    /// Takes the ban of the parent away. It is true exactly where the seat had one.
    fn unban(&mut self, parent: TaskId) -> bool
        ensures rests { rests self.old self.new (unban parent result) }
        ensures had { (result ≡ true) ↔ HasBanOf (bans self.old) (task_key parent) }
        ensures gone { OneBanLess (bans self.old) (bans self.new) (task_key parent) }
        ensures unlisted { Keeps (unlisted self.old) (unlisted self.new) }
        ensures marks { SameMarks (marked self.old) (marked self.new) }
        ensures size { (slots self.new ≡ slots self.old) × (places self.new ≡ places self.old) };
}

//! What a worker asks its board of a live task: its check, the noting of a node before an ask, and its mark.
ghost use Rattle.std.specs.Prelude.{◌≡◌, ℕ, IsSome, IfSome, Some};
ghost use Rattle.task_ids.specs.Limits.{IsCancel, IsNode};
ghost use Rattle.race_board.specs.Checks.{BannedBy, CancelledBy};
ghost use Rattle.node_boards.specs.Calls as call;
ghost use Rattle.live_tasks.specs.declared.entry.Entry.{Entry};
ghost use Rattle.live_tasks.specs.Entries.{after_check, after_track, after_look};
ghost use Rattle.live_tasks.specs.Live.{entry_at, ChangesTask, SameCore};
ghost use Rattle.live_tasks.specs.Ties.{Together, IsNew, IsPassed};

use crate::change::{close, pass};
use crate::live::LiveTasks;
use crate::table::task;
use node_boards::DataBoard;
use task_ids::BoardName;
use task_table::{Check, Track};

impl LiveTasks {
    /// Looks for a ban of the parent of a live task that is new. Where it is clear, the task has passed.
    pub fn check<N: BoardName, B: DataBoard<N>>(&mut self, board: &mut B, number: u32) -> Check
        requires new { IsNew (entry_at self.old number) }
        requires together { Together (B.node board.old) (B.has board.old) (B.drawn board.old) (B.clear board.old) self.old }
        ensures together { Together (B.node board.new) (B.has board.new) (B.drawn board.new) (B.clear board.new) self.new }
        ensures rests { (e : Entry) → entry_at self.old number ≡ Some e → B.rests board.old board.new (call.check e.running.ticket result) }
        ensures allowed { BannedBy N.allowed result }
        ensures checked { (e : Entry) → entry_at self.old number ≡ Some e → ChangesTask self.old self.new number (after_check e result) }
        ensures core { SameCore self.old self.new }
    {
        match board.check(&task(&self.tasks, number).running.ticket) {
            Check::Clear => {
                pass(&mut self.tasks, number);
                Check::Clear
            }
            Check::Banned(cancel) => Check::Banned(cancel),
        }
    }

    /// Notes at the board that a live task, which has passed, will ask on a node, and looks after that whether it is marked. A mark
    /// closes its track.
    pub fn track<N: BoardName, B: DataBoard<N>>(
        &mut self,
        board: &mut B,
        number: u32,
        to: u32,
    ) -> Track
        requires live { IsPassed (entry_at self.old number) }
        requires node { IsNode to }
        requires cancels { (c : ℕ) → N.allowed c → IsCancel c }
        requires together { Together (B.node board.old) (B.has board.old) (B.drawn board.old) (B.clear board.old) self.old }
        ensures together { Together (B.node board.new) (B.has board.new) (B.drawn board.new) (B.clear board.new) self.new }
        ensures rests { (e : Entry) → entry_at self.old number ≡ Some e → B.rests board.old board.new (call.track e.running.ticket to result) }
        ensures allowed { CancelledBy N.allowed result }
        ensures tracked { (e : Entry) → entry_at self.old number ≡ Some e → ChangesTask self.old self.new number (after_track e result) }
        ensures core { SameCore self.old self.new }
    {
        match board.track(&task(&self.tasks, number).running.ticket, to) {
            Track::Cleared => Track::Cleared,
            Track::Cancelled(cancel) => {
                close(&mut self.tasks, number, cancel);
                Track::Cancelled(cancel)
            }
        }
    }

    /// Looks at the mark of a live task. A mark closes its track.
    pub fn look<N: BoardName, B: DataBoard<N>>(&mut self, board: &mut B, number: u32) -> Option<u32>
        requires live { IsSome (entry_at self.old number) }
        requires cancels { (c : ℕ) → N.allowed c → IsCancel c }
        requires together { Together (B.node board.old) (B.has board.old) (B.drawn board.old) (B.clear board.old) self.old }
        ensures together { Together (B.node board.new) (B.has board.new) (B.drawn board.new) (B.clear board.new) self.new }
        ensures rests { (e : Entry) → entry_at self.old number ≡ Some e → B.rests board.old board.new (call.look e.running.ticket result) }
        ensures allowed { IfSome result N.allowed }
        ensures looked { (e : Entry) → entry_at self.old number ≡ Some e → ChangesTask self.old self.new number (after_look e result) }
        ensures core { SameCore self.old self.new }
    {
        match board.look(&task(&self.tasks, number).running.ticket) {
            Some(cancel) => {
                close(&mut self.tasks, number, cancel);
                Some(cancel)
            }
            None => None,
        }
    }
}

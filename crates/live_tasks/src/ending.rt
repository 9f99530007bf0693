//! The ends of live tasks.
ghost use Rattle.std.specs.Prelude.{◌≡◌, ◌+◌, ℕ, Some, None, IfSome};
ghost use Rattle.child_track.specs.Track.{sealed};
ghost use Rattle.node_boards.specs.Calls as call;
ghost use Rattle.live_tasks.specs.declared.entry.Entry.{Entry};
ghost use Rattle.live_tasks.specs.Answering.{IsAnsweredFully};
ghost use Rattle.live_tasks.specs.Entries.{ended};
ghost use Rattle.live_tasks.specs.Live.{entry_at, number_at, count, ChangesAt, SameCore};
ghost use Rattle.live_tasks.specs.Ties.{Together};

use crate::entry::EndedTask;
use crate::live::LiveTasks;
use crate::table::take;
use node_boards::DataBoard;
use task_ids::BoardName;
use task_table::Ended;

impl LiveTasks {
    /// Ends a live task, of which no ask is unanswered. It leaves the table, its place is free, and its slot at the board too. The board
    /// gives its receipt, and its mark if it has one.
    pub fn end<N: BoardName, B: DataBoard<N>>(
        &mut self,
        board: &mut B,
        number: u32,
    ) -> (Ended, EndedTask)
        requires answered { IsAnsweredFully (entry_at self.old number) }
        requires together { Together (B.node board.old) (B.has board.old) (B.drawn board.old) (B.clear board.old) self.old }
        ensures together { Together (B.node board.new) (B.has board.new) (B.drawn board.new) (B.clear board.new) self.new }
        ensures rests { (e : Entry) → entry_at self.old number ≡ Some e → B.rests board.old board.new (call.end e.running.ticket result.0.mark) }
        ensures receipt { (e : Entry) → entry_at self.old number ≡ Some e → result.0.receipt ≡ sealed e.running.track e.running.ticket.token }
        ensures allowed { IfSome result.0.mark N.allowed }
        ensures left { (e : Entry) → entry_at self.old number ≡ Some e → result.1 ≡ ended e }
        ensures gone { ChangesAt (entry_at self.old) (entry_at self.new) number None }
        ensures free { ChangesAt (number_at self.old) (number_at self.new) result.1.place None }
        ensures fewer { count self.new + 1 ≡ count self.old }
        ensures drawn { self.new.drawn ≡ self.old.drawn }
        ensures core { SameCore self.old self.new }
    {
        let entry = take(&mut self.tasks, &mut self.places, number);
        let (ticket, track, ended) = entry.into_parts();
        (board.end(ticket, track), ended)
    }
}

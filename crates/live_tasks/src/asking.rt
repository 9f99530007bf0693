//! The asks of live tasks, and the answers to them.
ghost use Rattle.std.specs.Prelude.{◌≡◌, ◌↔◌, ◌^◌, ◌<◌, Some, IfOk, IfErr, IsTrue, OnOk, OnErr};
ghost use Rattle.task_ids.specs.Limits.{IsNode};
ghost use Rattle.node_parts.specs.Running.{next_number};
ghost use Rattle.live_tasks.specs.declared.entry.Entry.{Entry};
ghost use Rattle.live_tasks.specs.Answering.{CanAsk, Fits, IsAnswer, asker, left_by, untracking};
ghost use Rattle.live_tasks.specs.Chains.{Chain};
ghost use Rattle.live_tasks.specs.Entries.{after_ask, after_answer};
ghost use Rattle.live_tasks.specs.Live.{entry_at, number_at, ChangesTask, SameCore};
ghost use Rattle.live_tasks.specs.Ties.{AreTasks, StaysTogether, Together};

use crate::change::{note_answer, note_ask};
use crate::live::LiveTasks;
use crate::table::task;
use child_track::{AskToken, Receipt};
use node_boards::DataBoard;
use node_link::Place;
use task_events::{AnsweredRequest, Reply, Stop};
use task_ids::BoardName;

impl LiveTasks {
    /// A live task asks for the child that comes next, at this place and on this node, at this moment in milliseconds; it gives the
    /// token that the request carries. The node was noted at the board before (`track`, which was clear).
    ///
    /// It fails only for want of memory, also where the task has asked 4,294,967,295 times (`Memory`). Then the task is as it was.
    pub fn ask(&mut self, number: u32, to: u32, place: Place, now: u64) -> Result<AskToken, Stop>
        requires can { CanAsk (entry_at self.old number) }
        requires node { IsNode to }
        requires tasks { AreTasks self.old.node (entry_at self.old) (number_at self.old) }
        ensures asked { (e : Entry) → entry_at self.old number ≡ Some e → OnOk result (ChangesTask self.old self.new number (after_ask e to place)) }
        ensures token { (e : Entry) → entry_at self.old number ≡ Some e → IfOk result (λ token. token ≡ record { parent = e.running.ticket.id; ask = next_number e.running }) }
        ensures err { (e : Entry) → entry_at self.old number ≡ Some e → OnErr result (ChangesTask self.old self.new number e) }
        ensures memory { IfErr result (λ stop. stop ≡ Stop.Memory) }
        ensures together { StaysTogether self.old self.new }
        ensures core { SameCore self.old self.new }
    {
        match note_ask(&mut self.tasks, number, to, place, now) {
            Ok(token) => Ok(token),
            Err(stop) => Err(stop),
        }
    }

    /// Whether an answer is to an unanswered ask of a live task, is of the place that was asked for, tells that it answers what was
    /// asked for, and is one that the ask's request can have.
    pub fn fits(
        &self,
        receipt: &Receipt,
        place: &Place,
        request: &AnsweredRequest,
        reply: &Reply,
    ) -> bool
        ensures { IsTrue result ↔ Fits self.now receipt.now place.now request.now reply.now }
    {
        let Some(parent) = receipt.parent() else {
            return false;
        };
        match self.get(parent.number) {
            Some(entry) => entry.fits(receipt, place, request, reply),
            None => false,
        }
    }

    /// A live task takes the answer to an ask of it that is unanswered, at this moment in milliseconds. Where this was the last answer
    /// that it awaits from a node, it is untracked there at the board.
    ///
    /// It fails only for want of memory (`Memory`). Then the answer is lost, the task is as it was, and no call was made.
    pub fn answer<N: BoardName, B: DataBoard<N>>(
        &mut self,
        board: &mut B,
        receipt: Receipt,
        reply: Reply,
        now: u64,
    ) -> Result<(), Stop>
        requires fits { IsAnswer receipt reply (asker self.old receipt.parent) }
        requires moment { now < 2 ^ 60 }
        requires together { Together (B.node board.old) (B.has board.old) (B.drawn board.old) (B.clear board.old) self.old }
        ensures together { Together (B.node board.new) (B.has board.new) (B.drawn board.new) (B.clear board.new) self.new }
        ensures answered { (e : Entry) → asker self.old receipt.parent ≡ Some e → OnOk result (ChangesTask self.old self.new e.running.ticket.id.number (after_answer e receipt.ask reply now)) }
        ensures calls { (e : Entry) → asker self.old receipt.parent ≡ Some e → OnOk result (Chain B.rests board.old (untracking e.running.ticket (left_by e.running.track receipt.ask)) board.new) }
        ensures err { (e : Entry) → asker self.old receipt.parent ≡ Some e → OnErr result (ChangesTask self.old self.new e.running.ticket.id.number e × (board.new ≡ board.old)) }
        ensures memory { IfErr result (λ stop. stop ≡ Stop.Memory) }
        ensures core { SameCore self.old self.new }
    {
        let Some(parent) = receipt.parent() else {
            unreachable!()
        };
        match self.answer_at(board, parent.number, receipt, reply, now) {
            Ok(()) => Ok(()),
            Err(stop) => Err(stop),
        }
    }

    /// The live task of a number takes the answer to an ask of it, as `answer` says.
    fn answer_at<N: BoardName, B: DataBoard<N>>(
        &mut self,
        board: &mut B,
        number: u32,
        receipt: Receipt,
        reply: Reply,
        now: u64,
    ) -> Result<(), Stop>
        requires fits { IsAnswer receipt reply (entry_at self.old number) }
        requires moment { now < 2 ^ 60 }
        requires together { Together (B.node board.old) (B.has board.old) (B.drawn board.old) (B.clear board.old) self.old }
        ensures together { Together (B.node board.new) (B.has board.new) (B.drawn board.new) (B.clear board.new) self.new }
        ensures answered { (e : Entry) → entry_at self.old number ≡ Some e → OnOk result (ChangesTask self.old self.new number (after_answer e receipt.ask reply now)) }
        ensures calls { (e : Entry) → entry_at self.old number ≡ Some e → OnOk result (Chain B.rests board.old (untracking e.running.ticket (left_by e.running.track receipt.ask)) board.new) }
        ensures err { (e : Entry) → entry_at self.old number ≡ Some e → OnErr result (ChangesTask self.old self.new number e × (board.new ≡ board.old)) }
        ensures memory { IfErr result (λ stop. stop ≡ Stop.Memory) }
        ensures core { SameCore self.old self.new }
    {
        match note_answer(&mut self.tasks, number, receipt, reply, now) {
            Ok(Some(node)) => {
                board.untrack(&task(&self.tasks, number).running.ticket, node);
                Ok(())
            }
            Ok(None) => Ok(()),
            Err(stop) => Err(stop),
        }
    }
}

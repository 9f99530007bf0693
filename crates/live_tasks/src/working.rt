//! The turns of live tasks.
ghost use Rattle.std.specs.Prelude.{◌≡◌, Some, IfOk, IfErr, OnOk, OnErr};
ghost use Rattle.task_work.specs.Works.{BrokeOff, work_notes};
ghost use Rattle.task_work.specs.declared.work.Work.{Work};
ghost use Rattle.live_tasks.specs.declared.entry.Entry.{Entry};
ghost use Rattle.live_tasks.specs.Answering.{TakesTurn};
ghost use Rattle.live_tasks.specs.Entries.{with_work};
ghost use Rattle.live_tasks.specs.Live.{entry_at, number_at, ChangesTask, SameCore};
ghost use Rattle.live_tasks.specs.Ties.{AreTasks, StaysTogether};
ghost use Rattle.live_tasks.specs.Turning.{TurnedOn};

use crate::change::note_turn;
use crate::live::LiveTasks;
use shard_docs::Shard;
use task_events::{Stop, WriteNote};

impl LiveTasks {
    /// A live task takes a turn of its work over its shard, and gives the notes of what it has written there.
    ///
    /// It fails only for want of memory (`Memory`). Then a first part of its documents may have been written, and its work is used no
    /// more.
    pub fn turn(&mut self, number: u32, shard: &mut Shard) -> Result<Vec<WriteNote>, Stop>
        requires next { TakesTurn shard.old.writes (entry_at self.old number) }
        requires tasks { AreTasks self.old.node (entry_at self.old) (number_at self.old) }
        ensures turned { (e : Entry) → entry_at self.old number ≡ Some e → (w : Work)
            × ChangesTask self.old self.new number (with_work e w)
            × OnOk result (TurnedOn e.running.work w shard.old.writes shard.new.writes)
            × OnErr result (BrokeOff e.running.work w shard.old.writes shard.new.writes) }
        ensures notes { (e : Entry) → entry_at self.old number ≡ Some e → IfOk result (λ notes. notes.items ≡ work_notes e.running.work shard.old.writes) }
        ensures oldest { shard.new.oldest ≡ shard.old.oldest }
        ensures memory { IfErr result (λ stop. stop ≡ Stop.Memory) }
        ensures together { StaysTogether self.old self.new }
        ensures core { SameCore self.old self.new }
    {
        match note_turn(&mut self.tasks, number, shard) {
            Ok(notes) => Ok(notes),
            Err(_) => Err(Stop::Memory),
        }
    }
}

//! The work of the part of a bulk in one shard.

ghost use Rattle.std.specs.Prelude.{◌≡◌, ◌++◌, false, IfOk, OnOk, OnErr};
ghost use Rattle.task_events.specs.Written.{notes_of};
ghost use Rattle.reindex.specs.Writing.{new_writing, next_docs, is_written, after_turn};
ghost use Rattle.task_work.specs.declared.work.Work.TheVariants.{BulkShard};
ghost use Rattle.task_work.specs.Works.{BrokeOff};

use reindex::BulkShardWork;
use shard_docs::Shard;
use std::alloc::{AllocError, Global};
use task_events::{BulkShardAsk, WriteNote};

/// The part of a bulk in a shard, which has taken no turn yet.
pub(crate) fn new_part(alloc: Global, ask: &BulkShardAsk) -> Result<BulkShardWork, AllocError>
    ensures { IfOk result (λ part. part ≡ new_writing ask.now) }
{
    let ask = ask.copy()?;
    Ok(BulkShardWork::new(alloc, ask))
}

/// Takes a turn of a part, and gives the notes of what it has written.
pub(crate) fn turn_of_part(
    part: &mut BulkShardWork,
    shard: &mut Shard,
) -> Result<Vec<WriteNote>, AllocError>
    requires { is_written part.old ≡ false }
    ensures notes { IfOk result (λ notes. notes.items
        ≡ notes_of part.old.index part.old.shard shard.old.writes (next_docs part.old)) }
    ensures written { OnOk result (shard.new.writes ≡ shard.old.writes ++ next_docs part.old) }
    ensures oldest { shard.new.oldest ≡ shard.old.oldest }
    ensures ok { OnOk result (part.new ≡ after_turn part.old shard.old.writes) }
    ensures err { OnErr result (BrokeOff (BulkShard part.old) (BulkShard part.new) shard.old.writes shard.new.writes) }
{
    part.turn(shard)
}

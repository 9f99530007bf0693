//! Rows that nothing reads any more are forgotten.

ghost use Rattle.std.specs.Prelude.{◌≡◌, ◌<◌, false, Some, slice_get, take, vec_len};
ghost use Rattle.task_ids.specs.declared.task_id.TaskId.{TaskId};
ghost use Rattle.task_events.specs.Tasks.{is_live};
ghost use Rattle.corpus_shards.specs.declared.Stale.{Stale};
ghost use Rattle.corpus_shards.specs.Stored.{Forgets};
ghost use Rattle.world_moves.specs.Purging.{oldest_in, bound_in, AllForgotten, NoneLost, IsButShards};
ghost use Rattle.world_moves.specs.Ties.{IsTied};

use crate::state::State;
use scroll_table::ScrollTable;

/// The least version that the contexts of any node keep of a shard, where one keeps one. It asks each node once.
fn oldest_kept(contexts: &[ScrollTable], index: &str, shard: u32) -> Option<u32>
    ensures { result ≡ oldest_in index.now shard contexts.now }
{
    contexts
        .iter()
        .filter_map(|table| table.oldest(index, shard))
        .min()
}

/// While no task is live, the shard at a place of those that are noted forgets the rows that no context keeps. It is not noted any
/// more where no dead row is left.
fn forget_at(state: &mut State<'_>, place: usize)
    requires tied { IsTied state.old }
    requires none_live { (task : TaskId) → is_live task state.old.history ≡ false }
    requires there { place < vec_len state.old.shards.stale }
    ensures tied { IsTied state.new }
    ensures same { IsButShards state.old state.new }
    ensures forgets { (note : Stale) → slice_get state.old.shards.stale.items place ≡ Some note
        → Forgets note.index note.shard (bound_in state.old.contexts.items state.old.shards note.index note.shard) state.old.shards state.new.shards }
    ensures before { take place state.new.shards.stale.items ≡ take place state.old.shards.stale.items }
{
    let stale = &state.shards.stale[place];
    let index = stale.index.get().as_str();
    let kept = oldest_kept(state.contexts.as_slice(), index, stale.shard);
    state.shards.forget_noted(place, kept);
}

/// Where no task is live, shards forget the rows that no context keeps. It looks at those in which rows have died alone, takes no
/// memory, and changes nothing that can be seen: what was written before is read by nothing any more.
pub fn forget(state: &mut State<'_>)
    requires tied { IsTied state.old }
    ensures tied { IsTied state.new }
    ensures same { IsButShards state.old state.new }
    ensures forgotten { ((task : TaskId) → is_live task state.old.history ≡ false) → AllForgotten state.new.contexts.items state.new.shards }
    ensures none_lost { NoneLost state.new.contexts.items state.new.shards }
{
    if !state.tasks.is_empty() {
        return;
    }
    let mut left = state.shards.stale.len();
    while left > 0 {
        left -= 1;
        forget_at(state, left);
    }
}

//! The work of a query.

ghost use Rattle.std.specs.Prelude.{◌≡◌, ◌+◌, ◌||◌, None, is_some, IfOk, OnOk, OnErr, true, false};
ghost use Rattle.search_phase.specs.Queries as queries;
ghost use Rattle.search_phase.specs.Queries.{IsQueried, has_ended, has_none_left, version_at, queried};
ghost use Rattle.task_work.specs.Works.{found_top};

use search_phase::{ShardQuery, TurnAnswer};
use shard_docs::Shard;
use shared_value::Shared;
use std::alloc::AllocError;
use task_events::{Reply, ShardTop};

/// The reply with what a query has found.
pub(crate) fn top_reply(top: &ShardTop) -> Result<Reply, AllocError>
    ensures { IfOk result (λ reply. reply ≡ Reply.Top top.now) }
{
    let copy = top.copy()?;
    Ok(Reply::Top(Shared::new(top.keys.allocator(), copy)?))
}

/// Takes a turn of a query, and keeps what it has found where it was the last.
pub(crate) fn turn_of_query(
    query: &mut ShardQuery,
    top: &mut Option<ShardTop>,
    shard: &Shard,
) -> Result<(), AllocError>
    requires { has_ended query.old shard.now.writes ≡ false }
    ensures turned { OnOk result (queries.HasTurned query.old shard.now.writes query.new) }
    ensures ready { OnOk result (is_some top.new ≡ (is_some top.old || has_none_left query.new shard.now.writes)) }
    ensures query { IsQueried query.old shard.now.writes → let q = query.old in
        OnOk result (query.new ≡ queried q.ask (version_at q shard.now.writes) (q.turns + 1) shard.now.writes) }
    ensures on { IsQueried query.old shard.now.writes → OnOk result (IsQueried query.new shard.now.writes) }
    ensures top { IsQueried query.old shard.now.writes → top.old ≡ None
        → OnOk result (top.new ≡ found_top query.new shard.now.writes) }
    ensures same_query { OnErr result (query.new ≡ query.old) }
    ensures same_top { OnErr result (top.new ≡ top.old) }
{
    match query.turn(shard)? {
        TurnAnswer::More => Ok(()),
        TurnAnswer::Ready(found) => {
            *top = Some(found);
            Ok(())
        }
    }
}

//! The work of a fetch.

ghost use Rattle.std.specs.Prelude.{◌≡◌, ◌+◌, ◌||◌, None, is_some, IfOk, OnOk, OnErr, true, false};
ghost use Rattle.search_phase.specs.Fetches as fetches;
ghost use Rattle.search_phase.specs.Fetches.{IsFetched, has_fetched, fetched_in};
ghost use Rattle.task_work.specs.Works.{found_hits};

use search_phase::{FetchAnswer, ShardFetch};
use shard_docs::Shard;
use shared_value::Shared;
use std::alloc::AllocError;
use task_events::{Hit, Reply, copy_hits};
use task_ids::Items;

/// The reply with what a fetch has found.
pub(crate) fn hits_reply(hits: &Items<Hit>) -> Result<Reply, AllocError>
    ensures { IfOk result (λ reply. reply ≡ Reply.Hits hits.now) }
{
    let copies = copy_hits(hits)?;
    Ok(Reply::Hits(Shared::new(hits.allocator(), copies)?))
}

/// Takes a turn of a fetch, and keeps what it has found where it was the last.
pub(crate) fn turn_of_fetch(
    fetch: &mut ShardFetch,
    hits: &mut Option<Items<Hit>>,
    shard: &Shard,
) -> Result<(), AllocError>
    requires { has_fetched fetch.old ≡ false }
    ensures turned { OnOk result (fetches.HasTurned fetch.old fetch.new) }
    ensures ready { OnOk result (is_some hits.new ≡ (is_some hits.old || has_fetched fetch.new)) }
    ensures fetch { IsFetched fetch.old shard.now.writes → let f = fetch.old in
        OnOk result (fetch.new ≡ fetched_in f.ask (f.turns + 1) shard.now.writes) }
    ensures hits { IsFetched fetch.old shard.now.writes → hits.old ≡ None
        → OnOk result (hits.new ≡ found_hits fetch.new shard.now.writes) }
    ensures same_fetch { OnErr result (fetch.new ≡ fetch.old) }
    ensures same_hits { OnErr result (hits.new ≡ hits.old) }
{
    match fetch.turn(shard)? {
        FetchAnswer::More => Ok(()),
        FetchAnswer::Ready(found) => {
            *hits = Some(found);
            Ok(())
        }
    }
}

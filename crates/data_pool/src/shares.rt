//! How the shards, the tasks and the slots of each node are shared out among its data workers.
ghost use Rattle.std.specs.Prelude.{◌≡◌, ◌<◌, ℕ, IfOk, IfSome, All, Contains, sum_by};
ghost use Rattle.std.specs.List.{range_with_len};
ghost use Rattle.task_events.specs.Kinds.{kind_of};
ghost use Rattle.task_events.specs.declared.request.Request.{Request};
ghost use Rattle.task_ids.specs.Placing.{node_of};
ghost use Rattle.data_pool.specs.Workers as workers;
ghost use Rattle.data_pool.specs.Workers.{quota_of};
ghost use Rattle.data_pool.specs.declared.pool.Pool.{Pool};

use crate::pool::Pool;
use shard_docs::node_of;
use std::alloc::{AllocError, Global};
use task_events::Request;

// The worker, on its node, that holds a shard.
fn worker_of_shard(pool: &Pool, shard: u32) -> u32
    ensures { result ≡ workers.worker_of_shard pool.now shard }
{
    shard / pool.nodes % pool.workers
}

/// The data worker to which a request goes, on the node where it is worked: that of its shard, or 0 where it works on none.
///
/// A root works on no shard, so its worker is 0.
pub fn worker_of(pool: &Pool, request: &Request) -> u32
    ensures { result ≡ workers.worker_of pool.now request.now }
{
    match request {
        Request::Search(_) | Request::Scroll(_) => 0,
        Request::Reindex(_) | Request::Slice(_) | Request::Bulk(_) => 0,
        Request::Query(ask) => worker_of_shard(pool, ask.get().shard),
        Request::Fetch(ask) => worker_of_shard(pool, ask.get().shard),
        Request::BulkShard(ask) => worker_of_shard(pool, ask.get().shard),
    }
}

/// The shards that a data worker of a node holds, ascending. It fails only for want of memory.
pub fn shards_of(alloc: Global, pool: &Pool, node: u32, worker: u32) -> Result<Vec<u32>, AllocError>
    ensures held { IfOk result (λ shards. shards.items ≡ workers.shards_of pool.now node worker) }
    ensures there { IfOk result (λ shards. All (λ shard. node_of shard pool.now.nodes ≡ node) shards.items) }
{
    (0..pool.shards)
        .filter(|shard| {
            node_of(*shard, pool.nodes) == node && worker_of_shard(pool, *shard) == worker
        })
        .collect(alloc)
}

/// A request that works on a shard goes to a worker that holds this shard: a law.
pub fn requests_find_their_shards()
    ensures { (pool : Pool) (request : Request) → IfSome (kind_of request).place (λ place.
        place.1 < pool.shards → Contains (workers.shards_of pool (node_of place.1 pool.nodes) (workers.worker_of pool request)) place.1) }
{}

/// How many tasks may be live at once at a data worker of a node that has so many slots and so many workers, numbered from 0. Of slots that
/// cannot be shared out evenly, the workers with the lowest numbers have one more. It may be none.
pub fn quota_of(slots: u32, workers: u32, worker: u32) -> u32
    requires workers { 0 < workers }
    ensures { result ≡ quota_of slots workers worker }
{
    let each = slots / workers;
    if worker < slots % workers {
        each + 1
    } else {
        each
    }
}

/// The quotas of all workers of a node add up to its slots, so a worker that is below its quota finds a slot: a law.
pub fn quotas_add_up()
    ensures { (slots count : ℕ) → 0 < count → sum_by (quota_of slots count) (range_with_len 0 count) ≡ slots }
{}

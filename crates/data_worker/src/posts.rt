// The letters of a data worker, with the inboxes that they are for.
ghost use Rattle.std.specs.Prelude.{◌≡◌, filter_map, IfOk, IfErr};
ghost use Rattle.run_facts.specs.Inboxes.{IsPoolSize};
ghost use Rattle.task_ids.specs.Limits.{IsNode};
ghost use Rattle.data_worker.specs.Posts.{addressed};

use data_parts::or_memory;
use node_worker::Post;
use run_facts::inbox_of;
use std::alloc::{AllocError, Global};
use task_events::Stop;

// A letter with the number of its inbox. One for a node or a worker that the cluster does not have is passed over.
fn addressed<L: Drop>(nodes: u32, workers: u32, post: run_facts::Post<L>) -> Option<Post<L>>
    requires nodes { IsNode nodes }
    requires workers { IsPoolSize workers }
    ensures { result ≡ addressed nodes workers post }
{
    let run_facts::Post { to, letter } = post;
    match inbox_of(nodes, workers, to) {
        Some(to) => Some(Post { to, letter }),
        None => None,
    }
}

// The same for each of these letters, in their order.
fn all_addressed<L: Drop>(
    alloc: Global,
    nodes: u32,
    workers: u32,
    gave: Vec<run_facts::Post<L>>,
) -> Result<Vec<Post<L>>, AllocError>
    requires nodes { IsNode nodes }
    requires workers { IsPoolSize workers }
    ensures { IfOk result (λ posts. posts.items ≡ filter_map (addressed nodes workers) gave.items) }
{
    let mut posts = Vec::new(alloc);
    for post in gave {
        if let Some(post) = addressed(nodes, workers, post) {
            posts.push(post)?;
        }
    }
    Ok(posts)
}

// The same. It fails only for want of memory (`Memory`).
pub(crate) fn address<L: Drop>(
    alloc: Global,
    nodes: u32,
    workers: u32,
    gave: Vec<run_facts::Post<L>>,
) -> Result<Vec<Post<L>>, Stop>
    requires nodes { IsNode nodes }
    requires workers { IsPoolSize workers }
    ensures posts { IfOk result (λ posts. posts.items ≡ filter_map (addressed nodes workers) gave.items) }
    ensures memory { IfErr result (λ stop. stop ≡ Stop.Memory) }
{
    or_memory(all_addressed(alloc, nodes, workers, gave))
}

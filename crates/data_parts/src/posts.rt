//! The letters that a core gives.
ghost use Rattle.std.specs.Prelude.{◌≡◌, ◌∷◌, [], IfOk, IfErr};

use crate::memory::or_memory;
use run_facts::Post;
use std::alloc::Global;
use task_events::Stop;

/// One letter.
pub fn one<L: Drop>(alloc: Global, post: Post<L>) -> Result<Vec<Post<L>>, Stop>
    ensures post { IfOk result (λ posts. posts.items ≡ post ∷ []) }
    ensures memory { IfErr result (λ stop. stop ≡ Stop.Memory) }
{
    let mut posts = or_memory(Vec::with_capacity(alloc, 1))?;
    posts.push_reserved(post);
    Ok(posts)
}

// The pages of scrolls.
ghost use Rattle.std.specs.Prelude.{◌≡◌, IfOk};

use shared_value::Shared;
use std::alloc::AllocError;
use task_events::{Context, HitKey, SearchAsk, ShardCounts, copy_key};

/// The page of a scroll: what its context holds when the page begins.
#[derive(Drop)]
pub struct Page {
    /// The search that opened the context.
    pub ask: Shared<SearchAsk>,
    /// The shards that answered that search, at the versions that were read. Each is below the next.
    pub shards: ShardCounts,
    /// The cursor: the page begins after it, in hit order. Without one it begins at the first hit.
    pub after: Option<HitKey>,
}

impl Page {
    /// The page that begins where a context stands. It fails only for want of memory.
    pub fn of(context: &Context) -> Result<Page, AllocError>
        ensures ask { IfOk result (λ page. page.ask ≡ context.now.ask) }
        ensures shards { IfOk result (λ page. page.shards ≡ context.now.shards) }
        ensures after { IfOk result (λ page. page.after ≡ context.now.after) }
    {
        Ok(Page {
            ask: context.ask.copy()?,
            shards: context.shards.copy()?,
            after: copy_key(&context.after)?,
        })
    }

    /// An equal page, which an answer tells beside the reply that was worked from it. It fails only for want of memory.
    pub fn copy(&self) -> Result<Page, AllocError>
        ensures { IfOk result (λ page. page ≡ self.now) }
    {
        Ok(Page {
            ask: self.ask.copy()?,
            shards: self.shards.copy()?,
            after: copy_key(&self.after)?,
        })
    }
}

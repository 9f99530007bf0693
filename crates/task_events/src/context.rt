ghost use Rattle.std.specs.Prelude.{◌≡◌, ◌+◌, nat_le};
ghost use Rattle.task_events.specs.Contexts.{is_expired, is_owned_by, opens_context, version_kept};

use crate::counts::ShardCounts;
use crate::request::{HitKey, SearchAsk};
use shared_value::Shared;
use task_ids::TaskId;

/// What a search with `scroll` left for its pages, after Elasticsearch's search contexts.
#[derive(Drop)]
pub struct Context {
    /// The search that opened it.
    pub id: TaskId,
    /// What that search was asked.
    pub ask: Shared<SearchAsk>,
    /// The shards that are read, each at its version.
    pub shards: ShardCounts,
    /// The cursor: the last row that was shown, where one was.
    pub after: Option<HitKey>,
    /// After how many milliseconds without use it expires, where it does.
    pub keep_ms: Option<u64>,
    /// The moment of its last use, in milliseconds.
    pub last_ms: u64,
    /// The task to which it belongs, where there is one.
    pub owner: Option<TaskId>,
    /// The task that uses it, where one does.
    pub busy: Option<TaskId>,
}

impl Context {
    /// Whether it has a keep-alive, was not used for it, and no task uses it.
    pub fn is_expired(&self, now: u64) -> bool
        ensures { result ≡ is_expired now self.now }
    {
        match self.keep_ms {
            Some(keep_ms) => self.busy.is_none() && is_over(self.last_ms, keep_ms, now),
            None => false,
        }
    }

    /// Whether this is the task to which it belongs, or it belongs to none and this is none.
    pub fn is_owned_by(&self, by: Option<TaskId>) -> bool
        ensures { result ≡ is_owned_by by self.now }
    {
        self.owner == by
    }

    /// The version that it keeps of a shard of an index, where it keeps one.
    pub fn version_of(&self, index: &str, shard: u32) -> Option<u32>
        ensures { result ≡ version_kept index.now shard self.now }
    {
        if self.ask.get().index.get().as_str() == index {
            self.shards.version_of(shard)
        } else {
            None
        }
    }
}

impl SearchAsk {
    /// Whether the search opens a context: where it has a keep-alive or an owner.
    pub fn opens_context(&self) -> bool
        ensures { result ≡ opens_context self.now }
    {
        self.scroll.is_some() || self.owner.is_some()
    }
}

/// Whether a time that began at a moment is over.
fn is_over(since_ms: u64, keep_ms: u64, now: u64) -> bool
    ensures { result ≡ nat_le (since_ms + keep_ms) now }
{
    match since_ms.checked_add(keep_ms) {
        Some(end) => end <= now,
        None => false,
    }
}

ghost use Rattle.std.specs.Prelude.{◌≡◌, Some, IfOk};
ghost use Rattle.task_events.specs.Contexts.{unexpired};
ghost use Rattle.task_events.specs.Counts.{AreCounts};
ghost use Rattle.point_in_time.specs.Pits.{as_context, opened, found};

use shared_value::Shared;
use std::alloc::AllocError;
use task_events::{Context, SearchAsk, SearchReply, ShardCounts};
use task_ids::TaskId;

/// No point in time of that id is there, or it has expired.
#[derive(Clone, Copy, Debug, PartialEq, Eq)]
pub struct Missing;

/// What one task saw of all shards of an index.
#[derive(Drop)]
pub struct Pit {
    /// The task that opened it.
    pub id: TaskId,
    /// What that task was asked, and so the index.
    pub ask: Shared<SearchAsk>,
    /// The shards, each at the version that is kept.
    pub shards: ShardCounts,
    /// After how many milliseconds without use it expires.
    pub keep_ms: u64,
    /// The moment of its last use, in milliseconds.
    pub last_ms: u64,
}

impl Pit {
    /// What the good end of the task that opens it leaves, at this moment in milliseconds. There is none where a shard failed. It fails only for
    /// want of memory.
    pub fn opened(
        id: TaskId,
        ask: &Shared<SearchAsk>,
        reply: &SearchReply,
        keep_ms: u64,
        now: u64,
    ) -> Result<Option<Pit>, AllocError>
        requires { AreCounts reply.now.shards }
        ensures { IfOk result (λ pit. pit ≡ opened id ask.now reply.now keep_ms now) }
    {
        if !reply.failed.as_slice().is_empty() {
            return Ok(None);
        }
        let alloc = reply.shards.allocator();
        let counts = Vec::from_slice(alloc, reply.shards.as_slice())?;
        let Ok(shards) = ShardCounts::new(counts) else {
            unreachable!()
        };
        Ok(Some(Pit {
            id,
            ask: ask.copy()?,
            shards,
            keep_ms,
            last_ms: now,
        }))
    }

    /// It is kept as a context that belongs to no task, is used by none, and has no cursor of its own.
    pub(crate) fn into_context(self) -> Context
        ensures { result ≡ as_context self }
    {
        Context {
            id: self.id,
            ask: self.ask,
            shards: self.shards,
            after: None,
            keep_ms: Some(self.keep_ms),
            last_ms: self.last_ms,
            owner: None,
            busy: None,
        }
    }
}

/// The point in time, where it has not expired.
pub(crate) fn unexpired(context: &Context, now: u64) -> Result<&Context, Missing>
    ensures { found result ≡ unexpired now (Some context.now) }
{
    if context.is_expired(now) {
        Err(Missing)
    } else {
        Ok(context)
    }
}

ghost use Rattle.std.specs.Prelude.{◌≡◌};
ghost use Rattle.task_events.specs.NoCounts.{no_counts};

use crate::request::HitKey;
use crate::tally::Tally;
use shared_value::Shared;
use task_ids::{Doc, Items, TaskId, Text};

/// What a task answers when it ends. What is large in it is shared, so a copy costs a count.
#[derive(Drop)]
pub enum Reply {
    /// A search's answer.
    Search(Shared<SearchReply>),
    /// What a shard found in the query phase.
    Top(Shared<ShardTop>),
    /// The documents of the fetch phase.
    Hits(Shared<Items<Hit>>),
    /// Every shard of a search failed. The shards ascend.
    AllFailed(Shared<Items<FailedShard>>),
    /// What a task that writes has done: a reindex, a slice, a bulk or its part in a shard.
    Wrote(Tally),
    /// The task was cancelled, or refused, by the cancellation of this number.
    Cancelled {
        task: TaskId,
        cancel: u32,
        counts: Tally,
    },
    /// The node had no free slot for it.
    Rejected {
        node: u32,
    },
}

impl Reply {
    /// The reply of a task that has written nothing, and that a cancellation of this number has ended. It takes no memory.
    pub fn cancelled(task: TaskId, cancel: u32) -> Reply
        ensures { result ≡ Reply.Cancelled task cancel no_counts }
    {
        Reply::Cancelled {
            task,
            cancel,
            counts: Tally::none(),
        }
    }
}

/// What a writing task has done. All are zero for other tasks.
#[derive(Clone, Copy, PartialEq, Eq)]
pub struct Counts {
    /// How many documents there were to write.
    pub total: u64,
    /// How many were created.
    pub created: u64,
    /// How many replaced a document of their id.
    pub updated: u64,
    /// How many pages were read.
    pub batches: u64,
    /// How many parts failed.
    pub failures: u64,
}

impl Counts {
    /// Nothing was done yet. It takes no memory.
    pub fn none() -> Counts
        ensures { result ≡ no_counts }
    {
        Counts {
            total: 0,
            created: 0,
            updated: 0,
            batches: 0,
            failures: 0,
        }
    }
}

/// A search's answer, after Elasticsearch's search API.
#[derive(Drop)]
pub struct SearchReply {
    /// The context that the search opened, where it opened one.
    pub context: Option<TaskId>,
    /// The shards that answered the query, ascending.
    pub shards: Items<ShardCount>,
    /// The shards that failed in the query or in the fetch, ascending.
    pub failed: Items<FailedShard>,
    /// How many rows match in the shards that answered the query.
    pub total: u64,
    /// The documents of the winners in hit order, without those of shards that failed in the fetch.
    pub hits: Items<Hit>,
    /// The last winner, where there is one.
    pub last: Option<HitKey>,
}

/// What a shard found in the query phase.
#[derive(Drop)]
pub struct ShardTop {
    /// The shard, from 0.
    pub shard: u32,
    /// The version that was read, a number of first writes.
    pub version: u32,
    /// How many rows match.
    pub count: u64,
    /// The keys of those that stand first, in hit order, at most as many as the search passes over and shows.
    pub keys: Items<HitKey>,
}

/// How many rows matched in a shard at a version.
#[derive(Clone, Copy, PartialEq, Eq)]
pub struct ShardCount {
    /// The shard, from 0.
    pub shard: u32,
    /// The version that was read, a number of first writes.
    pub version: u32,
    /// How many rows match.
    pub count: u64,
}

/// A shard at a version.
#[derive(Clone, Copy, PartialEq, Eq)]
pub struct ShardVersion {
    /// The shard, from 0.
    pub shard: u32,
    /// The version that was read, a number of first writes.
    pub version: u32,
}

/// A document that a search found.
#[derive(Drop)]
pub struct Hit {
    pub index: Shared<Text>,
    pub doc: Doc,
    /// The place of the document's row in its shard, from 0.
    pub place: u32,
}

/// A shard that failed.
#[derive(Clone, Copy, PartialEq, Eq)]
pub struct FailedShard {
    /// The shard, from 0.
    pub shard: u32,
    pub failure: ShardFailure,
}

/// Why a shard failed.
#[derive(Clone, Copy, PartialEq, Eq)]
pub enum ShardFailure {
    /// The shard's task was cancelled, or refused, by the cancellation of this number.
    Cancelled { task: TaskId, cancel: u32 },
    /// The node had no free slot.
    Rejected { node: u32 },
}

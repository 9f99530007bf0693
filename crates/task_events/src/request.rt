ghost use Rattle.std.specs.Prelude.{◌<◌, ◌≤◌};
ghost use Rattle.std.specs.Option.{ForSome};

use query_match::{Query, SearchBody, SortKey};
use shared_value::Shared;
use task_ids::{Doc, Items, TaskId, Text};

/// What a task is asked to do. What is large in it is shared, so a copy costs a count.
#[derive(Drop)]
pub enum Request {
    /// A search of all shards of an index.
    Search(Shared<SearchAsk>),
    /// The query phase of a search, of one shard.
    Query(Shared<ShardAsk>),
    /// The fetch phase of a search, of one shard.
    Fetch(Shared<FetchAsk>),
    /// The next page of a search that opened a context.
    Scroll(Shared<ScrollAsk>),
    /// A copy of documents of one index into another.
    Reindex(Shared<ReindexAsk>),
    /// One slice of such a copy.
    Slice(Shared<SliceAsk>),
    /// A batch of documents that are written to an index.
    Bulk(Shared<BulkAsk>),
    /// The documents of a batch that lie in one shard.
    BulkShard(Shared<BulkShardAsk>),
}

/// A search of all shards of an index, after Elasticsearch's search API.
#[derive(Drop)]
pub struct SearchAsk {
    pub index: Shared<Text>,
    pub body: Shared<SearchBody>,
    /// The keep-alive of the context that the search opens, in milliseconds, where it opens one that expires.
    pub scroll: Option<u64>,
    /// The slice of the index's documents that it reads, where it does not read all.
    pub slice: Option<SlicePick>,
    /// The task to which the context that it opens belongs, where there is one.
    pub owner: Option<TaskId>,
}

/// A slice of the documents of an index: those whose hash, divided by the number of shards, has this remainder.
#[derive(Clone, Copy, PartialEq, Eq)]
pub struct SlicePick {
    /// The slice, from 0 and below the number of slices.
    pub slice: u32,
    /// The number of slices.
    pub slices: u32,
    /// The number of shards of the index, at least 1.
    pub shards: u32,
    pub ghost shards_in_range: { 0 < shards },
    pub ghost slice_in_range: { slice < slices },
}

/// The query phase of a search in one shard: which rows match, and which of them stand first.
#[derive(Drop)]
pub struct ShardAsk {
    pub index: Shared<Text>,
    /// The shard, from 0.
    pub shard: u32,
    pub body: Shared<SearchBody>,
    /// The version to read, a number of first writes. Where there is none, the shard's version at the first turn is read.
    pub version: Option<u32>,
    /// The cursor: where there is one, only rows after it in hit order are kept.
    pub after: Option<HitKey>,
    /// The slice of the documents that is read, where not all are.
    pub slice: Option<SlicePick>,
}

/// The fetch phase of a search in one shard: the documents of some rows.
#[derive(Drop)]
pub struct FetchAsk {
    pub index: Shared<Text>,
    /// The shard, from 0.
    pub shard: u32,
    /// The version to read, a number of first writes.
    pub version: u32,
    /// The places of the rows in the shard, from 0.
    pub places: Items<u32>,
}

/// The next page of a search that opened a context, after Elasticsearch's scroll API.
#[derive(Clone, Copy, PartialEq, Eq)]
pub struct ScrollAsk {
    /// The search that opened the context.
    pub id: TaskId,
    /// The keep-alive that the context has from now on, in milliseconds, where it gets another.
    pub keep: Option<u64>,
    /// The task to which the context belongs, where it belongs to one.
    pub owner: Option<TaskId>,
}

/// Where a row stands among all rows that a search finds. Keys are ordered by the sort, then by shard, then by place.
#[derive(Drop, PartialEq, Eq, PartialOrd, Ord)]
pub struct HitKey {
    /// The key of the row's document for the sort.
    pub sort: SortKey,
    /// The shard, from 0.
    pub shard: u32,
    /// The place of the row in its shard, from 0.
    pub place: u32,
}

/// A copy of documents of one index into another, after Elasticsearch's reindex API.
#[derive(Drop)]
pub struct ReindexAsk {
    /// The index whose documents are read.
    pub source: Shared<Text>,
    /// Which of them are read.
    pub query: Query,
    /// How many are read and written at a time, from 1 to 10,000.
    pub batch: u32,
    /// The index to which they are written.
    pub dest: Shared<Text>,
    /// Into how many slices the documents are cut, from 1 to 32.
    pub slices: u32,
    /// How many documents a second are written at most, from 1 to 1,000,000, where that is bounded.
    pub rate: Option<u32>,
    pub ghost batch_in_range: { (1 ≤ batch) × (batch ≤ 10000) },
    pub ghost slices_in_range: { (1 ≤ slices) × (slices ≤ 32) },
    pub ghost rate_in_range: { ForSome rate (λ r. (1 ≤ r) × (r ≤ 1000000)) },
}

/// One slice of such a copy.
#[derive(Drop)]
pub struct SliceAsk {
    pub reindex: ReindexAsk,
    /// The slice, from 0 and below the number of slices.
    pub slice: u32,
    pub ghost slice_in_range: { slice < reindex.slices },
}

/// A batch of documents that are written to an index, after Elasticsearch's bulk API.
#[derive(Drop)]
pub struct BulkAsk {
    /// The index to which they are written.
    pub dest: Shared<Text>,
    pub docs: Items<Doc>,
}

/// The documents of a batch that lie in one shard.
#[derive(Drop)]
pub struct BulkShardAsk {
    /// The index to which they are written.
    pub dest: Shared<Text>,
    /// The shard, from 0.
    pub shard: u32,
    pub docs: Items<Doc>,
}

/// That a document was written.
#[derive(Drop)]
pub struct WriteNote {
    pub index: Shared<Text>,
    /// The shard, from 0.
    pub shard: u32,
    /// Whether no document of its id was there before.
    pub created: bool,
    pub id: Shared<Text>,
}

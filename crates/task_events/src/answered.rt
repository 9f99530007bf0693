ghost use Rattle.std.specs.Prelude.{◌≡◌, IfOk};
ghost use Rattle.task_events.specs.Answered.{as_answered};

use crate::request::{FetchAsk, ReindexAsk, Request, ScrollAsk, SearchAsk, ShardAsk, SliceAsk};
use shared_value::Shared;
use std::alloc::AllocError;
use task_ids::Text;

/// A request as its answer tells it, so that who asked can see that it is the answer to that request. Of a batch it has the number
/// of documents and not the documents, which may go once they are written.
#[derive(Drop)]
pub enum AnsweredRequest {
    /// A search of all shards of an index.
    Search(Shared<SearchAsk>),
    /// The query phase of a search, of one shard.
    Query(Shared<ShardAsk>),
    /// The fetch phase of a search, of one shard.
    Fetch(Shared<FetchAsk>),
    /// The next page of a search that opened a context.
    Scroll(Shared<ScrollAsk>),
    /// A copy of documents of one index into another.
    Reindex(Shared<ReindexAsk>),
    /// One slice of such a copy.
    Slice(Shared<SliceAsk>),
    /// A batch of documents that are written to an index.
    Bulk {
        /// The index to which they are written.
        dest: Shared<Text>,
        /// How many documents the batch has.
        docs: u64,
    },
    /// The documents of a batch that lie in one shard.
    BulkShard {
        /// The index to which they are written.
        dest: Shared<Text>,
        /// The shard, from 0.
        shard: u32,
        /// How many documents they are.
        docs: u64,
    },
}

impl AnsweredRequest {
    /// A request, as its answer tells it. It takes no memory, and fails only where the count of owners of what it shares is full,
    /// which is told as want of memory.
    pub fn of(request: &Request) -> Result<AnsweredRequest, AllocError>
        ensures { IfOk result (λ answered. answered ≡ as_answered request.now) }
    {
        match request {
            Request::Search(ask) => Ok(AnsweredRequest::Search(ask.copy()?)),
            Request::Query(ask) => Ok(AnsweredRequest::Query(ask.copy()?)),
            Request::Fetch(ask) => Ok(AnsweredRequest::Fetch(ask.copy()?)),
            Request::Scroll(ask) => Ok(AnsweredRequest::Scroll(ask.copy()?)),
            Request::Reindex(ask) => Ok(AnsweredRequest::Reindex(ask.copy()?)),
            Request::Slice(ask) => Ok(AnsweredRequest::Slice(ask.copy()?)),
            Request::Bulk(ask) => {
                let batch = ask.get();
                Ok(AnsweredRequest::Bulk {
                    dest: batch.dest.copy()?,
                    docs: batch.docs.as_slice().len() as u64,
                })
            }
            Request::BulkShard(ask) => {
                let part = ask.get();
                Ok(AnsweredRequest::BulkShard {
                    dest: part.dest.copy()?,
                    shard: part.shard,
                    docs: part.docs.as_slice().len() as u64,
                })
            }
        }
    }
}

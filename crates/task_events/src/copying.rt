//! Copies of requests and replies. Each fails only for want of memory.

ghost use Rattle.std.specs.Prelude.{◌≡◌, IfOk};

use crate::context::Context;
use crate::reply::{Hit, Reply, SearchReply, ShardTop};
use crate::request::{
    BulkAsk, BulkShardAsk, FetchAsk, HitKey, ReindexAsk, Request, SearchAsk, ShardAsk, SliceAsk,
};
use query_match::{Copied, copies_of};
use std::alloc::AllocError;
use task_ids::{Doc, Items};

impl HitKey {
    /// An equal key.
    pub fn copy(&self) -> Result<HitKey, AllocError>
        ensures { IfOk result (λ key. key ≡ self.now) }
    {
        Ok(HitKey {
            sort: self.sort.copy()?,
            shard: self.shard,
            place: self.place,
        })
    }
}

/// An equal key, where there is one.
pub fn copy_key(key: &Option<HitKey>) -> Result<Option<HitKey>, AllocError>
    ensures { IfOk result (λ copy. copy ≡ key.now) }
{
    match key {
        None => Ok(None),
        Some(key) => Ok(Some(key.copy()?)),
    }
}

impl Copied for HitKey {
    fn copied(&self) -> Result<HitKey, AllocError> {
        self.copy()
    }
}

impl Copied for Hit {
    fn copied(&self) -> Result<Hit, AllocError> {
        self.copy()
    }
}

/// Equal items, in the same order.
fn copy_items<X: Copied>(items: &Items<X>) -> Result<Items<X>, AllocError>
    ensures { IfOk result (λ copies. copies ≡ items.now) }
{
    let copies = copies_of(items.allocator(), items.as_slice())?;
    Ok(Items::from_vec(copies))
}

/// The same small values, in the same order.
fn copy_values<X: Copy>(values: &Items<X>) -> Result<Items<X>, AllocError>
    ensures { IfOk result (λ copies. copies ≡ values.now) }
{
    let copies = Vec::from_slice(values.allocator(), values.as_slice())?;
    Ok(Items::from_vec(copies))
}

impl SearchAsk {
    /// An equal ask.
    pub fn copy(&self) -> Result<SearchAsk, AllocError>
        ensures { IfOk result (λ ask. ask ≡ self.now) }
    {
        Ok(SearchAsk {
            index: self.index.copy()?,
            body: self.body.copy()?,
            scroll: self.scroll,
            slice: self.slice,
            owner: self.owner,
        })
    }
}

impl ShardAsk {
    /// An equal ask.
    pub fn copy(&self) -> Result<ShardAsk, AllocError>
        ensures { IfOk result (λ ask. ask ≡ self.now) }
    {
        let after = copy_key(&self.after)?;
        let index = self.index.copy()?;
        let body = self.body.copy()?;
        Ok(ShardAsk {
            index,
            shard: self.shard,
            body,
            version: self.version,
            after,
            slice: self.slice,
        })
    }
}

impl FetchAsk {
    /// An equal ask.
    pub fn copy(&self) -> Result<FetchAsk, AllocError>
        ensures { IfOk result (λ ask. ask ≡ self.now) }
    {
        Ok(FetchAsk {
            index: self.index.copy()?,
            shard: self.shard,
            version: self.version,
            places: copy_values(&self.places)?,
        })
    }
}

/// Equal documents, in the same order. It fails only for want of memory.
pub fn copy_docs(docs: &Items<Doc>) -> Result<Items<Doc>, AllocError>
    ensures { IfOk result (λ copies. copies ≡ docs.now) }
{
    let mut copies = Vec::with_capacity(docs.allocator(), docs.as_slice().len())?;
    for doc in docs.as_slice() {
        copies.push(doc.copy()?)?;
    }
    Ok(Items::from_vec(copies))
}

impl ReindexAsk {
    /// An equal ask.
    pub fn copy(&self) -> Result<ReindexAsk, AllocError>
        ensures { IfOk result (λ ask. ask ≡ self.now) }
    {
        let source = self.source.copy()?;
        let query = self.query.copy()?;
        let dest = self.dest.copy()?;
        Ok(ReindexAsk {
            source,
            query,
            batch: self.batch,
            dest,
            slices: self.slices,
            rate: self.rate,
        })
    }
}

impl SliceAsk {
    /// An equal ask.
    pub fn copy(&self) -> Result<SliceAsk, AllocError>
        ensures { IfOk result (λ ask. ask ≡ self.now) }
    {
        let reindex = self.reindex.copy()?;
        Ok(SliceAsk {
            reindex,
            slice: self.slice,
        })
    }
}

impl BulkAsk {
    /// An equal ask.
    pub fn copy(&self) -> Result<BulkAsk, AllocError>
        ensures { IfOk result (λ ask. ask ≡ self.now) }
    {
        Ok(BulkAsk {
            dest: self.dest.copy()?,
            docs: copy_docs(&self.docs)?,
        })
    }
}

impl BulkShardAsk {
    /// An equal ask.
    pub fn copy(&self) -> Result<BulkShardAsk, AllocError>
        ensures { IfOk result (λ ask. ask ≡ self.now) }
    {
        Ok(BulkShardAsk {
            dest: self.dest.copy()?,
            shard: self.shard,
            docs: copy_docs(&self.docs)?,
        })
    }
}

impl Request {
    /// An equal request.
    pub fn copy(&self) -> Result<Request, AllocError>
        ensures { IfOk result (λ request. request ≡ self.now) }
    {
        match self {
            Request::Search(ask) => Ok(Request::Search(ask.copy()?)),
            Request::Query(ask) => Ok(Request::Query(ask.copy()?)),
            Request::Fetch(ask) => Ok(Request::Fetch(ask.copy()?)),
            Request::Scroll(ask) => Ok(Request::Scroll(ask.copy()?)),
            Request::Reindex(ask) => Ok(Request::Reindex(ask.copy()?)),
            Request::Slice(ask) => Ok(Request::Slice(ask.copy()?)),
            Request::Bulk(ask) => Ok(Request::Bulk(ask.copy()?)),
            Request::BulkShard(ask) => Ok(Request::BulkShard(ask.copy()?)),
        }
    }
}

impl Hit {
    /// An equal hit.
    pub fn copy(&self) -> Result<Hit, AllocError>
        ensures { IfOk result (λ hit. hit ≡ self.now) }
    {
        Ok(Hit {
            index: self.index.copy()?,
            doc: self.doc.copy()?,
            place: self.place,
        })
    }
}

/// Equal hits, in the same order.
pub fn copy_hits(hits: &Items<Hit>) -> Result<Items<Hit>, AllocError>
    ensures { IfOk result (λ copies. copies ≡ hits.now) }
{
    copy_items(hits)
}

impl ShardTop {
    /// An equal top.
    pub fn copy(&self) -> Result<ShardTop, AllocError>
        ensures { IfOk result (λ top. top ≡ self.now) }
    {
        Ok(ShardTop {
            shard: self.shard,
            version: self.version,
            count: self.count,
            keys: copy_items(&self.keys)?,
        })
    }
}

impl SearchReply {
    /// An equal answer.
    pub fn copy(&self) -> Result<SearchReply, AllocError>
        ensures { IfOk result (λ reply. reply ≡ self.now) }
    {
        Ok(SearchReply {
            context: self.context,
            shards: copy_values(&self.shards)?,
            failed: copy_values(&self.failed)?,
            total: self.total,
            hits: copy_hits(&self.hits)?,
            last: copy_key(&self.last)?,
        })
    }
}

impl Context {
    /// An equal context. It fails only for want of memory.
    pub fn copy(&self) -> Result<Context, AllocError>
        ensures { IfOk result (λ context. context ≡ self.now) }
    {
        Ok(Context {
            id: self.id,
            ask: self.ask.copy()?,
            shards: self.shards.copy()?,
            after: copy_key(&self.after)?,
            keep_ms: self.keep_ms,
            last_ms: self.last_ms,
            owner: self.owner,
            busy: self.busy,
        })
    }
}

impl Reply {
    /// An equal reply.
    pub fn copy(&self) -> Result<Reply, AllocError>
        ensures { IfOk result (λ reply. reply ≡ self.now) }
    {
        match self {
            Reply::Search(reply) => Ok(Reply::Search(reply.copy()?)),
            Reply::Top(top) => Ok(Reply::Top(top.copy()?)),
            Reply::Hits(hits) => Ok(Reply::Hits(hits.copy()?)),
            Reply::AllFailed(failed) => Ok(Reply::AllFailed(failed.copy()?)),
            Reply::Wrote(counts) => Ok(Reply::Wrote(counts.copy()?)),
            Reply::Cancelled {
                task,
                cancel,
                counts,
            } => Ok(Reply::Cancelled {
                task: *task,
                cancel: *cancel,
                counts: counts.copy()?,
            }),
            Reply::Rejected { node } => Ok(Reply::Rejected { node: *node }),
        }
    }
}

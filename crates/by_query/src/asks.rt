//! What the tasks of an update are asked to do. These are requests to be, and move to where the others stand.

ghost use Rattle.std.specs.Prelude.{◌≡◌, ◌<◌, ◌≤◌, IfOk};
ghost use Rattle.std.specs.Option.{ForSome};

use crate::change::{Change, copy_changes};
use query_match::Query;
use shared_value::Shared;
use std::alloc::AllocError;
use task_ids::{DocSource, Items, Text};

/// A rewriting of the documents of an index that match a query, after Elasticsearch's update by query.
#[derive(Drop)]
pub struct UpdateAsk {
    /// The index whose documents are rewritten.
    pub index: Shared<Text>,
    /// Which of them are.
    pub query: Query,
    /// How many are read and written at a time, from 1 to 10,000.
    pub batch: u32,
    /// The fields that each of them gets.
    pub set: DocSource,
    /// Whether it goes on after a conflict, which then is no failure.
    pub proceed: bool,
    /// Into how many slices the documents are cut, from 1 to 32.
    pub slices: u32,
    /// How many documents a second are written at most, from 1 to 1,000,000, where that is bounded.
    pub rate: Option<u32>,
    pub ghost batch_in_range: { (1 ≤ batch) × (batch ≤ 10000) },
    pub ghost slices_in_range: { (1 ≤ slices) × (slices ≤ 32) },
    pub ghost rate_in_range: { ForSome rate (λ r. (1 ≤ r) × (r ≤ 1000000)) },
}

/// One slice of such a rewriting.
#[derive(Drop)]
pub struct UpdateSliceAsk {
    /// The rewriting of which it is a slice.
    pub update: UpdateAsk,
    /// The slice, from 0 and below the number of slices.
    pub slice: u32,
    pub ghost slice_in_range: { slice < update.slices },
}

/// A batch of documents that are rewritten.
#[derive(Drop)]
pub struct UpdateBulkAsk {
    /// The index in which they lie.
    pub index: Shared<Text>,
    /// What becomes of each, in the order in which they were read.
    pub changes: Items<Change>,
}

/// The documents of a batch that lie in one shard.
#[derive(Drop)]
pub struct UpdateShardAsk {
    /// The index in which they lie.
    pub index: Shared<Text>,
    /// The shard, from 0.
    pub shard: u32,
    /// What becomes of each, in the order in which they are looked at.
    pub changes: Items<Change>,
}

impl UpdateAsk {
    /// An equal ask. It fails only for want of memory.
    pub fn copy(&self) -> Result<UpdateAsk, AllocError>
        ensures { IfOk result (λ ask. ask ≡ self.now) }
    {
        let index = self.index.copy()?;
        let query = self.query.copy()?;
        let set = self.set.copy()?;
        Ok(UpdateAsk {
            index,
            query,
            batch: self.batch,
            set,
            proceed: self.proceed,
            slices: self.slices,
            rate: self.rate,
        })
    }
}

impl UpdateSliceAsk {
    /// An equal ask. It fails only for want of memory.
    pub fn copy(&self) -> Result<UpdateSliceAsk, AllocError>
        ensures { IfOk result (λ ask. ask ≡ self.now) }
    {
        let update = self.update.copy()?;
        Ok(UpdateSliceAsk {
            update,
            slice: self.slice,
        })
    }
}

impl UpdateBulkAsk {
    /// An equal ask. It fails only for want of memory.
    pub fn copy(&self) -> Result<UpdateBulkAsk, AllocError>
        ensures { IfOk result (λ ask. ask ≡ self.now) }
    {
        Ok(UpdateBulkAsk {
            index: self.index.copy()?,
            changes: copy_changes(&self.changes)?,
        })
    }
}

impl UpdateShardAsk {
    /// An equal ask. It fails only for want of memory.
    pub fn copy(&self) -> Result<UpdateShardAsk, AllocError>
        ensures { IfOk result (λ ask. ask ≡ self.now) }
    {
        Ok(UpdateShardAsk {
            index: self.index.copy()?,
            shard: self.shard,
            changes: copy_changes(&self.changes)?,
        })
    }
}

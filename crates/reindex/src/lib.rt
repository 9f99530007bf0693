//! Copying the documents of one index into another, after Elasticsearch's reindex and bulk APIs: what each part of it asks for, writes and counts.
#![tactic(auto)]

mod answer;
mod batch;
mod bulk;
mod open_asks;
mod phase;
mod possible;
mod replies;
mod root;
mod searching;
mod shard_work;
mod slice;
mod slices;
mod told;
mod writing;

pub use bulk::Bulk;
pub use phase::Phase;
pub use root::ReindexRoot;
pub use shard_work::BulkShardWork;
pub use slice::Slice;
pub use slices::Slices;

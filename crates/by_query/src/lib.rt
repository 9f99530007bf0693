//! Rewriting the documents that match a query, after Elasticsearch's update by query: what a document is overlaid with, which changes are in
//! conflict, the changes of a batch in one shard, and the pace at which batches follow one another.
//!
//! A plain `set` of fields stands in place of scripts, and the place of a row in that of its sequence number.
#![tactic(auto)]

mod asks;
mod change;
mod counts;
mod laws;
mod overlays;
mod pace;
mod shard_work;
mod writing;

pub use asks::{UpdateAsk, UpdateBulkAsk, UpdateShardAsk, UpdateSliceAsk};
pub use change::{Change, copy_changes};
pub use counts::UpdateCounts;
pub use laws::{the_fastest_rate_counts, the_second_change_conflicts};
pub use overlays::overlay;
pub use pace::Pace;
pub use shard_work::UpdateShardWork;

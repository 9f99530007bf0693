//! The contexts of scrolls on one node: a search opens one, pages use it one after the other, and it is gone once it was not used for
//! its keep-alive, or is cleared.
//!
//! After Elasticsearch's search contexts.
#![tactic(auto)]

mod context;
mod ends;
mod moments;
mod owners;
mod table;
mod versions;

pub use context::{PageError, end_of};
pub use ends::Ends;
pub use table::ScrollTable;
pub use task_events::{Context, ShardCount, ShardCounts};
pub use versions::Versions;

//! A search in two phases: each shard finds the keys that stand first, the keys are merged, and the documents of the
//! winners are fetched.
#![tactic(auto)]

mod answer;
mod asking;
mod fetch;
mod fetching;
mod keeping;
mod looking;
mod merging;
mod possible;
mod query;
mod reading;
mod root;
mod same;

pub use fetch::{FetchAnswer, ShardFetch};
pub use merging::merge;
pub use query::{ShardQuery, TurnAnswer};
pub use root::{RootPlan, SearchRoot};
pub use task_events::{
    Context, FetchAsk, HitKey, ScrollAsk, SearchAsk, SearchReply, ShardAsk, ShardCount,
    ShardCounts, ShardRead, ShardTop, SlicePick,
};

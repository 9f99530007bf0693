//! The events of tasks, the history that they make, and what can be asked of it.
#![tactic(auto)]

mod answered;
mod context;
mod copying;
mod counts;
mod event;
mod events;
mod history;
mod reading;
mod reply;
mod request;
mod same_key;
mod step;
mod stop;
mod summary;
mod tally;

pub use answered::AnsweredRequest;
pub use context::Context;
pub use copying::{copy_docs, copy_hits, copy_key};
pub use counts::ShardCounts;
pub use event::{Event, Outcome};
pub use events::Events;
pub use history::{History, MAX_EVENTS, PushError};
pub use reading::ShardRead;
pub use reply::{
    Counts, FailedShard, Hit, Reply, SearchReply, ShardCount, ShardFailure, ShardTop, ShardVersion,
};
pub use request::{
    BulkAsk, BulkShardAsk, FetchAsk, HitKey, ReindexAsk, Request, ScrollAsk, SearchAsk, ShardAsk,
    SliceAsk, SlicePick, WriteNote,
};
pub use same_key::{is_same_cursor, is_same_key};
pub use step::{Asked, Do};
pub use stop::Stop;
pub use summary::Summary;
pub use tally::Tally;

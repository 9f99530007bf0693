//! Several data workers on each node: which of them does what, and how what they tell is put together.
//!
//! A [`Pool`] says how many there are. [`worker_of`] gives the worker that a request goes to, and [`shards_of`] the shards that a worker
//! holds; a request that works on a shard goes to a worker that holds it. [`quota_of`] shares out the slots of a node. A [`Gather`] takes one part of a list of tasks from each worker
//! and gives all of them with the last.
//!
//! A [`MeetGate`] holds the turns of work on one node until so many of them meet, for tests.
#![tactic(auto)]

mod gather;
mod meet;
mod pool;
mod shares;

pub use gather::Gather;
pub use meet::MeetGate;
pub use pool::Pool;
pub use shares::{quota_of, quotas_add_up, requests_find_their_shards, shards_of, worker_of};

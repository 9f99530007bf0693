//! The work of a task: one type of all kinds of work, and what each does next. What a kind needs beside its machine stands in a module of its own.
#![tactic(auto)]

mod bulk_shard;
mod fetch;
mod query;
mod scroll;
mod search;
mod work;

pub use task_events::Do;
pub use work::Work;

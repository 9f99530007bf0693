//! Lists of live tasks: which tasks a filter lets through, and how they are shown, after Elasticsearch's task
//! management API.
#![tactic(auto)]

mod filter;
mod groups;
mod levels;
mod list;
mod members;
mod names;
mod task;
mod tree;

pub use filter::Filter;
pub use levels::no_level_is_missing;
pub use list::{GroupBy, list_line, task_line};

//! The small types that every crate of tasktree stands on: task ids, texts and patterns, documents, the cluster, and
//! why an input is refused.
#![tactic(auto)]

mod action;
mod board_name;
mod body;
mod boxed;
mod cause;
mod cluster;
mod corpus;
mod doc;
mod items;
mod json_value;
mod keys;
mod pattern;
mod source;
mod task_id;
mod task_info;
mod text;
mod whole;

pub use action::Action;
pub use board_name::{AnyCancel, BoardName};
pub use body::Body;
pub use boxed::Boxed;
pub use cause::Cause;
pub use cluster::Cluster;
pub use corpus::{Corpus, CorpusLine};
pub use doc::Doc;
pub use items::Items;
pub use json_value::{Json, JsonMember};
pub use keys::{Key, Keys};
pub use pattern::matches_pattern;
pub use source::{DocSource, Member, NotSource};
pub use task_id::{Malformed, TaskId};
pub use task_info::{Headers, NewTask, TaskInfo};
pub use text::Text;
pub use whole::is_whole;

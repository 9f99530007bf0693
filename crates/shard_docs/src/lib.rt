//! Documents: where they lie, the rows of a shard at every version, and reading a corpus.
#![tactic(auto)]

mod action;
mod corpus;
mod fault;
mod index;
mod json_line;
mod lines;
mod numbers;
mod placing;
mod rows;
mod seen;
mod shard;

pub use corpus::{CorpusRead, read_corpus};
pub use fault::{CorpusError, LineError, read_at};
pub use json_line::whole_value_of_line;
pub use lines::split_line;
pub use numbers::{NumberAt, number_at};
pub use placing::{hash_id, node_of, shard_of, slice_of};
pub use shard::{Shard, Written};
pub use task_ids::{Corpus, CorpusLine, Doc};

//! Whether a document matches a query or has what it picks, and by which key a sort orders it.
#![tactic(auto)]

mod best;
mod field;
mod field_test;
mod keys;
mod matching;
mod picked;

pub use keys::{compare_key, compare_value, sort_key};
pub use matching::matches;
pub use picked::has_picked;

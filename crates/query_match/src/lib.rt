//! Queries, sorts and bodies of searches as values, after Elasticsearch's Query DSL, and what they mean: which documents a query
//! matches, by which key a sort orders them, and which value all that a query matches have.
#![tactic(auto)]

mod body;
mod copying;
mod found;
mod items;
mod pick;
mod query;
mod scalar;
mod sort;
mod text;

pub use body::SearchBody;
pub use copying::{Copied, copies_of};
pub use found::{Found, value_in};
pub use items::Items;
pub use pick::{Pick, is_key};
pub use query::{Node, Query, Range, Side, Test};
pub use scalar::Scalar;
pub use sort::{KeyPart, SortBy, SortKey};
pub use text::Text;

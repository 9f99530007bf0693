//! Reading queries, sorts and the bodies of searches and reindexes from JSON, after Elasticsearch's Query DSL, narrowed: exactly the forms, or the first fault.
#![tactic(auto)]

mod body_reading;
mod fault;
mod form;
mod leaf;
mod path;
mod reading;
mod reindex_body;
mod reindex_reading;
mod shape;
mod sort_reading;

pub use body_reading::read_body;
pub use doc_match::sort_key;
pub use fault::{BodyError, QueryError, QueryFault, ReindexError};
pub use query_match::{Items, KeyPart, Query, Scalar, SearchBody, SortBy, SortKey, Text};
pub use reading::read_query;
pub use reindex_body::ReindexBody;
pub use reindex_reading::read_reindex;

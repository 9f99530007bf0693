//! The body of a search.

use crate::items::Items;
use crate::query::Query;
use crate::sort::SortBy;

/// What a search asks for.
#[derive(Drop)]
pub struct SearchBody {
    /// The query, `match_all` where the body has none.
    pub query: Query,
    /// The entries of the sort, at most 8. None where the body has no sort.
    pub sort: Items<SortBy>,
    /// How many hits are passed over, 0 where the body has no `from`.
    pub from: u32,
    /// How many hits are shown at most, 10 where the body has no `size`.
    pub size: u32,
}

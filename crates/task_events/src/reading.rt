use crate::reply::ShardCount;

/// A shard that a search looks through, or a page of one.
#[derive(Clone, Copy, PartialEq, Eq)]
pub enum ShardRead {
    /// A search reads the newest version of the shard, which is given from 0.
    Newest(u32),
    /// A page reads the version that the context of its search keeps, in which so many rows match.
    Kept(ShardCount),
}

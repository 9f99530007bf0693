//! How many workers a cluster has.
ghost use Rattle.std.specs.Prelude.{◌<◌, ◌≤◌};

/// How many workers share the work of a cluster. None of its numbers is 0.
#[derive(Clone, Copy, PartialEq, Eq)]
pub struct Pool {
    /// The number of nodes, which are numbered from 1.
    pub nodes: u32,
    /// The number of shards of each index, which are numbered from 0.
    pub shards: u32,
    /// The number of data workers of each node, at most 4. They are numbered from 0.
    pub workers: u32,
    pub ghost has_nodes: { 0 < nodes },
    pub ghost has_shards: { 0 < shards },
    pub ghost has_workers: { 0 < workers },
    pub ghost few_workers: { workers ≤ 4 },
}

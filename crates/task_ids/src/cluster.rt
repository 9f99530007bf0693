ghost use Rattle.task_ids.specs.Limits.{IsNode, IsShardCount, IsSlotCount};

/// How large the cluster is that a script runs on.
#[derive(Clone, Copy, PartialEq, Eq)]
pub struct Cluster {
    /// The number of nodes, from 1 to 15. They are called `n1`, `n2` and so on.
    pub nodes: u32,
    /// The number of shards of each index, from 1 to 15.
    pub shards: u32,
    /// How many tasks may be live on a node at once, from 1 to 1,024.
    pub slots: u32,
    pub ghost nodes_in_range: { IsNode nodes },
    pub ghost shards_in_range: { IsShardCount shards },
    pub ghost slots_in_range: { IsSlotCount slots },
}

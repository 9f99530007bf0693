use crate::flight::Flight;
use ban_table::BanTable;
use cancel_core::CancelCore;
use corpus_shards::Shards;
use node_parts::listing::Listing;
use node_parts::running::Running;
use ranked::RankedSet;
use script_lang::Script;
use scroll_table::ScrollTable;
use std::alloc::Global;
use std::collections::BTreeMap;
use task_events::History;
use task_ids::{Boxed, Cluster, Corpus, TaskId};
use task_table::TaskTable;

/// What the world knows: what has happened, and the tables that say of it what the next step needs.
#[derive(Drop)]
pub struct State<'a> {
    pub alloc: Global,
    /// How many nodes there are, shards an index has, and slots a node.
    pub cluster: Cluster,
    /// The documents that were there at first.
    pub corpus: &'a Corpus,
    /// The shards, with all that is written so far.
    pub shards: Shards,
    /// The commands.
    pub script: &'a Script,
    /// What has happened.
    pub history: History,
    /// The clock, in milliseconds.
    pub clock: u64,
    /// The live tasks.
    pub tasks: BTreeMap<TaskId, Boxed<Running>>,
    /// The table of each node, from the first on.
    pub tables: Vec<TaskTable>,
    /// The messages that were sent and have not come.
    pub flight: Flight,
    /// The task of each command that started one.
    pub roots: BTreeMap<u32, TaskId>,
    /// The contexts on each node, from the first on.
    pub contexts: Vec<ScrollTable>,
    /// The bans that stand on each node, from the first on.
    pub bans: Vec<BanTable>,
    /// The cancellations of each node's tasks, from the first on.
    pub cores: Vec<CancelCore>,
    /// At how many of the tasks that it named each cancel waits.
    pub left: BTreeMap<u32, usize>,
    /// The open listings, in order.
    pub listings: RankedSet<Listing>,
}

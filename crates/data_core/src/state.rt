ghost use Rattle.std.specs.Prelude.{◌≡◌, ◌<◌, ℕ, List, false, is_some, IfOk, IfSome, IfNone, None, Some, All};
ghost use Rattle.task_ids.specs.declared.doc.Doc.{Doc};
ghost use Rattle.task_work.specs.Works.{due_in, next_of};
ghost use Rattle.live_tasks.specs.declared.entry.Entry.{Entry};
ghost use Rattle.std.specs.FinMap as finite;
ghost use Rattle.task_ids.specs.Limits.{IsNode};
ghost use Rattle.task_ids.specs.Placing.{node_of};
ghost use Rattle.node_link.specs.Lawful.{IsWorker};
ghost use Rattle.run_facts.specs.Inboxes.{IsPoolSize};
ghost use Rattle.held_shards.specs.Held.{HasLines};
ghost use Rattle.live_tasks.specs.Live.{count, entry_at, number_at, IsBeyond, HasId};
ghost use Rattle.live_tasks.specs.Ties.{AreTasks};
ghost use Rattle.data_core.specs.Cores.{IsNewDataCore, IsPoolOf};
ghost use Rattle.data_core.specs.Plans.{does_work};

use data_parts::{Clock, takes_turn};
use data_pool::Pool;
use held_shards::HeldShards;
use live_tasks::LiveTasks;
use scroll_table::ScrollTable;
use std::alloc::{AllocError, Global};
use task_ids::{Cluster, Corpus, TaskId};

/// The core of a node's data worker.
#[derive(Drop)]
pub struct DataCore {
    pub(crate) alloc: Global,
    pub(crate) cluster: Cluster,
    /// How many workers share the work of the cluster.
    pub(crate) pool: Pool,
    /// The worker's node, from 1.
    pub(crate) node: u32,
    /// The worker's number among those of its node, from 0.
    pub(crate) worker: u32,
    pub(crate) clock: Clock,
    /// The worker ends once it has no live task.
    pub(crate) leaving: bool,
    pub(crate) live: LiveTasks,
    pub(crate) shards: HeldShards,
    /// The contexts of the slices that are live here.
    pub(crate) contexts: ScrollTable,
}

impl DataCore {
    /// The core of a worker with this number on a node of a cluster whose nodes have so many data workers each, from 1 to 4. So many tasks
    /// may be live here at once, which may be none. It holds exactly the named shards, which lie on its node, with their lines of the corpus.
    /// It belongs to each fresh seat of the node's board. It fails only for want of memory.
    pub fn new(
        alloc: Global,
        cluster: &Cluster,
        workers: u32,
        node: u32,
        worker: u32,
        quota: u32,
        shards: Vec<u32>,
        corpus: &Corpus,
    ) -> Result<DataCore, AllocError>
        requires workers { IsPoolSize workers }
        requires node { IsNode node }
        requires worker { IsWorker worker }
        requires there { All (λ shard. node_of shard cluster.now.nodes ≡ node) shards.items }
        ensures new { IfOk result (IsNewDataCore node) }
        ensures held { IfOk result (λ core. core.shards.numbers ≡ shards) }
        ensures lines { IfOk result (λ core. HasLines corpus.now.lines cluster.now.shards core.shards) }
        ensures contexts { IfOk result (λ core. core.contexts ≡ finite.empty) }
        ensures pool { IfOk result (λ core. IsPoolOf cluster.now workers core.pool) }
        ensures begins { IfOk result (λ core. (core.clock.ms ≡ 0) × (core.clock.draining ≡ false) × (core.leaving ≡ false)) }
        ensures own { IfOk result (λ core. (core.node ≡ node) × (core.worker ≡ worker) × (core.cluster ≡ cluster.now) × (core.live.quota ≡ quota)) }
    {
        let shards = HeldShards::new(alloc, corpus, cluster.shards, shards)?;
        Ok(DataCore {
            alloc,
            cluster: *cluster,
            pool: Pool {
                nodes: cluster.nodes,
                shards: cluster.shards,
                workers,
            },
            node,
            worker,
            clock: Clock::new(),
            leaving: false,
            live: LiveTasks::new(alloc, node, quota),
            shards,
            contexts: ScrollTable::new(alloc),
        })
    }

    /// The worker's node, from 1.
    pub fn node(&self) -> u32
        ensures { result ≡ self.now.node }
    {
        self.node
    }

    /// The worker's number among those of its node, from 0.
    pub fn worker(&self) -> u32
        ensures { result ≡ self.now.worker }
    {
        self.worker
    }

    /// How many nodes the cluster has, from 1 to 15.
    pub fn nodes(&self) -> u32
        ensures nodes { result ≡ self.now.cluster.nodes }
        ensures range { IsNode result }
    {
        self.cluster.nodes
    }

    /// How many data workers each node of the cluster has, from 1 to 4.
    pub fn workers(&self) -> u32
        ensures workers { result ≡ self.now.pool.workers }
        ensures range { IsPoolSize result }
    {
        self.pool.workers
    }

    /// Whether the worker was told to end once it has no live task.
    pub fn is_leaving(&self) -> bool
        ensures { result ≡ self.now.leaving }
    {
        self.leaving
    }

    /// The live task with the lowest id above this one, or of all where there is none.
    pub fn live_after(&self, task: Option<TaskId>) -> Option<TaskId>
        requires tasks { AreTasks self.now.live.node (entry_at self.now.live) (number_at self.now.live) }
        ensures found { IfSome result (λ t. IsBeyond task t.number × HasId t (entry_at self.now.live t.number)) }
        ensures lowest { IfSome result (λ t. (n : ℕ) → IsBeyond task n → n < t.number → entry_at self.now.live n ≡ None) }
        ensures none { IfNone result ((n : ℕ) → IsBeyond task n → entry_at self.now.live n ≡ None) }
    {
        self.live.live_after(task)
    }

    /// How many tasks are live here.
    pub fn live_count(&self) -> usize
        ensures { result ≡ count self.now.live }
    {
        self.live.len()
    }

    /// Whether a live task waits for a later moment of the clock, its mark left aside. It takes no memory.
    pub fn awaits_moment(&self, task: TaskId) -> bool
        ensures none { entry_at self.now.live task.number ≡ None → result ≡ false }
        ensures some { (e : Entry) (writes : List Doc) → entry_at self.now.live task.number ≡ Some e
            → result ≡ is_some (due_in (next_of e.running.work writes self.now.clock.ms)) }
    {
        match self.live.get(task.number) {
            Some(entry) => entry.running.work.due(self.clock.now()).is_some(),
            None => false,
        }
    }

    /// Whether a live task has passed and its plan, its mark left aside, is a turn of work. It takes no memory.
    pub fn works(&self, task: TaskId) -> bool
        ensures { result ≡ does_work (entry_at self.now.live task.number) }
    {
        match self.live.get(task.number) {
            Some(entry) => !entry.running.is_new && takes_turn(&entry.running.work),
            None => false,
        }
    }
}

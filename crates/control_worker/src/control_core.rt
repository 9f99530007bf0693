//! What a control worker knows.
ghost use Rattle.std.specs.Prelude.{◌≡◌, ◌≤◌, ◌↔◌, ℕ, [], true, false, IfOk};
ghost use Rattle.task_ids.specs.Limits.{IsNode, IsSlotCount};

use cancel_core::CancelCore;
use data_pool::Gather;
use std::alloc::{AllocError, Global};
use std::collections::{BTreeMap, VecDeque};
use task_ids::TaskId;

/// A ban of a parent, with the number of its cancel, from 1 to 65,535.
#[derive(Clone, Copy, PartialEq, Eq)]
pub struct Ban {
    pub parent: TaskId,
    pub cancel: u32,
}

/// What a control worker knows: the cancellations of its node's tasks, the bans that it has put on its board, those for which there was
/// no room, and what its data workers told of the matches of filters.
///
/// A look finds its ban without a scan of the others. Bans are kept back only where each place of the board has a ban.
#[derive(Drop)]
pub struct ControlCore {
    pub(crate) alloc: Global,
    node: u32,
    pub(crate) workers: u32,
    pub(crate) cancels: CancelCore,
    /// For each parent whose ban the board has, its cancel.
    pub(crate) bans: BTreeMap<TaskId, u32>,
    /// Oldest first.
    pub(crate) kept: VecDeque<Ban>,
    /// Room for the numbers of the children that a listing hands over.
    pub(crate) found: Vec<u32>,
    pub(crate) marks: u64,
    /// What was gathered for each cancel by a filter of which a part is missing.
    pub(crate) gathers: BTreeMap<u32, Gather>,
    ghost noded: { IsNode node },
    ghost pooled: { (1 ≤ workers) × (workers ≤ 4) },
}

impl ControlCore {
    ghost use Rattle.task_ids.specs.declared.task_id.TaskId.{TaskId};
    ghost use Rattle.control_worker.specs.View.{view_of, new_view, has_ban, is_banned, is_kept_back, is_gathering, IsIdle};

    /// The core of a node with so many data workers, whose board has room for so many tasks. It belongs to a control seat
    /// with no ban (`together_new` of `proofs/Belonging`). It fails only for want of memory.
    pub fn new(
        alloc: Global,
        node: u32,
        workers: u32,
        slots: u32,
    ) -> Result<ControlCore, AllocError>
        requires node { IsNode node }
        requires workers { (1 ≤ workers) × (workers ≤ 4) }
        requires slots { IsSlotCount slots }
        ensures new { IfOk result (λ core. view_of core ≡ new_view node workers slots) }
    {
        let found = vec![in alloc; 0; slots as usize]?;
        Ok(ControlCore {
            alloc,
            node,
            workers,
            cancels: CancelCore::new(alloc, node),
            bans: BTreeMap::new(alloc),
            kept: VecDeque::new(alloc),
            found,
            marks: 0,
            gathers: BTreeMap::new(alloc),
        })
    }

    /// The node whose core this is.
    pub fn node(&self) -> u32
        ensures node { result ≡ self.now.node }
        ensures range { IsNode result }
    {
        self.node
    }

    /// How many data workers the node has.
    pub fn workers(&self) -> u32
        ensures workers { result ≡ self.now.workers }
        ensures range { (1 ≤ result) × (result ≤ 4) }
    {
        self.workers
    }

    /// How many tasks it has marked so far, and begun to cancel. It counts no further than `u64::MAX`.
    pub fn marks(&self) -> u64
        ensures { result ≡ self.now.marks }
    {
        self.marks
    }

    /// Whether no cancellation is under way, and no part is missing of the matches of a filter.
    pub fn is_idle(&self) -> bool
        ensures { (result ≡ true) ↔ IsIdle (view_of self.now) }
    {
        self.cancels.is_idle() && self.misses_nothing()
    }

    /// Whether no part is missing of the matches of a filter.
    fn misses_nothing(&self) -> bool
        ensures { (result ≡ true) ↔ ((cancel : ℕ) → is_gathering cancel (view_of self.now) ≡ false) }
    {
        self.gathers.is_empty()
    }

    /// Whether the board has a ban.
    pub fn has_ban(&self) -> bool
        ensures { (result ≡ false) ↔ ((parent : TaskId) → has_ban (view_of self.now) parent ≡ false) }
    {
        !self.bans.is_empty()
    }

    /// Whether a ban is kept back until there is room for it.
    pub fn keeps_back(&self) -> bool
        ensures { (result ≡ false) ↔ ((view_of self.now).kept ≡ []) }
    {
        !self.kept.is_empty()
    }

    /// Whether a second ban of the parent is to be passed over: the board has one, or a listing of its children waits.
    pub(crate) fn is_banned(&self, parent: TaskId) -> bool
        ensures { result ≡ is_banned parent (view_of self.now) }
    {
        self.has_ban_of(parent) || self.cancels.has_listing(parent)
    }

    /// Whether the board has a ban of the parent.
    fn has_ban_of(&self, parent: TaskId) -> bool
        ensures { result ≡ has_ban (view_of self.now) parent }
    {
        self.bans.contains_key(&parent)
    }

    /// Whether a ban of the parent is kept back.
    pub(crate) fn is_kept_back(&self, parent: TaskId) -> bool
        ensures { result ≡ is_kept_back parent (view_of self.now) }
    {
        self.kept.iter().any(|ban| ban.parent == parent)
    }
}

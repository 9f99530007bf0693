ghost use Rattle.std.specs.Prelude.{◌≡◌, ◌&&◌, ◌||◌, not, filter, List, is_some};
ghost use Rattle.std.specs.List.{list_all};
ghost use Rattle.task_ids.specs.Limits.{IsNode};
ghost use Rattle.child_track.specs.NodeSet.{all_nodes};

use child_track::{NodeSet, Receipt};

/// How far a cancellation has come, but for who waits for it.
#[derive(Clone, Copy)]
pub(crate) struct Stage {
    pub(crate) cancel: u32,
    pub(crate) banned: NodeSet,
    pub(crate) acked: NodeSet,
    pub(crate) receipt: Option<Receipt>,
}

impl Stage {
    ghost use Rattle.cancel_core.specs.Stage.{is_open_at, seen};
    ghost use Rattle.cancel_core.specs.Cancellation.{is_nil, with_ack, with_receipt};
    ghost use Rattle.cancel_core.specs.declared.act.Waiter.{Waiter};

    /// Whether a banned node has not acknowledged.
    pub(crate) fn is_open_at(&self, node: u32) -> bool
        ensures { result ≡ is_open_at self.now node }
    {
        self.banned.has(node) && !self.acked.has(node)
    }

    #[tactic(auto, unfolding(child_track::specs::NodeSet::all_nodes))]
    fn is_open_nowhere(&self) -> bool
        ensures { result ≡ list_all (λ node. not (is_open_at self.now node)) all_nodes }
    {
        (1..16).all(|node| !self.is_open_at(node))
    }

    /// Whether each banned node has acknowledged.
    pub(crate) fn is_placed(&self) -> bool
        ensures { result ≡ is_nil (filter (is_open_at self.now) all_nodes) }
    {
        self.is_open_nowhere()
    }

    /// Whether the bans are placed and the task has ended.
    pub(crate) fn is_done(&self) -> bool
        ensures { result
            ≡ (is_nil (filter (is_open_at self.now) all_nodes) && is_some self.now.receipt) }
    {
        self.is_placed() && self.receipt.is_some()
    }

    /// Whether the bans are placed or the task has ended: it starts nothing any more.
    pub(crate) fn has_stopped(&self) -> bool
        ensures { result
            ≡ (is_nil (filter (is_open_at self.now) all_nodes) || is_some self.now.receipt) }
    {
        self.is_placed() || self.receipt.is_some()
    }

    pub(crate) fn after_ack(&self, from: u32) -> Stage
        requires { IsNode from }
        ensures { (waiters : List Waiter)
            → seen result waiters ≡ with_ack (seen self.now waiters) from }
    {
        Stage {
            cancel: self.cancel,
            banned: self.banned,
            acked: self.acked.with(from),
            receipt: self.receipt,
        }
    }

    pub(crate) fn after_end(&self, receipt: Receipt) -> Stage
        ensures { (waiters : List Waiter)
            → seen result waiters ≡ with_receipt (seen self.now waiters) receipt }
    {
        Stage {
            cancel: self.cancel,
            banned: self.banned,
            acked: self.acked,
            receipt: Some(receipt),
        }
    }
}

ghost use Rattle.std.specs.Prelude.{◌≡◌, ◌==◌, ◌||◌, ℕ};
ghost use Rattle.task_ids.specs.Limits.{IsNode};

/// A set of nodes: bit X stands for node X, from 1 to 15.
#[derive(Clone, Copy, PartialEq, Eq)]
pub struct NodeSet(pub u16);

impl NodeSet {
    ghost use Rattle.child_track.specs.NodeSet.{has_node};

    /// Whether the node is in the set.
    pub fn has(&self, node: u32) -> bool
        ensures { result ≡ has_node self.now node }
    {
        node < 16 && (self.0 >> node) & 1 == 1
    }

    /// The set with one node more.
    pub fn with(self, node: u32) -> NodeSet
        requires { IsNode node }
        ensures { (n : ℕ) → has_node result n ≡ (has_node self n || (n == node)) }
    {
        NodeSet(self.0 | 1 << node)
    }
}

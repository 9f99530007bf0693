//! The node from which nothing more is awaited.
ghost use Rattle.std.specs.Prelude.{◌≡◌, ℕ, true, false, IfSome, IfNone};
ghost use Rattle.child_track.specs.NodeSet.{has_node};
ghost use Rattle.task_ids.specs.Limits.{IsNode};

use child_track::NodeSet;

/// The lowest node that is in the first set and not in the second.
pub(crate) fn left(before: NodeSet, after: NodeSet) -> Option<u32>
    ensures node { IfSome result IsNode }
    ensures left { IfSome result (λ n. (has_node before n ≡ true) × (has_node after n ≡ false)) }
    ensures none { IfNone result ((n : ℕ) → IsNode n → has_node before n ≡ true → has_node after n ≡ true) }
{
    for node in 1..16 {
        if before.has(node) && !after.has(node) {
            return Some(node);
        }
    }
    None
}

// Which workers have left.
ghost use Rattle.std.specs.Prelude.{◌≡◌, ◌≤◌, ◌↔◌, ℕ, true};
ghost use Rattle.task_ids.specs.Limits.{IsNode};
ghost use Rattle.child_track.specs.NodeSet.{has_node};
ghost use Rattle.node_link.specs.Lawful.{IsLawful};
ghost use Rattle.node_worker.specs.Leaving.{Noted};

use child_track::NodeSet;
use node_link::{Body, RunName};

// Which workers have left, as a control worker was told.
#[derive(Clone, Copy)]
pub(crate) struct Left {
    // The data workers of its node that have, of which worker w stands as w + 1.
    pub(crate) data: NodeSet,
    // The control workers that have said so.
    pub(crate) control: NodeSet,
    // It has said so itself.
    pub(crate) has_said: bool,
}

// Takes in what a letter says of a worker that has left.
pub(crate) fn note_left<N: RunName>(left: &mut Left, body: &Body)
    requires { IsLawful N.allowed body.now }
    ensures { Noted body.now left.old left.new }
{
    match body {
        Body::DataLeft { worker } => left.data = left.data.with(*worker + 1),
        Body::ControlLeft { node } => left.control = left.control.with(*node),
        _ => {}
    }
}

// Whether all of so many workers, from 1 to 15, have left.
pub(crate) fn have_all_left(left: NodeSet, count: u32) -> bool
    requires { IsNode count }
    ensures { (result ≡ true) ↔ ((n : ℕ) → 1 ≤ n → n ≤ count → has_node left n ≡ true) }
{
    for one in 1..count + 1 {
        if !left.has(one) {
            return false;
        }
    }
    true
}

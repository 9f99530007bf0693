// The names of runs.
ghost use Rattle.node_link.specs.declared.body.Body.{Body};

use std::marker::Brand;
use task_ids::{AnyCancel, BoardName};

/// The name of a run, by which the types of its letters, cores and jobs keep facts about its cluster, corpus and
/// script. It has no bytes. As the name of a board it says which cancellations the boards of the run may be told of, and each number
/// of a cancellation in a letter is one of those.
pub trait RunName: BoardName {
    /// What the run asks of each letter besides. Whoever makes a letter shows it, and whoever takes one knows it.
    ghost asks: { Body → Type 0 };
}

/// A run of direct calls, which may be told of each cancellation, 1 to 65,535, and asks nothing else of its letters.
impl RunName for AnyCancel {
    ghost asks = { λ _. Unit {0} };
}

impl RunName for Brand {
    ghost asks = { λ _. Unit {0} };
}

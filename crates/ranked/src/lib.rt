//! Two containers of which any item is found by its rank: a queue and an ordered set. Their items lie in pieces, so
//! that a search by rank passes pieces and not items, and a change moves the items of one piece.
#![tactic(auto)]

mod piece;
mod pieces;
mod queue;
mod set;

pub use queue::Queue;
pub use set::RankedSet;

#[cfg(test)]
mod tests;

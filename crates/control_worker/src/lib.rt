//! What a node's control worker does with a letter.
//!
//! A control worker owns the cancellations of its node's tasks. On the node's board it puts, lists and takes away bans, and
//! marks tasks. [`control_turn`] takes in one letter. It sends nothing: it gives acts, in the order in which they are to be
//! done. What it gives follows from the letter, the [`ControlCore`] and the board's answers alone.
#![tactic(auto)]

mod act;
mod bans;
mod cancels;
mod control_core;
mod gathers;
mod listing;
mod matches;
mod turn;

pub use act::ControlAct;
pub use control_core::{Ban, ControlCore};
pub use turn::control_turn;

//! The live tasks of a data worker, and every call that it makes for them on its node's board.
//!
//! A worker registers tasks, looks for bans and marks, notes on which nodes its tasks ask, and ends them. What it knows of its tasks
//! and what its seat at the board knows stay together over each call, also over one that fails.
#![tactic(auto)]

mod asking;
mod asks;
mod change;
mod checking;
mod ending;
mod entry;
mod left;
mod live;
mod places;
mod registering;
mod table;
mod wanted;
mod working;

pub use entry::{EndedTask, Entry};
pub use live::LiveTasks;
pub use places::AskedPlaces;
pub use registering::Registered;
pub use wanted::Wanted;

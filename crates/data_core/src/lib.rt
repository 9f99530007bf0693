//! The core of a node's data worker: what it does with a letter, and with a step of one of its tasks.
//!
//! A core has the live tasks of its worker, the shards that the worker holds, and the contexts of its slices. It sends nothing itself:
//! each turn and each step gives the letters that are to be sent, in order. What it gives is told by the letter or the task, by the core
//! and by what the node's board answered.
#![tactic(auto)]

mod answers;
mod endings;
mod filters;
mod requests;
mod rows;
mod starts;
mod state;
mod step;
mod turn;

pub use state::DataCore;
pub use step::data_step;
pub use turn::data_turn;

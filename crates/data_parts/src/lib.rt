//! The parts of a data worker's core that need no board: its clock, the places of children, what work does next and replies with, and
//! the contexts of slices.
#![tactic(auto)]

mod clock;
mod contexts;
mod ending;
mod memory;
mod places;
mod plans;
mod posts;

pub use clock::Clock;
pub use contexts::{context_for, context_of, settle, use_context};
pub use ending::{Ending, reply_of};
pub use memory::or_memory;
pub use places::child_place;
pub use plans::{moment_of, plan_of, takes_turn};
pub use posts::one;

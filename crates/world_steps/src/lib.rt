//! The serial world: the nodes of a cluster, their tasks and the messages between them, one event at a time, as a script asks for it.
#![tactic(auto)]

mod acting;
mod alarms;
mod cancel_commands;
mod commands;
mod draining;
mod laws;
mod moving;
mod naming;
mod ready;
mod results;
mod roots;
mod scrolls;
mod shuffling;
mod world;

pub use acting::Stepped;
pub use laws::{empty_page_ends, one_run, pages_follow, results_stand, whole_is_so_far};
pub use node_parts::listing::Listing;
pub use shuffling::Move;
pub use world::{Delivered, World};
pub use world_moves::listings::ListStep;

//! The cancellations of one node's tasks: which bans are out, who waits, and what is to be done at each step.
//!
//! After Elasticsearch's TaskCancellationService.
#![tactic(auto)]

mod act;
mod cancels;
mod due;
mod entry;
mod listings;
mod stage;

pub use act::{Act, Waiter};
pub use cancels::CancelCore;

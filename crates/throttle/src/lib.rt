//! How long a task that writes batches of documents waits after each, so that it keeps to a rate.
#![tactic(auto)]

mod rate;
mod wait;

pub use rate::{Documents, Rate};
pub use wait::wait_ms;

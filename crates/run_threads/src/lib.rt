//! The workers of a cluster in threads of their own, with a driver.
//!
//! [`run_workers`] starts a control worker and the data workers of each node, lets a [`Drive`] tell them what to do, and waits until all have
//! ended. It comes back with what they left only where all of them drained.
#![tactic(auto)]

mod cause;
mod counted;
mod drive;
mod ending;
mod finish;
mod run;
mod start;

pub use cause::RunStop;
pub use drive::Drive;
pub use run::{Workers, WorkersRest, run_workers};

//! The driver of a run over threads: it sends the commands of a script to the workers, and hears what each came to.
#![tactic(auto)]

mod commands;
mod gate;
mod hearing;

pub use commands::drive;
pub use gate::{DriverGate, LineGate};

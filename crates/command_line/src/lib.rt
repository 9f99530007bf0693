//! The words of the command line, as `clap` reads them, and the plan that they ask for.
#![tactic(auto)]

mod command;
mod forms_taken;
mod plans;
mod words;

pub use forms_taken::forms;
pub use plans::{Plan, PlanError};
pub use words::plan;

//! The calls that the program makes: what it reads, what it runs, and what it prints.
#![tactic(auto)]

mod generated;
mod kept;
mod laws;
mod run;
mod top;

pub use command_line::{Plan, PlanError, plan};
pub use generated::gen_top;
pub use kept::Kept;
pub use laws::{earlier_is_so_far, early_ends, limits, one_reading};
pub use line_print::{Note, print_lines};
pub use script_lang::{Command, Script};
pub use task_ids::{Cause, Cluster};
pub use top::sim_top;
pub use top_parts::Status;

//! A script over threads: what the program's word `run` calls, with one data worker on each node or with several.
#![tactic(auto)]

mod driver;
mod kept;
mod lines;
mod running;
mod top;

pub use kept::RunKept;
pub use run_book::{LineNote, PageNote};
pub use run_cluster::NodeNote;
pub use top::{pool_top, run_top};

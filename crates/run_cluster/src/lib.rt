//! A cluster that runs over threads: a board for each node, an inbox and a thread for each worker, and a driver.
//!
//! [`run_cluster`] makes it, lets a [`Drive`] tell the workers what to do, and takes it apart again once all of them have drained. What is
//! left is told by a [`RunNotes`].
#![tactic(auto)]

mod boards;
mod closing;
mod jobs;
mod left;
mod notes;
mod places;
mod run;
mod workers;

pub use notes::{NodeNote, RunNotes};
pub use run::run_cluster;
pub use run_inboxes::Ends;
pub use run_threads::{Drive, RunStop};

//! The parts of a node that know no history: a running task with its asks and the taking of answers, the task that a request makes
//! and its node, the context that a search opens, and what an act of a node's cancellations sends. The serial world keeps them
//! beside its history, and the workers of threads will keep the same.
#![tactic(auto)]

pub mod contexts;
pub mod kinds;
pub mod listing;
pub mod notice;
pub mod running;
pub mod starting;

//! The data worker of a node as a kind of worker.
//!
//! It takes letters in as its core says, and does steps of its live tasks in turn. Once it was told to leave and no task of it is
//! live any more, it tells the control worker of its node that it has left.
#![tactic(auto)]

mod kind;
mod posts;
mod state;

pub use kind::DataKind;

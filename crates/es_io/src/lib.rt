//! The outside: bytes in, bytes out, and threads.
//!
//! A [`Source`] gives bytes and a [`Sink`] takes them, in pieces, and each call of either may fail. [`read_all`] and
//! [`write_all_of`] go through a whole text. [`MemSource`] and [`MemSink`] are over memory, for tests; [`StdSource`]
//! and [`StdSink`] are over a real reader and writer, as standard input and output.
//!
//! A [`Spawner`] starts a [`Job`] in a thread of its own: [`ThreadSpawner`] does, and [`ListSpawner`] fails at the calls
//! that it is told. A [`Gate`] is asked at each [`Spot`] that a thread passes: [`OpenGate`] holds nothing, and
//! [`HoldGate`] holds two threads against each other, for tests.
#![tactic(auto)]

mod edge;
mod gate;
mod memory;
mod outside;
#[cfg(test)]
mod tests;
mod whole;
mod worker;

pub use edge::{StdSink, StdSource};
pub use gate::{Gate, HoldGate, OpenGate, Spot};
pub use memory::{MemSink, MemSource};
pub use outside::{Failed, Sink, Source};
pub use whole::{ReadAll, WroteFault, read_all, write_all_of};
pub use worker::{Job, ListSpawner, Spawner, Started, ThreadSpawner};

// Runs of the program in this process.

use es_io::{MemSink, MemSource};
use std::alloc::{AllocError, Global};
use task_top::{Cluster, Kept, Status, sim_top};

/// A run of an input: how it ended, what was read and happened, and what was printed.
#[derive(Drop)]
pub struct Ran {
    pub status: Status,
    pub kept: Kept,
    printed: MemSink,
}

impl Ran {
    /// The printed lines.
    pub fn printed(&self) -> &[u8] {
        self.printed.bytes()
    }
}

/// Runs an input from its bytes.
pub fn run(alloc: Global, cluster: &Cluster, input: &[u8]) -> Result<Ran, AllocError> {
    let bytes = Vec::from_slice(alloc, input)?;
    let mut source = MemSource::new(bytes, usize::MAX, Vec::new(alloc));
    let mut printed = MemSink::new(alloc, usize::MAX, Vec::new(alloc));
    let (status, kept) = sim_top(alloc, cluster, &mut source, &mut printed);
    Ok(Ran {
        status,
        kept,
        printed,
    })
}

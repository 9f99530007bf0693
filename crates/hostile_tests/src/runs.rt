//! A run of an input, and what it came to.
ghost use Rattle.std.specs.Prelude.{◌≡◌, ◌<◌};

use es_io::{MemSink, MemSource};
use std::alloc::{AllocError, Global};
use task_ids::Cluster;
use task_top::{Status, sim_top};

/// How many bytes a write takes at most.
pub(crate) const TAKEN: usize = 5;

/// A cluster of one node.
const CLUSTER: Cluster = Cluster {
    nodes: 1,
    shards: 1,
    slots: 256,
};

/// How the bytes of an input come, how many a read gives at most; and which read and which write fail, each counted from 1. 0 is none.
#[derive(Clone, Copy)]
pub(crate) struct Outside {
    pub(crate) piece: usize,
    pub(crate) failing_read: u64,
    pub(crate) failing_write: u64,
}

/// Pieces of so many bytes, and nothing fails.
pub(crate) fn pieces_of(piece: usize) -> Outside
    ensures piece { result.piece ≡ piece }
{
    Outside {
        piece,
        failing_read: 0,
        failing_write: 0,
    }
}

/// How a run ended, and the sink that it wrote to.
#[derive(Drop)]
pub(crate) struct Ran {
    pub(crate) status: Status,
    pub(crate) out: MemSink,
}

impl Ran {
    /// Whether it ended so and wrote exactly this.
    pub(crate) fn is(&self, status: Status, text: &[u8]) -> bool {
        self.status == status && self.out.bytes() == text
    }
}

/// Runs an input in a serial world of one node.
pub(crate) fn run(alloc: Global, input: &str, outside: Outside) -> Result<Ran, AllocError>
    requires piece { 0 < outside.piece }
{
    let bytes = Vec::from_slice(alloc, input.as_bytes())?;
    let reads = vec![in alloc; outside.failing_read]?;
    let writes = vec![in alloc; outside.failing_write]?;
    let mut source = MemSource::new(bytes, outside.piece, reads);
    let mut out = MemSink::new(alloc, TAKEN, writes);
    let (status, _) = sim_top(alloc, &CLUSTER, &mut source, &mut out);
    Ok(Ran { status, out })
}

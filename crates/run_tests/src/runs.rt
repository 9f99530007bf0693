//! A run of a script, and what it came to.
ghost use Rattle.std.specs.Prelude.{◌<◌, ◌≤◌};

use es_io::{Gate, ListSpawner, MemSink, MemSource};
use run_top::{pool_top, run_top};
use std::alloc::{AllocError, Global};
use std::sync::Wait;
use std::thread::Threads;
use task_ids::Cluster;
use top_parts::Status;

/// How many bytes a read gives and a write takes at most.
pub const PIECE: usize = 64;

/// Which read, which write and which start of a worker fail, each counted from 1. 0 is none.
#[derive(Clone, Copy)]
pub struct Failing {
    pub read: u64,
    pub write: u64,
    pub start: u64,
}

/// Nothing fails.
pub const NOTHING: Failing = Failing {
    read: 0,
    write: 0,
    start: 0,
};

/// How a run ended, and the sink that it wrote to.
#[derive(Drop)]
pub struct Ran {
    pub status: Status,
    pub out: MemSink,
}

impl Ran {
    /// Whether it ended so and wrote exactly this.
    pub fn is(&self, status: Status, text: &str) -> bool {
        self.status == status && self.out.bytes() == text.as_bytes()
    }
}

/// Runs an input over threads.
pub fn run<G: Gate, R: Threads + Wait + Sync>(
    rt: &R,
    alloc: Global,
    cluster: &Cluster,
    input: &str,
    failing: Failing,
    gate: &G,
) -> Result<Ran, AllocError> {
    let bytes = Vec::from_slice(alloc, input.as_bytes())?;
    let reads = vec![in alloc; failing.read]?;
    let writes = vec![in alloc; failing.write]?;
    let starts = vec![in alloc; failing.start]?;
    let mut source = MemSource::new(bytes, PIECE, reads);
    let mut out = MemSink::new(alloc, PIECE, writes);
    let mut spawner = ListSpawner::new(starts);
    let (status, _) = run_top(
        rt,
        alloc,
        cluster,
        &mut source,
        &mut out,
        &mut spawner,
        gate,
    );
    Ok(Ran { status, out })
}

/// Runs an input over threads, where each node has so many data workers, from 1 to 4. Nothing fails.
pub fn run_pool<G: Gate, R: Threads + Wait + Sync>(
    rt: &R,
    alloc: Global,
    cluster: &Cluster,
    workers: u32,
    input: &str,
    gate: &G,
) -> Result<Ran, AllocError>
    requires { (1 ≤ workers) × (workers ≤ 4) }
{
    let bytes = Vec::from_slice(alloc, input.as_bytes())?;
    let mut source = MemSource::new(bytes, PIECE, Vec::new(alloc));
    let mut out = MemSink::new(alloc, PIECE, Vec::new(alloc));
    let mut spawner = ListSpawner::new(Vec::new(alloc));
    let (status, _) = pool_top(
        rt,
        alloc,
        cluster,
        workers,
        &mut source,
        &mut out,
        &mut spawner,
        gate,
    );
    Ok(Ran { status, out })
}

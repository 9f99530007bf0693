//! A control worker of a cluster of one node, as a job in a thread of its own.
ghost use Rattle.std.specs.Prelude.{◌≡◌};
ghost use Rattle.node_boards.specs.Seats.{HasNoBan};

use crate::ends::{ControlEnds, Name};
use control_worker::ControlCore;
use es_io::{OpenGate, Spawner, Started, ThreadSpawner};
use node_boards::ControlBoard;
use node_worker::{ControlKind, Rest, Worker, WorkerOut};
use std::alloc::{AllocError, Global};
use std::sync::Wait;
use std::thread::{Scope, Threads};
use task_ids::AnyCancel;

/// What a control worker over such a board does.
pub(crate) type Kind<'g, B> = ControlKind<'g, AnyCancel, B, OpenGate>;

/// A control worker over such a board.
pub(crate) type Control<'g, B> = Worker<Name, Kind<'g, B>>;

/// A control worker of node 1 over this board.
pub(crate) fn new_worker<'g, B: ControlBoard<Name> + Drop>(
    alloc: Global,
    board: B,
    ends: ControlEnds,
    gate: &'g OpenGate,
) -> Result<Control<'g, B>, AllocError>
    requires fresh { HasNoBan (B.bans board) }
    requires slots { B.slots board ≡ 4 }
{
    let core = ControlCore::new(alloc, 1, 1, 4)?;
    let ControlEnds { inbox, senders } = ends;
    let kind = ControlKind::new(alloc, 1, core, board, gate);
    Ok(Worker::new(alloc, kind, inbox, senders))
}

/// Starts the worker. It does not where the system has no thread.
pub(crate) fn start<'s, E, B: ControlBoard<Name> + Send + Drop + 's, R: Wait + Sync>(
    rt: &'s R,
    scope: &'s Scope<'s, E>,
    worker: Control<'s, B>,
) -> Option<Started<'s, Control<'s, B>>> {
    let mut spawner = ThreadSpawner::new();
    spawner.start(rt, scope, worker).ok()
}

/// Waits until the worker has ended, and takes what it leaves.
pub(crate) fn finish<'s, B: ControlBoard<Name> + Send + Drop + 's, R: Threads>(
    rt: &R,
    started: Started<'s, Control<'s, B>>,
) -> WorkerOut<Rest<Name, Kind<'s, B>>> {
    started.finish(rt)
}

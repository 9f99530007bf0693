//! A play on each of the two boards.
ghost use Rattle.std.specs.Prelude.{◌≡◌, IfSome};
ghost use Rattle.data_core.specs.Cores.{IsNewDataCore};
ghost use Rattle.node_boards.specs.Seats.{HasNoBan, IsFresh};

use crate::commands::{DOCS, Name};
use crate::driver::Heard;
use crate::node::{Play, run};
use control_worker::ControlCore;
use data_core::DataCore;
use data_worker::DataKind;
use es_io::Gate;
use node_boards::{
    ControlBoard, DataBoard, PlainBoard, PlainControl, PlainData, PlainParts, RaceControl, RaceData,
};
use node_worker::ControlKind;
use race_board::{BoardParts, RaceBoard};
use shard_docs::read_corpus;
use std::alloc::{AllocError, Global};
use std::sync::Wait;
use std::thread::Threads;
use task_ids::Cluster;

// The core of the node's data worker, which holds both shards of the index `a`, and may have 64 live tasks.
fn data_core(alloc: Global) -> Option<DataCore>
    ensures new { IfSome result (IsNewDataCore 1) }
    ensures shards { IfSome result (λ core. core.cluster.shards ≡ 2) }
{
    let cluster = Cluster {
        nodes: 1,
        shards: 2,
        slots: 64,
    };
    let read = read_corpus(alloc, DOCS.as_bytes()).ok()?;
    let shards = vec![in alloc; 0, 1].ok()?;
    DataCore::new(alloc, &cluster, 1, 1, 0, 64, shards, &read.corpus).ok()
}

// Plays on a board with these seats of its two workers.
fn on_board<
    C: ControlBoard<Name> + Send + Drop,
    D: DataBoard<Name> + Send + Drop,
    G: Gate,
    R: Threads + Wait + Sync,
>(
    rt: &R,
    alloc: Global,
    play: &Play<'_, G>,
    control: C,
    data: D,
) -> Result<Option<Heard>, AllocError>
    requires no_ban { HasNoBan (C.bans control) }
    requires slots { C.slots control ≡ play.now.room.slots }
    requires fresh { IsFresh (D.has «data») (D.drawn «data») }
    requires own { D.node «data» ≡ 1 }
{
    let core = ControlCore::new(alloc, 1, 1, play.room.slots)?;
    let Some(own) = data_core(alloc) else {
        return Ok(None);
    };
    let control = ControlKind::new(alloc, 1, core, control, play.gate);
    let data = DataKind::new(alloc, own, data, play.gate);
    run(rt, alloc, play, control, data)
}

/// Plays on a plain board behind its lock.
pub fn on_a_lock<G: Gate, R: Threads + Wait + Sync>(
    rt: &R,
    alloc: Global,
    play: &Play<'_, G>,
) -> Result<Option<Heard>, AllocError> {
    let PlainParts {
        board,
        control,
        mut seats,
    } = PlainBoard::<Name>::new(alloc, 1, play.room.slots, play.room.bans, 1)?;
    let Some(seat) = seats.pop() else {
        return Ok(None);
    };
    let control = PlainControl::new(rt, &board, control);
    let data = PlainData::new(rt, &board, seat);
    on_board(rt, alloc, play, control, data)
}

/// Plays on a board of words.
pub fn on_words<G: Gate, R: Threads + Wait + Sync>(
    rt: &R,
    alloc: Global,
    play: &Play<'_, G>,
) -> Result<Option<Heard>, AllocError> {
    let BoardParts {
        board,
        control,
        mut seats,
    } = RaceBoard::<Name>::new(alloc, 1, play.room.slots, play.room.bans, 1)?;
    let Some(seat) = seats.pop() else {
        return Ok(None);
    };
    let control = RaceControl::new(&board, control);
    let data = RaceData::new(&board, seat);
    on_board(rt, alloc, play, control, data)
}

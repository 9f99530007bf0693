// The workers of a cluster, before they run.
ghost use Rattle.std.specs.Prelude.{◌≡◌, ◌<◌, IfOk};
ghost use Rattle.task_ids.specs.Limits.{IsNode};
ghost use Rattle.race_board.specs.Board.{newcomer};
ghost use Rattle.race_board.specs.Seats.{control_view, board_size, IsControlOf, IsNew};
ghost use Rattle.run_facts.specs.Inboxes.{IsPoolSize};
ghost use Rattle.run_cluster.specs.Crews.{BeginsWith, IsControlOn, IsDataOn};

use control_worker::ControlCore;
use data_core::DataCore;
use data_pool::{Pool, quota_of, shards_of};
use data_worker::DataKind;
use es_io::Gate;
use node_boards::{RaceControl, RaceData};
use node_link::Letter;
use node_worker::{ControlKind, Worker};
use race_board::{ControlSeat, DataSeat, RaceBoard};
use run_facts::{Of, Run};
use run_inboxes::Ends;
use std::alloc::{AllocError, Global};
use task_ids::{Cluster, Corpus};

/// What a control worker is.
pub(crate) type Control<'b, W, G> = ControlKind<'b, W, RaceControl<'b, Of<W>>, G>;

/// What a data worker is.
pub(crate) type Data<'b, W, G> = DataKind<'b, W, RaceData<'b, Of<W>>, G>;

/// The letters of a run.
pub(crate) type Note<W> = Letter<Of<W>>;

/// Over what the workers of a cluster run.
#[derive(Drop)]
pub(crate) struct Ground<'b, G: Gate> {
    pub(crate) cluster: Cluster,
    /// How many data workers each node has.
    pub(crate) workers: u32,
    pub(crate) corpus: &'b Corpus,
    pub(crate) gate: &'b G,
}

impl<'b, G: Gate> Ground<'b, G> {
    /// The control worker of a node, with its seat of the node's board and its ends of the inboxes.
    pub(crate) fn control<W: Run>(
        &self,
        alloc: Global,
        node: u32,
        board: &'b RaceBoard<Of<W>>,
        seat: ControlSeat<Of<W>>,
        ends: Ends<Note<W>>,
    ) -> Result<Worker<Of<W>, Control<'b, W, G>>, AllocError>
        requires workers { IsPoolSize self.now.workers }
        requires node { IsNode node }
        requires own { board.now.node ≡ node }
        requires slots { (board_size board.now).slots ≡ self.now.cluster.slots }
        requires fits { IsControlOf board.now seat }
        requires new { control_view seat ≡ newcomer (board_size board.now) 1 0 }
        ensures new { IfOk result (IsControlOn self.now.cluster self.now.workers board.now) }
        ensures ends { IfOk result (BeginsWith ends) }
    {
        let core = ControlCore::new(alloc, node, self.workers, self.cluster.slots)?;
        let board = RaceControl::new(board, seat);
        let kind = ControlKind::new(alloc, self.cluster.nodes, core, board, self.gate);
        let Ends { inbox, senders } = ends;
        Ok(Worker::new(alloc, kind, inbox, senders))
    }

    /// A data worker of a node, with its seat of the node's board and its ends of the inboxes. It holds those of the node's shards that are
    /// its own, and has its share of the node's slots.
    pub(crate) fn data<W: Run>(
        &self,
        alloc: Global,
        node: u32,
        worker: u32,
        board: &'b RaceBoard<Of<W>>,
        seat: DataSeat<Of<W>>,
        ends: Ends<Note<W>>,
    ) -> Result<Worker<Of<W>, Data<'b, W, G>>, AllocError>
        requires setting { (W.setting.corpus ≡ self.now.corpus.now) × (W.setting.shards ≡ self.now.cluster.shards) }
        requires workers { IsPoolSize self.now.workers }
        requires node { IsNode node }
        requires worker { worker < self.now.workers }
        requires own { board.now.node ≡ node }
        requires new { IsNew board.now seat }
        ensures new { IfOk result (IsDataOn self.now.cluster self.now.corpus.now self.now.workers board.now worker) }
        ensures ends { IfOk result (BeginsWith ends) }
    {
        let pool = Pool {
            nodes: self.cluster.nodes,
            shards: self.cluster.shards,
            workers: self.workers,
        };
        let shards = shards_of(alloc, &pool, node, worker)?;
        let quota = quota_of(self.cluster.slots, self.workers, worker);
        let core = DataCore::new(
            alloc,
            &self.cluster,
            self.workers,
            node,
            worker,
            quota,
            shards,
            self.corpus,
        )?;
        let board = RaceData::new(board, seat);
        let kind = DataKind::new(alloc, core, board, self.gate);
        let Ends { inbox, senders } = ends;
        Ok(Worker::new(alloc, kind, inbox, senders))
    }
}

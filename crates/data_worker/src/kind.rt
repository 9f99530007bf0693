// The data worker as a kind of worker.
ghost use Rattle.std.specs.Prelude.{◌≡◌, false, None};
ghost use Rattle.run_facts.specs.Cancels.{cancels_of};
ghost use Rattle.data_worker.specs.Data.{Fits, IsOfRun};

use crate::state::DataState;
use data_core::DataCore;
use es_io::{Gate, Spot};
use node_boards::DataBoard;
use node_link::{Body, Letter};
use node_worker::{Post, Turns};
use run_facts::{Of, Run, driver_of};
use std::alloc::Global;
use task_events::Stop;

/// The data worker of a node: its core, and its seat of the node's board.
///
/// It passes the gate before each turn of work. It does one step of each live task after the other, by ascending id, and begins again at
/// the lowest.
#[derive(Drop)]
pub struct DataKind<'g, W: Run, B: DataBoard<Of<W>>, G: Gate> {
    state: DataState<W, B>,
    gate: &'g G,
}

impl<'g, W: Run, B: DataBoard<Of<W>>, G: Gate> DataKind<'g, W, B, G> {
    /// A worker that has done nothing. The core belongs to the seat, and keeps what is known of the run.
    pub fn new(alloc: Global, core: DataCore, board: B, gate: &'g G) -> DataKind<'g, W, B, G>
        requires fits { Fits B.node B.has B.drawn B.clear (cancels_of W.cancels) core board }
        requires of_run { IsOfRun W.setting core }
        ensures is { (result.state.core ≡ core) × (result.state.board ≡ board) × (result.state.last ≡ None) × (result.state.has_said ≡ false) }
    {
        DataKind {
            state: DataState::new(alloc, core, board),
            gate,
        }
    }

    /// Its seat of the node's board.
    pub fn into_board(self) -> B
        ensures { result ≡ self.entry.state.board }
    {
        let DataKind { state, gate: _ } = self;
        state.into_board()
    }
}

impl<'g, W: Run, B: DataBoard<Of<W>>, G: Gate> Turns<Of<W>> for DataKind<'g, W, B, G> {
    ghost use Rattle.run_facts.specs.Cancels.{cancels_of};
    ghost use Rattle.node_link.specs.declared.body.Body.{Body};
    ghost use Rattle.run_facts.specs.Inboxes.{driver_of};
    ghost use Rattle.data_worker.specs.Data.{Does, Rests, Fits, IsOfRun, seen};

    ghost did = { λ v given posts w. Does B.rests (seen v.state) given posts (seen w.state) };

    ghost at_rest = { λ v. Rests (seen v.state) };

    ghost fits = { λ v. Fits B.node B.has B.drawn B.clear (cancels_of W.cancels) v.state.core v.state.board × IsOfRun W.setting v.state.core };

    fn take(&mut self, body: Body) -> Result<Vec<Post<Letter<Of<W>>>>, Stop> {
        self.state.take_in(body)
    }

    fn step(&mut self) -> Result<Option<Vec<Post<Letter<Of<W>>>>>, Stop> {
        let Some(task) = self.state.next() else {
            return self.state.say_left();
        };
        if self.state.core.works(task) {
            self.gate.pass(self.state.core.node(), Spot::Turn);
        }
        self.state.step_of(task)
    }

    /// Where each live task has been looked at since the last letter, and waits for letters alone. One that waits for a moment looks at the
    /// board meanwhile.
    fn may_wait(&self) -> bool {
        self.state.is_idle()
    }

    fn may_leave(&self) -> bool {
        self.state.has_done()
    }

    /// It goes to the driver.
    fn farewell(&self, stop: Stop) -> Post<Letter<Of<W>>>
        ensures { (result.letter ≡ Body.Stopped stop) × (result.to ≡ driver_of self.now.state.core.pool.workers self.now.state.core.cluster.nodes) }
    {
        Post {
            to: driver_of(self.state.core.workers(), self.state.core.nodes()),
            letter: Letter::new(Body::Stopped(stop)),
        }
    }
}

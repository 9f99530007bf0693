// The control worker as a kind of worker.
ghost use Rattle.std.specs.Prelude.{◌≡◌, false};
ghost use Rattle.task_ids.specs.Limits.{IsNode};
ghost use Rattle.run_facts.specs.Cancels.{cancels_of};
ghost use Rattle.control_worker.specs.View.{view_of};
ghost use Rattle.control_worker.specs.Together.{Together};
ghost use Rattle.node_worker.specs.Leaving.{NobodyLeft};
ghost use Rattle.node_worker.specs.Control.{seen, Fits};

use crate::control_posts::to_driver;
use crate::control_state::ControlState;
use crate::post::Post;
use crate::turns::Turns;
use control_worker::ControlCore;
use es_io::{Gate, Spot};
use node_boards::ControlBoard;
use node_link::{Body, Letter};
use run_facts::{Of, Run};
use std::alloc::Global;
use task_events::Stop;

/// The control worker of a node: its core, its seat of the node's board, and which workers have left.
///
/// It sends by the numbers of its cluster's inboxes (`run_facts`), of which each node has one more than data workers. Each task that the
/// worker marks passes the gate.
#[derive(Drop)]
pub struct ControlKind<'g, W: Run, B: ControlBoard<Of<W>>, G: Gate> {
    state: ControlState<Of<W>, B>,
    gate: &'g G,
}

impl<'g, W: Run, B: ControlBoard<Of<W>>, G: Gate> ControlKind<'g, W, B, G> {
    /// The control worker of a node in a cluster of so many nodes, each with as many data workers as its core was made for. The core belongs
    /// to the seat.
    pub fn new(
        alloc: Global,
        nodes: u32,
        core: ControlCore,
        board: B,
        gate: &'g G,
    ) -> ControlKind<'g, W, B, G>
        requires nodes { IsNode nodes }
        requires together { Together (B.bans board) (B.slots board) (cancels_of W.cancels) (view_of core) }
        ensures fits { Fits B.bans B.slots (cancels_of W.cancels) (seen result.state) }
        ensures is { (result.state.cluster.nodes ≡ nodes) × (result.state.core ≡ core) × (result.state.board ≡ board) }
        ensures nobody_left { NobodyLeft result.state.left }
    {
        ControlKind {
            state: ControlState::new(alloc, nodes, core, board),
            gate,
        }
    }

    /// Its seat of the node's board.
    pub fn into_board(self) -> B
        ensures { result ≡ self.entry.state.board }
    {
        let ControlKind { state, gate: _ } = self;
        let ControlState {
            alloc: _,
            cluster: _,
            core: _,
            board,
            left: _,
            of: _,
        } = state;
        board
    }
}

impl<'g, W: Run, B: ControlBoard<Of<W>>, G: Gate> Turns<Of<W>> for ControlKind<'g, W, B, G> {
    ghost use Rattle.run_facts.specs.Cancels.{cancels_of};
    ghost use Rattle.node_link.specs.declared.body.Body.{Body};
    ghost use Rattle.run_facts.specs.Inboxes.{driver_of};
    ghost use Rattle.node_worker.specs.Control.{Does, Rests, Fits, seen};

    ghost did = { λ v given posts w. Does B.rests (seen v.state) given posts (seen w.state) };

    ghost at_rest = { λ v. Rests B.bans (seen v.state) };

    ghost fits = { λ v. Fits B.bans B.slots (cancels_of W.cancels) (seen v.state) };

    fn take(&mut self, body: Body) -> Result<Vec<Post<Letter<Of<W>>>>, Stop> {
        let before = self.state.core.marks();
        let posts = self.state.take_in(body)?;
        for _ in before..self.state.core.marks() {
            self.gate.pass(self.state.core.node(), Spot::Marked);
        }
        Ok(posts)
    }

    fn step(&mut self) -> Result<Option<Vec<Post<Letter<Of<W>>>>>, Stop> {
        self.state.say_left()
    }

    /// Always: what it does, letters alone let it do.
    fn may_wait(&self) -> bool {
        true
    }

    fn may_leave(&self) -> bool {
        self.state.has_done()
    }

    /// It goes to the driver.
    fn farewell(&self, stop: Stop) -> Post<Letter<Of<W>>>
        ensures { (result.letter ≡ Body.Stopped stop) × (result.to ≡ driver_of (seen self.now.state).core.workers self.now.state.cluster.nodes) }
    {
        to_driver(
            self.state.core.workers(),
            self.state.cluster.nodes,
            Body::Stopped(stop),
        )
    }
}

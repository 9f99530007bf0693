// The turns and steps of a control worker.
ghost use Rattle.std.specs.Prelude.{◌≡◌, ◌↔◌, true, false, IfOk, MatchOption};
ghost use Rattle.task_ids.specs.Limits.{IsNode};
ghost use Rattle.control_worker.specs.View.{view_of};
ghost use Rattle.control_worker.specs.Together.{Together};
ghost use Rattle.node_link.specs.declared.body.Body.{Body};
ghost use Rattle.node_link.specs.Lawful.{IsLawful};
ghost use Rattle.node_worker.specs.Leaving.{NobodyLeft};
ghost use Rattle.node_worker.specs.ControlPosts.{IsOfControl};
ghost use Rattle.node_worker.specs.Control.{seen, Took, MaySay, Said, Fits, Rests};

use crate::control_posts::{act_posts, left_posts};
use crate::control_state::{Cluster, ControlState};
use crate::left::{Left, have_all_left, note_left};
use crate::post::Post;
use child_track::NodeSet;
use control_worker::{ControlCore, control_turn};
use node_boards::ControlBoard;
use node_link::{Body, Letter, RunName};
use std::alloc::Global;
use std::marker::PhantomData;
use task_events::Stop;

impl<N: RunName, B: ControlBoard<N>> ControlState<N, B> {
    // A control worker that knows of nobody who has left. Its core belongs to the seat.
    pub(crate) fn new(alloc: Global, nodes: u32, core: ControlCore, board: B) -> ControlState<N, B>
        requires nodes { IsNode nodes }
        requires together { Together (B.bans board) (B.slots board) N.allowed (view_of core) }
        ensures fits { Fits B.bans B.slots N.allowed (seen result) }
        ensures is { (result.cluster.nodes ≡ nodes) × (result.core ≡ core) × (result.board ≡ board) }
        ensures nobody_left { NobodyLeft result.left }
    {
        let left = Left {
            data: NodeSet(0),
            control: NodeSet(0),
            has_said: false,
        };
        ControlState {
            alloc,
            cluster: Cluster { nodes },
            core,
            board,
            left,
            of: PhantomData,
        }
    }

    // Takes in a letter: notes who has left, and does a turn of the core.
    #[tactic(auto, using(crate::proofs::Controlling::took_letter))]
    pub(crate) fn take_in(&mut self, body: Body) -> Result<Vec<Post<Letter<N>>>, Stop>
        requires fits { Fits B.bans B.slots N.allowed (seen self.old) }
        requires lawful { IsLawful N.allowed body }
        requires asked { N.asks body }
        requires asks { (b : Body) → IsOfControl b → N.asks b }
        ensures fits { Fits B.bans B.slots N.allowed (seen self.new) }
        ensures did { IfOk result (λ posts. Took B.rests body posts.items (seen self.old) (seen self.new)) }
    {
        note_left::<N>(&mut self.left, &body);
        let node = self.core.node();
        let workers = self.core.workers();
        let Ok(acts) = control_turn(&mut self.core, &mut self.board, Letter::new(body)) else {
            return Err(Stop::Memory);
        };
        match act_posts(self.alloc, workers, self.cluster.nodes, node, acts) {
            Ok(posts) => Ok(posts),
            Err(_) => Err(Stop::Memory),
        }
    }

    // Whether it may say that it has left: it has not yet, its data workers have left, and no cancellation is under way.
    pub(crate) fn may_say(&self) -> bool
        ensures { (result ≡ true) ↔ MaySay (seen self.now) }
    {
        !self.left.has_said
            && self.core.is_idle()
            && have_all_left(self.left.data, self.core.workers())
    }

    // Says that it has left, once its data workers have and no cancellation is under way.
    #[tactic(auto, using(crate::proofs::Controlling::said_once))]
    pub(crate) fn say_left(&mut self) -> Result<Option<Vec<Post<Letter<N>>>>, Stop>
        requires fits { Fits B.bans B.slots N.allowed (seen self.old) }
        requires asks { (b : Body) → IsOfControl b → N.asks b }
        ensures fits { Fits B.bans B.slots N.allowed (seen self.new) }
        ensures did { IfOk result (λ r. MatchOption r ((seen self.new ≡ seen self.old) × ¬ MaySay (seen self.old)) (λ posts. Said posts.items (seen self.old) (seen self.new))) }
    {
        if !self.may_say() {
            return Ok(None);
        }
        let workers = self.core.workers();
        let node = self.core.node();
        let Ok(posts) = left_posts(self.alloc, workers, self.cluster.nodes, node) else {
            return Err(Stop::Memory);
        };
        self.left.has_said = true;
        Ok(Some(posts))
    }

    // Whether it may end: each control worker, itself too, has said that it has left, and no ban stands or is kept back.
    #[tactic(auto, using(crate::proofs::Controlling::rests_clear))]
    pub(crate) fn has_done(&self) -> bool
        requires fits { Fits B.bans B.slots N.allowed (seen self.now) }
        ensures { (result ≡ true) ↔ Rests B.bans (seen self.now) }
    {
        if !self.left.has_said || self.core.has_ban() || self.core.keeps_back() {
            return false;
        }
        have_all_left(self.left.control, self.cluster.nodes)
    }
}

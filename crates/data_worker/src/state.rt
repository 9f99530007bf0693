// What a data worker has, and its turns and steps.
ghost use Rattle.std.specs.Prelude.{◌≡◌, ◌↔◌, true, false, None, IfOk, IfErr, IfSome, IfNone, MatchOption};
ghost use Rattle.run_facts.specs.Cancels.{cancels_of};
ghost use Rattle.node_link.specs.declared.body.Body.{Body};
ghost use Rattle.node_link.specs.Lawful.{IsLawful};
ghost use Rattle.reply_facts.specs.Letters.{TellsPlainly};
ghost use Rattle.live_tasks.specs.Live.{entry_at};
ghost use Rattle.data_worker.specs.Data.{seen, Fits, IsOfRun, Took, Said, MaySay, Stepped, Waited, IsNextInTurn, Rests};

use crate::posts::address;
use data_core::{DataCore, data_step, data_turn};
use data_parts::one;
use node_boards::DataBoard;
use node_link::{Body, Letter};
use node_worker::Post;
use run_facts::{Of, Run, To};
use std::alloc::Global;
use std::marker::PhantomData;
use task_events::Stop;
use task_ids::TaskId;

// A data worker's core, and its seat of the node's board.
#[derive(Drop)]
pub(crate) struct DataState<W: Run, B: DataBoard<Of<W>>> {
    pub(crate) alloc: Global,
    pub(crate) core: DataCore,
    pub(crate) board: B,
    // The task of which it did the last step.
    pub(crate) last: Option<TaskId>,
    // It has said that it has left.
    pub(crate) has_said: bool,
    // How many steps in a row have waited for letters alone, since it took one or did anything else.
    pub(crate) idle: usize,
    pub(crate) of: PhantomData<W>,
}

impl<W: Run, B: DataBoard<Of<W>>> DataState<W, B> {
    // A worker that has done nothing. Its core belongs to the seat, and keeps what is known of the run.
    pub(crate) fn new(alloc: Global, core: DataCore, board: B) -> DataState<W, B>
        requires fits { Fits B.node B.has B.drawn B.clear (cancels_of W.cancels) core board }
        requires of_run { IsOfRun W.setting core }
        ensures is { (result.core ≡ core) × (result.board ≡ board) × (result.last ≡ None) × (result.has_said ≡ false) }
    {
        DataState {
            alloc,
            core,
            board,
            last: None,
            has_said: false,
            idle: 0,
            of: PhantomData,
        }
    }

    // Its seat of the node's board.
    pub(crate) fn into_board(self) -> B
        ensures { result ≡ self.board }
    {
        let DataState {
            alloc: _,
            core: _,
            board,
            last: _,
            has_said: _,
            idle: _,
            of: _,
        } = self;
        board
    }

    // Takes a letter in.
    #[tactic(auto, using(crate::proofs::Doing::took_letter))]
    pub(crate) fn take_in(&mut self, body: Body) -> Result<Vec<Post<Letter<Of<W>>>>, Stop>
        requires fits { Fits B.node B.has B.drawn B.clear (cancels_of W.cancels) self.old.core self.old.board }
        requires of_run { IsOfRun W.setting self.old.core }
        requires lawful { IsLawful (cancels_of W.cancels) body }
        requires tells { TellsPlainly W.setting body }
        ensures fits { Fits B.node B.has B.drawn B.clear (cancels_of W.cancels) self.new.core self.new.board }
        ensures of_run { IsOfRun W.setting self.new.core }
        ensures did { IfOk result (λ posts. Took B.rests body posts.items (seen self.old) (seen self.new)) }
    {
        self.idle = 0;
        let gave = data_turn(&mut self.core, &mut self.board, Letter::new(body))?;
        match address(self.alloc, self.core.nodes(), self.core.workers(), gave) {
            Ok(posts) => Ok(posts),
            Err(stop) => Err(stop),
        }
    }

    // The live task whose turn it is: the next one above that of the last step, or else the lowest.
    pub(crate) fn next(&self) -> Option<TaskId>
        requires fits { Fits B.node B.has B.drawn B.clear (cancels_of W.cancels) self.now.core self.now.board }
        ensures found { IfSome result (λ task. IsNextInTurn self.now.last task self.now.core.live) }
        ensures none { IfNone result ((n : _) → entry_at self.now.core.live n ≡ None) }
    {
        match self.core.live_after(self.last) {
            Some(task) => Some(task),
            None => self.core.live_after(None),
        }
    }

    // Notes that the step of a task waits. One that waits for a moment looks at the board again.
    fn note_wait(&mut self, task: TaskId)
        ensures { seen self.new ≡ seen self.old }
    {
        self.idle = if self.core.awaits_moment(task) {
            0
        } else {
            self.idle.saturating_add(1)
        };
    }

    // Whether only a letter lets it go on: each live task has been looked at since it took the last one, and waits for letters alone.
    pub(crate) fn is_idle(&self) -> bool {
        self.idle >= self.core.live_count()
    }

    // Does the next step of a live task.
    #[tactic(auto, using(crate::proofs::Doing::stepped_on, crate::proofs::Doing::waited_on))]
    pub(crate) fn step_of(&mut self, task: TaskId) -> Result<Option<Vec<Post<Letter<Of<W>>>>>, Stop>
        requires fits { Fits B.node B.has B.drawn B.clear (cancels_of W.cancels) self.old.core self.old.board }
        requires of_run { IsOfRun W.setting self.old.core }
        requires next { IsNextInTurn self.old.last task self.old.core.live }
        ensures fits { Fits B.node B.has B.drawn B.clear (cancels_of W.cancels) self.new.core self.new.board }
        ensures of_run { IsOfRun W.setting self.new.core }
        ensures did { IfOk result (λ r. MatchOption r (Waited B.rests (seen self.old) (seen self.new)) (λ posts. Stepped B.rests posts.items (seen self.old) (seen self.new))) }
    {
        self.last = Some(task);
        let Some(gave) = data_step(&mut self.core, &mut self.board, task)? else {
            self.note_wait(task);
            return Ok(None);
        };
        self.idle = 0;
        match address(self.alloc, self.core.nodes(), self.core.workers(), gave) {
            Ok(posts) => Ok(Some(posts)),
            Err(stop) => Err(stop),
        }
    }

    // Whether it is to say that it has left: it was told to leave, no task of it is live, and it has not said so.
    pub(crate) fn may_say(&self) -> bool
        requires fits { Fits B.node B.has B.drawn B.clear (cancels_of W.cancels) self.now.core self.now.board }
        ensures { (result ≡ true) ↔ MaySay (seen self.now) }
    {
        !self.has_said && self.core.is_leaving() && self.core.live_after(None).is_none()
    }

    // Says that it has left, where it may.
    #[tactic(auto, using(crate::proofs::Doing::said_once, crate::proofs::Doing::waited_idle))]
    pub(crate) fn say_left(&mut self) -> Result<Option<Vec<Post<Letter<Of<W>>>>>, Stop>
        requires fits { Fits B.node B.has B.drawn B.clear (cancels_of W.cancels) self.old.core self.old.board }
        requires of_run { IsOfRun W.setting self.old.core }
        requires none { (n : _) → entry_at self.old.core.live n ≡ None }
        ensures fits { Fits B.node B.has B.drawn B.clear (cancels_of W.cancels) self.new.core self.new.board }
        ensures of_run { IsOfRun W.setting self.new.core }
        ensures did { IfOk result (λ r. MatchOption r (Waited B.rests (seen self.old) (seen self.new)) (λ posts. Said posts.items (seen self.old) (seen self.new))) }
    {
        if !self.may_say() {
            return Ok(None);
        }
        let left = run_facts::Post {
            to: To::Control(self.core.node()),
            letter: Letter::new(Body::DataLeft {
                worker: self.core.worker(),
            }),
        };
        let posts = address(
            self.alloc,
            self.core.nodes(),
            self.core.workers(),
            one(self.alloc, left)?,
        )?;
        self.has_said = true;
        Ok(Some(posts))
    }

    // Whether it may end: it has said that it has left, and no task of it is live.
    pub(crate) fn has_done(&self) -> bool
        requires fits { Fits B.node B.has B.drawn B.clear (cancels_of W.cancels) self.now.core self.now.board }
        ensures { (result ≡ true) ↔ Rests (seen self.now) }
    {
        self.has_said && self.core.live_after(None).is_none()
    }
}

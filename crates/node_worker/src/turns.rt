// What one kind of worker does.
ghost use Rattle.std.specs.Prelude.{◌≡◌, ◌↔◌, true, [], IfOk, MatchOption};
ghost use Rattle.node_link.specs.declared.body.Body.{Body};
ghost use Rattle.node_link.specs.Lawful.{IsLawful};
ghost use Rattle.node_worker.specs.Turns.{took, stepped, waited, IsStop};

use crate::post::Post;
use node_link::{Body, Letter, RunName};
use task_events::Stop;

/// What one kind of worker does: a turn with each letter that it takes, and steps of its own. A turn or a step gives the
/// letters that are to be sent, in order, each with the number of its inbox.
///
/// One that fails for want of memory, or since numbers are spent, need not leave the worker as it was, and the worker does
/// no other.
pub trait Turns<N: RunName> {
    ghost use Rattle.std.specs.Prelude.{List};
    ghost use Rattle.node_link.specs.declared.body.Body.{Body};
    ghost use Rattle.node_worker.specs.declared.post.Post.{Post};
    ghost use Rattle.node_worker.specs.Turns.{Given};

    /// What a turn or a step is: the worker before it, what it was given, what it gave, and the worker after it.
    ghost did: { Self → Given → List (Post Body) → Self → Type 0 };

    /// Nothing is left for the worker to do, and it holds nothing of its node's board.
    ghost at_rest: { Self → Type 0 };

    /// What each call keeps, also one that fails.
    ghost fits: { Self → Type 0 };

    /// A turn with a letter that says this. A letter that says Stop has none.
    fn take(&mut self, body: Body) -> Result<Vec<Post<Letter<N>>>, Stop>
        requires fits { fits self.old }
        requires goes_on { ¬ IsStop body }
        requires lawful { IsLawful N.allowed body }
        requires asked { N.asks body }
        ensures fits { fits self.new }
        ensures did { IfOk result (λ posts. did self.old (took body) posts.items self.new) };

    /// A step of its own. It is none where nothing can go on before a letter comes, and then nothing is to be sent.
    fn step(&mut self) -> Result<Option<Vec<Post<Letter<N>>>>, Stop>
        requires fits { fits self.old }
        ensures fits { fits self.new }
        ensures did { IfOk result (λ r. MatchOption r (did self.old waited [] self.new) (λ posts. did self.old stepped posts.items self.new)) };

    /// Whether nothing of it can go on before a letter comes. It is asked where a step was none and it may not end; where it is not so,
    /// the worker looks again without a letter.
    fn may_wait(&self) -> bool
        requires fits { fits self.now };

    /// Whether the worker may end. It is asked where no letter is there, no step can be done and nothing is left to be sent.
    fn may_leave(&self) -> bool
        requires fits { fits self.now }
        ensures { (result ≡ true) ↔ at_rest self.now };

    /// The letter that tells the driver that the worker has stopped, for this cause.
    fn farewell(&self, stop: Stop) -> Post<Letter<N>>
        ensures { result.letter ≡ Body.Stopped stop };
}

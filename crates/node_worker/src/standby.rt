// What a worker does after it failed.
ghost use Rattle.std.specs.Prelude.{◌≡◌, ◌∷◌, [], true, false, option_to_list, MatchResult};
ghost use Rattle.node_link.specs.declared.body.Body.{Body};
ghost use Rattle.node_link.specs.Lawful.{IsLawful};
ghost use Rattle.node_worker.specs.Posts.{SentBut};
ghost use Rattle.node_worker.specs.Turns.{IsStop};
ghost use Rattle.node_worker.specs.Work.{PassedOver, HeardStop};

use crate::flush::send_to;
use crate::post::Post;
use node_link::{Body, Letter, Receiver, RunName, Sender};
use std::sync::Wait;
use std::thread;
use task_events::Stop;

// What the letter says, or what it tells where it says Stop.
pub(crate) fn unless_stop<N: RunName>(letter: Letter<N>) -> Result<Body, Stop>
    ensures { MatchResult result (λ body. (body ≡ letter) × ¬ IsStop body × IsLawful N.allowed body × N.asks body) (λ stop. letter ≡ Body.Stop stop) }
{
    match letter.into_body() {
        Body::Stop(stop) => Err(stop),
        body => Ok(body),
    }
}

// Sends what is left to be sent of one letter.
#[tactic(auto, using(crate::proofs::Sending::none_sent))]
fn send_left<L: Drop, R: Wait>(
    rt: &R,
    senders: &mut Vec<Sender<L>>,
    left: Option<Post<L>>,
) -> Option<Post<L>>
    ensures { SentBut senders.old.items (option_to_list left) senders.new.items (option_to_list result) }
{
    send_to(rt, senders, left?).err()
}

// Takes a letter, where there is one, and passes it over. It says whether that says Stop.
#[tactic(auto, using(crate::proofs::Standing::passed_none, crate::proofs::Standing::passed_one, crate::proofs::Standing::heard_one))]
fn hears_stop<N: RunName, R: Wait>(rt: &R, inbox: &mut Receiver<Letter<N>>) -> bool
    ensures heard { result ≡ true → HeardStop inbox.old inbox.new }
    ensures passed { result ≡ false → PassedOver inbox.old inbox.new }
{
    let Some(letter) = inbox.try_take(rt) else {
        return false;
    };
    match unless_stop(letter) {
        Ok(body) => {
            drop(body);
            false
        }
        Err(_) => true,
    }
}

// Sends this letter as soon as there is room, and passes letters over until one says Stop, so that nobody waits for ever for room
// in the inbox. It gives the letter back where there was no room before that.
#[tactic(auto, using(crate::proofs::Sending::none_sent, crate::proofs::Sending::sent_on, crate::proofs::Standing::passed_same, crate::proofs::Standing::passed_on, crate::proofs::Standing::heard_on))]
pub(crate) fn stand_by<N: RunName, R: Wait>(
    rt: &R,
    inbox: &mut Receiver<Letter<N>>,
    senders: &mut Vec<Sender<Letter<N>>>,
    farewell: Post<Letter<N>>,
) -> Option<Post<Letter<N>>>
    ensures heard { HeardStop inbox.old inbox.new }
    ensures sent { SentBut senders.old.items (farewell ∷ []) senders.new.items (option_to_list result) }
{
    let mut left = Some(farewell);
    for _ in rt.forever() {
        left = send_left(rt, senders, left);
        if hears_stop(rt, inbox) {
            return left;
        }
        thread::yield_now();
    }
    unreachable!()
}

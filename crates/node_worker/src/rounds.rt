// The rounds of a worker.
ghost use Rattle.std.specs.Prelude.{◌≡◌, [], Ok, IfErr, OnOk, MatchOption};
ghost use Rattle.node_link.specs.Inbox.{got, SameInbox, TookOne};
ghost use Rattle.node_worker.specs.Work.{stand, Did, Halted, Stopped};

use crate::desk::Desk;
use crate::flush::{flush, keep};
use crate::halt::Halt;
use crate::standby::{stand_by, unless_stop};
use crate::turns::Turns;
use node_link::{Receiver, RunName};
use std::sync::Wait;
use std::thread;
use task_events::Stop;

// What a round came to.
pub(crate) enum Round {
    // A letter was taken, or a step was done.
    Worked,
    // Nothing can go on before another thread does something.
    Waited,
    // The worker may end, and has sent all that it gave.
    Done,
}

// The oldest letter of the inbox, if there is one, or as soon as there is one.
fn next_letter<L: Drop, R: Wait>(rt: &R, inbox: &mut Receiver<L>, waits: bool) -> Option<L>
    ensures same { SameInbox inbox.old inbox.new }
    ensures taken { MatchOption result (got inbox.new ≡ got inbox.old) (λ letter. TookOne inbox.old inbox.new letter) }
{
    if waits {
        return Some(inbox.take(rt));
    }
    inbox.try_take(rt)
}

impl<N: RunName, T: Turns<N>> Desk<N, T> {
    // Sends what is kept, as far as there is room.
    #[tactic(auto, using(crate::proofs::Works::did_send))]
    fn send_kept<R: Wait>(&mut self, rt: &R)
        ensures same { self.new.worker ≡ self.old.worker }
        ensures did { Did T.did (stand self.old) (stand self.new) }
    {
        flush(rt, &mut self.senders, &mut self.kept);
    }

    // Takes a letter, where there is one, and does its turn. Where it waits, it sleeps until there is one.
    #[tactic(auto, using(crate::proofs::Works::did_look, crate::proofs::Works::did_turn, crate::proofs::Works::halted_told, crate::proofs::Works::halted_at, crate::proofs::Works::halted_turn))]
    fn take_one<R: Wait>(&mut self, rt: &R, waits: bool) -> Result<bool, Halt>
        requires fits { T.fits self.old.worker }
        ensures fits { T.fits self.new.worker }
        ensures did { OnOk result (Did T.did (stand self.old) (stand self.new)) }
        ensures halted { IfErr result (λ halt. Halted T.did halt (stand self.old) (stand self.new)) }
    {
        let Some(letter) = next_letter(rt, &mut self.inbox, waits) else {
            return Ok(false);
        };
        let body = match unless_stop(letter) {
            Ok(body) => body,
            Err(stop) => return Err(Halt::Told(stop)),
        };
        let posts = self.worker.take(body)?;
        keep(&mut self.kept, posts)?;
        Ok(true)
    }

    // Does a step, where one can be done.
    #[tactic(auto, using(crate::proofs::Works::did_wait, crate::proofs::Works::did_step, crate::proofs::Works::halted_in, crate::proofs::Works::halted_step))]
    fn step_on(&mut self) -> Result<bool, Halt>
        requires fits { T.fits self.old.worker }
        ensures fits { T.fits self.new.worker }
        ensures did { OnOk result (Did T.did (stand self.old) (stand self.new)) }
        ensures halted { IfErr result (λ halt. Halted T.did halt (stand self.old) (stand self.new)) }
    {
        let Some(posts) = self.worker.step()? else {
            return Ok(false);
        };
        keep(&mut self.kept, posts)?;
        Ok(true)
    }

    // One round: a letter and a step, so that neither waits for ever for the other, as a request that finds no slot comes again and
    // again until a step ends a task. A worker that keeps letters back takes others all the same, else two workers could wait for
    // each other.
    #[tactic(auto, using(crate::proofs::Works::did_on, crate::proofs::Works::halted_on))]
    fn round<R: Wait>(&mut self, rt: &R, waits: bool) -> Result<Round, Halt>
        requires fits { T.fits self.old.worker }
        ensures fits { T.fits self.new.worker }
        ensures did { OnOk result (Did T.did (stand self.old) (stand self.new)) }
        ensures halted { IfErr result (λ halt. Halted T.did halt (stand self.old) (stand self.new)) }
        ensures done { result ≡ Ok Round.Done → T.at_rest self.new.worker × (self.new.kept.items ≡ []) }
        ensures waits { result ≡ Ok Round.Waited → self.new.kept.items ≡ [] → ¬ T.at_rest self.new.worker }
    {
        self.send_kept(rt);
        let took = self.take_one(rt, waits)?;
        let stepped = self.step_on()?;
        if took || stepped {
            return Ok(Round::Worked);
        }
        if self.kept.is_empty() && self.worker.may_leave() {
            return Ok(Round::Done);
        }
        Ok(Round::Waited)
    }

    // Whether only a letter lets it go on: it keeps none to be sent, and no step of its own can be done before. Where it is not so,
    // another thread goes first.
    fn may_wait(&self) -> bool
        requires fits { T.fits self.now.worker }
    {
        let may_wait = self.kept.is_empty() && self.worker.may_wait();
        if !may_wait {
            thread::yield_now();
        }
        may_wait
    }

    // Works until it may end, or has to halt.
    #[tactic(auto, using(crate::proofs::Works::did_none, crate::proofs::Works::did_on, crate::proofs::Works::halted_on))]
    fn go_round<R: Wait>(&mut self, rt: &R) -> Result<(), Halt>
        requires fits { T.fits self.old.worker }
        ensures fits { T.fits self.new.worker }
        ensures did { OnOk result (Did T.did (stand self.old) (stand self.new)) }
        ensures halted { IfErr result (λ halt. Halted T.did halt (stand self.old) (stand self.new)) }
        ensures done { OnOk result (T.at_rest self.new.worker × (self.new.kept.items ≡ [])) }
    {
        let mut waits = false;
        for _ in rt.forever() {
            match self.round(rt, waits)? {
                Round::Worked => waits = false,
                Round::Waited => waits = self.may_wait(),
                Round::Done => return Ok(()),
            }
        }
        unreachable!()
    }

    // Works until it may end or is told to stop. Where a turn or a step fails, the driver is told, and tells it to stop.
    #[tactic(auto, using(crate::proofs::Standing::stopped_told, crate::proofs::Standing::stopped_failed))]
    pub(crate) fn work<R: Wait>(&mut self, rt: &R) -> Result<(), Stop>
        requires fits { T.fits self.old.worker }
        ensures fits { T.fits self.new.worker }
        ensures did { OnOk result (Did T.did (stand self.old) (stand self.new)) }
        ensures done { OnOk result (T.at_rest self.new.worker × (self.new.kept.items ≡ [])) }
        ensures stopped { IfErr result (λ stop. Stopped T.did stop (stand self.old) self.new.inbox self.new.senders.items) }
    {
        match self.go_round(rt) {
            Ok(()) => Ok(()),
            Err(Halt::Told(stop)) => Err(stop),
            Err(Halt::Failed(stop)) => {
                let farewell = self.worker.farewell(stop);
                drop(stand_by(rt, &mut self.inbox, &mut self.senders, farewell));
                Err(stop)
            }
        }
    }
}

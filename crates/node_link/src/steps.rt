// One step of each end of a channel under the rule of inboxes.
ghost use Rattle.std.specs.Prelude.{true, ◌≡◌, MatchResult, MatchOption};
ghost use Rattle.crossbeam_channel.specs.Claims.{view, IsSeatAt};
ghost use Rattle.crossbeam_channel.specs.Ends.{sends_on, receives_on};
ghost use Rattle.node_link.specs.Rule.{with_put, with_got};

use crate::rule::{Got, InOrder, Sent, Tagged, View};
use crossbeam_channel::{Pass, RuledReceiver, RuledSender, TrySendError};
use std::sync::Wait;
use std::thread;

// The end of the channel that sends.
pub(crate) type Port<L> = RuledSender<Tagged<L>, View<L>, InOrder>;

// The end of the channel that takes.
pub(crate) type Mouth<L> = RuledReceiver<Tagged<L>, View<L>, InOrder>;

// What one thread knows of the channel. It has no bytes.
pub(crate) type Badge<L> = Pass<Tagged<L>, View<L>>;

// Sends one letter, or hands it back where the channel is full. A try that finds the channel closed is made again.
pub(crate) fn send_one<L: Drop, R: Wait>(
    rt: &R,
    port: &Port<L>,
    pass: &mut Badge<L>,
    number: u32,
    letter: L,
) -> Result<(), L>
    requires seated { IsSeatAt (sends_on port.now) pass.old }
    requires mine { ((view pass.old).sends ≡ true) × (number ≡ (view pass.old).from) }
    ensures seated { IsSeatAt (sends_on port.now) pass.new }
    ensures sent { MatchResult result (λ _. view pass.new ≡ with_put (view pass.old) (record { from = number; letter = letter })) (λ l. (l ≡ letter) × (view pass.new ≡ view pass.old)) }
{
    let mut msg = Tagged {
        from: number,
        letter,
    };
    for _ in rt.forever() {
        match port.try_send_as::<Sent, R>(rt, pass, msg) {
            Ok(()) => return Ok(()),
            Err(TrySendError::Full(back)) => return Err(back.letter),
            Err(TrySendError::Disconnected(back)) => msg = back,
            Err(TrySendError::OutOfMemory(back)) => msg = back,
        }
    }
    unreachable!()
}

// Takes the oldest letter, if there is one.
pub(crate) fn take_one<L: Drop, R: Wait>(
    rt: &R,
    mouth: &Mouth<L>,
    pass: &mut Badge<L>,
) -> Option<Tagged<L>>
    requires seated { IsSeatAt (receives_on mouth.now) pass.old }
    requires mine { (view pass.old).gets ≡ true }
    ensures seated { IsSeatAt (receives_on mouth.now) pass.new }
    ensures taken { MatchOption result (view pass.new ≡ view pass.old) (λ x. view pass.new ≡ with_got (view pass.old) x) }
{
    mouth.try_recv_as::<Got, R>(rt, pass).ok()
}

// Takes the oldest letter, and sleeps until there is one. A try that finds the channel closed is made again.
pub(crate) fn wait_one<L: Drop, R: Wait>(rt: &R, mouth: &Mouth<L>, pass: &mut Badge<L>) -> Tagged<L>
    requires seated { IsSeatAt (receives_on mouth.now) pass.old }
    requires mine { (view pass.old).gets ≡ true }
    ensures seated { IsSeatAt (receives_on mouth.now) pass.new }
    ensures taken { view pass.new ≡ with_got (view pass.old) result }
{
    for _ in rt.forever() {
        if let Ok(tagged) = mouth.recv_as::<Got, R>(rt, pass) {
            return tagged;
        }
        thread::yield_now();
    }
    unreachable!()
}

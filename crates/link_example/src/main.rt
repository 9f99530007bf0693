//! The program `link_example`: two threads send into one inbox and a third takes, and no letter is lost.
//!
//! What was taken of a sender is a beginning of what it sent, in its order; where as many letters were taken as were sent,
//! it is all of them.
#![tactic(auto)]

ghost use Rattle.std.specs.Prelude.{◌≡◌};
ghost use Rattle.node_link.specs.Inbox.{IsSame, LeadsTo, SameInbox, senders_of};
ghost use Rattle.link_example.specs.Left.{IsLeftBy};

use node_link::{Back, Receiver, Sender, SenderEnd, Tally, inbox};
use std::alloc::{AllocError, Global};
use std::sync::Wait;
use std::thread::Threads;
use std::{io, thread};

/// How many letters each sender sends.
const EACH: u64 = 1000;

/// Sends a letter as soon as there is room.
fn send<R: Wait>(rt: &R, sender: &mut Sender<u64>, letter: u64)
    ensures same { IsSame sender.old sender.new }
{
    let mut letter = letter;
    for _ in rt.forever() {
        match sender.send(rt, letter) {
            Ok(()) => return,
            Err(Back(back)) => letter = back,
        }
        thread::yield_now();
    }
}

/// Sends the numbers from 0 on, and leaves the end.
fn send_all<R: Wait>(rt: &R, sender: Sender<u64>) -> SenderEnd<u64>
    ensures left { IsLeftBy sender result }
{
    let mut sender = sender;
    for letter in 0..EACH {
        send(rt, &mut sender, letter);
    }
    sender.end()
}

/// Takes the letters of both senders.
fn take_all<R: Wait>(rt: &R, receiver: Receiver<u64>) -> Receiver<u64>
    ensures same { SameInbox receiver result }
{
    let mut receiver = receiver;
    for _ in 0..2 * EACH {
        let _letter = receiver.take(rt);
    }
    receiver
}

/// The two senders send and the receiver takes, each in a thread of its own. Then what was taken is compared with what was sent.
fn relay<R: Threads + Wait + Sync>(
    rt: &R,
    alloc: Global,
    first: Sender<u64>,
    second: Sender<u64>,
    receiver: Receiver<u64>,
) -> Result<Tally, AllocError>
    requires first { LeadsTo receiver 0 first }
    requires second { LeadsTo receiver 1 second }
    requires both { senders_of receiver ≡ 2 }
{
    let ((first, second), receiver) = thread::join(
        rt,
        move || thread::join(
            rt,
            move || send_all(rt, first),
            move || send_all(rt, second),
        ),
        move || take_all(rt, receiver),
    );
    let ends = vec![in alloc; first, second]?;
    Ok(receiver.finish(rt, ends))
}

fn main(rt: HostRuntime) -> io::Result<()> {
    let (mut senders, receiver) = inbox::<u64>(rt.alloc(), 8, 2)?;
    let second = senders.pop();
    let first = senders.pop();
    let (Some(first), Some(second)) = (first, second) else {
        return Ok(());
    };
    let Tally { sent, taken } = relay(&rt, rt.alloc(), first, second, receiver)?;
    println!(rt; "{sent} letters were sent, {taken} were taken")
}

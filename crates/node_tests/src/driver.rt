//! The driver.
ghost use Rattle.std.specs.Prelude.{◌<◌, ◌≤◌, vec_len};
ghost use Rattle.node_link.specs.Inbox.{IsSame};
ghost use Rattle.run_inboxes.specs.Ends.{SameEnds};
ghost use Rattle.run_inboxes.specs.Pairs.{Pairwise};

use crate::commands::{Name, Note, cancel};
use es_io::{Gate, Spot};
use node_link::{Back, Body, Sender};
use run_inboxes::Ends;
use run_threads::Drive;
use std::sync::Wait;
use std::thread;
use task_events::{Reply, Stop};

/// What came to the driver.
#[derive(Clone, Copy, PartialEq, Eq)]
pub struct Heard {
    /// How many searches found five documents.
    pub found: u32,
    /// How many were cancelled by the cancel of their task's number.
    pub cancelled: u32,
    /// How many cancels were answered, once the task of their number had ended.
    pub done: u32,
}

/// It passes the gate, cancels the first tasks of the node, so many, and hears so many letters.
#[derive(Drop)]
pub struct Driver<'g, G: Gate> {
    pub gate: &'g G,
    pub cancels: u32,
    pub letters: u32,
    pub heard: Heard,
    pub ghost few: { cancels ≤ 10 },
}

// Sends a letter by the sender at that place, or hands it back.
fn send_at<R: Wait>(
    rt: &R,
    senders: &mut Vec<Sender<Note>>,
    to: usize,
    letter: Note,
) -> Result<(), Back<Note>>
    requires { to < vec_len senders.old }
    ensures { Pairwise IsSame senders.old.items senders.new.items }
{
    let sender = &mut senders[to];
    sender.send(rt, letter)
}

// Sends a letter to the control worker, or hands it back.
#[tactic(auto, using(run_inboxes::proofs::Same::same_ends, run_inboxes::proofs::Same::sent))]
fn tell_once<R: Wait>(rt: &R, ends: &mut Ends<Note>, letter: Note) -> Result<(), Back<Note>>
    ensures { SameEnds ends.old ends.new }
{
    if ends.senders.is_empty() {
        return Ok(());
    }
    send_at(rt, &mut ends.senders, 0, letter)
}

// Sends a letter to the control worker as soon as there is room for it.
#[tactic(auto, using(run_inboxes::proofs::Same::same_ends, run_inboxes::proofs::Same::ends_on))]
fn tell<R: Wait>(rt: &R, ends: &mut Ends<Note>, letter: Note)
    ensures { SameEnds ends.old ends.new }
{
    let mut left = letter;
    for _ in rt.forever() {
        match tell_once(rt, ends, left) {
            Ok(()) => return,
            Err(Back(letter)) => left = letter,
        }
        thread::yield_now();
    }
    unreachable!()
}

impl Heard {
    // What the answer to a search says.
    fn note(&mut self, command: u32, reply: &Reply) {
        match reply {
            Reply::Search(reply) if reply.get().total == 5 => {
                self.found = self.found.saturating_add(1);
            }
            Reply::Cancelled { task, cancel, .. } if *cancel == command && task.number == command =>
                {
                    self.cancelled = self.cancelled.saturating_add(1);
                }
            _ => {}
        }
    }

    // What a letter says.
    fn take_in(&mut self, body: &Body) -> Result<(), Stop> {
        match body {
            Body::RootAnswer(answer) => self.note(answer.place.command, &answer.reply),
            Body::AnswerDone { cancel, task, .. } if task.number == *cancel => {
                self.done = self.done.saturating_add(1);
            }
            Body::Stopped(stop) => return Err(*stop),
            _ => {}
        }
        Ok(())
    }
}

// Cancels the first tasks of the node, so many.
#[tactic(auto, using(run_inboxes::proofs::Same::same_ends, run_inboxes::proofs::Same::ends_on))]
fn cancel_all<R: Wait>(rt: &R, ends: &mut Ends<Note>, cancels: u32)
    requires few { cancels ≤ 10 }
    ensures { SameEnds ends.old ends.new }
{
    for before in 0..cancels {
        tell(rt, ends, cancel(before + 1));
    }
}

// Waits for a letter, and takes in what it says.
fn hear<R: Wait>(rt: &R, ends: &mut Ends<Note>, heard: &mut Heard) -> Result<(), Stop>
    ensures { SameEnds ends.old ends.new }
{
    let letter = ends.inbox.take(rt);
    heard.take_in(letter.body())
}

// Waits for so many letters.
#[tactic(auto, using(run_inboxes::proofs::Same::same_ends, run_inboxes::proofs::Same::ends_on))]
fn hear_all<R: Wait>(
    rt: &R,
    ends: &mut Ends<Note>,
    heard: &mut Heard,
    letters: u32,
) -> Result<(), Stop>
    ensures { SameEnds ends.old ends.new }
{
    for _ in 0..letters {
        hear(rt, ends, heard)?;
    }
    Ok(())
}

impl<'g, G: Gate> Drive<Name> for Driver<'g, G> {
    ghost done = { λ _ _. Unit {0} };

    #[tactic(auto, using(run_inboxes::proofs::Same::ends_on))]
    fn drive<R: Wait>(&mut self, rt: &R, ends: &mut Ends<Note>) -> Result<(), Stop> {
        self.gate.pass(0, Spot::Line(1));
        cancel_all(rt, ends, self.cancels);
        hear_all(rt, ends, &mut self.heard, self.letters)?;
        Ok(())
    }
}

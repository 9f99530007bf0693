// The calls of an inbox's ends.
ghost use Rattle.std.specs.Prelude.{true, ◌≡◌, ◌^◌, ◌-◌, ℕ, ◌+◌, ◌<◌, ◌≤◌, List, [], ◌∷◌, ◌++◌, length, vec_len, slice_get, Some, IfOk, MatchResult, MatchOption};
ghost use Rattle.crossbeam_channel.specs.Claims.{view, IsSeatAt};
ghost use Rattle.crossbeam_channel.specs.Ends.{sends_on, receives_on};
ghost use Rattle.node_link.specs.Rule.{of, sender, hub};
ghost use Rattle.node_link.specs.Inbox.{put, got, senders_of, capacity_of, number_of, number_left, sent_by, IsSame, SameInbox, LeadsTo, LeftBy, AreEnds, TookOne, TookInOrder, TookAll, sent_total};

use super::{Back, Receiver, Sender, SenderEnd, Tally};
use crate::rule::{Compared, Ends, InOrder, Seats, Tagged, View};
use crate::steps::{Badge, Mouth, Port, send_one, take_one, wait_one};
use crossbeam_channel::bounded_with;
use std::alloc::{AllocError, Global};
use std::sync::Wait;

// Waits for ever where a count has no room for one more.
fn wait_for_room<R: Wait>(rt: &R, count: u64)
    ensures { count < 2 ^ 64 - 1 }
{
    if count == u64::MAX {
        for _ in rt.forever() {}
    }
}

// The sum, or waits for ever where it has no room.
fn added_up<R: Wait>(rt: &R, a: u64, b: u64) -> u64
    ensures { result ≡ a + b }
{
    if let Some(sum) = a.checked_add(b) {
        return sum;
    }
    for _ in rt.forever() {}
    unreachable!()
}

/// A new inbox for at most `capacity` letters at a time: its senders by number, and its receiver.
pub fn inbox<L: Drop>(
    alloc: Global,
    capacity: u32,
    senders: u32,
) -> Result<(Vec<Sender<L>>, Receiver<L>), AllocError>
    requires capacity { 0 < capacity }
    requires senders { 0 < senders }
    ensures count { IfOk result (λ r. (vec_len r.0 ≡ senders) × (senders_of r.1 ≡ senders)) }
    ensures room { IfOk result (λ r. capacity_of r.1 ≡ capacity) }
    ensures lead { IfOk result (λ r. (k : ℕ) (s : _) → slice_get r.0.items k ≡ Some s → LeadsTo r.1 k s × (put s ≡ [])) }
    ensures empty { IfOk result (λ r. got r.1 ≡ []) }
{
    let (first, mouth, mut pass) = bounded_with::<Tagged<L>, View<L>, InOrder, Global>(
        alloc,
        capacity as usize,
    )?;
    let mut all = Vec::new(alloc);
    for number in 0..senders {
        let port = first.try_clone()?;
        let seat = first.another::<Seats>(&mut pass);
        all.push(new_sender(port, seat, number))?;
    }
    Ok((all, new_receiver(mouth, pass)))
}

// A sender that has sent nothing.
fn new_sender<L: Drop>(port: Port<L>, pass: Badge<L>, number: u32) -> Sender<L>
    requires seated { IsSeatAt (sends_on port) pass }
    requires fresh { view pass ≡ sender number [] }
    ensures { (sends_on result.port ≡ sends_on port) × (result.number ≡ number) × (put result ≡ []) }
{
    Sender {
        port,
        pass,
        number,
        sent: 0,
    }
}

// A receiver that has taken nothing.
fn new_receiver<L: Drop>(mouth: Mouth<L>, pass: Badge<L>) -> Receiver<L>
    requires seated { IsSeatAt (receives_on mouth) pass }
    requires fresh { view pass ≡ hub (view pass).made [] }
    ensures { (receives_on result.mouth ≡ receives_on mouth) × (senders_of result ≡ (view pass).made) × (got result ≡ []) }
{
    Receiver {
        mouth,
        pass,
        taken: 0,
    }
}

impl<L: Drop> Sender<L> {
    /// Sends a letter, or hands it back, and then nothing was sent. That it comes back only from a full inbox is shown by tests: a try that
    /// finds no room changes nothing by which a clause could tell it from no try. It takes no memory. It may wait for another thread's
    /// step on the channel, but not for room.
    pub fn send<R: Wait>(&mut self, rt: &R, letter: L) -> Result<(), Back<L>>
        ensures same { IsSame self.old self.new }
        ensures sent { MatchResult result (λ _. put self.new ≡ put self.old ++ letter ∷ []) (λ back. (back.0 ≡ letter) × (put self.new ≡ put self.old)) }
    {
        wait_for_room(rt, self.sent);
        match send_one(rt, &self.port, &mut self.pass, self.number, letter) {
            Ok(()) => {
                self.sent += 1;
                Ok(())
            }
            Err(letter) => Err(Back(letter)),
        }
    }

    /// Sends no more.
    pub fn end(self) -> SenderEnd<L>
        ensures { LeftBy self result }
    {
        let Sender {
            port,
            pass,
            number,
            sent,
        } = self;
        SenderEnd {
            port,
            pass,
            number,
            sent,
        }
    }
}

impl<L: Drop> SenderEnd<L> {
    /// The number of its sender among the senders of the inbox, from 0.
    pub fn sender(&self) -> u32
        ensures { result ≡ number_left self.now }
    {
        self.number
    }

    /// How many letters its sender sent.
    pub fn sent(&self) -> u64
        ensures { result ≡ length (sent_by self.now) }
    {
        self.sent
    }
}

impl<L: Drop> Receiver<L> {
    /// How many letters it took so far.
    pub fn taken(&self) -> u64
        ensures { result ≡ length (got self.now) }
    {
        self.taken
    }

    /// The oldest letter, or none, and then none was taken. That none is told only of an empty inbox is shown by tests, as with `send`. It
    /// may wait for another thread's step on the channel, but not for a letter.
    pub fn try_take<R: Wait>(&mut self, rt: &R) -> Option<L>
        ensures same { SameInbox self.old self.new }
        ensures taken { MatchOption result (got self.new ≡ got self.old) (λ letter. TookOne self.old self.new letter) }
    {
        wait_for_room(rt, self.taken);
        let Tagged { from: _, letter } = take_one(rt, &self.mouth, &mut self.pass)?;
        self.taken += 1;
        Some(letter)
    }

    /// The oldest letter. It sleeps until there is one.
    pub fn take<R: Wait>(&mut self, rt: &R) -> L
        ensures same { SameInbox self.old self.new }
        ensures taken { TookOne self.old self.new result }
    {
        wait_for_room(rt, self.taken);
        let Tagged { from: _, letter } = wait_one(rt, &self.mouth, &mut self.pass);
        self.taken += 1;
        letter
    }

    /// Compares what was taken with what the senders sent; `ends` are those of all senders of this inbox, by number.
    /// What was taken of each sender is a beginning of what it sent, in its order. Where as much was taken as was sent,
    /// it is all of it. Never was more taken than was sent.
    pub fn finish<R: Wait>(self, rt: &R, ends: Vec<SenderEnd<L>>) -> Tally
        requires { AreEnds self ends.items }
        ensures order { TookInOrder self ends.items }
        ensures all { result.sent ≡ result.taken → TookAll self ends.items }
        ensures most { 0 < senders_of self → result.taken ≤ result.sent }
        ensures taken { result.taken ≡ length (got self) }
        ensures sent { result.sent ≡ sent_total ends.items }
    {
        let Receiver {
            mouth,
            mut pass,
            taken,
        } = self;
        let mut sent = 0;
        for end in ends {
            let more = take_in(&mouth, &mut pass, end);
            sent = added_up(rt, sent, more);
        }
        Tally { sent, taken }
    }
}

// Takes in what a sender knows, and compares it with what was taken.
fn take_in<L: Drop>(mouth: &Mouth<L>, pass: &mut Badge<L>, end: SenderEnd<L>) -> u64
    requires seated { IsSeatAt (receives_on mouth.now) pass.old }
    requires leads { sends_on end.port ≡ receives_on mouth.now }
    requires mine { (view pass.old).gets ≡ true }
    ensures seated { IsSeatAt (receives_on mouth.now) pass.new }
    ensures kept { ((view pass.new).gets ≡ true) × ((view pass.new).got ≡ (view pass.old).got) × ((view pass.new).made ≡ (view pass.old).made) }
    ensures order { (rest : List L) × (sent_by end ≡ of end.number (view pass.old).got ++ rest) }
    ensures known { (p : ℕ) → (view pass.old).made ≤ p → of p (view pass.old).got ≡ [] }
    ensures count { result ≡ length (sent_by end) }
{
    let _ = mouth;
    let SenderEnd {
        port,
        pass: other,
        number: _,
        sent,
    } = end;
    port.absorb::<Ends>(pass, other);
    port.learn_as::<Compared>(pass);
    sent
}

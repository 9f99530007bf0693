//! Letters through inboxes, in one thread and in five.
ghost use Rattle.std.specs.Prelude.{◌≡◌};
ghost use Rattle.node_link.specs.Inbox.{IsSame, LeadsTo, senders_of};
ghost use Rattle.node_link.specs.Lawful.{IsTick};

use node_link::{Back, Body, Letter, Receiver, Sender, SenderEnd, Tally, inbox};
use std::alloc::{AllocError, Global};
use std::sync::Wait;
use std::thread;
use std::thread::Threads;
use task_ids::AnyCancel;

// How many letters each of four senders sends.
const EACH: u32 = 25_000;

// The sender's number, and the letter's number among those of its sender.
#[derive(Clone, Copy, Debug, PartialEq, Eq)]
struct Note {
    from: u32,
    number: u32,
}

// Sends a letter as soon as there is room.
fn send_waiting<R: Wait>(rt: &R, sender: &mut Sender<Note>, note: Note)
    ensures { IsSame sender.old sender.new }
{
    let mut letter = note;
    for _ in rt.forever() {
        match sender.send(rt, letter) {
            Ok(()) => return,
            Err(Back(back)) => letter = back,
        }
        thread::yield_now();
    }
}

// Sends the letters of one sender.
fn send_all<R: Wait>(rt: &R, sender: Sender<Note>, from: u32) -> SenderEnd<Note> {
    let mut sender = sender;
    for number in 0..EACH {
        send_waiting(rt, &mut sender, Note { from, number });
    }
    sender.end()
}

// Takes the letters of four senders, and says whether those of each came in order.
fn take_all<R: Wait>(rt: &R, receiver: &mut Receiver<Note>) -> bool {
    let mut next = [0u32; 4];
    for _ in 0..4 * EACH {
        let note = receiver.take(rt);
        match next.get_mut(note.from as usize) {
            Some(number) if *number == note.number => *number = note.number.wrapping_add(1),
            _ => return false,
        }
    }
    next == [EACH; 4]
}

// Four senders in threads of their own and one receiver. It says whether all letters came, in order.
fn relay<R: Threads + Wait + Sync>(rt: &R, alloc: Global) -> Result<bool, AllocError> {
    let (senders, mut receiver) = inbox::<Note>(alloc, 64, 4)?;
    let ends = thread::scope(
        thread::scope_env(),
        rt,
        |scope| -> Result<(bool, u64), AllocError> {
            let mut threads = Vec::new(alloc);
            let mut from = 0u32;
            for sender in senders {
                let thread = scope.spawn(move || send_all(rt, sender, from)).ok();
                threads.push(thread)?;
                from = from.wrapping_add(1);
            }
            let in_order = take_all(rt, &mut receiver);
            let mut sent = 0u64;
            for thread in threads {
                if let Some(thread) = thread {
                    sent = sent.wrapping_add(thread.join(rt).sent());
                }
            }
            Ok((in_order, sent))
        },
    );
    let (in_order, sent) = ends?;
    let none_left = receiver.try_take(rt).is_none();
    Ok(in_order && none_left && sent == 100_000 && receiver.taken() == 100_000)
}

#[test]
fn a_hundred_thousand_letters_come_in_order(rt: HostRuntime) -> Result<(), AllocError> {
    assert!(rt; relay(&rt, rt.alloc())?);
    Ok(())
}

// The milliseconds of a tick.
fn tick_of(letter: &Letter<AnyCancel>) -> Option<u64> {
    match letter.body() {
        Body::Tick { ms } => Some(*ms),
        _ => None,
    }
}

// Sends a tick. It is none where it was sent, and else the milliseconds of the letter that came back.
fn send_tick<R: Wait>(rt: &R, sender: &mut Sender<Letter<AnyCancel>>, ms: u64) -> Option<u64>
    requires { IsTick ms }
{
    match sender.send(rt, Letter::new(Body::Tick { ms })) {
        Ok(()) => None,
        Err(Back(letter)) => tick_of(&letter),
    }
}

// The milliseconds of the next tick, if there is one.
fn take_tick<R: Wait>(rt: &R, receiver: &mut Receiver<Letter<AnyCancel>>) -> Option<u64> {
    let letter = receiver.try_take(rt)?;
    tick_of(&letter)
}

// An inbox for two letters is empty, gets two, and is full for the third.
fn fill_two<R: Wait>(rt: &R, alloc: Global) -> Result<[Option<u64>; 7], AllocError> {
    let (mut senders, mut receiver) = inbox::<Letter<AnyCancel>>(alloc, 2, 1)?;
    let Some(mut sender) = senders.pop() else {
        return Ok([None; 7]);
    };
    let before = take_tick(rt, &mut receiver);
    let first = send_tick(rt, &mut sender, 0);
    let second = send_tick(rt, &mut sender, 1);
    let third = send_tick(rt, &mut sender, 7);
    let one = take_tick(rt, &mut receiver);
    let two = take_tick(rt, &mut receiver);
    let after = take_tick(rt, &mut receiver);
    Ok([before, first, second, third, one, two, after])
}

#[test]
fn a_full_inbox_hands_the_letter_back(rt: HostRuntime) -> Result<(), AllocError> {
    let answers = fill_two(&rt, rt.alloc())?;
    assert!(rt; answers == [None, None, None, Some(7), Some(0), Some(1), None]);
    Ok(())
}

// No inbox of these tests has room for so many letters.
const MORE: u32 = 100;

// Sends the numbers from 0 on until one comes back, and says which.
fn fill<R: Wait>(rt: &R, sender: &mut Sender<u32>) -> Option<u32> {
    for number in 0..MORE {
        if let Err(Back(back)) = sender.send(rt, number) {
            return if back == number { Some(back) } else { None };
        }
    }
    None
}

// Takes the numbers from 0 on until there is none, and says how many they were.
fn empty<R: Wait>(rt: &R, receiver: &mut Receiver<u32>) -> Option<u32> {
    for number in 0..MORE {
        match receiver.try_take(rt) {
            None => return Some(number),
            Some(taken) if taken == number => {}
            Some(_) => return None,
        }
    }
    None
}

// Each sender of a new inbox in turn fills it, and all is taken. It says whether exactly as many letters as it has room for went in,
// and came out in order.
fn has_room_for<R: Wait>(
    rt: &R,
    alloc: Global,
    capacity: u32,
    senders: u32,
) -> Result<bool, AllocError> {
    if capacity == 0 || senders == 0 {
        return Ok(false);
    }
    let (senders, mut receiver) = inbox::<u32>(alloc, capacity, senders)?;
    let mut whole = true;
    for sender in senders {
        let mut sender = sender;
        whole &= empty(rt, &mut receiver) == Some(0);
        whole &= fill(rt, &mut sender) == Some(capacity);
        whole &= empty(rt, &mut receiver) == Some(capacity);
    }
    Ok(whole)
}

#[test]
fn a_letter_comes_back_only_from_a_full_inbox_and_none_is_told_only_of_an_empty_one(
    rt: HostRuntime,
) -> Result<(), AllocError> {
    for (capacity, senders) in [(1, 1), (1, 3), (2, 1), (3, 5), (64, 2)] {
        assert!(rt;
            has_room_for(&rt, rt.alloc(), capacity, senders)?,
            "at {capacity}"
        );
    }
    Ok(())
}

// The sender sends three letters, of which two are taken.
fn tally_of_one<R: Wait>(
    rt: &R,
    alloc: Global,
    sender: Sender<Note>,
    receiver: Receiver<Note>,
) -> Result<Tally, AllocError>
    requires leads { LeadsTo receiver 0 sender }
    requires alone { senders_of receiver ≡ 1 }
{
    let mut sender = sender;
    let mut receiver = receiver;
    let note = Note { from: 0, number: 0 };
    send_waiting(rt, &mut sender, note);
    send_waiting(rt, &mut sender, note);
    send_waiting(rt, &mut sender, note);
    receiver.take(rt);
    receiver.take(rt);
    let end = sender.end();
    let ends = vec![in alloc; end]?;
    Ok(receiver.finish(rt, ends))
}

// The same in a new inbox.
fn new_tally<R: Wait>(rt: &R, alloc: Global) -> Result<Option<Tally>, AllocError> {
    let (mut senders, receiver) = inbox::<Note>(alloc, 4, 1)?;
    match senders.pop() {
        Some(sender) => Ok(Some(tally_of_one(rt, alloc, sender, receiver)?)),
        None => Ok(None),
    }
}

#[test]
fn a_tally_counts_what_was_sent_and_what_was_taken(rt: HostRuntime) -> Result<(), AllocError> {
    let tally = new_tally(&rt, rt.alloc())?;
    assert_eq!(rt; tally, Some(Tally { sent: 3, taken: 2 }));
    Ok(())
}

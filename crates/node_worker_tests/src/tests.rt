//! A worker that is sent all its letters before it runs.
ghost use Rattle.std.specs.Prelude.{◌≡◌};

use crate::echo::{Note, ms_of, new_echo, tick};
use es_io::Job;
use node_link::{Body, Letter, Receiver, inbox};
use node_worker::{Worker, WorkerOut};
use std::alloc::{AllocError, Global};
use std::sync::Wait;
use task_events::Stop;

// How an echo ended, how many steps it had left, and the letters that it sent.
#[derive(Drop)]
struct Heard {
    stop: Option<Stop>,
    steps: u64,
    receiver: Receiver<Note>,
}

// An echo that is sent these letters before it runs. Its inboxes have room for all.
fn run_echo<R: Wait>(
    rt: &R,
    alloc: Global,
    letters: Vec<Note>,
) -> Result<Option<Heard>, AllocError> {
    let (mut senders, its_inbox) = inbox::<Note>(alloc, 64, 1)?;
    let (its_senders, receiver) = inbox::<Note>(alloc, 64, 1)?;
    let Some(mut sender) = senders.pop() else {
        return Ok(None);
    };
    for letter in letters {
        if sender.send(rt, letter).is_err() {
            return Ok(None);
        }
    }
    let worker = Worker::new(alloc, new_echo(alloc), its_inbox, its_senders);
    let (stop, rest) = match worker.run(rt) {
        WorkerOut::Drained(rest) => (None, rest),
        WorkerOut::Stopped(stop, rest) => (Some(stop), rest),
    };
    Ok(Some(Heard {
        stop,
        steps: rest.worker.steps,
        receiver,
    }))
}

// The cause that a farewell tells.
fn farewell_in(letter: Option<Note>) -> Option<Stop> {
    match letter?.into_body() {
        Body::Stopped(stop) => Some(stop),
        body => {
            drop(body);
            None
        }
    }
}

#[test]
fn a_worker_ends_once_it_has_nothing_left_to_do(rt: HostRuntime) -> Result<(), AllocError> {
    let letters = vec![in rt.alloc(); tick(0), Letter::new(Body::Leave), tick(1)]?;
    let Some(mut heard) = run_echo(&rt, rt.alloc(), letters)? else {
        panic!(rt; "the inbox is full");
    };
    assert!(rt; heard.stop.is_none() && heard.steps == 0);
    for answer in [0, 0, 1, 1] {
        assert_eq!(rt; ms_of(heard.receiver.take(&rt)), Some(answer));
    }
    assert!(rt; heard.receiver.try_take(&rt).is_none());
    Ok(())
}

#[test]
fn a_worker_stops_where_a_letter_says_so(rt: HostRuntime) -> Result<(), AllocError> {
    let stop = Letter::new(Body::Stop(Stop::NumbersSpent));
    let letters = vec![in rt.alloc(); stop, tick(1)]?;
    let Some(mut heard) = run_echo(&rt, rt.alloc(), letters)? else {
        panic!(rt; "the inbox is full");
    };
    assert!(rt; heard.stop == Some(Stop::NumbersSpent) && heard.steps == 3);
    assert!(rt; heard.receiver.try_take(&rt).is_none());
    Ok(())
}

#[test]
fn a_worker_that_fails_tells_so_and_stops_where_a_letter_says_so(
    rt: HostRuntime,
) -> Result<(), AllocError> {
    let stop = Letter::new(Body::Stop(Stop::Memory));
    let letters = vec![in rt.alloc(); Letter::new(Body::Drain), tick(1), stop]?;
    let Some(mut heard) = run_echo(&rt, rt.alloc(), letters)? else {
        panic!(rt; "the inbox is full");
    };
    assert!(rt; heard.stop == Some(Stop::HistoryFull));
    assert!(rt; farewell_in(heard.receiver.try_take(&rt)) == Some(Stop::HistoryFull));
    assert!(rt; heard.receiver.try_take(&rt).is_none());
    Ok(())
}

//! A worker that sends letters to itself.
ghost use Rattle.std.specs.Prelude.{◌≡◌, ◌<◌, ◌≤◌};

use crate::echo::{Note, tick};
use es_io::Job;
use node_link::{Body, Letter, inbox};
use node_worker::{Post, Turns, Worker, WorkerOut};
use std::alloc::{AllocError, Global};
use std::sync::Wait;
use task_events::Stop;
use task_ids::AnyCancel;

// Answers a tick n with the ticks 2n + 1 and 2n + 2, which go to itself, up to a last one. So the ticks come as 0, 1, 2 and so
// on if and only if the letters that it keeps go out in the order in which it gave them. It ends once it has heard each.
#[derive(Drop)]
struct Doubler {
    alloc: Global,
    last: u64,
    heard: u64,
    in_order: bool,
    ghost in_range: { last ≤ 1000000 },
}

// The ticks that answer this one.
fn doubled(alloc: Global, ms: u64, last: u64) -> Result<Vec<Post<Note>>, AllocError>
    requires { last ≤ 1000000 }
{
    let mut posts = Vec::new(alloc);
    if ms >= last {
        return Ok(posts);
    }
    for next in [2 * ms + 1, 2 * ms + 2] {
        if next <= last {
            posts.push(Post {
                to: 0,
                letter: tick(next),
            })?;
        }
    }
    Ok(posts)
}

impl Turns<AnyCancel> for Doubler {
    ghost did = { λ old _ _ new. new.last ≡ old.last };

    ghost at_rest = { λ doubler. doubler.last < doubler.heard };

    ghost fits = { λ _. Unit {0} };

    fn take(&mut self, body: Body) -> Result<Vec<Post<Note>>, Stop> {
        match body {
            Body::Tick { ms } => {
                self.in_order = self.in_order && ms == self.heard;
                self.heard = self.heard.wrapping_add(1);
                doubled(self.alloc, ms, self.last).map_err(|_| Stop::Memory)
            }
            _ => Ok(Vec::new(self.alloc)),
        }
    }

    fn step(&mut self) -> Result<Option<Vec<Post<Note>>>, Stop> {
        Ok(None)
    }

    fn may_wait(&self) -> bool {
        true
    }

    fn may_leave(&self) -> bool {
        self.last < self.heard
    }

    fn farewell(&self, stop: Stop) -> Post<Note> {
        Post {
            to: 0,
            letter: Letter::new(Body::Stopped(stop)),
        }
    }
}

// How many ticks a doubler hears up to the last, if all come in order, where its inbox has room for so many letters.
fn hear_all<R: Wait>(rt: &R, alloc: Global, room: u32, last: u64) -> Result<Option<u64>, AllocError>
    requires room { 0 < room }
    requires last { last ≤ 1000000 }
{
    let (mut senders, its_inbox) = inbox::<Note>(alloc, room, 2)?;
    let Some(mut first) = senders.pop() else {
        return Ok(None);
    };
    if first.send(rt, tick(0)).is_err() {
        return Ok(None);
    }
    let doubler = Doubler {
        alloc,
        last,
        heard: 0,
        in_order: true,
    };
    let worker = Worker::new(alloc, doubler, its_inbox, senders);
    match worker.run(rt) {
        WorkerOut::Drained(rest) if rest.worker.in_order => Ok(Some(rest.worker.heard)),
        _ => Ok(None),
    }
}

#[test]
fn letters_that_an_inbox_has_no_room_for_come_in_order(rt: HostRuntime) -> Result<(), AllocError> {
    assert_eq!(rt; hear_all(&rt, rt.alloc(), 1, 1_000)?, Some(1_001));
    assert_eq!(rt; hear_all(&rt, rt.alloc(), 64, 100_000)?, Some(100_001));
    Ok(())
}

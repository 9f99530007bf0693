//! When the next batch of a slice is due.

ghost use Rattle.std.specs.Prelude.{◌≡◌, ◌≤◌, ◌<◌, ◌^◌, None};
ghost use Rattle.throttle.specs.Waits.{per_second};
ghost use Rattle.by_query.specs.Paces.{new_pace, after_batch, with_rate, due_of};

use std::marker::Model;
use throttle::{Rate, wait_ms};

/// A batch that was written and after which nothing is asked for yet.
#[derive(Clone, Copy)]
struct Rest {
    /// The moment of its answer, in milliseconds.
    answered: u64,
    /// How many documents it has, at most 10,000.
    batch: u32,
    /// How many milliseconds it took, from its page's answer to its own.
    spent: u64,
    /// How many milliseconds are waited after it: the least over the rate at its answer and every later one so far.
    wait: u64,
}

/// The pace at which a slice goes from batch to batch: the rate in force, and when the next batch is due. A faster rate counts at once, and a
/// slower one after the batch. It takes no memory. All moments are in milliseconds, and below 2^60.
#[derive(Drop)]
pub struct Pace {
    slices: u32,
    rate: Rate,
    rest: Option<Rest>,
}

impl Model for Pace {
    ghost use Rattle.std.specs.Prelude.{◌≤◌, ◌<◌, ◌^◌, option_map, IfSome};
    ghost use Rattle.std.specs.Coded.{codes};
    ghost use Rattle.throttle.specs.Waits.{per_second};
    ghost use Rattle.by_query.specs.Paces.{Pacing};

    ghost Value = { Pacing };

    ghost coded = { Prim.hlevel codes };

    ghost view = { λ p. record {
      slices = p.slices;
      rate = per_second p.rate;
      rest = option_map (λ r. record { answered = r.answered; batch = r.batch; spent = r.spent; wait = r.wait }) p.rest;
    } };

    ghost invariant = { λ p. (p.slices ≤ 32) × IfSome p.rest (λ r. (r.batch ≤ 10000) × (r.answered < 2 ^ 60) × (r.wait < 2 ^ 60)) };
}

impl Pace {
    /// That of one of so many slices, at most 32, at a rate over all of them. It rests after no batch.
    pub fn new(slices: u32, rate: Rate) -> Pace
        requires { slices ≤ 32 }
        ensures { result ≡ new_pace slices (per_second rate) }
    {
        Pace {
            slices,
            rate,
            rest: None,
        }
    }

    /// A batch of so many documents, at most 10,000, was answered now, so many milliseconds after its page. The slice rests after it.
    pub fn rest_after(&mut self, batch: u32, spent: u64, now: u64)
        requires batch { batch ≤ 10000 }
        requires now { now < 2 ^ 60 }
        ensures { self.new ≡ after_batch batch spent now self.old }
    {
        self.rest = Some(Rest {
            answered: now,
            batch,
            spent,
            wait: wait_ms(batch, self.slices, self.rate, spent),
        });
    }

    /// The rate is this one from here on. Where the slice rests it waits no longer than its batch takes at this rate.
    pub fn rethrottle(&mut self, rate: Rate)
        ensures { self.new ≡ with_rate (per_second rate) self.old }
    {
        self.rate = rate;
        if let Some(rest) = self.rest {
            let wait = wait_ms(rest.batch, self.slices, rate, rest.spent);
            self.rest = Some(Rest {
                wait: rest.wait.min(wait),
                ..rest
            });
        }
    }

    /// The moment from which on the next batch may be read, where it rests after one.
    pub fn due(&self) -> Option<u64>
        ensures { result ≡ due_of self.now }
    {
        let rest = self.rest?;
        Some(rest.answered + rest.wait)
    }

    /// The next batch is read, so it rests no more.
    pub fn go_on(&mut self)
        ensures { self.new ≡ record self.old { rest = None } }
    {
        self.rest = None;
    }
}

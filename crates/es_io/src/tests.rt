//! Threads that are started, that fail to start, and that a gate holds.
ghost use Rattle.std.specs.Prelude.{◌≡◌};

use super::*;
use std::alloc::AllocError;
use std::sync::Wait;
use std::sync::atomic::{AtomicU32, Ordering};
use std::thread;
use std::thread::Threads;

// Passes two places, and gives its node's number.
#[derive(Drop)]
struct Walk<'g, G: Gate> {
    gate: &'g G,
    node: u32,
    first: Spot,
    second: Spot,
}

impl<'g, G: Gate> Job for Walk<'g, G> {
    type Out = u32;

    ghost gives = { λ walk out. out ≡ walk.node };

    fn run<R: Wait>(self, rt: &R) -> u32 {
        let _ = rt;
        self.gate.pass(self.node, self.first);
        self.gate.pass(self.node, self.second);
        self.node
    }
}

// A driver before commands 1 and 2, a worker's turns and a mark, each in a thread of its own. It gives their nodes'
// numbers, or none where a thread could not be started.
fn walks<G: Gate, P: Spawner, R: Threads + Wait + Sync>(
    rt: &R,
    gate: &G,
    spawner: &mut P,
) -> Option<(u32, u32, u32)> {
    let driver = Walk {
        gate,
        node: 0,
        first: Spot::Line(1),
        second: Spot::Line(2),
    };
    let data = Walk {
        gate,
        node: 3,
        first: Spot::Turn,
        second: Spot::Turn,
    };
    let control = Walk {
        gate,
        node: 3,
        first: Spot::Marked,
        second: Spot::Line(2),
    };
    thread::scope(thread::scope_env(), rt, |scope| {
        let driver = spawner.start(rt, scope, driver).ok()?;
        let data = spawner.start(rt, scope, data).ok()?;
        let control = spawner.start(rt, scope, control).ok()?;
        Some((driver.finish(rt), data.finish(rt), control.finish(rt)))
    })
}

#[test]
fn threads_of_jobs_give_their_outputs(rt: HostRuntime) {
    assert_eq!(rt;
        walks(&rt, &OpenGate, &mut ThreadSpawner::new()),
        Some((0, 3, 3))
    );
}

#[test]
fn a_gate_holds_two_threads_against_each_other(rt: HostRuntime) {
    let gate = HoldGate::new(3, 2, 1, 1 << 40);
    assert!(rt; !gate.released());
    assert_eq!(rt;
        walks(&rt, &gate, &mut ThreadSpawner::new()),
        Some((0, 3, 3))
    );
    assert!(rt; gate.released());
}

#[test]
fn a_gate_gives_up_after_its_looks(rt: HostRuntime) {
    // Two marks never come.
    let gate = HoldGate::new(3, 2, 2, 10);
    assert_eq!(rt;
        walks(&rt, &gate, &mut ThreadSpawner::new()),
        Some((0, 3, 3))
    );
    assert!(rt; !gate.released());
    // No node has this number, so nobody is at its turn.
    let other = HoldGate::new(4, 2, 0, 10);
    assert_eq!(rt;
        walks(&rt, &other, &mut ThreadSpawner::new()),
        Some((0, 3, 3))
    );
    assert!(rt; !other.released());
}

#[test]
fn a_spawner_fails_at_the_call_that_it_was_told(rt: HostRuntime) -> Result<(), AllocError> {
    for failing in 1..5 {
        let mut spawner = ListSpawner::new(vec![in rt.alloc(); failing]?);
        let nodes = walks(&rt, &OpenGate, &mut spawner);
        assert_eq!(rt;
            nodes,
            if failing < 4 { None } else { Some((0, 3, 3)) },
            "call {failing}"
        );
    }
    Ok(())
}

// Counts that it ran.
#[derive(Drop)]
struct Count<'c> {
    ran: &'c AtomicU32,
}

impl<'c> Job for Count<'c> {
    type Out = u32;

    ghost gives = { λ _ _. Unit {0} };

    fn run<R: Wait>(self, rt: &R) -> u32 {
        let _ = rt;
        self.ran.fetch_add(1, Ordering::SeqCst)
    }
}

// Which of three jobs were started, and how many ran before the scope of their threads ended.
fn starts<P: Spawner, R: Threads + Wait + Sync>(rt: &R, spawner: &mut P) -> ([bool; 3], u32) {
    let ran = AtomicU32::new(0);
    let started = thread::scope(thread::scope_env(), rt, |scope| {
        let first = spawner.start(rt, scope, Count { ran: &ran }).is_ok();
        let second = spawner.start(rt, scope, Count { ran: &ran }).is_ok();
        let third = spawner.start(rt, scope, Count { ran: &ran }).is_ok();
        [first, second, third]
    });
    (started, ran.load(Ordering::SeqCst))
}

#[test]
fn a_job_runs_exactly_where_it_was_started(rt: HostRuntime) -> Result<(), AllocError> {
    assert!(rt; starts(&rt, &mut ThreadSpawner::new()) == ([true, true, true], 3));
    for failing in 1..4 {
        let mut spawner = ListSpawner::new(vec![in rt.alloc(); failing]?);
        let started = [failing != 1, failing != 2, failing != 3];
        assert!(rt; starts(&rt, &mut spawner) == (started, 2), "call {failing}");
    }
    Ok(())
}

const LINE: (u32, Spot) = (0, Spot::Line(2));

const TURN: (u32, Spot) = (3, Spot::Turn);

const MARK: (u32, Spot) = (3, Spot::Marked);

// Whether a gate for one mark, each of whose holds ends after one look, is released once these places were passed in this order.
fn is_released_after(places: &[(u32, Spot)]) -> bool {
    let gate = HoldGate::new(3, 2, 1, 1);
    for (node, spot) in places {
        gate.pass(*node, *spot);
    }
    gate.released()
}

#[test]
fn a_gate_is_released_only_where_no_hold_ran_out(rt: HostRuntime) {
    // The mark is there before the turn, and the turn before the line.
    assert!(rt; is_released_after(&[MARK, TURN, LINE]));
    // The line waits for a turn that comes too late, and the turn for a mark.
    assert!(rt; !is_released_after(&[MARK, LINE, TURN]));
    assert!(rt; !is_released_after(&[TURN, LINE, MARK]));
    assert!(rt; !is_released_after(&[TURN, MARK, LINE]));
    // No hold ran out, but the line was not passed.
    assert!(rt; !is_released_after(&[MARK, TURN]));
}

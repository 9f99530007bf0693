//! A worked pool, gathered lists, and turns that meet.
ghost use Rattle.task_ids.specs.Limits.{IsNumber};

use data_pool::{Gather, MeetGate, Pool, quota_of, shards_of, worker_of};
use es_io::{Gate, Job, Spawner, Spot, ThreadSpawner};
use shared_value::Shared;
use std::alloc::{AllocError, Global};
use std::sync::Wait;
use std::thread;
use std::thread::Threads;
use task_events::{BulkShardAsk, FetchAsk, Request, ScrollAsk};
use task_ids::{Action, Headers, Items, TaskId, TaskInfo, Text};

// Two workers on one node, which has five shards.
const TWO: Pool = Pool {
    nodes: 1,
    shards: 5,
    workers: 2,
};

// Three workers on each of two nodes, which share ten shards.
const THREE: Pool = Pool {
    nodes: 2,
    shards: 10,
    workers: 3,
};

#[test]
fn a_worker_holds_its_shards(rt: HostRuntime) -> Result<(), AllocError> {
    let alloc = rt.alloc();
    assert!(rt; shards_of(alloc, &TWO, 1, 0)?.as_slice() == [0, 2, 4].as_slice());
    assert!(rt; shards_of(alloc, &TWO, 1, 1)?.as_slice() == [1, 3].as_slice());
    // No node and no worker has these numbers.
    assert!(rt; shards_of(alloc, &TWO, 2, 0)?.is_empty());
    assert!(rt; shards_of(alloc, &TWO, 1, 2)?.is_empty());
    assert!(rt; shards_of(alloc, &THREE, 1, 0)?.as_slice() == [0, 6].as_slice());
    assert!(rt; shards_of(alloc, &THREE, 1, 1)?.as_slice() == [2, 8].as_slice());
    assert!(rt; shards_of(alloc, &THREE, 1, 2)?.as_slice() == [4].as_slice());
    assert!(rt; shards_of(alloc, &THREE, 2, 1)?.as_slice() == [3, 9].as_slice());
    Ok(())
}

#[test]
fn slots_are_shared_out(rt: HostRuntime) {
    assert!(rt; [quota_of(7, 3, 0), quota_of(7, 3, 1), quota_of(7, 3, 2)] == [3, 2, 2]);
    assert!(rt; [quota_of(8, 2, 0), quota_of(8, 2, 1)] == [4, 4]);
    // There is only one slot.
    assert!(rt; [quota_of(1, 2, 0), quota_of(1, 2, 1)] == [1, 0]);
    assert_eq!(rt; quota_of(1024, 1, 0), 1024);
}

// The documents of a bulk that lie in a shard, and the rows of a fetch.
fn written(alloc: Global, shard: u32) -> Result<Request, AllocError> {
    let dest = Shared::new(alloc, Text::new(String::from_str(alloc, "b")?))?;
    let docs = Items::new(alloc);
    let ask = BulkShardAsk { dest, shard, docs };
    Ok(Request::BulkShard(Shared::new(alloc, ask)?))
}

fn fetched(alloc: Global, shard: u32) -> Result<Request, AllocError> {
    let index = Shared::new(alloc, Text::new(String::from_str(alloc, "b")?))?;
    let ask = FetchAsk {
        index,
        shard,
        version: 0,
        places: Items::new(alloc),
    };
    Ok(Request::Fetch(Shared::new(alloc, ask)?))
}

#[test]
fn a_request_goes_to_the_worker_of_its_shard(rt: HostRuntime) -> Result<(), AllocError> {
    let alloc = rt.alloc();
    for (shard, worker) in [
        (0, 0),
        (1, 0),
        (2, 1),
        (3, 1),
        (4, 2),
        (5, 2),
        (6, 0),
        (9, 1),
    ] {
        assert_eq!(rt;
            worker_of(&THREE, &written(alloc, shard)?),
            worker,
            "shard {shard}"
        );
        assert_eq!(rt;
            worker_of(&THREE, &fetched(alloc, shard)?),
            worker,
            "shard {shard}"
        );
    }
    let page = ScrollAsk {
        id: TaskId { node: 2, number: 3 },
        keep: None,
        owner: None,
    };
    let page = Request::Scroll(Shared::new(alloc, page)?);
    assert_eq!(rt; worker_of(&THREE, &page), 0);
    Ok(())
}

// A live task of node 1, told by one worker.
fn row(alloc: Global, number: u32) -> Result<TaskInfo, AllocError>
    requires { IsNumber number }
{
    Ok(TaskInfo {
        id: TaskId { node: 1, number },
        action: Action::Query,
        description: Text::new(String::new(alloc)),
        start_ms: 0,
        parent: None,
        headers: Headers::none(),
        cancelled: None,
    })
}

// The numbers of some tasks.
fn numbers(alloc: Global, rows: &[TaskInfo]) -> Result<Vec<u32>, AllocError> {
    rows.iter().map(|row| row.id.number).collect(alloc)
}

#[test]
fn a_gather_answers_with_its_last_part(rt: HostRuntime) -> Result<(), AllocError> {
    let alloc = rt.alloc();
    let mut gather = Gather::new(alloc, 2)?;
    assert!(rt; gather.takes(0) && !gather.takes(2));
    assert!(rt; gather.takes(1));
    let first = vec![in alloc; row(alloc, 2)?, row(alloc, 5)?]?;
    assert!(rt; gather.part(1, first)?.is_none());
    assert!(rt; !gather.takes(1));
    assert!(rt; gather.takes(0));
    let last = vec![in alloc; row(alloc, 1)?, row(alloc, 4)?, row(alloc, 7)?]?;
    let all = gather.part(0, last)?.unwrap_or(Vec::new(alloc));
    assert!(rt; numbers(alloc, all.as_slice())?.as_slice() == [1, 2, 4, 5, 7].as_slice());
    assert!(rt; !gather.takes(0) && !gather.takes(1));
    Ok(())
}

// Passes one turn of node 3.
#[derive(Drop)]
struct OneTurn<'g> {
    gate: &'g MeetGate,
}

impl<'g> Job for OneTurn<'g> {
    type Out = ();

    ghost gives = { λ _ _. Unit {0} };

    fn run<R: Wait>(self, rt: &R) {
        let _ = rt;
        self.gate.pass(3, Spot::Turn);
    }
}

// Two turns of node 3, each in a thread of its own, and whether they were started.
fn two_turns<R: Threads + Wait + Sync>(rt: &R, gate: &MeetGate) -> bool {
    let mut spawner = ThreadSpawner::new();
    thread::scope(thread::scope_env(), rt, |scope| {
        let first = spawner.start(rt, scope, OneTurn { gate }).is_ok();
        let second = spawner.start(rt, scope, OneTurn { gate }).is_ok();
        first && second
    })
}

#[test]
fn two_turns_meet(rt: HostRuntime) {
    let gate = MeetGate::new(3, 2, 1 << 40);
    assert!(rt; !gate.met());
    assert!(rt; two_turns(&rt, &gate));
    assert!(rt; gate.met());
}

#[test]
fn a_turn_gives_up_after_its_looks(rt: HostRuntime) {
    // The third turn never comes.
    let gate = MeetGate::new(3, 3, 10);
    assert!(rt; two_turns(&rt, &gate));
    assert!(rt; !gate.met());
    // Turns of another node and other places do not count, and hold nobody.
    let other = MeetGate::new(4, 1, 10);
    assert!(rt; two_turns(&rt, &other));
    other.pass(4, Spot::Marked);
    assert!(rt; !other.met());
    other.pass(4, Spot::Turn);
    assert!(rt; other.met());
    // So many turns come, but one of them was held too long.
    let late = MeetGate::new(3, 2, 1);
    late.pass(3, Spot::Turn);
    late.pass(3, Spot::Turn);
    assert!(rt; !late.met());
}

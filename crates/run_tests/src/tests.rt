//! Runs that are held, that fail, and that have much to do.
ghost use Rattle.std.specs.Prelude.{◌≤◌};
ghost use Rattle.task_ids.specs.Limits.{IsNode};

use crate::inputs::{
    CANCEL, CANCELLED, COPIED, COPY, REJECTED, SEARCHED, SEARCHES, TWO_SHARDS, TWO_SHARDS_FOUND,
    TWO_SHARDS_REJECTED, many_searches,
};
use crate::runs::{Failing, NOTHING, PIECE, run, run_pool};
use data_pool::MeetGate;
use es_io::{HoldGate, OpenGate};
use std::alloc::{AllocError, Global};
use std::sync::Wait;
use std::thread::Threads;
use task_ids::Cluster;
use top_parts::Status;

/// A cluster of one node.
const ONE: Cluster = Cluster {
    nodes: 1,
    shards: 1,
    slots: 64,
};

/// A cluster of two nodes.
const TWO: Cluster = Cluster {
    nodes: 2,
    shards: 3,
    slots: 64,
};

// Whether a search ends as cancelled, ten times, whose first turn of work on a node is held until a task was marked there, and which is
// cancelled while it is held.
fn is_cancelled_while_held<R: Threads + Wait + Sync>(
    rt: &R,
    alloc: Global,
    nodes: u32,
    held: u32,
) -> Result<bool, AllocError>
    requires { IsNode nodes }
{
    let cluster = Cluster {
        nodes,
        shards: 6,
        slots: 64,
    };
    for _ in 0..10 {
        let gate = HoldGate::new(held, 2, 1, 1 << 40);
        let ran = run(rt, alloc, &cluster, CANCEL, NOTHING, &gate)?;
        if !ran.is(Status::Done, CANCELLED) || !gate.released() {
            return Ok(false);
        }
    }
    Ok(true)
}

#[test]
fn a_search_is_cancelled_while_a_node_works_for_it(rt: HostRuntime) -> Result<(), AllocError> {
    for nodes in 1..4 {
        for held in 1..nodes + 1 {
            assert!(rt;
                is_cancelled_while_held(&rt, rt.alloc(), nodes, held)?,
                "{nodes} {held}"
            );
        }
    }
    Ok(())
}

#[test]
fn a_copy_ends_by_the_drain(rt: HostRuntime) -> Result<(), AllocError> {
    let ran = run(&rt, rt.alloc(), &TWO, COPY, NOTHING, &OpenGate)?;
    assert!(rt; ran.is(Status::Done, COPIED));
    Ok(())
}

#[test]
fn a_node_with_one_slot_rejects(rt: HostRuntime) -> Result<(), AllocError> {
    let narrow = Cluster {
        nodes: 1,
        shards: 1,
        slots: 1,
    };
    let ran = run(&rt, rt.alloc(), &narrow, SEARCHES, NOTHING, &OpenGate)?;
    assert!(rt; ran.is(Status::Done, REJECTED));
    let ran = run(&rt, rt.alloc(), &ONE, SEARCHES, NOTHING, &OpenGate)?;
    assert!(rt; ran.is(Status::Done, SEARCHED));
    Ok(())
}

#[test]
fn a_read_that_fails_ends_the_run(rt: HostRuntime) -> Result<(), AllocError> {
    // The last read finds the end.
    let reads = (SEARCHES.len() / PIECE + 2) as u64;
    for read in 1..reads + 1 {
        let failing = Failing { read, ..NOTHING };
        let ran = run(&rt, rt.alloc(), &ONE, SEARCHES, failing, &OpenGate)?;
        assert!(rt; ran.is(Status::ReadFault, ""), "{read}");
    }
    Ok(())
}

#[test]
fn a_write_that_fails_leaves_the_pieces_before_it(rt: HostRuntime) -> Result<(), AllocError> {
    let writes = (SEARCHED.len() / PIECE + 1) as u64;
    for write in 1..writes + 1 {
        let failing = Failing { write, ..NOTHING };
        let ran = run(&rt, rt.alloc(), &ONE, SEARCHES, failing, &OpenGate)?;
        assert!(rt; ran.status == Status::WriteFault, "{write}");
        assert!(rt; SEARCHED.as_bytes().starts_with(ran.out.bytes()), "{write}");
    }
    Ok(())
}

#[test]
fn a_start_that_fails_ends_the_run(rt: HostRuntime) -> Result<(), AllocError> {
    for start in 1..5 {
        let failing = Failing { start, ..NOTHING };
        let ran = run(&rt, rt.alloc(), &TWO, SEARCHES, failing, &OpenGate)?;
        assert!(rt; ran.is(Status::NoThread, ""), "{start}");
    }
    Ok(())
}

// How many lines there are.
fn count_lines(text: &[u8]) -> usize {
    text.iter().filter(|byte| **byte == b'\n').count()
}

#[test]
fn ten_thousand_searches_go_out_at_once(rt: HostRuntime) -> Result<(), AllocError> {
    let input = many_searches(rt.alloc(), 10_000)?;
    let ran = run(&rt, rt.alloc(), &TWO, input.as_str(), NOTHING, &OpenGate)?;
    assert!(rt; ran.status == Status::Done);
    assert_eq!(rt; count_lines(ran.out.bytes()), 10_000);
    Ok(())
}

/// A cluster of one node with two shards.
const TWO_OF_ONE: Cluster = Cluster {
    nodes: 1,
    shards: 2,
    slots: 256,
};

#[test]
fn two_workers_of_a_node_work_side_by_side(rt: HostRuntime) -> Result<(), AllocError> {
    let gate = MeetGate::new(1, 2, 50_000_000);
    let ran = run_pool(&rt, rt.alloc(), &TWO_OF_ONE, 2, TWO_SHARDS, &gate)?;
    assert!(rt; ran.is(Status::Done, TWO_SHARDS_FOUND));
    assert!(rt; gate.met());
    Ok(())
}

#[test]
fn a_worker_rejects_by_its_own_quota(rt: HostRuntime) -> Result<(), AllocError> {
    let narrow = Cluster {
        nodes: 1,
        shards: 2,
        slots: 1,
    };
    let ran = run_pool(&rt, rt.alloc(), &narrow, 2, TWO_SHARDS, &OpenGate)?;
    assert!(rt; ran.is(Status::Done, TWO_SHARDS_REJECTED));
    Ok(())
}

// Whether each pool of data workers gives what one worker gives, where every order of the threads gives the same.
fn is_same_with<R: Threads + Wait + Sync>(
    rt: &R,
    alloc: Global,
    workers: u32,
) -> Result<bool, AllocError>
    requires { (1 ≤ workers) × (workers ≤ 4) }
{
    let copied = run_pool(rt, alloc, &TWO, workers, COPY, &OpenGate)?;
    let searched = run_pool(rt, alloc, &ONE, workers, SEARCHES, &OpenGate)?;
    let found = run_pool(rt, alloc, &TWO_OF_ONE, workers, TWO_SHARDS, &OpenGate)?;
    Ok(
        copied.is(Status::Done, COPIED)
            && searched.is(Status::Done, SEARCHED)
            && found.is(Status::Done, TWO_SHARDS_FOUND),
    )
}

#[test]
fn a_pool_gives_what_one_worker_gives(rt: HostRuntime) -> Result<(), AllocError> {
    for workers in 1..5 {
        assert!(rt; is_same_with(&rt, rt.alloc(), workers)?, "{workers}");
    }
    Ok(())
}

#[test]
fn a_search_is_cancelled_while_a_pool_works_for_it(rt: HostRuntime) -> Result<(), AllocError> {
    let cluster = Cluster {
        nodes: 2,
        shards: 8,
        slots: 64,
    };
    for workers in 1..5 {
        let gate = HoldGate::new(1, 2, 1, 1 << 40);
        let ran = run_pool(&rt, rt.alloc(), &cluster, workers, CANCEL, &gate)?;
        assert!(rt; ran.is(Status::Done, CANCELLED), "{workers}");
    }
    Ok(())
}

#[test]
fn a_pool_of_four_answers_ten_thousand_searches(rt: HostRuntime) -> Result<(), AllocError> {
    let input = many_searches(rt.alloc(), 10_000)?;
    let ran = run_pool(&rt, rt.alloc(), &TWO, 4, input.as_str(), &OpenGate)?;
    assert!(rt; ran.status == Status::Done);
    assert_eq!(rt; count_lines(ran.out.bytes()), 10_000);
    Ok(())
}

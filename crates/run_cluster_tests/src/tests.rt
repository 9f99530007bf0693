//! Clusters that run.
ghost use Rattle.std.specs.Prelude.{◌<◌, ◌≤◌};
ghost use Rattle.task_ids.specs.Limits.{IsNode};
ghost use Rattle.run_facts.specs.Inboxes.{IsPoolSize};

use crate::drivers::{DOCS, GivesUp, Name, Plays, Searches, Silent};
use es_io::{ListSpawner, OpenGate, Spawner, ThreadSpawner};
use run_cluster::{Drive, NodeNote, RunNotes, RunStop, run_cluster};
use run_facts::driver_of;
use shard_docs::read_corpus;
use std::alloc::{AllocError, Global};
use std::sync::Wait;
use std::thread::Threads;
use task_events::Stop;
use task_ids::Cluster;

// Runs a cluster of so many nodes with so many data workers each, with five shards.
fn run<P: Spawner, D: Drive<Name>, R: Threads + Wait + Sync>(
    rt: &R,
    alloc: Global,
    nodes: u32,
    workers: u32,
    capacity: u32,
    spawner: &mut P,
    drive: &mut D,
) -> Result<RunNotes, RunStop>
    requires nodes { IsNode nodes }
    requires workers { IsPoolSize workers }
    requires capacity { 0 < capacity }
{
    let cluster = Cluster {
        nodes,
        shards: 5,
        slots: 64,
    };
    let Ok(read) = read_corpus(alloc, DOCS.as_bytes()) else {
        return Err(RunStop::Stopped(Stop::Memory));
    };
    run_cluster::<Plays, P, OpenGate, D, R>(
        rt,
        alloc,
        &cluster,
        workers,
        &read.corpus,
        capacity,
        spawner,
        &OpenGate,
        drive,
    )
}

// Whether this is the note of that node with so many data workers, nothing is left on its board, and all that was sent to its workers was
// taken.
fn is_clear(note: &NodeNote, node: usize, workers: u32) -> bool {
    note.node as usize == node
        && note.live() == 0
        && note.bans() == 0
        && note.datas.as_slice().len() == workers as usize
        && note.sent() == note.taken()
}

// Whether there is such a note for each node, and all that was sent to the driver was taken.
fn is_whole(notes: &RunNotes, nodes: u32, workers: u32) -> bool {
    for (before, note) in notes.nodes.iter().enumerate() {
        if !is_clear(note, before + 1, workers) {
            return false;
        }
    }
    notes.nodes.len() == nodes as usize && notes.driver.sent == notes.driver.taken
}

#[test]
fn workers_with_nothing_to_do_leave(rt: HostRuntime) -> Result<(), AllocError> {
    for nodes in 1..5 {
        for workers in 1..5 {
            for capacity in [1, 64] {
                let went = run(
                    &rt,
                    rt.alloc(),
                    nodes,
                    workers,
                    capacity,
                    &mut ThreadSpawner::new(),
                    &mut Silent,
                );
                assert!(rt;
                    matches!(&went, Ok(notes) if is_whole(notes, nodes, workers)),
                    "{nodes} {workers} {capacity}"
                );
            }
        }
    }
    Ok(())
}

// How many of so many searches were answered, and how many documents they found, where nothing is left.
fn search<R: Threads + Wait + Sync>(
    rt: &R,
    alloc: Global,
    nodes: u32,
    workers: u32,
    capacity: u32,
    count: u32,
) -> Option<(u32, u64)>
    requires nodes { IsNode nodes }
    requires workers { IsPoolSize workers }
    requires capacity { 0 < capacity }
    requires few { count ≤ 65535 }
{
    let mut searches = Searches {
        alloc,
        nodes,
        workers,
        count,
        found: 0,
        answered: 0,
    };
    let mut spawner = ThreadSpawner::new();
    match run(
        rt,
        alloc,
        nodes,
        workers,
        capacity,
        &mut spawner,
        &mut searches,
    ) {
        Ok(notes) if is_whole(&notes, nodes, workers) => Some((searches.answered, searches.found)),
        _ => None,
    }
}

#[test]
fn searches_find_all(rt: HostRuntime) -> Result<(), AllocError> {
    for nodes in 1..5 {
        for workers in 1..5 {
            for capacity in [1, 3, 64] {
                let came = search(&rt, rt.alloc(), nodes, workers, capacity, nodes);
                let all = 5 * u64::from(nodes);
                assert!(rt; came == Some((nodes, all)), "{nodes} {workers} {capacity}");
            }
        }
    }
    Ok(())
}

#[test]
fn ten_thousand_searches_go_through_inboxes_of_one_letter(
    rt: HostRuntime,
) -> Result<(), AllocError> {
    for workers in [1, 3] {
        let came = search(&rt, rt.alloc(), 3, workers, 1, 10_000);
        assert!(rt; matches!(came, Some((10_000, _))), "{workers}");
    }
    Ok(())
}

#[test]
fn a_start_that_fails_stops_the_others(rt: HostRuntime) -> Result<(), AllocError> {
    for nodes in 1..4 {
        for workers in 1..4 {
            for failing in 1..u64::from(driver_of(workers, nodes)) + 1 {
                let list = vec![in rt.alloc(); failing]?;
                let went = run(
                    &rt,
                    rt.alloc(),
                    nodes,
                    workers,
                    1,
                    &mut ListSpawner::new(list),
                    &mut Silent,
                );
                assert!(rt;
                    matches!(went, Err(RunStop::NoThread)),
                    "{nodes} {workers} {failing}"
                );
            }
        }
    }
    Ok(())
}

#[test]
fn a_driver_that_gives_up_stops_all(rt: HostRuntime) -> Result<(), AllocError> {
    for nodes in 1..5 {
        for workers in 1..5 {
            for capacity in [1, 64] {
                let went = run(
                    &rt,
                    rt.alloc(),
                    nodes,
                    workers,
                    capacity,
                    &mut ThreadSpawner::new(),
                    &mut GivesUp,
                );
                assert!(rt;
                    matches!(went, Err(RunStop::Stopped(Stop::NumbersSpent))),
                    "{nodes} {workers}"
                );
            }
        }
    }
    Ok(())
}

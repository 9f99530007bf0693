//! Searches with little room, and searches that are cancelled while one of them works.
ghost use Rattle.std.specs.Prelude.{◌≤◌};
ghost use Rattle.task_ids.specs.Limits.{IsSlotCount};

use crate::boards::{on_a_lock, on_words};
use crate::driver::Heard;
use crate::node::{Play, Room};
use es_io::{HoldGate, OpenGate};
use std::alloc::{AllocError, Global};
use std::sync::Wait;
use std::thread::Threads;

/// How many times each is played.
const TIMES: u32 = 100;

// Plays a search on both boards, with slots for two tasks and inboxes of one letter, and says whether it found all on each.
fn finds_all<R: Threads + Wait + Sync>(rt: &R, alloc: Global) -> Result<bool, AllocError> {
    let play = Play {
        room: Room {
            slots: 2,
            bans: 8,
            capacity: 1,
        },
        gate: &OpenGate,
        searches: 1,
        cancels: 0,
        letters: 2,
    };
    let all = Some(Heard {
        found: 1,
        cancelled: 0,
        done: 0,
    });
    Ok(on_a_lock(rt, alloc, &play)? == all && on_words(rt, alloc, &play)? == all)
}

#[test]
fn letters_and_claims_that_found_no_room_come_again(rt: HostRuntime) -> Result<(), AllocError> {
    for _ in 0..TIMES {
        assert!(rt; finds_all(&rt, rt.alloc())?);
    }
    Ok(())
}

// A play of so many searches that are all cancelled. The first turn of work is held until so many tasks were marked.
fn cancels_of<'g>(gate: &'g HoldGate, searches: u32, bans: u32) -> Play<'g, HoldGate>
    requires searches { searches ≤ 10 }
    requires bans { IsSlotCount bans }
{
    Play {
        room: Room {
            slots: 64,
            bans,
            capacity: 64,
        },
        gate,
        searches,
        cancels: searches,
        letters: 3 * searches,
    }
}

// What is heard of so many searches that are all cancelled.
fn all_cancelled(searches: u32) -> Option<Heard> {
    Some(Heard {
        found: 0,
        cancelled: searches,
        done: searches,
    })
}

// Cancels so many searches on both boards, while one of them works, and says whether all came as it must on each.
fn all_end<R: Threads + Wait + Sync>(
    rt: &R,
    alloc: Global,
    searches: u32,
    bans: u32,
    marks: u32,
) -> Result<bool, AllocError>
    requires searches { searches ≤ 10 }
    requires bans { IsSlotCount bans }
{
    let gate = HoldGate::new(1, 1, marks, 1 << 40);
    let heard = on_a_lock(rt, alloc, &cancels_of(&gate, searches, bans))?;
    if heard != all_cancelled(searches) || !gate.released() {
        return Ok(false);
    }
    let gate = HoldGate::new(1, 1, marks, 1 << 40);
    let heard = on_words(rt, alloc, &cancels_of(&gate, searches, bans))?;
    Ok(heard == all_cancelled(searches) && gate.released())
}

#[test]
fn a_search_that_works_is_cancelled_with_its_children(rt: HostRuntime) -> Result<(), AllocError> {
    for _ in 0..TIMES {
        // The search and both of its children are marked.
        assert!(rt; all_end(&rt, rt.alloc(), 1, 8, 3)?);
    }
    Ok(())
}

#[test]
fn a_ban_without_room_waits_for_an_unban(rt: HostRuntime) -> Result<(), AllocError> {
    for _ in 0..TIMES {
        // Both searches are marked, and the children of the first: the ban of the second has no room.
        assert!(rt; all_end(&rt, rt.alloc(), 2, 1, 4)?);
    }
    Ok(())
}

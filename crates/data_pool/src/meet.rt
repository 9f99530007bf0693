//! A gate at which the turns of a node meet.
use es_io::{Gate, Spot};
use std::sync::atomic::{AtomicBool, AtomicU64, Ordering};
use std::thread;

/// A gate that holds the turns of work on one node until so many of them are there, so that they happen side by side. For tests.
///
/// Each hold ends after a number of looks at the latest.
#[derive(Drop)]
pub struct MeetGate {
    node: u32,
    turns: u32,
    limit: u64,
    reached: AtomicU64,
    // A hold ended by its limit.
    ran_out: AtomicBool,
}

impl MeetGate {
    /// Holds each `Turn` of `node` until `turns` of them were reached, for at most `limit` looks. It takes no memory.
    pub fn new(node: u32, turns: u32, limit: u64) -> MeetGate {
        MeetGate {
            node,
            turns,
            limit,
            reached: AtomicU64::new(0),
            ran_out: AtomicBool::new(false),
        }
    }

    /// Whether the turns met: so many were reached, and no hold ended by its limit.
    pub fn met(&self) -> bool {
        self.are_reached() && !self.ran_out.load(Ordering::SeqCst)
    }

    fn are_reached(&self) -> bool {
        self.reached.load(Ordering::SeqCst) >= u64::from(self.turns)
    }

    // Looks until so many turns are reached, or the limit ends it.
    fn hold(&self) {
        for _ in 0..self.limit {
            if self.are_reached() {
                return;
            }
            thread::yield_now();
        }
        self.ran_out.store(true, Ordering::SeqCst);
    }
}

impl Gate for MeetGate {
    fn pass(&self, node: u32, spot: Spot) {
        if node == self.node && spot == Spot::Turn {
            self.reached.fetch_add(1, Ordering::SeqCst);
            self.hold();
        }
    }
}

// Gates: places where a test may hold a thread.
use std::sync::atomic::{AtomicBool, AtomicU32, Ordering};
use std::thread;

/// A place that a thread passes.
#[derive(Clone, Copy, Debug, PartialEq, Eq)]
pub enum Spot {
    /// The driver is before the command of this number.
    Line(u32),
    /// A data worker is before a turn of work.
    Turn,
    /// A control worker has marked a task.
    Marked,
}

/// What a thread asks at each place that it passes. A gate may hold the thread for a while, and promises nothing.
pub trait Gate: Sync {
    /// A thread of this node (0 for the driver) passes this place.
    fn pass(&self, node: u32, spot: Spot);
}

/// A gate that holds nothing.
#[derive(Clone, Copy, Debug, Default)]
pub struct OpenGate;

impl Gate for OpenGate {
    fn pass(&self, node: u32, spot: Spot) {
        let _ = (node, spot);
    }
}

/// A gate that holds two threads against each other, so that one schedule happens. For tests.
///
/// It holds the driver before one command until a node is at its first turn of work, and holds that turn until some
/// marks were passed on that node. Each hold ends after a number of looks at the latest.
#[derive(Drop)]
pub struct HoldGate {
    node: u32,
    line: u32,
    marks: u32,
    limit: u64,
    line_passed: AtomicBool,
    turn_reached: AtomicBool,
    marks_passed: AtomicU32,
    // A hold ended by its limit.
    ran_out: AtomicBool,
}

impl HoldGate {
    /// Holds `Line(line)` until `node` is at a `Turn`, and that `Turn` until `marks` times `Marked` was passed on that
    /// node, each for at most `limit` looks. It takes no memory.
    pub fn new(node: u32, line: u32, marks: u32, limit: u64) -> HoldGate {
        HoldGate {
            node,
            line,
            marks,
            limit,
            line_passed: AtomicBool::new(false),
            turn_reached: AtomicBool::new(false),
            marks_passed: AtomicU32::new(0),
            ran_out: AtomicBool::new(false),
        }
    }

    /// Whether the schedule happened: the line was passed, a turn was reached, the marks were passed, and neither hold
    /// ended by its limit.
    pub fn released(&self) -> bool {
        self.line_passed.load(Ordering::SeqCst)
            && self.is_at_turn()
            && self.is_marked()
            && !self.ran_out.load(Ordering::SeqCst)
    }

    fn is_at_turn(&self) -> bool {
        self.turn_reached.load(Ordering::SeqCst)
    }

    fn is_marked(&self) -> bool {
        self.marks_passed.load(Ordering::SeqCst) >= self.marks
    }

    // Looks until the turn is reached, or the limit ends it.
    fn hold_line(&self) {
        for _ in 0..self.limit {
            if self.is_at_turn() {
                return;
            }
            thread::yield_now();
        }
        self.ran_out.store(true, Ordering::SeqCst);
    }

    // Looks until the marks were passed, or the limit ends it.
    fn hold_turn(&self) {
        for _ in 0..self.limit {
            if self.is_marked() {
                return;
            }
            thread::yield_now();
        }
        self.ran_out.store(true, Ordering::SeqCst);
    }
}

impl Gate for HoldGate {
    fn pass(&self, node: u32, spot: Spot) {
        match spot {
            Spot::Line(line) => {
                if node == 0 && line == self.line {
                    self.hold_line();
                    self.line_passed.store(true, Ordering::SeqCst);
                }
            }
            Spot::Turn => {
                if node == self.node && !self.turn_reached.swap(true, Ordering::SeqCst) {
                    self.hold_turn();
                }
            }
            Spot::Marked => {
                if node == self.node {
                    self.marks_passed.fetch_add(1, Ordering::SeqCst);
                }
            }
        }
    }
}

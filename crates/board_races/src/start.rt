//! Where threads begin a round together, and who is late.
use std::sync::atomic::{AtomicU32, Ordering};
use std::thread;

/// The threads of a round.
const THREADS: u32 = 4;

/// The most looks at the others.
const LOOKS: u32 = 1_000_000;

/// How a round goes: how many threads have come, and for how many looks the control seat waits before it begins and a
/// child before it asks.
#[derive(Drop)]
pub struct Pace {
    come: AtomicU32,
    control: u32,
    child: u32,
}

impl Pace {
    /// That of a round, so that rounds differ in who is first.
    pub fn of(round: u32) -> Pace {
        Pace {
            come: AtomicU32::new(0),
            control: round % 256,
            child: round / 2 % 128,
        }
    }

    /// Waits until all threads of the round have come here, but not for ever.
    pub fn begin(&self) {
        self.come.fetch_add(1, Ordering::SeqCst);
        for _ in 0..LOOKS {
            if self.come.load(Ordering::SeqCst) >= THREADS {
                return;
            }
            thread::yield_now();
        }
    }

    /// The control seat waits.
    pub fn hold_control(&self) {
        self.look_often(self.control);
    }

    /// A child waits.
    pub fn hold_child(&self) {
        self.look_often(self.child);
    }

    fn look_often(&self, looks: u32) {
        for _ in 0..looks {
            let _ = self.come.load(Ordering::SeqCst);
        }
    }
}

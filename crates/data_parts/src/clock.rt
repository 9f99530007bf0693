//! The time of a core.
ghost use Rattle.std.specs.Prelude.{◌≡◌, ◌+◌, ◌<◌, ◌^◌, min, true, false, if◌then◌else◌};
ghost use Rattle.data_parts.specs.Clocks.{last_moment, moment_by};

/// The last moment that a core's clock shows, in milliseconds. It is some 36 million years from the first.
const LAST_MOMENT: u64 = 1_152_921_504_606_846_975;

/// The time of a core: how many milliseconds have gone by, and whether every due moment counts as past.
#[derive(Clone, Copy)]
pub struct Clock {
    ms: u64,
    draining: bool,
    ghost low: { ms < 2 ^ 60 },
}

impl Clock {
    /// No time has gone by.
    pub fn new() -> Clock
        ensures { (result.ms ≡ 0) × (result.draining ≡ false) }
    {
        Clock {
            ms: 0,
            draining: false,
        }
    }

    /// How many milliseconds have gone by.
    pub fn now(&self) -> u64
        ensures same { result ≡ self.now.ms }
        ensures low { result < 2 ^ 60 }
    {
        self.ms
    }

    /// So many milliseconds go by. The clock stands at the last moment that it shows.
    pub fn tick(&mut self, ms: u64)
        ensures { (self.new.ms ≡ min (self.old.ms + ms) last_moment) × (self.new.draining ≡ self.old.draining) }
    {
        self.ms = self.ms.saturating_add(ms).min(LAST_MOMENT);
    }

    /// From here on every due moment counts as past.
    pub fn drain(&mut self)
        ensures { (self.new.ms ≡ self.old.ms) × (self.new.draining ≡ true) }
    {
        self.draining = true;
    }

    /// The moment by which a task goes on that is due at this one, if it is due at one: now, or the due one where that counts as past.
    pub fn moment(&self, due: Option<u64>) -> u64
        ensures { result ≡ moment_by self.now.ms self.now.draining due }
    {
        match due {
            Some(due) if self.draining => due,
            _ => self.ms,
        }
    }
}

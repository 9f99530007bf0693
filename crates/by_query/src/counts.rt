//! What an update has done.

ghost use Rattle.std.specs.Prelude.{◌≡◌};
ghost use Rattle.by_query.specs.NoUpdates.{no_updates};

/// What a task of an update has done. All are zero for other tasks.
#[derive(Clone, Copy, PartialEq, Eq)]
pub struct UpdateCounts {
    /// How many documents matched.
    pub total: u64,
    /// How many were rewritten.
    pub updated: u64,
    /// How many pages were read.
    pub batches: u64,
    /// How many parts failed.
    pub failures: u64,
    /// How many were not as they were read, and so were not rewritten.
    pub conflicts: u64,
}

impl UpdateCounts {
    /// Nothing was done yet. It takes no memory.
    pub fn none() -> UpdateCounts
        ensures { result ≡ no_updates }
    {
        UpdateCounts {
            total: 0,
            updated: 0,
            batches: 0,
            failures: 0,
            conflicts: 0,
        }
    }
}

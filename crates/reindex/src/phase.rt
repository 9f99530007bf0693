use task_ids::{Doc, Items};

/// How far a slice has come.
#[derive(Drop)]
pub enum Phase {
    /// It asks for its first page.
    First,
    /// It waits for a page, for which it asked under this number.
    Reads { ask: u32 },
    /// It has these documents of a page, which came at this moment, and asks for their bulk.
    Holds { docs: Items<Doc>, came: u64 },
    /// It waits for the bulk of so many documents of a page, which came at this moment.
    Writes { ask: u32, docs: u32, came: u64 },
    /// It asks for the next page from this moment on.
    Rests { until: u64 },
    /// It has ended.
    Over,
}

//! The rows of a plain board: of a slot and a place under its lock, and of its seats.
ghost use Rattle.std.specs.Prelude.{◌≡◌, ◌≢◌, ℕ, ◌<◌, length, slice_index_or, None, Some, IfSome, IfNone, MatchOption};
ghost use Rattle.node_boards.specs.Plain.{NoTask, TaskAt, NoBan, BanAt};
ghost use Rattle.node_boards.specs.PlainSeats.{NoneOf, IsAt, NotPlaced, IsPlacedAt};

use task_ids::TaskId;

/// A live task.
#[derive(Clone, Copy)]
pub(crate) struct Live {
    pub(crate) number: u32,
    pub(crate) parent: Option<TaskId>,
    pub(crate) mark: Option<u32>,
    /// The nodes that it may ask, as bits.
    pub(crate) asks: u16,
}

/// A standing ban.
#[derive(Clone, Copy)]
pub(crate) struct Ban {
    pub(crate) parent: TaskId,
    pub(crate) cancel: u32,
}

/// A ticket, as its seat keeps it.
#[derive(Clone, Copy)]
pub(crate) struct Held {
    pub(crate) number: u32,
    pub(crate) parent: Option<TaskId>,
    /// Whether its check was clear.
    pub(crate) is_clear: bool,
}

/// A ban, as its seat keeps it.
#[derive(Clone, Copy)]
pub(crate) struct Placed {
    pub(crate) parent: TaskId,
    pub(crate) cancel: u32,
    pub(crate) is_listed: bool,
}

/// The first place that is free.
pub(crate) fn free_place<T: Copy>(places: &[Option<T>]) -> Option<usize>
    ensures found { IfSome result (λ i. (i < length places.now) × (slice_index_or places.now i None ≡ None)) }
    ensures none { IfNone result ((i : ℕ) → i < length places.now → slice_index_or places.now i None ≢ None) }
{
    for (i, place) in places.iter().enumerate() {
        if place.is_none() {
            return Some(i);
        }
    }
    None
}

/// The live task with that number, and its slot.
pub(crate) fn find_task(slots: &[Option<Live>], number: u32) -> Option<(usize, Live)>
    ensures { MatchOption result (NoTask slots.now number) (λ found. TaskAt slots.now number found.0 found.1) }
{
    for (i, slot) in slots.iter().enumerate() {
        match slot {
            Some(live) if live.number == number => return Some((i, *live)),
            _ => {}
        }
    }
    None
}

/// The ban of the parent, and its place.
pub(crate) fn find_ban(bans: &[Option<Ban>], parent: TaskId) -> Option<(usize, Ban)>
    ensures { MatchOption result (NoBan bans.now parent) (λ found. BanAt bans.now parent found.0 found.1) }
{
    for (j, place) in bans.iter().enumerate() {
        match place {
            Some(ban) if ban.parent == parent => return Some((j, *ban)),
            _ => {}
        }
    }
    None
}

/// The ticket of a number, and its place.
pub(crate) fn find_ticket(tickets: &[Option<Held>], number: u32) -> Option<(usize, Held)>
    ensures { MatchOption result (NoneOf tickets.now number) (λ found. IsAt tickets.now number found.0 found.1) }
{
    for (i, place) in tickets.iter().enumerate() {
        match place {
            Some(held) if held.number == number => return Some((i, *held)),
            _ => {}
        }
    }
    None
}

/// The ban of a parent, as its seat keeps it, and its place.
pub(crate) fn find_placed(bans: &[Option<Placed>], parent: TaskId) -> Option<(usize, Placed)>
    ensures { MatchOption result (NotPlaced bans.now parent) (λ found. IsPlacedAt bans.now parent found.0 found.1) }
{
    for (j, place) in bans.iter().enumerate() {
        match place {
            Some(ban) if ban.parent == parent => return Some((j, *ban)),
            _ => {}
        }
    }
    None
}

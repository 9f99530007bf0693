// New inboxes.
ghost use Rattle.std.specs.Prelude.{◌≡◌, ◌<◌, ℕ, length, slice_get, Some, IfOk, map};
ghost use Rattle.run_inboxes.specs.Pairs.{Pairwise};
ghost use Rattle.run_inboxes.specs.Ends.{AreLinked, AreNew, IsOpened};

use crate::ends::Ends;
use crate::transpose::turned;
use node_link::{Receiver, Sender, inbox};
use std::alloc::{AllocError, Global};

// New inboxes, with the senders of each.
struct Opened<L: Drop> {
    inboxes: Vec<Receiver<L>>,
    senders: Vec<Vec<Sender<L>>>,
}

// So many inboxes, each with so many senders.
fn open<L: Drop>(alloc: Global, capacity: u32, count: u32) -> Result<Opened<L>, AllocError>
    requires { (0 < capacity) × (0 < count) }
    ensures count { IfOk result (λ all. length all.inboxes.items ≡ count) }
    ensures new { IfOk result (λ all. Pairwise (IsOpened capacity count) all.inboxes.items all.senders.items) }
{
    let mut inboxes = Vec::new(alloc);
    let mut senders = Vec::new(alloc);
    for _ in 0..count {
        let (row, own) = inbox::<L>(alloc, capacity, count)?;
        inboxes.push(own)?;
        senders.push(row)?;
    }
    Ok(Opened { inboxes, senders })
}

// Each inbox with its senders.
fn joined<L: Drop>(
    alloc: Global,
    inboxes: Vec<Receiver<L>>,
    senders: Vec<Vec<Sender<L>>>,
) -> Result<Vec<Ends<L>>, AllocError>
    requires { length senders.items ≡ length inboxes.items }
    ensures inboxes { IfOk result (λ all. map (λ e. e.inbox) all.items ≡ inboxes.items) }
    ensures senders { IfOk result (λ all. map (λ e. e.senders) all.items ≡ senders.items) }
{
    let mut senders = senders;
    let mut all = Vec::new(alloc);
    senders.reverse();
    for inbox in inboxes {
        let senders = senders.pop().unwrap();
        all.push(Ends { inbox, senders })?;
    }
    Ok(all)
}

/// New inboxes, so many, each with room for `capacity` letters at a time, and the ends of them for as many. Each has its own inbox, and a
/// sender for each inbox. It fails only for want of memory.
pub fn inboxes<L: Drop>(
    alloc: Global,
    capacity: u32,
    count: u32,
) -> Result<Vec<Ends<L>>, AllocError>
    requires capacity { 0 < capacity }
    requires count { 0 < count }
    ensures count { IfOk result (λ all. length all.items ≡ count) }
    ensures linked { IfOk result (λ all. AreLinked all.items) }
    ensures new { IfOk result (λ all. (k : ℕ) (e : _) → slice_get all.items k ≡ Some e → AreNew capacity e) }
{
    let Opened { inboxes, senders } = open(alloc, capacity, count)?;
    let senders = turned(alloc, count as usize, senders)?;
    let all = joined(alloc, inboxes, senders)?;
    Ok(all)
}

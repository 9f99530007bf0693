//! Keeping the keys that stand first.

ghost use Rattle.std.specs.Prelude.{◌≡◌, ◌+◌, ◌<◌, ◌≤◌, ◌∷◌, ◌++◌, length, take, OnOk, OnErr};
ghost use Rattle.std.specs.BinaryHeap.{IsHeap, heap_items, heap_len, heap_capacity};
ghost use Rattle.task_events.specs.Answers.{hit_key};
ghost use Rattle.task_events.specs.HitOrder.{hit_cmp, in_hit_order, is_after};
ghost use Rattle.search_phase.specs.LookedAt.{IsFirstNumber};

use crate::looking::{compare_row, key_of_row};
use std::alloc::{AllocError, Global};
use std::collections::BinaryHeap;
use task_events::{HitKey, ShardAsk};
use task_ids::Doc;

/// Keeps a key in place of the last one, where it stands before that one. It takes no memory.
fn keep_before_last(first: &mut BinaryHeap<HitKey>, key: HitKey)
    requires { IsHeap hit_cmp (heap_items first.old) }
    ensures ordered { IsHeap hit_cmp (heap_items first.new) }
    ensures keys { in_hit_order (heap_items first.new)
        ≡ take (heap_len first.old) (in_hit_order (key ∷ heap_items first.old)) }
    ensures len { heap_len first.new ≡ heap_len first.old }
    ensures room { heap_capacity first.old ≤ heap_capacity first.new }
{
    let Some(last) = first.peek() else {
        return;
    };
    if last <= &key {
        return;
    }
    first.pop();
    match first.push(key) {
        Ok(()) => {}
        Err(_) => unreachable!(),
    }
}

/// Keeps a key among at most so many that stand first, where there is room for one more.
fn keep(first: &mut BinaryHeap<HitKey>, most: usize, key: HitKey)
    requires ordered { IsHeap hit_cmp (heap_items first.old) }
    requires few { heap_len first.old ≤ most }
    requires room { heap_len first.old < most → heap_len first.old < heap_capacity first.old }
    ensures still_ordered { IsHeap hit_cmp (heap_items first.new) }
    ensures keys { in_hit_order (heap_items first.new) ≡ take most (in_hit_order (key ∷ heap_items first.old)) }
    ensures still_few { heap_len first.new ≤ most }
    ensures one_more { heap_len first.new ≤ heap_len first.old + 1 }
    ensures still_room { heap_capacity first.old ≤ heap_capacity first.new }
{
    if most <= first.len() {
        return keep_before_last(first, key);
    }
    match first.push(key) {
        Ok(()) => {}
        Err(_) => unreachable!(),
    }
}

/// Whether a key stands after the cursor, where there is one.
pub(crate) fn is_after(after: &Option<HitKey>, key: &HitKey) -> bool
    ensures { result ≡ is_after after.now key.now }
{
    match after {
        Some(last) => last < key,
        None => true,
    }
}

/// Keeps some keys among at most so many that stand first. Where memory runs out nothing has changed.
pub(crate) fn keep_all(
    first: &mut BinaryHeap<HitKey>,
    most: usize,
    found: Vec<HitKey>,
) -> Result<(), AllocError>
    requires ordered { IsHeap hit_cmp (heap_items first.old) }
    requires few { length (heap_items first.old) ≤ most }
    ensures still_ordered { IsHeap hit_cmp (heap_items first.new) }
    ensures ok { OnOk result (in_hit_order (heap_items first.new)
        ≡ take most (in_hit_order (heap_items first.old ++ found.items))) }
    ensures err { OnErr result (heap_items first.new ≡ heap_items first.old) }
{
    let room = found.len().min(most - first.len());
    first.reserve(room)?;
    for key in found {
        keep(first, most, key);
    }
    Ok(())
}

/// Keeps the key of a row among at most so many that stand first. It is made only where it is kept, and the document is
/// looked into only where the number at the first field of the sort does not tell whether it is. It fails only for want of
/// memory, and then the keys are used no more.
pub(crate) fn keep_row(
    alloc: Global,
    first: &mut BinaryHeap<HitKey>,
    most: usize,
    ask: &ShardAsk,
    place: u32,
    doc: &Doc,
    number: Option<i64>,
) -> Result<(), AllocError>
    requires ordered { IsHeap hit_cmp (heap_items first.old) }
    requires few { heap_len first.old ≤ most }
    requires number { IsFirstNumber ask.now.body.sort doc.now number }
    ensures still_ordered { OnOk result (IsHeap hit_cmp (heap_items first.new)) }
    ensures still_few { OnOk result (heap_len first.new ≤ most) }
    ensures keys { OnOk result (in_hit_order (heap_items first.new)
        ≡ take most (in_hit_order (hit_key ask.now.body ask.now.shard (place, doc.now) ∷ heap_items first.old))) }
{
    if most <= first.len() {
        let Some(last) = first.peek() else {
            return Ok(());
        };
        if !compare_row(ask, place, doc, number, last).is_lt() {
            return Ok(());
        }
        let key = key_of_row(alloc, ask, place, doc)?;
        keep_before_last(first, key);
        return Ok(());
    }
    first.push(key_of_row(alloc, ask, place, doc)?)?;
    Ok(())
}

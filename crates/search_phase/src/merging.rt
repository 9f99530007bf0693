//! One list of the keys of several shards.

ghost use Rattle.std.specs.Prelude.{◌≡◌, ◌++◌, IfOk, OnOk, take, drop, map};
ghost use Rattle.std.specs.List.{flat_map};
ghost use Rattle.task_events.specs.HitOrder.{in_hit_order};
ghost use Rattle.search_phase.specs.Merged.{merged_keys};

use std::alloc::{AllocError, Global};
use task_events::{HitKey, ShardTop};

fn copy_keys(alloc: Global, keys: &[&HitKey]) -> Result<Vec<HitKey>, AllocError>
    ensures { IfOk result (λ copies. copies.items ≡ map (λ key. key.now) keys.now) }
{
    let mut copies = Vec::with_capacity(alloc, keys.len())?;
    for key in keys {
        copies.push(key.copy()?)?;
    }
    Ok(copies)
}

pub(crate) fn add_keys<'a>(keys: &mut Vec<&'a HitKey>, more: &'a [HitKey]) -> Result<(), AllocError>
    ensures { OnOk result (map (λ key. key.now) keys.new.items ≡ map (λ key. key.now) keys.old.items ++ more.now) }
{
    for key in more {
        keys.push(key)?;
    }
    Ok(())
}

fn keys_of(alloc: Global, tops: &[ShardTop]) -> Result<Vec<&HitKey>, AllocError>
    ensures { IfOk result (λ keys. map (λ key. key.now) keys.items ≡ flat_map (λ top. top.keys) tops.now) }
{
    let mut keys = Vec::new(alloc);
    for top in tops {
        add_keys(&mut keys, top.keys.as_slice())?;
    }
    Ok(keys)
}

/// Of some keys in hit order those that a search shows.
pub(crate) fn cut_keys(
    alloc: Global,
    mut keys: Vec<&HitKey>,
    from: u32,
    size: u32,
) -> Result<Vec<HitKey>, AllocError>
    ensures { let found = in_hit_order (map (λ key. key.now) keys.entry.items) in
        IfOk result (λ shown. shown.items ≡ take size (drop from found)) }
{
    keys.sort_unstable();
    let start = keys.len().min(from as usize);
    let end = keys.len().min(start + size as usize);
    copy_keys(alloc, &keys[start..end])
}

/// Of the keys of all tops in hit order, those that a search shows: the first `from` are passed over, and the next
/// `size` are copied. It fails only for want of memory.
pub fn merge(
    alloc: Global,
    tops: &[ShardTop],
    from: u32,
    size: u32,
) -> Result<Vec<HitKey>, AllocError>
    ensures { IfOk result (λ keys. keys.items ≡ take size (drop from (merged_keys tops.now))) }
{
    let keys = keys_of(alloc, tops)?;
    cut_keys(alloc, keys, from, size)
}

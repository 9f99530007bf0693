//! Which versions of shards the contexts of a node keep.
ghost use Rattle.std.specs.Prelude.{◌≡◌, ◌≤◌, List, ℕ, true, false, IfSome, IfNone, OnOk, OnErr, if◌then◌else◌};
ghost use Rattle.std.specs.BTreeMap.{is_at};
ghost use Rattle.std.specs.BTreeMap.Range.{IsFromStart};
ghost use Rattle.std.specs.BTreeSet.{contains};
ghost use Rattle.task_ids.specs.TaskIdOrder.{task_id_cmp};
ghost use Rattle.task_ids.specs.declared.task_id.TaskId.{TaskId};
ghost use Rattle.scroll_table.specs.declared.versions.Kept.{Kept};
ghost use Rattle.scroll_table.specs.Versions.{kept_cmp, keeps, is_row, is_kept_by};

use crate::owners::FIRST;
use std::alloc::{AllocError, Global};
use std::collections::{BTreeSet, HashMap};
use std::ops::Bound;
use task_events::Context;
use task_ids::TaskId;

/// A version of a shard that a context keeps. They are ordered by shard, then by version, then by context.
#[derive(Clone, Copy, PartialEq, Eq, PartialOrd, Ord)]
pub(crate) struct Kept {
    pub(crate) shard: u32,
    pub(crate) version: u32,
    pub(crate) id: TaskId,
}

/// The versions of shards that contexts keep, by index. An index of which one was kept stays here.
#[derive(Drop)]
pub struct Versions {
    alloc: Global,
    by_index: HashMap<String, BTreeSet<Kept>>,
}

impl Versions {
    /// None yet, which takes no memory.
    pub fn new(alloc: Global) -> Versions
        ensures { (index : List ℕ) (k : Kept) → keeps result index k ≡ false }
    {
        Versions {
            alloc,
            by_index: HashMap::new(alloc),
        }
    }

    /// The least version that is kept of a shard of an index, where one is kept. Its time does not depend on how many are kept, but for a
    /// logarithm.
    pub fn oldest(&self, index: &str, shard: u32) -> Option<u32>
        ensures kept { IfSome result (λ version. (id : TaskId) × (keeps self.now index.now (record { shard = shard; version = version; id = id }) ≡ true)) }
        ensures least { IfSome result (λ version. (k : Kept) → k.shard ≡ shard → keeps self.now index.now k ≡ true → version ≤ k.version) }
        ensures none { IfNone result ((k : Kept) → k.shard ≡ shard → keeps self.now index.now k ≡ false) }
    {
        match self.by_index.get(index) {
            Some(rows) => least_of(rows, shard),
            None => None,
        }
    }

    /// One more is kept of an index. Where memory runs out nothing has changed.
    fn put(&mut self, index: &str, kept: Kept) -> Result<(), AllocError>
        ensures ok { OnOk result ((i : List ℕ) (k : Kept) → keeps self.new i k
            ≡ (if is_row index.now kept i k then true else keeps self.old i k)) }
        ensures err { OnErr result ((i : List ℕ) (k : Kept) → keeps self.new i k ≡ keeps self.old i k) }
    {
        let alloc = self.alloc;
        if let Some(rows) = self.by_index.get_mut(index) {
            return put_in(rows, kept);
        }
        let mut rows = BTreeSet::new(alloc);
        put_in(&mut rows, kept)?;
        self.by_index.insert(String::from_str(alloc, index)?, rows)?;
        Ok(())
    }

    /// One is no longer kept of an index.
    fn take(&mut self, index: &str, kept: &Kept)
        ensures { (i : List ℕ) (k : Kept) → keeps self.new i k
            ≡ (if is_row index.now kept.now i k then false else keeps self.old i k) }
    {
        if let Some(rows) = self.by_index.get_mut(index) {
            take_from(rows, kept);
        }
    }

    /// What one more context keeps. Where memory runs out nothing has changed.
    pub fn add(&mut self, id: TaskId, context: &Context) -> Result<(), AllocError>
        requires fresh { (i : List ℕ) (k : Kept) → is_at (task_id_cmp id) k.id ≡ true → keeps self.old i k ≡ false }
        ensures ok { OnOk result ((i : List ℕ) (k : Kept) → keeps self.new i k
            ≡ (if is_kept_by id context.now i k then true else keeps self.old i k)) }
        ensures err { OnErr result ((i : List ℕ) (k : Kept) → keeps self.new i k ≡ keeps self.old i k) }
    {
        let index = context.ask.get().index.get().as_str();
        for count in context.shards.as_slice() {
            let kept = Kept {
                shard: count.shard,
                version: count.version,
                id,
            };
            let Ok(()) = self.put(index, kept) else {
                self.remove(id, context);
                return Err(AllocError);
            };
        }
        Ok(())
    }

    /// A context is gone, and what it kept. It takes no memory.
    pub fn remove(&mut self, id: TaskId, context: &Context)
        ensures { (i : List ℕ) (k : Kept) → keeps self.new i k
            ≡ (if is_kept_by id context.now i k then false else keeps self.old i k) }
    {
        let index = context.ask.get().index.get().as_str();
        for count in context.shards.as_slice() {
            let kept = Kept {
                shard: count.shard,
                version: count.version,
                id,
            };
            self.take(index, &kept);
        }
    }
}

/// One more among those of an index.
fn put_in(rows: &mut BTreeSet<Kept>, kept: Kept) -> Result<(), AllocError>
    ensures ok { OnOk result ((k : Kept) → contains kept_cmp rows.new k
        ≡ (if is_at (kept_cmp kept) k then true else contains kept_cmp rows.old k)) }
    ensures err { OnErr result ((k : Kept) → contains kept_cmp rows.new k ≡ contains kept_cmp rows.old k) }
{
    rows.insert(kept)?;
    Ok(())
}

/// One less among those of an index.
fn take_from(rows: &mut BTreeSet<Kept>, kept: &Kept)
    ensures { (k : Kept) → contains kept_cmp rows.new k
        ≡ (if is_at (kept_cmp kept.now) k then false else contains kept_cmp rows.old k) }
{
    rows.remove(kept);
}

/// The least version of a shard, where one is there.
fn least_of(rows: &BTreeSet<Kept>, shard: u32) -> Option<u32>
    ensures kept { IfSome result (λ version. (id : TaskId) × (contains kept_cmp rows.now (record { shard = shard; version = version; id = id }) ≡ true)) }
    ensures least { IfSome result (λ version. (k : Kept) → k.shard ≡ shard → contains kept_cmp rows.now k ≡ true → version ≤ k.version) }
    ensures none { IfNone result ((k : Kept) → k.shard ≡ shard → contains kept_cmp rows.now k ≡ false) }
{
    let from = start_of(shard);
    let first = rows.range((from, Bound::Unbounded)).next()?;
    if first.shard == shard {
        Some(first.version)
    } else {
        None
    }
}

/// Where what is kept of a shard begins.
fn start_of(shard: u32) -> Bound<Kept>
    ensures takes { (k : Kept) → k.shard ≡ shard → IsFromStart kept_cmp result k }
    ensures high { (k : Kept) → IsFromStart kept_cmp result k → shard ≤ k.shard }
{
    Bound::Included(Kept {
        shard,
        version: 0,
        id: FIRST,
    })
}

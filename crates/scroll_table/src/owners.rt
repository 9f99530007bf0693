//! Which contexts of a node belong to an owner.
ghost use Rattle.std.specs.Prelude.{◌≡◌, ◌&&◌, ◌<◌, ◌≤◌, true, false, None, Some, IfSome, IfNone, OnOk, OnErr, option_map, if◌then◌else◌};
ghost use Rattle.std.specs.Option.{option_map_or};
ghost use Rattle.std.specs.BTreeMap.{is_at};
ghost use Rattle.task_ids.specs.TaskIdOrder.{task_id_cmp};
ghost use Rattle.task_ids.specs.declared.task_id.TaskId.{TaskId};
ghost use Rattle.std.specs.BTreeMap.Range.{IsFromStart};
ghost use Rattle.scroll_table.specs.declared.owners.Owned.{Owned};
ghost use Rattle.scroll_table.specs.Owners.{owned_cmp, owns, is_pair, rank, rank_after};

use std::alloc::{AllocError, Global};
use std::collections::BTreeSet;
use std::ops::Bound;
use task_ids::TaskId;

/// The least id.
pub(crate) const FIRST: TaskId = TaskId { node: 1, number: 1 };

/// A context that belongs to an owner. They are ordered by owner, then by context.
#[derive(Clone, Copy, PartialEq, Eq, PartialOrd, Ord)]
pub(crate) struct Owned {
    pub(crate) owner: TaskId,
    pub(crate) id: TaskId,
}

/// The contexts that have an owner. Each change and each search costs a logarithm.
#[derive(Drop)]
pub(crate) struct Owners {
    pairs: BTreeSet<Owned>,
}

impl Owners {
    /// None yet, which takes no memory.
    pub(crate) fn new(alloc: Global) -> Owners
        ensures { (owner id : TaskId) → owns result owner id ≡ false }
    {
        Owners {
            pairs: BTreeSet::new(alloc),
        }
    }

    /// One more context, which belongs to this owner if there is one.
    pub(crate) fn add(&mut self, owner: Option<TaskId>, id: TaskId) -> Result<(), AllocError>
        ensures ok { OnOk result ((o q : TaskId) → owns self.new o q
            ≡ (if is_pair owner id o q then true else owns self.old o q)) }
        ensures err { OnErr result ((o q : TaskId) → owns self.new o q ≡ owns self.old o q) }
    {
        if let Some(owner) = owner {
            self.pairs.insert(Owned { owner, id })?;
        }
        Ok(())
    }

    /// A context is gone, which belonged to this owner if there is one.
    pub(crate) fn remove(&mut self, owner: Option<TaskId>, id: TaskId)
        ensures { (o q : TaskId) → owns self.new o q
            ≡ (if is_pair owner id o q then false else owns self.old o q) }
    {
        if let Some(owner) = owner {
            self.pairs.remove(&Owned { owner, id });
        }
    }

    /// Whether no context has an owner, which costs no search.
    pub(crate) fn is_empty(&self) -> bool
        ensures { result ≡ true → (owner id : TaskId) → owns self.now owner id ≡ false }
    {
        self.pairs.is_empty()
    }

    /// The next context of an owner in the order of ids: the first one after this id, or of all where there is none.
    pub(crate) fn next(&self, owner: TaskId, after: Option<TaskId>) -> Option<TaskId>
        ensures owned { IfSome result (λ id. owns self.now owner id ≡ true) }
        ensures later { IfSome result (λ id. rank_after after < rank id) }
        ensures skipped { IfSome result (λ id. (q : TaskId) → rank_after after < rank q → rank q < rank id
            → owns self.now owner q ≡ false) }
        ensures none { IfNone result ((q : TaskId) → rank_after after < rank q → owns self.now owner q ≡ false) }
    {
        let from = start_of(owner, after);
        let next = self.pairs.range((from, Bound::Unbounded)).next()?;
        if next.owner == owner {
            Some(next.id)
        } else {
            None
        }
    }
}

/// Where the contexts of an owner begin that come after an id, or all of them where there is none.
fn start_of(owner: TaskId, after: Option<TaskId>) -> Bound<Owned>
    ensures takes { (q : TaskId) → rank_after after < rank q → IsFromStart owned_cmp result (record { owner = owner; id = q }) }
    ensures high { (k : Owned) → IsFromStart owned_cmp result k → rank owner ≤ rank k.owner }
    ensures later { (k : Owned) → IsFromStart owned_cmp result k → rank k.owner ≤ rank owner → rank_after after < rank k.id }
{
    match after {
        Some(id) => Bound::Excluded(Owned { owner, id }),
        None => Bound::Included(Owned { owner, id: FIRST }),
    }
}

//! The listings of a node that wait: each for those of the children of a banned parent that have not stopped.
ghost use Rattle.std.specs.Prelude.{◌≡◌, ◌++◌, ◌-◌, ℕ, List, [], ◌∷◌, None, Some, false, length, is_some, unwrap_or, IfOk, OnOk, OnErr, if◌then◌else◌};
ghost use Rattle.std.specs.BTreeMap as tree;
ghost use Rattle.std.specs.BTreeMap.{is_at};
ghost use Rattle.std.specs.FinMap as finite;
ghost use Rattle.std.specs.FinMap.{FinMap};
ghost use Rattle.task_ids.specs.TaskIdOrder.{task_id_cmp};
ghost use Rattle.cancel_core.specs.Cancellation.{Cancellation};
ghost use Rattle.cancel_core.specs.Fields.{map_of, core_with};
ghost use Rattle.cancel_core.specs.Listings.{is_to_note, noted, number_noted, taken_back, with_number, with_listing, left_by, leaving_acts};

use crate::act::Act;
use crate::entry::Entry;
use std::alloc::{AllocError, Global};
use std::collections::BTreeMap;
use task_ids::TaskId;

/// The listings that wait. A step finds what it needs without a scan of the others.
#[derive(Drop)]
pub(crate) struct Listings {
    alloc: Global,
    /// The parent whose listing waits for the task.
    waits: BTreeMap<TaskId, TaskId>,
    /// For how many children the listing of a parent waits, from 1.
    numbers: BTreeMap<TaskId, usize>,
}

impl Listings {
    /// No listing yet, which takes no memory.
    pub(crate) fn new(alloc: Global) -> Listings
        ensures waits { map_of result.waits ≡ finite.empty }
        ensures numbers { map_of result.numbers ≡ finite.empty }
    {
        Listings {
            alloc,
            waits: BTreeMap::new(alloc),
            numbers: BTreeMap::new(alloc),
        }
    }

    /// Whether a listing of the parent waits.
    pub(crate) fn has(&self, parent: &TaskId) -> bool
        ensures { result ≡ is_some (finite.get (map_of self.now.numbers) parent.now) }
    {
        self.numbers.contains_key(parent)
    }

    /// For how many children the listing of a parent waits.
    fn number(&self, parent: &TaskId) -> usize
        ensures { result ≡ unwrap_or (finite.get (map_of self.now.numbers) parent.now) 0 }
    {
        self.numbers.get(parent).copied().unwrap_or(0)
    }

    /// A listing of the parent waits for those of the children that have not stopped. Says how many they are. Where
    /// memory runs out nothing has changed.
    pub(crate) fn note(
        &mut self,
        entries: &BTreeMap<TaskId, Entry>,
        parent: TaskId,
        children: &[TaskId],
    ) -> Result<usize, AllocError>
        requires once { is_some (finite.get (map_of self.old.numbers) parent) ≡ false }
        ensures number { IfOk result (λ number. number
            ≡ number_noted (map_of entries.now) parent children.now (map_of self.old.waits)) }
        ensures listed { OnOk result ((node : ℕ) → core_with node (map_of entries.now) self.new
            ≡ with_listing (core_with node (map_of entries.now) self.old) parent children.now) }
        ensures err { OnErr result ((node : ℕ) (es : FinMap task_id_cmp Cancellation)
            → core_with node es self.new ≡ core_with node es self.old) }
    {
        let mut fresh = Vec::new(self.alloc);
        match self.note_all(entries, parent, children, &mut fresh) {
            Ok(()) => Ok(fresh.len()),
            Err(error) => {
                take_back(&mut self.waits, &mut fresh);
                Err(error)
            }
        }
    }

    /// Notes the children with their number, of which those that are new come to `fresh`, also where memory runs out.
    fn note_all(
        &mut self,
        entries: &BTreeMap<TaskId, Entry>,
        parent: TaskId,
        children: &[TaskId],
        fresh: &mut Vec<TaskId>,
    ) -> Result<(), AllocError>
        requires once { is_some (finite.get (map_of self.old.numbers) parent) ≡ false }
        requires empty { fresh.old.items ≡ [] }
        ensures waits { OnOk result (map_of self.new.waits
            ≡ noted (map_of entries.now) parent children.now (map_of self.old.waits)) }
        ensures number { OnOk result (length fresh.new.items
            ≡ number_noted (map_of entries.now) parent children.now (map_of self.old.waits)) }
        ensures numbers { OnOk result (map_of self.new.numbers
            ≡ with_number (map_of self.old.numbers) parent (length fresh.new.items)) }
        ensures back { taken_back fresh.new.items (map_of self.new.waits) ≡ map_of self.old.waits }
        ensures err { OnErr result (map_of self.new.numbers ≡ map_of self.old.numbers) }
    {
        note_each(entries, &mut self.waits, parent, children, fresh)?;
        if fresh.is_empty() {
            return Ok(());
        }
        self.numbers.insert(parent, fresh.len())?;
        Ok(())
    }

    /// Adds the acknowledgement to a parent's node to the acts, where a task has stopped for which alone a listing of
    /// the parent waits.
    pub(crate) fn add_ack(
        &self,
        task: &TaskId,
        stopped: bool,
        acts: &mut Vec<Act>,
    ) -> Result<(), AllocError>
        ensures { OnOk result ((node : ℕ) (es : FinMap task_id_cmp Cancellation) → acts.new.items
            ≡ acts.old.items ++ leaving_acts (core_with node es self.now) task.now stopped) }
    {
        if !stopped {
            return Ok(());
        }
        let Some(parent) = self.waits.get(task) else {
            return Ok(());
        };
        if self.number(parent) <= 1 {
            acts.push(Act::SendAck {
                to: parent.node,
                parent: *parent,
            })?;
        }
        Ok(())
    }

    /// A task that has stopped leaves the listing that waits for it.
    pub(crate) fn leave(&mut self, task: &TaskId, stopped: bool)
        ensures { (node : ℕ) (es : FinMap task_id_cmp Cancellation) → core_with node es self.new
            ≡ left_by (core_with node es self.old) task.now stopped }
    {
        if !stopped {
            return;
        }
        if let Some(parent) = self.waits.remove(task) {
            self.count_down(&parent);
        }
    }

    /// The listing of a parent waits for one child less, and goes with the last.
    fn count_down(&mut self, parent: &TaskId)
        ensures numbers { map_of self.new.numbers
            ≡ with_number (map_of self.old.numbers) parent.now
            (unwrap_or (finite.get (map_of self.old.numbers) parent.now) 0 - 1) }
        ensures waits { map_of self.new.waits ≡ map_of self.old.waits }
    {
        let number = self.number(parent);
        if number > 1 {
            set_number(&mut self.numbers, parent, number - 1);
        } else {
            self.numbers.remove(parent);
        }
    }
}

/// Whether a listing is to wait for a child: a cancellation of it is under way, it has not stopped, and it is not
/// noted.
fn is_to_note(
    entries: &BTreeMap<TaskId, Entry>,
    waits: &BTreeMap<TaskId, TaskId>,
    child: &TaskId,
) -> bool
    ensures { result ≡ is_to_note (map_of entries.now) (map_of waits.now) child.now }
{
    match entries.get(child) {
        Some(entry) => !entry.has_stopped() && !waits.contains_key(child),
        None => false,
    }
}

/// Notes a child, if a listing is to wait for it.
fn note_one(
    entries: &BTreeMap<TaskId, Entry>,
    waits: &mut BTreeMap<TaskId, TaskId>,
    parent: TaskId,
    child: TaskId,
    fresh: &mut Vec<TaskId>,
) -> Result<(), AllocError>
    ensures waits { OnOk result (map_of waits.new
        ≡ (if is_to_note (map_of entries.now) (map_of waits.old) child
        then finite.insert (map_of waits.old) child parent
        else map_of waits.old)) }
    ensures fresh { OnOk result (fresh.new.items
        ≡ fresh.old.items ++ (if is_to_note (map_of entries.now) (map_of waits.old) child then child ∷ [] else [])) }
    ensures back { taken_back fresh.new.items (map_of waits.new) ≡ taken_back fresh.old.items (map_of waits.old) }
{
    if is_to_note(entries, waits, &child) {
        fresh.push(child)?;
        waits.insert(child, parent)?;
    }
    Ok(())
}

/// Notes each of the children for which a listing is to wait, and lists them in `fresh`.
fn note_each(
    entries: &BTreeMap<TaskId, Entry>,
    waits: &mut BTreeMap<TaskId, TaskId>,
    parent: TaskId,
    children: &[TaskId],
    fresh: &mut Vec<TaskId>,
) -> Result<(), AllocError>
    requires { fresh.old.items ≡ [] }
    ensures waits { OnOk result (map_of waits.new
        ≡ noted (map_of entries.now) parent children.now (map_of waits.old)) }
    ensures number { OnOk result (length fresh.new.items
        ≡ number_noted (map_of entries.now) parent children.now (map_of waits.old)) }
    ensures back { taken_back fresh.new.items (map_of waits.new) ≡ map_of waits.old }
{
    for child in children {
        note_one(entries, waits, parent, *child, fresh)?;
    }
    Ok(())
}

/// Takes back what was noted, the last first.
fn take_back(waits: &mut BTreeMap<TaskId, TaskId>, fresh: &mut Vec<TaskId>)
    ensures { map_of waits.new ≡ taken_back fresh.old.items (map_of waits.old) }
{
    while let Some(child) = fresh.pop() {
        waits.remove(&child);
    }
}

/// The listing of a parent waits for another number of children.
fn set_number(numbers: &mut BTreeMap<TaskId, usize>, parent: &TaskId, number: usize)
    ensures { (n : ℕ) → tree.get task_id_cmp numbers.old parent.now ≡ Some n
        → (q : TaskId) → tree.get task_id_cmp numbers.new q
        ≡ (if is_at (task_id_cmp parent.now) q then Some number else tree.get task_id_cmp numbers.old q) }
{
    if let Some(slot) = numbers.get_mut(parent) {
        *slot = number;
    }
}

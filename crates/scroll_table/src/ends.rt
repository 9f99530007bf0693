//! When the contexts of a node expire.
ghost use Rattle.std.specs.Prelude.{◌≡◌, ◌≢◌, ◌==◌, ◌+◌, ◌*◌, ◌<◌, ◌≤◌, ℕ, None, Some, true, false, length, option_map, IfOk, IfSome, IfNone, OnOk, OnErr, IsSomeAnd, if◌then◌else◌};
ghost use Rattle.std.specs.BTreeMap as tree;
ghost use Rattle.std.specs.BTreeMap.{BTreeMap, is_at};
ghost use Rattle.task_ids.specs.declared.task_id.TaskId.{TaskId};
ghost use Rattle.task_ids.specs.TaskIdOrder.{task_id_cmp};
ghost use Rattle.scroll_table.specs.Moments as moments;
ghost use Rattle.scroll_table.specs.Ends.{kept_at, AreEnds};

use crate::moments::Moments;
use std::alloc::{AllocError, Global};
use std::collections::BTreeMap;
use task_ids::TaskId;

/// The moments at which contexts expire, of those that have one. Each change and the search for the soonest cost a logarithm.
#[derive(Drop)]
pub struct Ends {
    alloc: Global,
    moments: Moments,
    /// Whose moment stands at each place that is taken.
    ids: Vec<TaskId>,
    slots: BTreeMap<TaskId, usize>,
}

impl Ends {
    /// None yet, which takes no memory.
    pub fn new(alloc: Global) -> Ends
        ensures ends { AreEnds result }
        ensures empty { (id : TaskId) → kept_at result id ≡ None }
    {
        Ends {
            alloc,
            moments: Moments::none(alloc),
            ids: Vec::new(alloc),
            slots: BTreeMap::new(alloc),
        }
    }

    /// The moment of one more context.
    pub fn add(&mut self, id: TaskId, moment: Option<u64>) -> Result<(), AllocError>
        requires ends { AreEnds self.old }
        requires fresh { kept_at self.old id ≡ None }
        ensures ends { AreEnds self.new }
        ensures ok { OnOk result ((q : TaskId) → kept_at self.new q
            ≡ (if is_at (task_id_cmp id) q then Some moment else kept_at self.old q)) }
        ensures err { OnErr result ((q : TaskId) → kept_at self.new q ≡ kept_at self.old q) }
    {
        self.make_room()?;
        self.put(id)?;
        self.set(&id, moment);
        Ok(())
    }

    /// One more context, with no moment.
    fn put(&mut self, id: TaskId) -> Result<(), AllocError>
        requires ends { AreEnds self.old }
        requires fresh { kept_at self.old id ≡ None }
        requires room { length self.old.ids.items < self.old.moments.places }
        ensures ends { AreEnds self.new }
        ensures ok { OnOk result ((q : TaskId) → kept_at self.new q
            ≡ (if is_at (task_id_cmp id) q then Some None else kept_at self.old q)) }
        ensures err { OnErr result ((q : TaskId) → kept_at self.new q ≡ kept_at self.old q) }
    {
        let place = self.ids.len();
        self.ids.push(id)?;
        match self.slots.insert(id, place) {
            Ok(_) => Ok(()),
            Err(_) => {
                self.ids.truncate(place);
                Err(AllocError)
            }
        }
    }

    /// Room for one more, which is room for twice as many where there was none.
    fn make_room(&mut self) -> Result<(), AllocError>
        requires { AreEnds self.old }
        ensures ends { AreEnds self.new }
        ensures kept { (q : TaskId) → kept_at self.new q ≡ kept_at self.old q }
        ensures room { OnOk result (length self.new.ids.items < self.new.moments.places) }
    {
        let places = self.moments.places;
        if self.ids.len() < places {
            return Ok(());
        }
        if places > usize::MAX / 8 {
            return Err(AllocError);
        }
        self.moments = self.moments.widened(self.alloc, 2 * places + 1)?;
        Ok(())
    }

    /// Another moment for a context that is there.
    pub fn set(&mut self, id: &TaskId, moment: Option<u64>)
        requires { AreEnds self.old }
        ensures ends { AreEnds self.new }
        ensures set { (q : TaskId) → kept_at self.new q
            ≡ (if is_at (task_id_cmp id.now) q then option_map (λ _. moment) (kept_at self.old q) else kept_at self.old q) }
    {
        if let Some(place) = self.slots.get(id) {
            self.moments.set(*place, moment);
        }
    }

    /// A context is gone.
    pub fn remove(&mut self, id: &TaskId)
        requires { AreEnds self.old }
        ensures ends { AreEnds self.new }
        ensures removed { (q : TaskId) → kept_at self.new q
            ≡ (if is_at (task_id_cmp id.now) q then None else kept_at self.old q) }
        ensures fewer { kept_at self.old id.now ≢ None → length self.new.ids.items < length self.old.ids.items }
    {
        let Some(place) = self.slots.remove(id) else {
            return;
        };
        let last = self.ids.len() - 1;
        self.ids.swap_remove(place);
        self.moments.move_to(last, place);
        if place < last {
            let moved = self.ids[place];
            point(&mut self.slots, &moved, place);
        }
    }

    /// Takes away a context whose moment has come, where there is one.
    pub fn take_due(&mut self, now: u64) -> Option<TaskId>
        requires { AreEnds self.old }
        ensures ends { AreEnds self.new }
        ensures due { IfSome result (λ id. IsSomeAnd (kept_at self.old id) (λ moment. moments.is_due now moment ≡ true)) }
        ensures taken { IfSome result (λ id. (q : TaskId) → kept_at self.new q ≡ (if is_at (task_id_cmp id) q then None else kept_at self.old q)) }
        ensures fewer { IfSome result (λ id. length self.new.ids.items < length self.old.ids.items) }
        ensures none { IfNone result ((q : TaskId) (moment : _) → kept_at self.old q ≡ Some moment → moments.is_due now moment ≡ false) }
        ensures same { IfNone result ((q : TaskId) → kept_at self.new q ≡ kept_at self.old q) }
    {
        let place = self.moments.due(now)?;
        let id = self.ids[place];
        self.remove(&id);
        Some(id)
    }
}

/// The place of a context that is there is another.
fn point(slots: &mut BTreeMap<TaskId, usize>, id: &TaskId, place: usize)
    ensures { (q : TaskId) → tree.get task_id_cmp slots.new q
        ≡ (if is_at (task_id_cmp id.now) q then option_map (λ _. place) (tree.get task_id_cmp slots.old q) else tree.get task_id_cmp slots.old q) }
{
    if let Some(slot) = slots.get_mut(id) {
        *slot = place;
    }
}

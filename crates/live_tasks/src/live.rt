ghost use Rattle.std.specs.Prelude.{◌≡◌, ℕ, ◌<◌, ◌≤◌, ◌↔◌, IsTrue, IsSome, IfSome, IfNone, None, is_some, option_copied};
ghost use Rattle.task_ids.specs.Limits.{IsNode};
ghost use Rattle.live_tasks.specs.Live.{entry_at, number_at, count, IsBeyond, HasId};
ghost use Rattle.live_tasks.specs.Ties.{AreTasks, IsNewCore};

use crate::entry::Entry;
use node_link::Place;
use std::alloc::Global;
use std::collections::BTreeMap;
use std::ops::Bound;
use task_ids::{Boxed, TaskId};

/// The live tasks of a data worker, by their numbers.
#[derive(Drop)]
pub struct LiveTasks {
    pub(crate) alloc: Global,
    /// The worker's node, from 1.
    pub(crate) node: u32,
    /// How many tasks may be live here at once.
    pub(crate) quota: u32,
    /// A number that was drawn and is not used yet.
    pub(crate) drawn: Option<u32>,
    pub(crate) tasks: BTreeMap<u32, Boxed<Entry>>,
    /// The number of the task that is live at a place.
    pub(crate) places: BTreeMap<Place, u32>,
}

impl LiveTasks {
    /// No live task yet, which takes no memory. Such a core belongs to each fresh seat of the node's board (`together_new` of
    /// `proofs/Belonging`).
    pub fn new(alloc: Global, node: u32, quota: u32) -> LiveTasks
        requires node { IsNode node }
        ensures none { IsNewCore node result }
        ensures quota { result.quota ≡ quota }
    {
        LiveTasks {
            alloc,
            node,
            quota,
            drawn: None,
            tasks: BTreeMap::new(alloc),
            places: BTreeMap::new(alloc),
        }
    }

    /// How many tasks are live here.
    pub fn len(&self) -> usize
        ensures { result ≡ count self.now }
    {
        self.tasks.len()
    }

    /// Whether as many tasks are live here as may be at once.
    pub fn is_full(&self) -> bool
        ensures { IsTrue result ↔ (self.now.quota ≤ count self.now) }
    {
        self.len() as u64 >= u64::from(self.quota)
    }

    /// Whether a task is live here at this place.
    pub fn has_place(&self, place: &Place) -> bool
        ensures { result ≡ is_some (number_at self.now place.now) }
    {
        self.places.contains_key(place)
    }

    /// The live task of a number, where there is one.
    pub fn get(&self, number: u32) -> Option<&Entry>
        ensures { option_copied result ≡ entry_at self.now number }
    {
        match self.tasks.get(&number) {
            Some(entry) => Some(entry.get()),
            None => None,
        }
    }

    /// The live task with the lowest number above that of this one, or of all where there is none.
    pub fn live_after(&self, task: Option<TaskId>) -> Option<TaskId>
        requires tasks { AreTasks self.now.node (entry_at self.now) (number_at self.now) }
        ensures found { IfSome result (λ t. IsBeyond task t.number × HasId t (entry_at self.now t.number)) }
        ensures lowest { IfSome result (λ t. (n : ℕ) → IsBeyond task n → n < t.number → entry_at self.now n ≡ None) }
        ensures none { IfNone result ((n : ℕ) → IsBeyond task n → entry_at self.now n ≡ None) }
    {
        let from = match task {
            Some(task) => Bound::Excluded(task.number),
            None => Bound::Unbounded,
        };
        let (_, entry) = self.tasks.range((from, Bound::Unbounded)).next()?;
        Some(entry.get().running.ticket.id())
    }
}

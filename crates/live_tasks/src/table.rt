//! The two tables of a core: its tasks by number, and their numbers by place.
ghost use Rattle.std.specs.Prelude.{◌≡◌, ◌+◌, ℕ, None, Some, IfErr, OnOk, OnErr, IsSome};
ghost use Rattle.std.specs.BTreeMap as tree;
ghost use Rattle.std.specs.Ordering.{nat_cmp};
ghost use Rattle.node_link.specs.declared.body.Place.{Place};
ghost use Rattle.live_tasks.specs.Live.{ChangesAt};
ghost use Rattle.live_tasks.specs.Order.{place_cmp};

use crate::entry::Entry;
use node_link::Place;
use std::alloc::Global;
use std::collections::BTreeMap;
use task_ids::Boxed;

/// The live tasks by their numbers.
pub(crate) type Tasks = BTreeMap<u32, Boxed<Entry>>;

/// The numbers of the live tasks by their places.
pub(crate) type Places = BTreeMap<Place, u32>;

/// The live task of a number.
pub(crate) fn task(tasks: &Tasks, number: u32) -> &Entry
    requires live { IsSome (tree.get nat_cmp tasks.now number) }
    ensures { tree.get nat_cmp tasks.now number ≡ Some result.now }
{
    match tasks.get(&number) {
        Some(entry) => entry.get(),
        None => unreachable!(),
    }
}

/// A task is kept in an allocation of its own. Where memory runs out it comes back and nothing has changed.
fn keep(alloc: Global, tasks: &mut Tasks, number: u32, entry: Entry) -> Result<(), Entry>
    requires free { tree.get nat_cmp tasks.old number ≡ None }
    ensures kept { OnOk result (ChangesAt (tree.get nat_cmp tasks.old) (tree.get nat_cmp tasks.new) number (Some entry)) }
    ensures more { OnOk result (tree.btree_map_len tasks.new ≡ tree.btree_map_len tasks.old + 1) }
    ensures given_back { IfErr result (λ e. e ≡ entry) }
    ensures err { OnErr result ((n : ℕ) → tree.get nat_cmp tasks.new n ≡ tree.get nat_cmp tasks.old n) }
    ensures as_many { OnErr result (tree.btree_map_len tasks.new ≡ tree.btree_map_len tasks.old) }
{
    match Boxed::new(alloc, entry) {
        Ok(boxed) => match tasks.insert(number, boxed) {
            Ok(_) => Ok(()),
            Err(failed) => Err(failed.value.1.into_inner()),
        },
        Err(failed) => Err(failed.value),
    }
}

/// A task is kept, and is found by its place. Where memory runs out it comes back and nothing has changed.
pub(crate) fn put(
    alloc: Global,
    tasks: &mut Tasks,
    places: &mut Places,
    number: u32,
    entry: Entry,
) -> Result<(), Entry>
    requires free { tree.get nat_cmp tasks.old number ≡ None }
    requires place { tree.get place_cmp places.old entry.place ≡ None }
    ensures kept { OnOk result (ChangesAt (tree.get nat_cmp tasks.old) (tree.get nat_cmp tasks.new) number (Some entry)) }
    ensures placed { OnOk result (ChangesAt (tree.get place_cmp places.old) (tree.get place_cmp places.new) entry.place (Some number)) }
    ensures more { OnOk result (tree.btree_map_len tasks.new ≡ tree.btree_map_len tasks.old + 1) }
    ensures given_back { IfErr result (λ e. e ≡ entry) }
    ensures err { OnErr result (((n : ℕ) → tree.get nat_cmp tasks.new n ≡ tree.get nat_cmp tasks.old n) × ((p : Place) → tree.get place_cmp places.new p ≡ tree.get place_cmp places.old p)) }
    ensures as_many { OnErr result (tree.btree_map_len tasks.new ≡ tree.btree_map_len tasks.old) }
{
    let place = entry.place;
    match places.insert(place, number) {
        Ok(_) => match keep(alloc, tasks, number, entry) {
            Ok(()) => Ok(()),
            Err(entry) => {
                places.remove(&place);
                Err(entry)
            }
        },
        Err(_) => Err(entry),
    }
}

/// The task of a number leaves both tables.
pub(crate) fn take(tasks: &mut Tasks, places: &mut Places, number: u32) -> Entry
    requires live { IsSome (tree.get nat_cmp tasks.old number) }
    ensures task { tree.get nat_cmp tasks.old number ≡ Some result }
    ensures gone { ChangesAt (tree.get nat_cmp tasks.old) (tree.get nat_cmp tasks.new) number None }
    ensures left { ChangesAt (tree.get place_cmp places.old) (tree.get place_cmp places.new) result.place None }
    ensures less { tree.btree_map_len tasks.new + 1 ≡ tree.btree_map_len tasks.old }
{
    let Some(boxed) = tasks.remove(&number) else {
        unreachable!()
    };
    let entry = boxed.into_inner();
    places.remove(&entry.place);
    entry
}

ghost use Rattle.std.specs.Prelude.{◌≡◌, ◌⊎◌, ℕ, List, [], true, false, ◌&&◌, filter, OnOk, OnErr};
ghost use Rattle.std.specs.List.{list_any};
ghost use Rattle.std.specs.List.Sorted.{IsNonDecreasing};
ghost use Rattle.serde_json.specs.View.{view, items_view};
ghost use Rattle.task_ids.specs.Source.{members_in};
ghost use Rattle.query_match.specs.Matching.{holds, passes};
ghost use Rattle.query_match.specs.Values.{is_key, same_bytes, value_eq, held_at, held_by_key, held_behind, values_in_each};
ghost use Rattle.query_match.specs.declared.query.Test.TheVariants.{Equals};
ghost use Rattle.query_match.specs.declared.scalar.Scalar as scalars;
ghost use Rattle.shard_docs.specs.Candidates.{is_above};
ghost use Rattle.shard_docs.specs.Places.{places_at, places_of, with_place, MayAdd, HasAdded, KeepsUnless};

use query_match::{Scalar, is_key, value_in};
use serde_json::Value;
use std::alloc::{AllocError, Global};
use std::collections::{BTreeMap, HashMap};
use task_ids::{DocSource, Member};

/// The places of the rows that have a value at a field, by field and value: ascending, each once. A field is a key
/// without a dot, and of a list each value counts, at any depth. Places may be left of a row for which memory ran out, and
/// of rows that are forgotten.
#[derive(Drop)]
pub(crate) struct Index {
    alloc: Global,
    fields: HashMap<String, BTreeMap<Scalar, Vec<u32>>>,
}

/// Adds a place at the end, unless it stands there. Where memory runs out nothing has changed.
fn push_once(places: &mut Vec<u32>, place: u32) -> Result<(), AllocError>
    ensures ok { OnOk result (places.new.items ≡ with_place place places.old.items) }
    ensures err { OnErr result (places.new.items ≡ places.old.items) }
{
    match places.last() {
        Some(last) if *last == place => Ok(()),
        _ => {
            places.push(place)?;
            Ok(())
        }
    }
}

/// Adds a place to those of a value. Where memory runs out nothing has changed.
fn add_at(
    values: &mut BTreeMap<Scalar, Vec<u32>>,
    alloc: Global,
    value: Scalar,
    place: u32,
) -> Result<(), AllocError>
    ensures added { OnOk result (places_at values.new value ≡ with_place place (places_at values.old value)) }
    ensures others { (v : scalars.Scalar) → (places_at values.new v ≡ places_at values.old v)
        ⊎ (places_at values.new v ≡ with_place place (places_at values.old v)) }
    ensures kept { (v : scalars.Scalar) → value_eq value v ≡ false → places_at values.new v ≡ places_at values.old v }
{
    if let Some(places) = values.get_mut(&value) {
        return push_once(places, place);
    }
    let mut places = Vec::new(alloc);
    places.push(place)?;
    values.insert(value, places)?;
    Ok(())
}

/// The places above one.
pub(crate) fn places_above(places: &[u32], after: Option<u32>) -> &[u32]
    requires { IsNonDecreasing places.now }
    ensures { result.now ≡ filter (is_above after) places.now }
{
    let Some(after) = after else {
        return places;
    };
    let start = places.partition_point(|place| *place <= after);
    &places[start..]
}

impl Index {
    /// No place yet, which takes no memory.
    pub(crate) fn new(alloc: Global) -> Index
        ensures { (f : List ℕ) (v : scalars.Scalar) → places_of result f v ≡ [] }
    {
        Index {
            alloc,
            fields: HashMap::new(alloc),
        }
    }

    /// The places of a value at a field.
    pub(crate) fn places(&self, field: &str, value: &Scalar) -> &[u32]
        ensures { result.now ≡ places_of self.now field.now value.now }
    {
        let Some(values) = self.fields.get(field) else {
            return &[];
        };
        match values.get(value) {
            Some(places) => places.as_slice(),
            None => &[],
        }
    }

    /// Adds a place to those of a value at a field. It fails only for want of memory.
    fn add_value(&mut self, field: &str, value: Scalar, place: u32) -> Result<(), AllocError>
        ensures added { OnOk result (HasAdded place field.now value self.old self.new) }
        ensures others { MayAdd place self.old self.new }
        ensures kept { KeepsUnless (λ f v. same_bytes f field.now && value_eq value v) self.old self.new }
    {
        let alloc = self.alloc;
        if let Some(values) = self.fields.get_mut(field) {
            return add_at(values, alloc, value, place);
        }
        let mut values = BTreeMap::new(alloc);
        add_at(&mut values, alloc, value, place)?;
        self.fields.insert(String::from_str(alloc, field)?, values)?;
        Ok(())
    }

    /// Adds a place to those of each value in this at a field, lists flattened.
    #[cycle(values)]
    fn add_values(&mut self, field: &str, value: &Value, place: u32) -> Result<(), AllocError>
        ensures added { OnOk result ((v : scalars.Scalar) → holds (Equals v) (view value.now) ≡ true
            → HasAdded place field.now v self.old self.new) }
        ensures others { MayAdd place self.old self.new }
        ensures kept { KeepsUnless (λ f v. same_bytes f field.now && holds (Equals v) (view value.now)) self.old self.new }
    {
        match value {
            Value::Array(items) => self.add_each(field, items.as_slice(), place),
            _ => match value_in(value) {
                Some(found) => {
                    let value = found.kept(self.alloc)?;
                    self.add_value(field, value, place)
                }
                None => Ok(()),
            },
        }
    }

    #[cycle(values)]
    fn add_each(&mut self, field: &str, items: &[Value], place: u32) -> Result<(), AllocError>
        ensures added { OnOk result ((v : scalars.Scalar)
            → list_any (passes (Equals v)) (values_in_each (items_view items.now)) ≡ true
            → HasAdded place field.now v self.old self.new) }
        ensures others { MayAdd place self.old self.new }
        ensures kept { KeepsUnless (λ f v. same_bytes f field.now && list_any (passes (Equals v)) (values_in_each (items_view items.now))) self.old self.new }
    {
        for item in items {
            self.add_values(field, item, place)?;
        }
        Ok(())
    }

    /// Adds a place to those of each value at a key, if that is a field.
    fn add_member(&mut self, key: &str, value: &Value, place: u32) -> Result<(), AllocError>
        ensures added { OnOk result ((f : List ℕ) (v : scalars.Scalar) → is_key f ≡ true
            → list_any (holds (Equals v)) (held_by_key f key.now (view value.now)) ≡ true
            → HasAdded place f v self.old self.new) }
        ensures others { MayAdd place self.old self.new }
        ensures kept { KeepsUnless (λ f v. list_any (holds (Equals v)) (held_by_key f key.now (view value.now))) self.old self.new }
    {
        if !is_key(key) {
            return Ok(());
        }
        self.add_values(key, value, place)
    }

    fn add_members(&mut self, members: &[Member], place: u32) -> Result<(), AllocError>
        ensures added { OnOk result ((f : List ℕ) (v : scalars.Scalar) → is_key f ≡ true
            → list_any (holds (Equals v)) (held_at f (members_in members.now)) ≡ true
            → HasAdded place f v self.old self.new) }
        ensures others { MayAdd place self.old self.new }
        ensures kept { KeepsUnless (λ f v. list_any (holds (Equals v)) (held_at f (members_in members.now))) self.old self.new }
    {
        for member in members {
            self.add_member(member.key.get().as_str(), &member.value, place)?;
        }
        Ok(())
    }

    /// Adds a place to those of each value of a document at each of its fields. Where memory runs out the place may
    /// stand at some of them.
    pub(crate) fn add(&mut self, source: &DocSource, place: u32) -> Result<(), AllocError>
        ensures added { OnOk result ((f : List ℕ) (v : scalars.Scalar) → is_key f ≡ true
            → list_any (holds (Equals v)) (held_behind f source.now) ≡ true
            → HasAdded place f v self.old self.new) }
        ensures others { MayAdd place self.old self.new }
        ensures kept { KeepsUnless (λ f v. list_any (holds (Equals v)) (held_behind f source.now)) self.old self.new }
    {
        self.add_members(source.members(), place)
    }
}

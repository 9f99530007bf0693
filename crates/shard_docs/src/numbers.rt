//! The numbers that rows have at a field, so that a sort need not look into their documents.

ghost use Rattle.std.specs.Prelude.{◌≡◌, ◌∷◌, [], ℕ, List, Some, true, slice_get, IfSome};
ghost use Rattle.serde_json.specs.View.{view};
ghost use Rattle.query_match.specs.declared.scalar.Scalar.TheVariants.{Whole};
ghost use Rattle.query_match.specs.Values.{is_key, values_in, field_values};
ghost use Rattle.shard_docs.specs.Numbers.{numbers_of, GainsOnly};

use query_match::is_key;
use serde_json::Value;
use std::alloc::{AllocError, Global};
use std::collections::HashMap;
use task_ids::DocSource;

/// A number that is the one value of a row at a field, and the place of the row.
#[derive(Clone, Copy, PartialEq, Eq)]
pub struct NumberAt {
    pub place: u32,
    pub number: i64,
}

/// The number at a place, where there is one. It is found at once where each row between has a number.
pub fn number_at(numbers: &[NumberAt], place: u32) -> Option<i64>
    ensures { IfSome result (λ n. (i : ℕ) × (slice_get numbers.now i ≡ Some (record { place = place; number = n }))) }
{
    let first = numbers.first()?;
    let guess = place.checked_sub(first.place)?;
    match numbers.get(guess as usize) {
        Some(here) if here.place == place => Some(here.number),
        _ => searched(numbers, place),
    }
}

/// The number at a place, where there is one and the places ascend.
fn searched(numbers: &[NumberAt], place: u32) -> Option<i64>
    ensures { IfSome result (λ n. (i : ℕ) × (slice_get numbers.now i ≡ Some (record { place = place; number = n }))) }
{
    let at = numbers.partition_point(|here| here.place < place);
    match numbers.get(at) {
        Some(here) if here.place == place => Some(here.number),
        _ => None,
    }
}

/// By field, the rows of which a number is the one value there: in the order in which they were added. A field is a key
/// without a dot. Where memory ran out some are missing, and a row is looked into again.
#[derive(Drop)]
pub(crate) struct Numbers {
    alloc: Global,
    fields: HashMap<String, Vec<NumberAt>>,
}

impl Numbers {
    /// No number yet, which takes no memory.
    pub(crate) fn new(alloc: Global) -> Numbers
        ensures { (f : List ℕ) → numbers_of result f ≡ [] }
    {
        Numbers {
            alloc,
            fields: HashMap::new(alloc),
        }
    }

    /// Those at a field.
    pub(crate) fn at(&self, field: &str) -> &[NumberAt]
        ensures { result.now ≡ numbers_of self.now field.now }
    {
        match self.fields.get(field) {
            Some(numbers) => numbers.as_slice(),
            None => &[],
        }
    }

    /// Adds a number at a field. It fails only for want of memory.
    fn add_number(&mut self, field: &str, number: NumberAt) -> Result<(), AllocError>
        ensures { GainsOnly (λ f n. (f ≡ field.now) × (n ≡ number)) self.old self.new }
    {
        if let Some(numbers) = self.fields.get_mut(field) {
            numbers.push(number)?;
            return Ok(());
        }
        let mut numbers = Vec::new(self.alloc);
        numbers.push(number)?;
        self.fields
            .insert(String::from_str(self.alloc, field)?, numbers)?;
        Ok(())
    }

    /// Adds what lies at a key of the row of a place, if that is a field and a number. It fails only for want of memory.
    fn add_member(&mut self, key: &str, value: &Value, place: u32) -> Result<(), AllocError>
        ensures { GainsOnly (λ f n. (f ≡ key.now) × (is_key f ≡ true) × (n.place ≡ place) × (values_in (view value.now) ≡ Whole n.number ∷ [])) self.old self.new }
    {
        match value.as_i64() {
            Some(number) if is_key(key) => self.add_number(key, NumberAt { place, number }),
            _ => Ok(()),
        }
    }

    /// Adds those of the row of a place. Where memory runs out some are missing.
    pub(crate) fn add(&mut self, source: &DocSource, place: u32)
        ensures { GainsOnly (λ f n. (n.place ≡ place) × (field_values f source.now ≡ Whole n.number ∷ [])) self.old self.new }
    {
        for member in source.members() {
            let key = member.key.get().as_str();
            if self.add_member(key, &member.value, place).is_err() {
                return;
            }
        }
    }
}

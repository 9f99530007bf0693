//! The keys of documents for a sort.

ghost use Rattle.std.specs.Prelude.{◌≡◌, ◌∷◌, [], option_map, IfOk};
ghost use Rattle.serde_json.specs.Data.{Data};
ghost use Rattle.query_match.specs.Found.{found_view};
ghost use Rattle.query_match.specs.Values.{field_values};
ghost use Rattle.query_match.specs.Sorting.{best_of, part_of, part_at, part_cmp, key_of, key_cmp};

use crate::best::best_value;
use query_match::{Found, Items, KeyPart, SortBy, SortKey};
use std::alloc::{AllocError, Global};
use std::cmp::Ordering;
use task_ids::DocSource;

fn part_of(alloc: Global, descending: bool, best: Option<Found<'_>>) -> Result<KeyPart, AllocError>
    ensures { IfOk result (λ part. part ≡ part_of descending (option_map found_view best.entry)) }
{
    match best {
        None => Ok(KeyPart::Missing),
        Some(found) => {
            let value = found.kept(alloc)?;
            if descending {
                Ok(KeyPart::Descending(value))
            } else {
                Ok(KeyPart::Ascending(value))
            }
        }
    }
}

/// The value of a document that an entry of a sort goes by.
fn best_by<'v>(by: &SortBy, source: &'v DocSource) -> Option<Found<'v>>
    ensures { option_map found_view result
        ≡ best_of by.now.descending (field_values by.now.field source.entry.now) }
{
    best_value(by.descending, by.field.as_str(), source)
}

fn key_part(alloc: Global, by: &SortBy, source: &DocSource) -> Result<KeyPart, AllocError>
    ensures { IfOk result (λ part. part ≡ part_at source.now by.now) }
{
    part_of(alloc, by.descending, best_by(by, source))
}

/// The key of a document for a sort.
///
/// A number with a fraction or an exponent is no value. It fails only for want of memory.
pub fn sort_key(alloc: Global, sort: &[SortBy], source: &DocSource) -> Result<SortKey, AllocError>
    ensures { IfOk result (λ key. key ≡ key_of sort.now source.now) }
{
    let mut parts = Vec::with_capacity(alloc, sort.len())?;
    for by in sort {
        parts.push(key_part(alloc, by, source)?)?;
    }
    Ok(SortKey::from_parts(Items::from_vec(parts)))
}

/// How the part that goes by the best value of a field stands to another part.
fn compare_best(descending: bool, best: Option<Found<'_>>, part: &KeyPart) -> Ordering
    ensures { result ≡ part_cmp (part_of descending (option_map found_view best.entry)) part.now }
{
    match (best, part) {
        (None, KeyPart::Missing) => Ordering::Equal,
        (None, _) => Ordering::Greater,
        (Some(_), KeyPart::Missing) => Ordering::Less,
        (Some(_), KeyPart::Ascending(_)) if descending => Ordering::Greater,
        (Some(found), KeyPart::Ascending(value)) => found.compare(&value.lent()),
        (Some(found), KeyPart::Descending(value)) if descending => value.lent().compare(&found),
        (Some(_), KeyPart::Descending(_)) => Ordering::Less,
    }
}

/// How the part of a document for an entry of a sort stands to another part.
fn compare_part(by: &SortBy, source: &DocSource, part: &KeyPart) -> Ordering
    ensures { result ≡ part_cmp (part_at source.now by.now) part.now }
{
    compare_best(by.descending, best_by(by, source), part)
}

/// How the part of a document for an entry of a sort stands to another part, where this is the one value that the document
/// has at the field. The document is not looked into.
pub fn compare_value(by: &SortBy, value: Found<'_>, part: &KeyPart) -> Ordering
    ensures { (source : Data) → field_values by.now.field source ≡ found_view value.entry ∷ [] → result ≡ part_cmp (part_at source by.now) part.now }
{
    compare_best(by.descending, Some(value), part)
}

/// How the key of a document for a sort stands to another key.
///
/// It takes no memory, and looks at no further field once a part differs. A number with a fraction or an exponent is no
/// value. A key of fewer parts stands before those that begin with the same parts.
pub fn compare_key(sort: &[SortBy], source: &DocSource, key: &SortKey) -> Ordering
    ensures { result ≡ key_cmp (key_of sort.now source.now) key.now }
{
    let mut rest = key.as_slice();
    for by in sort {
        let Some((part, later)) = rest.split_first() else {
            return Ordering::Greater;
        };
        let order = compare_part(by, source, part);
        if order.is_ne() {
            return order;
        }
        rest = later;
    }
    if rest.is_empty() {
        Ordering::Equal
    } else {
        Ordering::Less
    }
}

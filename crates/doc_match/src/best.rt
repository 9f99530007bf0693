//! The least or the greatest value of a field.

ghost use Rattle.std.specs.Prelude.{◌≡◌, None, fold, option_map};
ghost use Rattle.std.specs.List.{flat_map};
ghost use Rattle.serde_json.specs.View.{view, items_view, members_view};
ghost use Rattle.query_match.specs.Found.{found_view};
ghost use Rattle.task_ids.specs.Source.{members_in};
ghost use Rattle.query_match.specs.Sorting.{goes_before, better, best_of};
ghost use Rattle.query_match.specs.Values.{field_values, values_in, values_in_each, held_at, held_by_key, held_behind, held_behind_each};

use crate::field::{after_key, member, value_at};
use query_match::{Found, is_key, value_in};
use serde_json::{Map, Value};
use task_ids::{DocSource, Member};

fn goes_before(descending: bool, value: &Found<'_>, other: &Found<'_>) -> bool
    ensures { result ≡ goes_before descending (found_view value.now) (found_view other.now) }
{
    let order = value.compare(other);
    if descending {
        order.is_gt()
    } else {
        order.is_lt()
    }
}

fn better<'v>(descending: bool, best: Option<Found<'v>>, value: Found<'v>) -> Option<Found<'v>>
    ensures { option_map found_view result
        ≡ better descending (option_map found_view best.entry) (found_view value.entry) }
{
    match best {
        Some(other) if !goes_before(descending, &value, &other) => Some(other),
        _ => Some(value),
    }
}

/// The best of the values in this, lists flattened, and of the best before.
#[cycle(best_values)]
fn best_in<'v>(descending: bool, best: Option<Found<'v>>, value: &'v Value) -> Option<Found<'v>>
    ensures { option_map found_view result
        ≡ fold (better descending) (option_map found_view best.entry) (values_in (view value.entry.now)) }
{
    match value {
        Value::Array(items) => best_in_each(descending, best, items.as_slice()),
        _ => match value_in(value) {
            Some(found) => better(descending, best, found),
            None => best,
        },
    }
}

#[cycle(best_values)]
fn best_in_each<'v>(
    descending: bool,
    best: Option<Found<'v>>,
    items: &'v [Value],
) -> Option<Found<'v>>
    ensures { option_map found_view result
        ≡ fold (better descending) (option_map found_view best.entry) (values_in_each (items_view items.entry.now)) }
{
    let mut best = best;
    for item in items {
        best = best_in(descending, best, item);
    }
    best
}

/// The best of the values of a field of an object, and of the best before. A field without a dot is one look-up.
#[cycle(best_held)]
fn best_at<'v>(
    descending: bool,
    field: &str,
    best: Option<Found<'v>>,
    members: &'v Map<String, Value>,
) -> Option<Found<'v>>
    ensures { option_map found_view result
        ≡ fold (better descending) (option_map found_view best.entry)
        (flat_map values_in (held_at field.now (members_view members.entry.now.entries))) }
{
    if is_key(field) {
        return match member(members, field) {
            Some(value) => best_in(descending, best, value),
            None => best,
        };
    }
    best_by_keys(descending, field, best, members)
}

/// The same, found by a walk over all keys.
#[cycle(best_held)]
fn best_by_keys<'v>(
    descending: bool,
    field: &str,
    best: Option<Found<'v>>,
    members: &'v Map<String, Value>,
) -> Option<Found<'v>>
    ensures { option_map found_view result
        ≡ fold (better descending) (option_map found_view best.entry)
        (flat_map values_in (held_at field.now (members_view members.entry.now.entries))) }
{
    let mut best = best;
    for (key, value) in members.iter() {
        best = best_by_key(descending, field, best, key.as_str(), value);
    }
    best
}

#[cycle(best_held)]
fn best_by_key<'v>(
    descending: bool,
    field: &str,
    best: Option<Found<'v>>,
    key: &str,
    value: &'v Value,
) -> Option<Found<'v>>
    ensures { option_map found_view result
        ≡ fold (better descending) (option_map found_view best.entry)
        (flat_map values_in (held_by_key field.now key.now (view value.entry.now))) }
{
    if field == key {
        return best_in(descending, best, value);
    }
    match after_key(key, field) {
        Some(rest) => best_behind(descending, rest, best, value),
        None => best,
    }
}

/// The best of the values of a field, in an object or in each of a list of them, and of the best before.
#[cycle(best_held)]
fn best_behind<'v>(
    descending: bool,
    field: &str,
    best: Option<Found<'v>>,
    value: &'v Value,
) -> Option<Found<'v>>
    ensures { option_map found_view result
        ≡ fold (better descending) (option_map found_view best.entry)
        (flat_map values_in (held_behind field.now (view value.entry.now))) }
{
    match value {
        Value::Object(members) => best_at(descending, field, best, members),
        Value::Array(items) => best_behind_each(descending, field, best, items.as_slice()),
        _ => best,
    }
}

#[cycle(best_held)]
fn best_behind_each<'v>(
    descending: bool,
    field: &str,
    best: Option<Found<'v>>,
    items: &'v [Value],
) -> Option<Found<'v>>
    ensures { option_map found_view result
        ≡ fold (better descending) (option_map found_view best.entry)
        (flat_map values_in (held_behind_each field.now (items_view items.entry.now))) }
{
    let mut best = best;
    for item in items {
        best = best_behind(descending, field, best, item);
    }
    best
}

/// The best of the values of a field of a document. A field without a dot is one look-up.
pub(crate) fn best_value<'v>(
    descending: bool,
    field: &str,
    source: &'v DocSource,
) -> Option<Found<'v>>
    ensures { option_map found_view result ≡ best_of descending (field_values field.now source.entry.now) }
{
    if is_key(field) {
        return match value_at(source, field) {
            Some(value) => best_in(descending, None, value),
            None => None,
        };
    }
    best_in_members(descending, field, source.members())
}

/// The same, found by a walk over all keys.
fn best_in_members<'v>(descending: bool, field: &str, members: &'v [Member]) -> Option<Found<'v>>
    ensures { option_map found_view result
        ≡ fold (better descending) None (flat_map values_in (held_at field.now (members_in members.entry.now))) }
{
    let mut best = None;
    for member in members {
        best = best_by_key(
            descending,
            field,
            best,
            member.key.get().as_str(),
            &member.value,
        );
    }
    best
}

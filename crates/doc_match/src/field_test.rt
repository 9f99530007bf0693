//! Whether what lies at a field passes a test.

ghost use Rattle.std.specs.Prelude.{◌≡◌};
ghost use Rattle.std.specs.List.{list_any, starts_with};
ghost use Rattle.serde_json.specs.View.{view, items_view, members_view};
ghost use Rattle.query_match.specs.Found.{found_view};
ghost use Rattle.query_match.specs.Matching.{kind_order, is_on, meets, is_within, begins_with, passes, holds};
ghost use Rattle.query_match.specs.Values.{value_eq, values_in, values_in_each, has_value, some_has_value, some_key_has_value};

use query_match::{Found, Range, Scalar, Side, Test, value_in};
use serde_json::{Map, Value};
use std::cmp::Ordering;

/// Kind and content are equal.
pub(crate) fn are_equal(value: &Found<'_>, other: &Found<'_>) -> bool
    ensures { result ≡ value_eq (found_view value.now) (found_view other.now) }
{
    match (value, other) {
        (Found::Whole(a), Found::Whole(b)) => *a == *b,
        (Found::Text(a), Found::Text(b)) => *a == *b,
        (Found::Bool(a), Found::Bool(b)) => *a == *b,
        _ => false,
    }
}

/// How two whole numbers or two texts stand to each other.
fn order_in_kind(value: &Found<'_>, other: &Found<'_>) -> Option<Ordering>
    ensures { result ≡ kind_order (found_view value.now) (found_view other.now) }
{
    match (value, other) {
        (Found::Whole(a), Found::Whole(b)) => Some(a.cmp(b)),
        (Found::Text(a), Found::Text(b)) => Some(a.cmp(b)),
        _ => None,
    }
}

fn begins_with(value: &Found<'_>, front: &str) -> bool
    ensures { result ≡ begins_with front.now (found_view value.now) }
{
    match value {
        Found::Text(text) => text.as_bytes().starts_with(front.as_bytes()),
        _ => false,
    }
}

/// Whether what stands so to a bound of this side is within it.
fn is_on(side: Side, order: Ordering) -> bool
    ensures { result ≡ is_on side order }
{
    match side {
        Side::Above => order.is_gt(),
        Side::From => order.is_ge(),
        Side::Below => order.is_lt(),
        Side::To => order.is_le(),
    }
}

fn meets(side: Side, value: &Found<'_>, bound: &Option<Scalar>) -> bool
    ensures { result ≡ meets side (found_view value.now) bound.now }
{
    match bound {
        None => true,
        Some(bound) => match order_in_kind(value, &bound.lent()) {
            Some(order) => is_on(side, order),
            None => false,
        },
    }
}

fn is_within(range: &Range, value: &Found<'_>) -> bool
    ensures { result ≡ is_within range.now (found_view value.now) }
{
    meets(Side::Above, value, &range.above)
        && meets(Side::From, value, &range.from)
        && meets(Side::Below, value, &range.below)
        && meets(Side::To, value, &range.to)
}

fn is_among(value: &Found<'_>, values: &[Scalar]) -> bool
    ensures { result ≡ list_any (λ v. value_eq (found_view value.now) v) values.now }
{
    values.iter().any(|other| are_equal(value, &other.lent()))
}

fn passes(test: &Test, value: &Found<'_>) -> bool
    ensures { result ≡ passes test.now (found_view value.now) }
{
    match test {
        Test::Equals(wanted) => are_equal(value, &wanted.lent()),
        Test::OneOf(wanted) => is_among(value, wanted.as_slice()),
        Test::Within(range) => is_within(range, value),
        Test::Starts(front) => begins_with(value, front.as_str()),
        Test::Exists => true,
    }
}

/// What lies at a field passes: one of its values does, or where it is asked to exist, there is a value in it at any depth.
pub(crate) fn holds(test: &Test, value: &Value) -> bool
    ensures { result ≡ holds test.now (view value.now) }
{
    match test {
        Test::Exists => has_value(value),
        _ => some_passes(test, value),
    }
}

/// A value of this passes, lists flattened.
#[cycle(passing)]
fn some_passes(test: &Test, value: &Value) -> bool
    ensures { result ≡ list_any (passes test.now) (values_in (view value.now)) }
{
    match value {
        Value::Array(items) => one_passes(test, items.as_slice()),
        _ => match value_in(value) {
            Some(found) => passes(test, &found),
            None => false,
        },
    }
}

#[cycle(passing)]
fn one_passes(test: &Test, items: &[Value]) -> bool
    ensures { result ≡ list_any (passes test.now) (values_in_each (items_view items.now)) }
{
    for item in items {
        if some_passes(test, item) {
            return true;
        }
    }
    false
}

/// There is a value at any depth.
#[cycle(valued)]
fn has_value(value: &Value) -> bool
    ensures { result ≡ has_value (view value.now) }
{
    match value {
        Value::Array(items) => some_has_value(items.as_slice()),
        Value::Object(members) => some_key_has_value(members),
        _ => value_in(value).is_some(),
    }
}

#[cycle(valued)]
fn some_has_value(items: &[Value]) -> bool
    ensures { result ≡ some_has_value (items_view items.now) }
{
    for item in items {
        if has_value(item) {
            return true;
        }
    }
    false
}

#[cycle(valued)]
fn some_key_has_value(members: &Map<String, Value>) -> bool
    ensures { result ≡ some_key_has_value (members_view members.now.entries) }
{
    for (_, member) in members.iter() {
        if has_value(member) {
            return true;
        }
    }
    false
}

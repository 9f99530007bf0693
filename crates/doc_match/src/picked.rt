//! Whether a document has the value that a query picks.

ghost use Rattle.std.specs.Prelude.{◌≡◌, true};
ghost use Rattle.std.specs.List.{list_any};
ghost use Rattle.serde_json.specs.View.{view, items_view};
ghost use Rattle.query_match.specs.Matching.{holds, passes};
ghost use Rattle.query_match.specs.declared.query.Test.TheVariants.{Equals};
ghost use Rattle.query_match.specs.Values.{is_key, held_behind, values_in, values_in_each};

use crate::field::value_at;
use crate::field_test::are_equal;
use query_match::{Pick, Scalar, value_in};
use serde_json::Value;
use task_ids::DocSource;

/// A value of this is the wanted one, lists flattened.
#[cycle(equal)]
fn some_equals(wanted: &Scalar, value: &Value) -> bool
    ensures { result ≡ list_any (passes (Equals wanted.now)) (values_in (view value.now)) }
{
    match value {
        Value::Array(items) => one_equals(wanted, items.as_slice()),
        _ => match value_in(value) {
            Some(found) => are_equal(&found, &wanted.lent()),
            None => false,
        },
    }
}

#[cycle(equal)]
fn one_equals(wanted: &Scalar, items: &[Value]) -> bool
    ensures { result ≡ list_any (passes (Equals wanted.now)) (values_in_each (items_view items.now)) }
{
    for item in items {
        if some_equals(wanted, item) {
            return true;
        }
    }
    false
}

/// Whether a document has the picked value at its field, of which the name has no dot. It takes no memory, and looks
/// once into the source.
pub fn has_picked(pick: Pick<'_>, source: &DocSource) -> bool
    requires { is_key pick.field.now ≡ true }
    ensures { result ≡ list_any (holds (Equals pick.entry.value.now)) (held_behind pick.entry.field.now source.now) }
{
    match value_at(source, pick.field.as_str()) {
        Some(value) => some_equals(pick.value, value),
        None => false,
    }
}

//! Whether the numbers of a JSON value are whole.

ghost use Rattle.std.specs.Prelude.{◌≡◌, not};
ghost use Rattle.serde_json.specs.View.{view, items_view, members_view};
ghost use Rattle.serde_json.specs.Written.{has_float, items_have_float, members_have_float};

use serde_json::{Map, Value};

/// Whether each number of a value is whole: written without fraction and exponent, from -2^63 to 2^64-1, and not `-0`.
#[cycle(whole)]
pub fn is_whole(value: &Value) -> bool
    ensures { result ≡ not (has_float (view value.now)) }
{
    match value {
        Value::Null | Value::Bool(_) | Value::String(_) => true,
        Value::Number(number) => !number.is_f64(),
        Value::Array(items) => are_whole(items.as_slice()),
        Value::Object(members) => has_whole_members(members),
    }
}

#[cycle(whole)]
fn are_whole(items: &[Value]) -> bool
    ensures { result ≡ not (items_have_float (items_view items.now)) }
{
    for item in items {
        if !is_whole(item) {
            return false;
        }
    }
    true
}

#[cycle(whole)]
fn has_whole_members(members: &Map<String, Value>) -> bool
    ensures { result ≡ not (members_have_float (members_view members.now.entries)) }
{
    for (_, member) in members.iter() {
        if !is_whole(member) {
            return false;
        }
    }
    true
}

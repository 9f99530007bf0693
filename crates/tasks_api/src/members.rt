//! Members of JSON objects.

ghost use Rattle.std.specs.Prelude.{◌≡◌, [], ◌∷◌, ◌++◌, OnOk, map};
ghost use Rattle.serde_json.specs.Data.{number, unsigned, string, array, object, put};
ghost use Rattle.serde_json.specs.View.{view, members_view, items_of};

use serde_json::{Map, Value, put};
use std::alloc::{AllocError, Global};

/// Puts a text at a key.
pub(crate) fn put_text(
    alloc: Global,
    members: &mut Map<String, Value>,
    key: &str,
    text: &str,
) -> Result<(), AllocError>
    ensures { OnOk result (members_view members.new.entries ≡ put key.now (string text.now) (members_view members.old.entries)) }
{
    let value = Value::try_from_str(alloc, text)?;
    put(members, alloc, key, value)
}

/// Puts a number at a key.
pub(crate) fn put_number(
    alloc: Global,
    members: &mut Map<String, Value>,
    key: &str,
    count: u64,
) -> Result<(), AllocError>
    ensures { OnOk result (members_view members.new.entries ≡ put key.now (number (unsigned count)) (members_view members.old.entries)) }
{
    put(members, alloc, key, Value::from(count))
}

/// The object of some members.
pub(crate) fn object_value(members: Map<String, Value>) -> Value
    ensures { view result ≡ object (members_view members.entries) }
{
    Value::Object(members)
}

/// Adds a value to a list.
pub(crate) fn push_value(values: &mut Vec<Value>, value: Value) -> Result<(), AllocError>
    ensures { OnOk result (map view values.new.items ≡ map view values.old.items ++ view value ∷ []) }
{
    values.push(value)?;
    Ok(())
}

/// The JSON list of some values.
pub(crate) fn array_value(values: Vec<Value>) -> Value
    ensures { view result ≡ array (items_of (map view values.items)) }
{
    Value::Array(values)
}

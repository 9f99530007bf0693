//! Objects of JSON, made member by member.

ghost use Rattle.std.specs.Prelude.{◌≡◌, IfOk, codes};
ghost use Rattle.serde_json.specs.Data.{string, object, put};
ghost use Rattle.serde_json.specs.View.{view, members_view};
ghost use Rattle.task_events.specs.Printed.{count};

use serde_json::{Map, Value, put};
use std::alloc::{AllocError, Global};

/// An object's members with one more.
pub(crate) fn with_member(
    alloc: Global,
    mut members: Map<String, Value>,
    key: &str,
    value: Value,
) -> Result<Map<String, Value>, AllocError>
    ensures { IfOk result (λ more. members_view more.entries ≡ put key.now (view value) (members_view members.entries)) }
{
    put(&mut members, alloc, key, value)?;
    Ok(members)
}

/// An object's members with one more, which is a text.
pub(crate) fn with_text(
    alloc: Global,
    members: Map<String, Value>,
    key: &str,
    text: &str,
) -> Result<Map<String, Value>, AllocError>
    ensures { IfOk result (λ more. members_view more.entries ≡ put key.now (string text.now) (members_view members.entries)) }
{
    let value = Value::try_from_str(alloc, text)?;
    with_member(alloc, members, key, value)
}

/// An object's members with one more, which is a number.
pub(crate) fn with_number(
    alloc: Global,
    members: Map<String, Value>,
    key: &str,
    number: u64,
) -> Result<Map<String, Value>, AllocError>
    ensures { IfOk result (λ more. members_view more.entries ≡ put key.now (count number) (members_view members.entries)) }
{
    with_member(alloc, members, key, Value::from(number))
}

/// The object of some members and a `type`.
pub(crate) fn of_type(
    alloc: Global,
    members: Map<String, Value>,
    kind: &str,
) -> Result<Value, AllocError>
    ensures { IfOk result (λ value. view value ≡ object (put (codes "type") (string kind.now) (members_view members.entries))) }
{
    let typed = with_text(alloc, members, "type", kind)?;
    Ok(Value::Object(typed))
}

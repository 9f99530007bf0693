//! JSON values in little memory. A `serde_json` object takes room for eleven members and more, however few it has.

ghost use Rattle.std.specs.Prelude.{◌≡◌, IfOk, option_map, option_and_then};
ghost use Rattle.serde_json.specs.Find.{as_str, as_number, as_u64, as_array, as_object};
ghost use Rattle.serde_json.specs.View.{view, items_view, members_view};
ghost use Rattle.task_ids.specs.Json.{json_view, json_items, json_members};

use crate::text::Text;
use serde_json::{Map, Number, Value};
use std::alloc::{AllocError, Global};

/// A JSON value, in no more memory than what it holds. Contracts see it by `json_view`, as they see a `serde_json::Value` by
/// `view`.
#[cycle(json)]
#[derive(Drop)]
pub enum Json {
    Null,
    Bool(bool),
    Number(Number),
    String(Text),
    Array(Vec<Json>),
    /// The members. [`Json::of`] gives them in the order of their keys, each key once.
    Object(Vec<JsonMember>),
}

/// A member of an object: a key, and the value that lies there.
#[cycle(json)]
#[derive(Drop)]
pub struct JsonMember {
    pub key: Text,
    pub value: Json,
}

/// The value, in memory of its own.
#[cycle(of)]
fn json_of(alloc: Global, value: &Value) -> Result<Json, AllocError>
    ensures { IfOk result (λ json. json_view json ≡ view value.now) }
{
    match value {
        Value::Null => Ok(Json::Null),
        Value::Bool(truth) => Ok(Json::Bool(*truth)),
        Value::Number(number) => Ok(Json::Number(*number)),
        Value::String(text) => Ok(Json::String(Text::new(text.clone()?))),
        Value::Array(values) => Ok(Json::Array(items_of(alloc, values.as_slice())?)),
        Value::Object(members) => Ok(Json::Object(members_of(alloc, members)?)),
    }
}

#[cycle(of)]
fn items_of(alloc: Global, values: &[Value]) -> Result<Vec<Json>, AllocError>
    ensures { IfOk result (λ items. json_items items.items ≡ items_view values.now) }
{
    let mut items = Vec::with_capacity(alloc, values.len())?;
    for value in values {
        items.push(json_of(alloc, value)?)?;
    }
    Ok(items)
}

#[cycle(of)]
fn members_of(alloc: Global, map: &Map<String, Value>) -> Result<Vec<JsonMember>, AllocError>
    ensures { IfOk result (λ members. json_members members.items ≡ members_view map.now.entries) }
{
    let mut members = Vec::with_capacity(alloc, map.len())?;
    for (key, value) in map.iter() {
        let key = Text::new(key.clone()?);
        let value = json_of(alloc, value)?;
        members.push(JsonMember { key, value })?;
    }
    Ok(members)
}

impl Json {
    /// The value that a `serde_json` value is, in memory of its own. It fails only for want of memory.
    pub fn of(alloc: Global, value: &Value) -> Result<Json, AllocError>
        ensures { IfOk result (λ json. json_view json ≡ view value.now) }
    {
        json_of(alloc, value)
    }

    /// The text, where it is one.
    pub fn as_str(&self) -> Option<&str>
        ensures { option_map (λ s. s.now) result ≡ as_str (json_view self.now) }
    {
        match self {
            Json::String(text) => Some(text.as_str()),
            _ => None,
        }
    }

    /// The number, where it is whole, from 0 to 2^64-1.
    pub fn as_u64(&self) -> Option<u64>
        ensures { result ≡ option_and_then as_u64 (as_number (json_view self.now)) }
    {
        match self {
            Json::Number(number) => number.as_u64(),
            _ => None,
        }
    }

    /// The items, where it is a list.
    pub fn as_array(&self) -> Option<&[Json]>
        ensures { option_map (λ items. json_items items.now) result ≡ as_array (json_view self.now) }
    {
        match self {
            Json::Array(items) => Some(items.as_slice()),
            _ => None,
        }
    }

    /// The members, where it is an object.
    pub fn as_object(&self) -> Option<&[JsonMember]>
        ensures { option_map (λ members. json_members members.now) result ≡ as_object (json_view self.now) }
    {
        match self {
            Json::Object(members) => Some(members.as_slice()),
            _ => None,
        }
    }
}

ghost use Rattle.std.specs.Prelude.{◌≡◌, false, option_map, IsOk, IsSome, IsTrue};
ghost use Rattle.std.specs.Option.{ok_or};
ghost use Rattle.serde_json.specs.Find.{get};
ghost use Rattle.serde_json.specs.View.{view};
ghost use Rattle.serde_json.specs.Written.{has_float};
ghost use Rattle.std.specs.Prelude.{codes, string_bytes};
ghost use Rattle.shard_docs.specs.BulkAction as spec;
ghost use Rattle.shard_docs.specs.Fault.{Reads, OnMemory};
ghost use Rattle.shard_docs.specs.Json.{is_text};

use crate::fault::LineError;
use crate::json_line::whole_value_of_line;
use serde_json::Value;
use std::alloc::Global;
use task_ids::{Cause, Text};

/// How a document is written.
#[derive(Clone, Copy, PartialEq, Eq)]
pub(crate) enum BulkKind {
    /// In the place of a document of its id, if there is one.
    Index,
    /// Only where no document of its id is there.
    Create,
}

/// What an action line asks for: how its document is written, where, and under which id.
#[derive(Drop)]
pub(crate) struct BulkAction {
    pub(crate) kind: BulkKind,
    pub(crate) index: Text,
    pub(crate) id: Text,
}

fn has_one_key(value: &Value) -> bool
    ensures { result ≡ spec.has_one_key (view value.now) }
{
    match value.as_object() {
        Some(members) => members.len() == 1,
        None => false,
    }
}

/// The kind of an action and what it is about. It takes no memory.
fn kind_of(value: &Value) -> Result<(BulkKind, &Value), LineError>
    ensures kind { Reads (λ choice. (choice.0, view choice.1.now)) result (spec.kind_of (view value.now)) }
    ensures memory { OnMemory result ⊥ }
{
    if !has_one_key(value) {
        return Err(LineError::Refused(Cause::BadAction));
    }
    if let Some(target) = value.get("index") {
        return Ok((BulkKind::Index, target));
    }
    match value.get("create") {
        Some(target) => Ok((BulkKind::Create, target)),
        None => Err(LineError::Refused(Cause::UnknownAction)),
    }
}

/// The index that an action is about.
fn index_of(target: &Value) -> Option<&str>
    ensures { option_map (λ name. name.now) result ≡ spec.index_of (view target.now) }
{
    let name = target.get("_index")?.as_str()?;
    if name.is_empty() { None } else { Some(name) }
}

/// An id that is written. What is no id is refused whatever memory there is.
fn written_id(alloc: Global, id: &Value) -> Result<String, LineError>
    requires { has_float (view id.now) ≡ false }
    ensures id { Reads (λ text. string_bytes text) result (ok_or (spec.written_id (view id.now)) Cause.BadAction) }
    ensures memory { OnMemory result (IsSome (spec.written_id (view id.now))) }
{
    match id {
        Value::String(text) if !text.is_empty() => Ok(text.clone()?),
        Value::Number(_) => Ok(id.to_string(alloc)?),
        _ => Err(LineError::Refused(Cause::BadAction)),
    }
}

/// The id that an action on a line of this number is about. What is no id is refused whatever memory there is.
fn id_of(alloc: Global, number: u32, target: &Value) -> Result<String, LineError>
    requires { has_float (view target.now) ≡ false }
    ensures id { Reads (λ text. string_bytes text) result (ok_or (spec.id_or_auto number (get (codes "_id") (view target.now))) Cause.BadAction) }
    ensures memory { OnMemory result (IsSome (spec.id_or_auto number (get (codes "_id") (view target.now)))) }
{
    match target.get("_id") {
        Some(id) => written_id(alloc, id),
        None => Ok(format!(in alloc; "auto-{number}")?),
    }
}

/// The action of a value that has no float, on a line of this number. A value that is none is refused whatever memory there is.
#[tactic(auto, unfolding(crate::specs::BulkAction::action_of_value))]
fn action_of_value(alloc: Global, number: u32, value: &Value) -> Result<BulkAction, LineError>
    requires { has_float (view value.now) ≡ false }
    ensures action { Reads (λ action. action) result (spec.action_of_value number (view value.now)) }
    ensures memory { OnMemory result (IsOk (spec.action_of_value number (view value.now))) }
{
    let (kind, target) = kind_of(value)?;
    let Some(index) = index_of(target) else {
        return Err(LineError::Refused(Cause::BadAction));
    };
    let id = Text::new(id_of(alloc, number, target)?);
    let index = Text::new(String::from_str(alloc, index)?);
    Ok(BulkAction { kind, index, id })
}

/// The action of a line, which has this number. A line that is too long or not UTF-8 is told whatever memory there is.
#[tactic(auto, unfolding(crate::specs::BulkAction::action_of))]
pub(crate) fn action_of_line(
    alloc: Global,
    number: u32,
    line: &[u8],
) -> Result<BulkAction, LineError>
    ensures action { Reads (λ action. action) result (spec.action_of number line.now) }
    ensures memory { OnMemory result (IsTrue (is_text line.now)) }
{
    let value = whole_value_of_line(alloc, line)?;
    action_of_value(alloc, number, &value)
}

//! The fields of a command, each read for itself.

ghost use Rattle.std.specs.Prelude.{◌≡◌, ◌≤◌, map, option_map};
ghost use Rattle.serde_json.specs.Find.{get_member};
ghost use Rattle.serde_json.specs.View.{view, members_view};
ghost use Rattle.script_lang.specs.Fields as spec;
ghost use Rattle.script_lang.specs.Fields.{seen};

use crate::keep_alives::{DAY_MS, keep_alive_of};
use crate::names::{group_named, is_one_of, node_of, task_id_of};
use serde_json::{Map, Value};
use task_ids::{Cause, TaskId};
use tasks_api::GroupBy;

/// Into how many slices a reindex is cut at most.
const MAX_SLICES: u64 = 32;

/// How many documents a reindex writes in a second at most, where it is bounded.
const MAX_RATE: i64 = 1_000_000;

/// How many moves a shuffle makes at most.
const MAX_MOVES: u64 = 1_000_000;

/// Where a cause stands in the order in which the causes of one line count.
fn place_of(cause: Cause) -> u32
    ensures { result ≡ spec.place_of cause }
{
    match cause {
        Cause::TooLong => 0,
        Cause::TooManyLines => 1,
        Cause::LineTooLong => 2,
        Cause::NoSource => 3,
        Cause::BadUtf8 => 4,
        Cause::BadJson => 5,
        Cause::NotWhole => 6,
        Cause::NotObject => 7,
        Cause::UnknownAction => 8,
        Cause::BadAction => 9,
        Cause::Conflict => 10,
        Cause::UnknownCommand => 11,
        Cause::ScheduleLineInRun => 12,
        Cause::UnknownField => 13,
        Cause::BadField => 14,
        Cause::BadTaskId => 15,
        Cause::UnknownNode => 16,
        Cause::BadReference => 17,
        Cause::NotWaitable => 18,
    }
}

fn earlier(first: Cause, second: Cause) -> Cause
    ensures { result ≡ spec.earlier first second }
{
    if place_of(second) < place_of(first) {
        second
    } else {
        first
    }
}

/// Two fields, or the earlier of their causes.
pub(crate) fn both<A: Drop, B: Drop>(
    first: Result<A, Cause>,
    second: Result<B, Cause>,
) -> Result<(A, B), Cause>
    ensures { result ≡ spec.both first second }
{
    match (first, second) {
        (Ok(a), Ok(b)) => Ok((a, b)),
        (Ok(_), Err(cause)) => Err(cause),
        (Err(cause), Ok(_)) => Err(cause),
        (Err(a), Err(b)) => Err(earlier(a, b)),
    }
}

fn are_among(members: &Map<String, Value>, names: &[&str]) -> bool
    ensures { result ≡ spec.are_among (map (λ n. n.now) names.now) (members_view members.now.entries) }
{
    for (key, _) in members.iter() {
        if !is_one_of(key.as_str(), names) {
            return false;
        }
    }
    true
}

/// The fields of a command, an object. They are refused where one is not among those known.
#[tactic(auto, unfolding(crate::specs::Fields::fields_of))]
pub(crate) fn fields_of<'v>(
    value: &'v Value,
    known: &[&str],
) -> Result<&'v Map<String, Value>, Cause>
    ensures { seen (λ ms. members_view ms.now.entries) result
        ≡ spec.fields_of (map (λ n. n.now) known.now) (view value.now) }
{
    let Some(members) = value.as_object() else {
        return Err(Cause::BadField);
    };
    if !are_among(members, known) {
        return Err(Cause::UnknownField);
    }
    Ok(members)
}

/// What stands at a key, if it is there.
pub(crate) fn field<'v>(members: &'v Map<String, Value>, name: &str) -> Option<&'v Value>
    ensures { option_map (λ v. view v.now) result ≡ get_member name.now (members_view members.now.entries) }
{
    members.get(name)
}

/// A text, which must be there.
pub(crate) fn text_of(value: Option<&Value>) -> Result<&str, Cause>
    ensures { seen (λ t. t.now) result ≡ spec.text_of (option_map (λ v. view v.now) value.entry) }
{
    match value.and_then(Value::as_str) {
        Some(text) => Ok(text),
        None => Err(Cause::BadField),
    }
}

/// A text, or one that stands for it where it is missing.
pub(crate) fn text_or<'v>(default: &'v str, value: Option<&'v Value>) -> Result<&'v str, Cause>
    ensures { seen (λ t. t.now) result ≡ spec.text_or default.now (option_map (λ v. view v.now) value.entry) }
{
    match value {
        None => Ok(default),
        Some(_) => text_of(value),
    }
}

/// A text, if it is there.
pub(crate) fn optional_text(value: Option<&Value>) -> Result<Option<&str>, Cause>
    ensures { seen (λ found. option_map (λ t. t.now) found) result
        ≡ spec.optional_text (option_map (λ v. view v.now) value.entry) }
{
    match value {
        None => Ok(None),
        Some(_) => Ok(Some(text_of(value)?)),
    }
}

/// The name of a node, of so many.
#[tactic(auto, unfolding(crate::specs::Fields::node_in))]
pub(crate) fn node_in(nodes: u32, value: Option<&Value>) -> Result<u32, Cause>
    requires { nodes ≤ 15 }
    ensures { result ≡ spec.node_in nodes (option_map (λ v. view v.now) value.entry) }
{
    match node_of(nodes, text_of(value)?) {
        Some(node) => Ok(node),
        None => Err(Cause::UnknownNode),
    }
}

/// The name of a node, of so many, or the first one.
pub(crate) fn node_or_first(nodes: u32, value: Option<&Value>) -> Result<u32, Cause>
    requires { nodes ≤ 15 }
    ensures { result ≡ spec.node_or_first nodes (option_map (λ v. view v.now) value.entry) }
{
    match value {
        None => Ok(1),
        Some(_) => node_in(nodes, value),
    }
}

/// A task id.
#[tactic(auto, unfolding(crate::specs::Fields::task_in))]
pub(crate) fn task_in(value: Option<&Value>) -> Result<TaskId, Cause>
    ensures { result ≡ spec.task_in (option_map (λ v. view v.now) value.entry) }
{
    match task_id_of(text_of(value)?) {
        Some(task) => Ok(task),
        None => Err(Cause::BadTaskId),
    }
}

/// A task id, if it is there.
pub(crate) fn optional_task(value: Option<&Value>) -> Result<Option<TaskId>, Cause>
    ensures { result ≡ spec.optional_task (option_map (λ v. view v.now) value.entry) }
{
    match value {
        None => Ok(None),
        Some(_) => Ok(Some(task_in(value)?)),
    }
}

/// How a list is grouped, or by nodes.
pub(crate) fn group_or_nodes(value: Option<&Value>) -> Result<GroupBy, Cause>
    ensures { result ≡ spec.group_or_nodes (option_map (λ v. view v.now) value.entry) }
{
    match value {
        None => Ok(GroupBy::Nodes),
        Some(_) => match group_named(text_of(value)?) {
            Some(group) => Ok(group),
            None => Err(Cause::BadField),
        },
    }
}

/// A flag, or false.
pub(crate) fn flag_or_false(value: Option<&Value>) -> Result<bool, Cause>
    ensures { result ≡ spec.flag_or_false (option_map (λ v. view v.now) value.entry) }
{
    match value {
        None => Ok(false),
        Some(value) => match value.as_bool() {
            Some(flag) => Ok(flag),
            None => Err(Cause::BadField),
        },
    }
}

/// An object, if it is there.
pub(crate) fn body_in(value: Option<&Value>) -> Result<Option<&Value>, Cause>
    ensures { seen (λ v. spec.body_or_empty (option_map (λ b. view b.now) v)) result
        ≡ spec.body_in (option_map (λ v. view v.now) value.entry) }
{
    match value {
        Some(body) if !body.is_object() => Err(Cause::BadField),
        _ => Ok(value),
    }
}

/// An object, which must be there.
pub(crate) fn object_in(value: Option<&Value>) -> Result<&Value, Cause>
    ensures { seen (λ v. view v.now) result ≡ spec.object_in (option_map (λ v. view v.now) value.entry) }
{
    match value {
        Some(body) if body.is_object() => Ok(body),
        _ => Err(Cause::BadField),
    }
}

/// A whole number from 0.
pub(crate) fn number_in(value: &Value) -> Result<u64, Cause>
    ensures { result ≡ spec.number_in (view value.now) }
{
    match value.as_u64() {
        Some(number) => Ok(number),
        None => Err(Cause::BadField),
    }
}

/// Into how many slices a reindex is cut, or one.
pub(crate) fn slices_or_one(value: Option<&Value>) -> Result<u32, Cause>
    ensures { result ≡ spec.slices_or_one (option_map (λ v. view v.now) value.entry) }
{
    match value {
        None => Ok(1),
        Some(value) => match number_in(value)? {
            slices if 1 <= slices && slices <= MAX_SLICES => Ok(slices as u32),
            _ => Err(Cause::BadField),
        },
    }
}

/// How many documents a reindex writes in a second at most, and none where -1 is written.
fn rate_of(rate: i64) -> Result<Option<u32>, Cause>
    ensures { result ≡ spec.rate_of rate }
{
    match rate {
        -1 => Ok(None),
        rate if 1 <= rate && rate <= MAX_RATE => Ok(Some(rate as u32)),
        _ => Err(Cause::BadField),
    }
}

/// How many documents a reindex writes in a second at most, or none.
pub(crate) fn rate_or_none(value: Option<&Value>) -> Result<Option<u32>, Cause>
    ensures { result ≡ spec.rate_or_none (option_map (λ v. view v.now) value.entry) }
{
    match value {
        None => Ok(None),
        Some(value) => match value.as_i64() {
            Some(rate) => rate_of(rate),
            None => Err(Cause::BadField),
        },
    }
}

/// A number, which must be there.
pub(crate) fn needed_number(value: Option<&Value>) -> Result<u64, Cause>
    ensures { result ≡ spec.needed_number (option_map (λ v. view v.now) value.entry) }
{
    match value {
        Some(value) => number_in(value),
        None => Err(Cause::BadField),
    }
}

/// How many moves a shuffle makes.
pub(crate) fn moves_in(value: Option<&Value>) -> Result<u32, Cause>
    ensures { result ≡ spec.moves_in (option_map (λ v. view v.now) value.entry) }
{
    match needed_number(value)? {
        moves if moves <= MAX_MOVES => Ok(moves as u32),
        _ => Err(Cause::BadField),
    }
}

/// A keep-alive in milliseconds, if it is there.
pub(crate) fn optional_keep_alive(value: Option<&Value>) -> Result<Option<u64>, Cause>
    ensures { result ≡ spec.optional_keep_alive (option_map (λ v. view v.now) value.entry) }
{
    match value {
        None => Ok(None),
        Some(_) => match keep_alive_of(text_of(value)?) {
            Some(ms) => Ok(Some(ms)),
            None => Err(Cause::BadField),
        },
    }
}

/// A whole number of milliseconds from 0, of 24 hours at most.
pub(crate) fn time_in(value: &Value) -> Result<u64, Cause>
    ensures { result ≡ spec.time_in (view value.now) }
{
    match number_in(value)? {
        ms if ms <= DAY_MS => Ok(ms),
        _ => Err(Cause::BadField),
    }
}

/// The value `true`.
pub(crate) fn truth_in(value: &Value) -> Result<(), Cause>
    ensures { result ≡ spec.truth_in (view value.now) }
{
    match value.as_bool() {
        Some(true) => Ok(()),
        _ => Err(Cause::BadField),
    }
}

//! What is told in place of a reply, as JSON.

ghost use Rattle.std.specs.Prelude.{◌≡◌, [], ◌∷◌, ◌++◌, OnOk, IfOk, Some, map, codes};
ghost use Rattle.serde_json.specs.Data.{string, array, put, no_members};
ghost use Rattle.query_parse.specs.declared.fault.BodyError.TheVariants.{WindowTooLarge};
ghost use Rattle.serde_json.specs.View.{view, items_of, members_view};
ghost use Rattle.task_ids.specs.TaskId.{task_id_text, node_name};
ghost use Rattle.task_events.specs.declared.reply.ShardFailure.TheVariants.{Cancelled, Rejected};
ghost use Rattle.line_print.specs.Errors.{bad_query, body_error, reindex_error, index_not_found, rejected, task_cancelled, shard_failure, failed_shard, all_shards_failed, id_or_null, not_found, context_fault, context_error, plain_error, no_such_message, field_error, fault_name};

use crate::members::{of_type, with_member, with_number, with_text};
use query_parse::{BodyError, QueryFault, ReindexError};
use scroll_table::PageError;
use serde_json::{Map, Value};
use std::alloc::{AllocError, Global};
use task_events::{FailedShard, ShardFailure};
use task_ids::TaskId;

/// A task's id as a JSON string.
pub(crate) fn id_value(alloc: Global, task: TaskId) -> Result<Value, AllocError>
    ensures { IfOk result (λ value. view value ≡ string (task_id_text task)) }
{
    let text = format!(in alloc; "n{}:{}", task.node, task.number)?;
    Ok(Value::String(text))
}

/// A node's name as a JSON string.
fn node_value(alloc: Global, node: u32) -> Result<Value, AllocError>
    ensures { IfOk result (λ value. view value ≡ string (node_name node)) }
{
    let text = format!(in alloc; "n{node}")?;
    Ok(Value::String(text))
}

/// An object's members with a task's id.
fn with_id(
    alloc: Global,
    members: Map<String, Value>,
    task: TaskId,
) -> Result<Map<String, Value>, AllocError>
    ensures { IfOk result (λ more. members_view more.entries ≡ put (codes "task") (string (task_id_text task)) (members_view members.entries)) }
{
    let id = id_value(alloc, task)?;
    with_member(alloc, members, "task", id)
}

/// The members of an object that names a node.
fn with_node(alloc: Global, node: u32) -> Result<Map<String, Value>, AllocError>
    ensures { IfOk result (λ named. members_view named.entries ≡ put (codes "node") (string (node_name node)) no_members) }
{
    let name = node_value(alloc, node)?;
    with_member(alloc, Map::new(alloc), "node", name)
}

/// A task was cancelled, for this reason.
pub(crate) fn task_cancelled(alloc: Global, reason: &str, task: TaskId) -> Result<Value, AllocError>
    ensures { IfOk result (λ value. view value ≡ task_cancelled reason.now task) }
{
    let told = with_text(alloc, Map::new(alloc), "reason", reason)?;
    let named = with_id(alloc, told, task)?;
    of_type(alloc, named, "task_cancelled")
}

/// The index is not known.
pub(crate) fn index_not_found(alloc: Global, index: &str) -> Result<Value, AllocError>
    ensures { IfOk result (λ value. view value ≡ index_not_found index.now) }
{
    let named = with_text(alloc, Map::new(alloc), "index", index)?;
    of_type(alloc, named, "index_not_found")
}

/// A node has no free slot.
pub(crate) fn rejected(alloc: Global, node: u32) -> Result<Value, AllocError>
    ensures { IfOk result (λ value. view value ≡ rejected node) }
{
    let named = with_node(alloc, node)?;
    of_type(alloc, named, "rejected")
}

fn fault_name(fault: QueryFault) -> &'static str
    ensures { result.now ≡ fault_name fault }
{
    match fault {
        QueryFault::UnknownQuery => "unknown_query",
        QueryFault::BadValue => "bad_value",
        QueryFault::NotOneKey => "not_one_key",
    }
}

/// An error about one field.
fn field_error(alloc: Global, kind: &str, field: &str) -> Result<Value, AllocError>
    ensures { IfOk result (λ value. view value ≡ field_error kind.now field.now) }
{
    let named = with_text(alloc, Map::new(alloc), "field", field)?;
    of_type(alloc, named, kind)
}

fn bad_query(alloc: Global, path: &str, fault: QueryFault) -> Result<Value, AllocError>
    ensures { IfOk result (λ value. view value ≡ bad_query path.now fault) }
{
    let told = with_text(alloc, Map::new(alloc), "kind", fault_name(fault))?;
    let placed = with_text(alloc, told, "path", path)?;
    of_type(alloc, placed, "bad_query")
}

fn window_too_large(alloc: Global, window: u64) -> Result<Value, AllocError>
    ensures { IfOk result (λ value. view value ≡ body_error (WindowTooLarge window)) }
{
    let limited = with_number(alloc, Map::new(alloc), "limit", 10_000)?;
    let asked = with_number(alloc, limited, "window", window)?;
    of_type(alloc, asked, "window_too_large")
}

/// The first fault of a search's body. Want of memory is no fault of it.
pub(crate) fn body_error(alloc: Global, error: &BodyError) -> Result<Value, AllocError>
    ensures { IfOk result (λ value. view value ≡ body_error error.now) }
{
    match error {
        BodyError::UnknownField(field) => field_error(alloc, "unknown_field", field.as_str()),
        BodyError::BadQuery { path, kind } => bad_query(alloc, path.as_str(), *kind),
        BodyError::BadSort(field) => field_error(alloc, "bad_sort", field.as_str()),
        BodyError::BadSize(field) => field_error(alloc, "bad_size", field.as_str()),
        BodyError::WindowTooLarge(window) => window_too_large(alloc, *window),
        BodyError::Memory => Ok(Value::Null),
    }
}

/// The first fault of a reindex's body.
pub(crate) fn reindex_error(alloc: Global, fault: &ReindexError) -> Result<Value, AllocError>
    ensures { IfOk result (λ value. view value ≡ reindex_error fault.now) }
{
    match fault {
        ReindexError::UnknownField(path) => field_error(alloc, "unknown_field", path.as_str()),
        ReindexError::BadReindex(path) => field_error(alloc, "bad_reindex", path.as_str()),
        ReindexError::BadQuery { path, kind } => bad_query(alloc, path.as_str(), *kind),
        ReindexError::Memory => Ok(Value::Null),
    }
}

/// A shard's task was cancelled.
fn cancelled_shard(alloc: Global, shard: u32, task: TaskId) -> Result<Value, AllocError>
    ensures { IfOk result (λ value. view value ≡ shard_failure shard (Cancelled task 0)) }
{
    let told = with_number(alloc, Map::new(alloc), "shard", u64::from(shard))?;
    let named = with_id(alloc, told, task)?;
    of_type(alloc, named, "task_cancelled")
}

/// A node had no free slot for a shard's task.
fn rejected_shard(alloc: Global, shard: u32, node: u32) -> Result<Value, AllocError>
    ensures { IfOk result (λ value. view value ≡ shard_failure shard (Rejected node)) }
{
    let named = with_node(alloc, node)?;
    let told = with_number(alloc, named, "shard", u64::from(shard))?;
    of_type(alloc, told, "rejected")
}

/// Why a shard failed.
fn failed_shard(alloc: Global, failed: FailedShard) -> Result<Value, AllocError>
    ensures { IfOk result (λ value. view value ≡ failed_shard failed) }
{
    match failed.failure {
        ShardFailure::Cancelled { task, .. } => cancelled_shard(alloc, failed.shard, task),
        ShardFailure::Rejected { node } => rejected_shard(alloc, failed.shard, node),
    }
}

/// Appends why a shard failed.
fn push_failed(
    alloc: Global,
    values: &mut Vec<Value>,
    failed: FailedShard,
) -> Result<(), AllocError>
    ensures { OnOk result (map view values.new.items ≡ map view values.old.items ++ failed_shard failed ∷ []) }
{
    let failure = failed_shard(alloc, failed)?;
    Ok(values.push(failure)?)
}

/// The failures of shards, in order.
fn failed_shards(alloc: Global, failed: &[FailedShard]) -> Result<Value, AllocError>
    ensures { IfOk result (λ value. view value ≡ array (items_of (map failed_shard failed.now))) }
{
    let mut values = Vec::new(alloc);
    for shard in failed {
        push_failed(alloc, &mut values, *shard)?;
    }
    Ok(Value::Array(values))
}

/// All shards of a search failed.
pub(crate) fn all_shards_failed(alloc: Global, failed: &[FailedShard]) -> Result<Value, AllocError>
    ensures { IfOk result (λ value. view value ≡ all_shards_failed failed.now) }
{
    let shards = failed_shards(alloc, failed)?;
    let told = with_member(alloc, Map::new(alloc), "shards", shards)?;
    of_type(alloc, told, "all_shards_failed")
}

/// A task's id as a JSON string, or null where there is no task.
fn id_or_null(alloc: Global, task: Option<TaskId>) -> Result<Value, AllocError>
    ensures { IfOk result (λ value. view value ≡ id_or_null task) }
{
    match task {
        Some(task) => id_value(alloc, task),
        None => Ok(Value::Null),
    }
}

/// A cancel finds no task, either none of an id or none that a command started.
pub(crate) fn not_found(alloc: Global, task: Option<TaskId>) -> Result<Value, AllocError>
    ensures { IfOk result (λ value. view value ≡ not_found task) }
{
    let id = id_or_null(alloc, task)?;
    let named = with_member(alloc, Map::new(alloc), "task", id)?;
    of_type(alloc, named, "not_found")
}

fn context_fault(error: PageError) -> &'static str
    ensures { result.now ≡ context_fault error }
{
    match error {
        PageError::Missing => "context_missing",
        PageError::Busy => "context_busy",
    }
}

/// The context that a scroll is about gives no page, where the scroll is about one.
pub(crate) fn context_error(
    alloc: Global,
    id: Option<TaskId>,
    error: PageError,
) -> Result<Value, AllocError>
    ensures { IfOk result (λ value. view value ≡ context_error id error) }
{
    let id = id_or_null(alloc, id)?;
    let named = with_member(alloc, Map::new(alloc), "scroll_id", id)?;
    of_type(alloc, named, context_fault(error))
}

/// An error of which there is nothing more to tell.
pub(crate) fn plain_error(alloc: Global, kind: &str) -> Result<Value, AllocError>
    ensures { IfOk result (λ value. view value ≡ plain_error kind.now) }
{
    of_type(alloc, Map::new(alloc), kind)
}

/// No message in flight has the place, of so many that there are.
pub(crate) fn no_such_message(alloc: Global, in_flight: u64) -> Result<Value, AllocError>
    ensures { IfOk result (λ value. view value ≡ no_such_message in_flight) }
{
    let told = with_number(alloc, Map::new(alloc), "in_flight", in_flight)?;
    of_type(alloc, told, "no_such_message")
}

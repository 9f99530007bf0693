//! The command of a line.

ghost use Rattle.std.specs.Prelude.{◌≡◌, ◌<◌, ◌≤◌, ◌^◌, false, length, option_map};
ghost use Rattle.serde_json.specs.Data.{depth};
ghost use Rattle.serde_json.specs.Read.{max_depth};
ghost use Rattle.serde_json.specs.View.{view, members_view};
ghost use Rattle.serde_json.specs.Written.{has_float};
ghost use Rattle.script_lang.specs.Answers.{Reads};
ghost use Rattle.script_lang.specs.Commands as spec;

use crate::cancels::cancel_in;
use crate::command::{Command, Mode};
use crate::fields::{
    both, field, fields_of, moves_in, needed_number, node_in, number_in, task_in, time_in, truth_in,
};
use crate::kind::Kind;
use crate::lists::list_in;
use crate::reindexes::reindex_in;
use crate::results::{forget_in, get_in, results_in};
use crate::scrolls::{clear_in, scroll_in};
use crate::searches::search_in;
use crate::targets::awaited_in;
use serde_json::{Map, Value};
use shard_docs::LineError;
use std::alloc::Global;
use task_ids::Cause;

/// The fields of a step of a listing.
const LIST_STEP_FIELDS: [&str; 2] = ["node", "parent"];

/// The fields of a shuffle.
const SHUFFLE_FIELDS: [&str; 2] = ["seed", "moves"];

/// The fields of a command that waits.
const WAIT_FIELDS: [&str; 1] = ["command"];

/// The key and the value, where there is one key.
fn only_entry(members: &Map<String, Value>) -> Option<(&str, &Value)>
    ensures { option_map (λ m. (m.0.now, view m.1.now)) result ≡ spec.only_entry (members_view members.now.entries) }
{
    if members.len() != 1 {
        return None;
    }
    match members.first_key_value() {
        Some((key, value)) => Some((key.as_str(), value)),
        None => None,
    }
}

/// The key and the value of an object with one key.
fn only_member(value: &Value) -> Option<(&str, &Value)>
    ensures { option_map (λ m. (m.0.now, view m.1.now)) result ≡ spec.only_member (view value.now) }
{
    match value {
        Value::Object(members) => only_entry(members),
        _ => None,
    }
}

/// A step of a listing on a cluster of so many nodes.
#[tactic(auto, unfolding(crate::specs::Commands::list_step_in))]
fn list_step_in(nodes: u32, value: &Value) -> Result<Command, Cause>
    requires { nodes ≤ 15 }
    ensures { result ≡ spec.list_step_in nodes (view value.now) }
{
    let fields = fields_of(value, &LIST_STEP_FIELDS)?;
    let node = node_in(nodes, field(fields, "node"));
    let parent = task_in(field(fields, "parent"));
    let (node, parent) = both(node, parent)?;
    Ok(Command::ListStep { node, parent })
}

/// Moves that look like chance.
#[tactic(auto, unfolding(crate::specs::Commands::shuffle_in))]
fn shuffle_in(value: &Value) -> Result<Command, Cause>
    ensures { result ≡ spec.shuffle_in (view value.now) }
{
    let fields = fields_of(value, &SHUFFLE_FIELDS)?;
    let seed = needed_number(field(fields, "seed"));
    let moves = moves_in(field(fields, "moves"));
    let (seed, moves) = both(seed, moves)?;
    Ok(Command::Shuffle { seed, moves })
}

/// A command that waits for one of some commands.
#[tactic(auto, unfolding(crate::specs::Commands::wait_in))]
fn wait_in(before: &[Command], value: &Value) -> Result<Command, Cause>
    requires { length before.now < 2 ^ 32 }
    ensures { result ≡ spec.wait_in before.now (view value.now) }
{
    let fields = fields_of(value, &WAIT_FIELDS)?;
    let command = awaited_in(before, field(fields, "command"))?;
    Ok(Command::WaitFor { command })
}

/// A command of this kind, from what stands at its key, after other commands.
fn command_of_kind(
    alloc: Global,
    nodes: u32,
    before: &[Command],
    kind: Kind,
    value: &Value,
) -> Result<Command, LineError>
    requires nodes { nodes ≤ 15 }
    requires few { length before.now < 2 ^ 32 }
    requires whole { has_float (view value.now) ≡ false }
    requires nests { depth (view value.now) ≤ max_depth }
    ensures { Reads (λ c. c) result (spec.command_of_kind nodes before.now kind (view value.now)) }
{
    match kind {
        Kind::Search => search_in(alloc, nodes, value),
        Kind::Scroll => scroll_in(alloc, before, value),
        Kind::ClearScroll => Ok(clear_in(before, value)?),
        Kind::Reindex => reindex_in(alloc, nodes, value),
        Kind::Cancel => cancel_in(alloc, before, value),
        Kind::ListTasks => list_in(alloc, value),
        Kind::GetTask => Ok(get_in(before, value)?),
        Kind::ForgetTask => Ok(forget_in(before, value)?),
        Kind::ListResults => Ok(results_in(value)?),
        Kind::Tick => Ok(Command::Tick {
            ms: time_in(value)?,
        }),
        Kind::Deliver => Ok(Command::Deliver {
            nth: number_in(value)?,
        }),
        Kind::Step => Ok(Command::Step {
            task: task_in(Some(value))?,
        }),
        Kind::ListStep => Ok(list_step_in(nodes, value)?),
        Kind::Settle => {
            truth_in(value)?;
            Ok(Command::Settle)
        }
        Kind::Shuffle => Ok(shuffle_in(value)?),
        Kind::WaitFor => Ok(wait_in(before, value)?),
        Kind::History => {
            truth_in(value)?;
            Ok(Command::History)
        }
        Kind::Summary => {
            truth_in(value)?;
            Ok(Command::Summary)
        }
    }
}

/// Whether a reindex says whether its reply is stored, whatever it says.
fn has_store(kind: Kind, value: &Value) -> bool
    ensures { result ≡ spec.has_store kind (view value.now) }
{
    match (kind, value.as_object()) {
        (Kind::Reindex, Some(fields)) => field(fields, "store").is_some(),
        _ => false,
    }
}

/// Whether a command is not for threads, which neither take a schedule nor store results.
fn is_for_sim(kind: Kind, value: &Value) -> bool
    ensures { result ≡ spec.is_for_sim kind (view value.now) }
{
    kind.is_schedule() || has_store(kind, value)
}

/// The command that a JSON value is, after other commands, on a cluster of so many nodes. A command that is refused is refused whatever
/// memory there is.
#[tactic(auto, unfolding(crate::specs::Commands::command_in))]
pub(crate) fn command_in(
    alloc: Global,
    mode: Mode,
    nodes: u32,
    before: &[Command],
    value: &Value,
) -> Result<Command, LineError>
    requires nodes { nodes ≤ 15 }
    requires few { length before.now < 2 ^ 32 }
    requires whole { has_float (view value.now) ≡ false }
    requires nests { depth (view value.now) ≤ max_depth }
    ensures { Reads (λ c. c) result (spec.command_in mode nodes before.now (view value.now)) }
{
    let Some((name, value)) = only_member(value) else {
        return Err(LineError::Refused(Cause::NotObject));
    };
    let kind = Kind::named(name)?;
    if mode == Mode::Run && is_for_sim(kind, value) {
        return Err(LineError::Refused(Cause::ScheduleLineInRun));
    }
    command_of_kind(alloc, nodes, before, kind, value)
}

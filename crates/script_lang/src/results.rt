//! Gets of tasks, and the forgetting and listing of their results.

ghost use Rattle.std.specs.Prelude.{◌≡◌, ◌<◌, ◌^◌, length};
ghost use Rattle.serde_json.specs.View.{view, members_view};
ghost use Rattle.script_lang.specs.Commands as spec;
ghost use Rattle.script_lang.specs.Targets.{one_task_in};

use crate::command::{Command, TaskTarget};
use crate::fields::{both, field, fields_of, flag_or_false, task_in};
use crate::targets::{NamedFor, reference_in};
use serde_json::{Map, Value};
use task_ids::Cause;

/// The fields of a get.
const GET_FIELDS: [&str; 3] = ["task_id", "command", "wait_for_completion"];

/// The fields of a forget.
const FORGET_FIELDS: [&str; 2] = ["task_id", "command"];

/// The fields of a list of results.
const NO_FIELDS: [&str; 0] = [];

/// The task that a command after some names: by its id, or by an earlier command. Only one of these stands there.
#[tactic(auto, unfolding(crate::specs::Targets::one_task_in))]
fn one_task_in(before: &[Command], fields: &Map<String, Value>) -> Result<TaskTarget, Cause>
    requires { length before.now < 2 ^ 32 }
    ensures { result ≡ one_task_in before.now (members_view fields.now.entries) }
{
    let task = field(fields, "task_id");
    match (task, field(fields, "command")) {
        (Some(_), None) => Ok(TaskTarget::Id(task_in(task)?)),
        (None, Some(command)) => {
            let number = reference_in(NamedFor::Task, before, command)?;
            Ok(TaskTarget::Command(number))
        }
        _ => Err(Cause::BadField),
    }
}

/// A get of a task after some commands.
#[tactic(auto, unfolding(crate::specs::Commands::get_in))]
pub(crate) fn get_in(before: &[Command], value: &Value) -> Result<Command, Cause>
    requires { length before.now < 2 ^ 32 }
    ensures { result ≡ spec.get_in before.now (view value.now) }
{
    let fields = fields_of(value, &GET_FIELDS)?;
    let task = one_task_in(before, fields);
    let wait = flag_or_false(field(fields, "wait_for_completion"));
    let (task, wait) = both(task, wait)?;
    Ok(Command::GetTask { task, wait })
}

/// A forget after some commands.
#[tactic(auto, unfolding(crate::specs::Commands::forget_in))]
pub(crate) fn forget_in(before: &[Command], value: &Value) -> Result<Command, Cause>
    requires { length before.now < 2 ^ 32 }
    ensures { result ≡ spec.forget_in before.now (view value.now) }
{
    let fields = fields_of(value, &FORGET_FIELDS)?;
    let task = one_task_in(before, fields)?;
    Ok(Command::ForgetTask { task })
}

/// A list of results.
#[tactic(auto, unfolding(crate::specs::Commands::results_in))]
pub(crate) fn results_in(value: &Value) -> Result<Command, Cause>
    ensures { result ≡ spec.results_in (view value.now) }
{
    fields_of(value, &NO_FIELDS)?;
    Ok(Command::ListResults)
}

//! What a cancel names, and how a command names an earlier one.

ghost use Rattle.std.specs.Prelude.{◌≡◌, ◌<◌, ◌^◌, length, option_map, Ok};
ghost use Rattle.serde_json.specs.View.{view, members_view};
ghost use Rattle.script_lang.specs.Answers.{Reads};
ghost use Rattle.script_lang.specs.Fields.{seen};
ghost use Rattle.script_lang.specs.Seen.{target_seen};
ghost use Rattle.script_lang.specs.Targets as spec;

use crate::command::{CancelTarget, Command};
use crate::fields::{field, task_in};
use crate::filters::{FilterParts, filter_from, filter_parts, has_filter};
use serde_json::{Map, Value};
use shard_docs::LineError;
use std::alloc::Global;
use task_ids::{Cause, TaskId};

/// What a cancel names, as its line says it.
#[derive(Clone, Copy)]
pub(crate) enum NamedTarget<'v> {
    Task(TaskId),
    Command(u32),
    Matching(FilterParts<'v>),
}

/// What an earlier command is named for.
#[derive(Clone, Copy)]
pub(crate) enum NamedFor {
    /// The task that it started.
    Task,
    /// The context that its search opened.
    Context,
    /// Whatever it is.
    Anything,
    /// Its answer, which comes without the clock being moved.
    Answer,
}

impl NamedFor {
    /// Whether a command has what it is named for.
    fn allows(self, command: &Command) -> bool
        ensures { result ≡ spec.allows self command.now }
    {
        match (self, command) {
            (
                NamedFor::Task,
                Command::Search { .. } | Command::Scroll { .. } | Command::Reindex { .. },
            ) => true,
            (NamedFor::Context, Command::Search { scroll, .. }) => scroll.is_some(),
            (NamedFor::Anything, _) => true,
            (
                NamedFor::Answer,
                Command::Search { .. } | Command::Scroll { .. } | Command::Cancel { .. },
            ) => true,
            (NamedFor::Answer, Command::Reindex { rate, .. }) => rate.is_none(),
            _ => false,
        }
    }
}

/// Whether one of the commands has this number, from 1, and has what it is named for.
fn is_at(wanted: NamedFor, commands: &[Command], number: u64) -> bool
    ensures { result ≡ spec.is_at (spec.allows wanted) commands.now number }
{
    let Some(place) = number.checked_sub(1) else {
        return false;
    };
    match commands.get(place as usize) {
        Some(command) => wanted.allows(command),
        None => false,
    }
}

/// The number of an earlier command that has what it is named for.
#[tactic(auto, unfolding(crate::specs::Targets::reference_in))]
pub(crate) fn reference_in(
    wanted: NamedFor,
    before: &[Command],
    value: &Value,
) -> Result<u32, Cause>
    requires { length before.now < 2 ^ 32 }
    ensures { result ≡ spec.reference_in (spec.allows wanted) before.now (view value.now) }
{
    if !value.is_number() {
        return Err(Cause::BadField);
    }
    match value.as_u64() {
        Some(number) if is_at(wanted, before, number) => Ok(number as u32),
        _ => Err(Cause::BadReference),
    }
}

/// What a cancel after some commands names: a task id, an earlier command, or where there is neither a filter. No two of
/// these stand together.
#[tactic(auto, unfolding(crate::specs::Targets::target_in))]
pub(crate) fn target_in<'v>(
    before: &[Command],
    fields: &'v Map<String, Value>,
) -> Result<NamedTarget<'v>, Cause>
    requires { length before.now < 2 ^ 32 }
    ensures { seen target_seen result ≡ spec.target_in before.now (members_view fields.now.entries) }
{
    let task = field(fields, "task_id");
    match (task, field(fields, "command")) {
        (None, None) => Ok(NamedTarget::Matching(filter_parts(fields)?)),
        (Some(_), None) if !has_filter(fields) => Ok(NamedTarget::Task(task_in(task)?)),
        (None, Some(command)) if !has_filter(fields) => {
            Ok(NamedTarget::Command(reference_in(NamedFor::Task, before, command)?))
        }
        _ => Err(Cause::BadField),
    }
}

/// The target of a cancel.
pub(crate) fn target_from(alloc: Global, named: NamedTarget<'_>) -> Result<CancelTarget, LineError>
    ensures { Reads (λ target. target) result (Ok (target_seen named.entry)) }
{
    match named {
        NamedTarget::Task(task) => Ok(CancelTarget::Task(task)),
        NamedTarget::Command(number) => Ok(CancelTarget::Command(number)),
        NamedTarget::Matching(filter) => Ok(CancelTarget::Matching(filter_from(alloc, filter)?)),
    }
}

/// The number of an earlier command that can be waited for, which must be there.
#[tactic(auto, unfolding(crate::specs::Targets::awaited_in))]
pub(crate) fn awaited_in(before: &[Command], value: Option<&Value>) -> Result<u32, Cause>
    requires { length before.now < 2 ^ 32 }
    ensures { result ≡ spec.awaited_in before.now (option_map (λ v. view v.now) value.entry) }
{
    let Some(value) = value else {
        return Err(Cause::BadField);
    };
    let number = reference_in(NamedFor::Anything, before, value)?;
    if is_at(NamedFor::Answer, before, number as u64) {
        Ok(number)
    } else {
        Err(Cause::NotWaitable)
    }
}

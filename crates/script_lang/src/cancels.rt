//! Cancels.

ghost use Rattle.std.specs.Prelude.{◌≡◌, ◌<◌, ◌^◌, length};
ghost use Rattle.serde_json.specs.View.{view};
ghost use Rattle.script_lang.specs.Answers.{Reads};
ghost use Rattle.script_lang.specs.Commands as spec;
ghost use Rattle.script_lang.specs.Fields.{seen};
ghost use Rattle.script_lang.specs.Seen.{cancel_seen};

use crate::command::Command;
use crate::fields::{both, field, fields_of, flag_or_false, text_or};
use crate::targets::{NamedTarget, target_from, target_in};
use crate::texts::text_from;
use serde_json::Value;
use shard_docs::LineError;
use std::alloc::Global;
use task_ids::Cause;

/// Why a task is cancelled where a script does not say.
const DEFAULT_REASON: &str = "by user request";

/// The fields of a cancel.
const CANCEL_FIELDS: [&str; 7] = [
    "task_id",
    "command",
    "reason",
    "wait_for_completion",
    "actions",
    "nodes",
    "parent_task_id",
];

/// A cancel, as its line says it.
#[derive(Clone, Copy)]
struct CancelParts<'v> {
    target: NamedTarget<'v>,
    reason: &'v str,
    wait: bool,
}

/// What a cancel after some commands says.
#[tactic(auto, unfolding(crate::specs::Commands::cancel_in))]
fn cancel_parts<'v>(before: &[Command], value: &'v Value) -> Result<CancelParts<'v>, Cause>
    requires { length before.now < 2 ^ 32 }
    ensures { seen cancel_seen result ≡ spec.cancel_in before.now (view value.now) }
{
    let fields = fields_of(value, &CANCEL_FIELDS)?;
    let target = target_in(before, fields);
    let reason = text_or(DEFAULT_REASON, field(fields, "reason"));
    let wait = flag_or_false(field(fields, "wait_for_completion"));
    let (target, (reason, wait)) = both(target, both(reason, wait))?;
    Ok(CancelParts {
        target,
        reason,
        wait,
    })
}

/// A cancel after some commands.
pub(crate) fn cancel_in(
    alloc: Global,
    before: &[Command],
    value: &Value,
) -> Result<Command, LineError>
    requires { length before.now < 2 ^ 32 }
    ensures { Reads (λ c. c) result (spec.cancel_in before.now (view value.now)) }
{
    let parts = cancel_parts(before, value)?;
    Ok(Command::Cancel {
        target: target_from(alloc, parts.target)?,
        reason: text_from(alloc, parts.reason)?,
        wait: parts.wait,
    })
}

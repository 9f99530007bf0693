//! The pages of a search with `scroll`, and the freeing of its context.

ghost use Rattle.std.specs.Prelude.{◌≡◌, ◌<◌, ◌^◌, length};
ghost use Rattle.serde_json.specs.View.{view, members_view};
ghost use Rattle.script_lang.specs.Answers.{Reads};
ghost use Rattle.script_lang.specs.Commands as spec;
ghost use Rattle.script_lang.specs.Fields.{seen};
ghost use Rattle.script_lang.specs.Seen.{scroll_seen};
ghost use Rattle.script_lang.specs.Targets.{context_in};

use crate::command::{Command, ContextTarget};
use crate::fields::{both, field, fields_of, optional_keep_alive, optional_text, task_in};
use crate::targets::{NamedFor, reference_in};
use crate::texts::shared_from;
use serde_json::{Map, Value};
use shard_docs::LineError;
use std::alloc::Global;
use task_ids::Cause;

/// The fields of a scroll.
const SCROLL_FIELDS: [&str; 4] = ["scroll_id", "command", "scroll", "opaque_id"];

/// The fields of a clear.
const CLEAR_FIELDS: [&str; 2] = ["scroll_id", "command"];

/// A scroll, as its line says it.
#[derive(Clone, Copy)]
struct ScrollParts<'v> {
    context: ContextTarget,
    keep: Option<u64>,
    opaque_id: Option<&'v str>,
}

/// The context that a command after some names: by the id of a search, or by an earlier command. Only one of these stands there.
#[tactic(auto, unfolding(crate::specs::Targets::context_in))]
fn context_in(before: &[Command], fields: &Map<String, Value>) -> Result<ContextTarget, Cause>
    requires { length before.now < 2 ^ 32 }
    ensures { result ≡ context_in before.now (members_view fields.now.entries) }
{
    let id = field(fields, "scroll_id");
    match (id, field(fields, "command")) {
        (Some(_), None) => Ok(ContextTarget::Id(task_in(id)?)),
        (None, Some(command)) => {
            let number = reference_in(NamedFor::Context, before, command)?;
            Ok(ContextTarget::Command(number))
        }
        _ => Err(Cause::BadField),
    }
}

/// What a scroll after some commands says.
#[tactic(auto, unfolding(crate::specs::Commands::scroll_in))]
fn scroll_parts<'v>(before: &[Command], value: &'v Value) -> Result<ScrollParts<'v>, Cause>
    requires { length before.now < 2 ^ 32 }
    ensures { seen scroll_seen result ≡ spec.scroll_in before.now (view value.now) }
{
    let fields = fields_of(value, &SCROLL_FIELDS)?;
    let context = context_in(before, fields);
    let keep = optional_keep_alive(field(fields, "scroll"));
    let opaque_id = optional_text(field(fields, "opaque_id"));
    let (context, (keep, opaque_id)) = both(context, both(keep, opaque_id))?;
    Ok(ScrollParts {
        context,
        keep,
        opaque_id,
    })
}

/// A scroll after some commands.
pub(crate) fn scroll_in(
    alloc: Global,
    before: &[Command],
    value: &Value,
) -> Result<Command, LineError>
    requires { length before.now < 2 ^ 32 }
    ensures { Reads (λ c. c) result (spec.scroll_in before.now (view value.now)) }
{
    let parts = scroll_parts(before, value)?;
    Ok(Command::Scroll {
        context: parts.context,
        keep: parts.keep,
        opaque_id: shared_from(alloc, parts.opaque_id)?,
    })
}

/// A clear after some commands.
#[tactic(auto, unfolding(crate::specs::Commands::clear_in))]
pub(crate) fn clear_in(before: &[Command], value: &Value) -> Result<Command, Cause>
    requires { length before.now < 2 ^ 32 }
    ensures { result ≡ spec.clear_in before.now (view value.now) }
{
    let fields = fields_of(value, &CLEAR_FIELDS)?;
    let context = context_in(before, fields)?;
    Ok(Command::ClearScroll { context })
}

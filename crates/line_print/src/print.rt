ghost use Rattle.std.specs.Prelude.{◌≡◌, ◌++◌, false, OnOk, map, decimal};
ghost use Rattle.json.specs.Print.{quoted};
ghost use Rattle.serde_json.specs.Data.{string};
ghost use Rattle.serde_json.specs.View.{view, items_of};
ghost use Rattle.serde_json.specs.Written.{has_float, comma_if, compact_text, items_text};
ghost use Rattle.task_events.specs.Printed.{hit_json, hits_json, shards_json, search_json, total_json};
ghost use Rattle.task_ids.specs.TaskId.{task_id_text};
ghost use Rattle.line_print.specs.Replies.{opening};

use crate::errors::id_value;
use serde_json::Value;
use std::alloc::{AllocError, Global};
use task_events::{Hit, SearchReply};
use task_ids::TaskId;

/// Appends a text as it stands.
pub(crate) fn push(out: &mut Vec<u8>, text: &str) -> Result<(), AllocError>
    ensures { OnOk result (out.new.items ≡ out.old.items ++ text.now) }
{
    out.extend_from_slice(text.as_bytes())
}

/// Appends a number in decimal digits.
pub(crate) fn push_number(alloc: Global, out: &mut Vec<u8>, number: u64) -> Result<(), AllocError>
    ensures { OnOk result (out.new.items ≡ out.old.items ++ decimal number) }
{
    let digits = number.to_string(alloc)?;
    out.extend_from_slice(digits.as_bytes())
}

/// Appends a value as compact JSON.
pub(crate) fn push_json(alloc: Global, out: &mut Vec<u8>, value: &Value) -> Result<(), AllocError>
    requires { has_float (view value.now) ≡ false }
    ensures { OnOk result (out.new.items ≡ out.old.items ++ compact_text (view value.now)) }
{
    let json = value.to_string(alloc)?;
    out.extend_from_slice(json.as_bytes())
}

/// Appends a text as a JSON string.
pub(crate) fn push_quoted(alloc: Global, out: &mut Vec<u8>, text: &str) -> Result<(), AllocError>
    ensures { OnOk result (out.new.items ≡ out.old.items ++ quoted text.now) }
{
    let value = Value::try_from_str(alloc, text)?;
    let pushed = push_json(alloc, out, &value);
    drop(value);
    pushed
}

/// Appends a comma, if something stands before.
pub(crate) fn push_comma(out: &mut Vec<u8>, later: bool) -> Result<(), AllocError>
    ensures { OnOk result (out.new.items ≡ out.old.items ++ comma_if later) }
{
    if later { push(out, ",") } else { Ok(()) }
}

/// Appends a name as it stands, and a number.
fn push_count(alloc: Global, out: &mut Vec<u8>, name: &str, number: u64) -> Result<(), AllocError>
    ensures { OnOk result (out.new.items ≡ (out.old.items ++ name.now) ++ decimal number) }
{
    push(out, name)?;
    push_number(alloc, out, number)
}

fn push_hit(alloc: Global, out: &mut Vec<u8>, hit: &Hit) -> Result<(), AllocError>
    ensures { OnOk result (out.new.items ≡ out.old.items ++ compact_text (hit_json hit.now)) }
{
    push(out, "{\"_id\":")?;
    push_quoted(alloc, out, hit.doc.id.get().as_str())?;
    push(out, ",\"_index\":")?;
    push_quoted(alloc, out, hit.index.get().as_str())?;
    push(out, ",\"_source\":")?;
    hit.doc.source.print(alloc, out)?;
    push(out, "}")
}

/// Appends hits with commas between them and the closing bracket of a JSON list.
fn push_hits(alloc: Global, out: &mut Vec<u8>, hits: &[Hit]) -> Result<(), AllocError>
    ensures { OnOk result (out.new.items ≡ out.old.items ++ items_text false (items_of (map hit_json hits.now))) }
{
    let mut later = false;
    for hit in hits {
        push_comma(out, later)?;
        push_hit(alloc, out, hit)?;
        later = true;
    }
    push(out, "]")
}

/// Appends how many of so many shards failed and how many did not.
fn push_shards(alloc: Global, out: &mut Vec<u8>, shards: u64, failed: u64) -> Result<(), AllocError>
    ensures { OnOk result (out.new.items ≡ out.old.items ++ compact_text (shards_json shards failed)) }
{
    push_count(alloc, out, "{\"failed\":", failed)?;
    push_count(
        alloc,
        out,
        ",\"successful\":",
        shards.saturating_sub(failed),
    )?;
    push_count(alloc, out, ",\"total\":", shards)?;
    push(out, "}")
}

/// Appends how many documents match.
fn push_total(alloc: Global, out: &mut Vec<u8>, total: u64) -> Result<(), AllocError>
    ensures { OnOk result (out.new.items ≡ out.old.items ++ compact_text (total_json total)) }
{
    push_count(alloc, out, "{\"relation\":\"eq\",\"value\":", total)?;
    push(out, "}")
}

/// Appends the hits and how many documents match.
fn push_found(alloc: Global, out: &mut Vec<u8>, reply: &SearchReply) -> Result<(), AllocError>
    ensures { OnOk result (out.new.items ≡ out.old.items ++ compact_text (hits_json reply.now)) }
{
    push(out, "{\"hits\":[")?;
    push_hits(alloc, out, reply.hits.as_slice())?;
    push(out, ",\"total\":")?;
    push_total(alloc, out, reply.total)?;
    push(out, "}")
}

/// Appends what stands before the shards of a search's reply.
fn push_opening(alloc: Global, out: &mut Vec<u8>, context: Option<TaskId>) -> Result<(), AllocError>
    ensures { OnOk result (out.new.items ≡ out.old.items ++ opening context) }
{
    let Some(context) = context else {
        return push(out, "{\"_shards\":");
    };
    push(out, "{\"_scroll_id\":")?;
    push_id(alloc, out, context)?;
    push(out, ",\"_shards\":")
}

/// Appends a task's id as a JSON string.
fn push_id(alloc: Global, out: &mut Vec<u8>, task: TaskId) -> Result<(), AllocError>
    ensures { OnOk result (out.new.items ≡ out.old.items ++ compact_text (string (task_id_text task))) }
{
    let id = id_value(alloc, task)?;
    let pushed = push_json(alloc, out, &id);
    drop(id);
    pushed
}

/// Appends a search's reply, which tells so many shards.
pub(crate) fn push_reply(
    alloc: Global,
    out: &mut Vec<u8>,
    shards: u64,
    reply: &SearchReply,
) -> Result<(), AllocError>
    ensures { OnOk result (out.new.items ≡ out.old.items ++ compact_text (search_json shards reply.now)) }
{
    let failed = reply.failed.as_slice().len() as u64;
    push_opening(alloc, out, reply.context)?;
    push_shards(alloc, out, shards, failed)?;
    push(out, ",\"hits\":")?;
    push_found(alloc, out, reply)?;
    push(out, "}")
}

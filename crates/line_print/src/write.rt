//! The parts of lines.

ghost use Rattle.std.specs.Prelude.{◌≡◌, ◌++◌, ◌==◌, ◌<◌, ◌≤◌, ◌^◌, false, not, OnOk, length, count_by, codes, decimal};
ghost use Rattle.std.specs.List.{list_any};
ghost use Rattle.serde_json.specs.View.{view};
ghost use Rattle.serde_json.specs.Written.{has_float, compact_text};
ghost use Rattle.task_events.specs.Printed.{search_json, shards_read, reply_line};
ghost use Rattle.line_print.specs.Lines.{error_line};
ghost use Rattle.line_print.specs.Replies.{shards_told};

use crate::print::{push, push_json, push_number, push_reply};
use serde_json::Value;
use std::alloc::{AllocError, Global};
use task_events::{FailedShard, SearchReply, ShardCount};

/// Which shards a search's reply tells.
#[derive(Clone, Copy, PartialEq, Eq)]
pub(crate) enum Shards {
    /// Those of its index, of which there are so many.
    OfIndex(u32),
    /// Those that were read.
    Read,
}

/// Appends the number of a line's command, and a key as it stands.
pub(crate) fn push_start(
    alloc: Global,
    out: &mut Vec<u8>,
    command: u32,
    key: &str,
) -> Result<(), AllocError>
    ensures { OnOk result (out.new.items ≡ ((out.old.items ++ codes "{\"command\":") ++ decimal command) ++ key.now) }
{
    push(out, "{\"command\":")?;
    push_number(alloc, out, u64::from(command))?;
    push(out, key)
}

/// Appends the line of a command with a value at a key.
fn push_line(
    alloc: Global,
    out: &mut Vec<u8>,
    command: u32,
    key: &str,
    value: &Value,
) -> Result<(), AllocError>
    requires { has_float (view value.now) ≡ false }
    ensures { OnOk result (out.new.items
        ≡ ((((out.old.items ++ codes "{\"command\":") ++ decimal command) ++ key.now) ++ compact_text (view value.now)) ++ codes "}\n") }
{
    push_start(alloc, out, command, key)?;
    push_json(alloc, out, value)?;
    push(out, "}\n")
}

/// Appends the line of a command that has no reply.
pub(crate) fn error_line(
    alloc: Global,
    out: &mut Vec<u8>,
    command: u32,
    error: Value,
) -> Result<(), AllocError>
    requires { has_float (view error) ≡ false }
    ensures { OnOk result (out.new.items ≡ out.old.items ++ error_line command (view error)) }
{
    let pushed = push_line(alloc, out, command, ",\"error\":", &error);
    drop(error);
    pushed
}

/// Appends the line of a command whose reply is a small value.
pub(crate) fn reply_line(
    alloc: Global,
    out: &mut Vec<u8>,
    command: u32,
    reply: Value,
) -> Result<(), AllocError>
    requires { has_float (view reply) ≡ false }
    ensures { OnOk result (out.new.items ≡ out.old.items ++ reply_line command (view reply)) }
{
    let pushed = push_line(alloc, out, command, ",\"reply\":", &reply);
    drop(reply);
    pushed
}

/// Appends the line of a search that found something.
pub(crate) fn hits_line(
    alloc: Global,
    out: &mut Vec<u8>,
    shards: Shards,
    command: u32,
    reply: &SearchReply,
) -> Result<(), AllocError>
    ensures { OnOk result (out.new.items ≡ out.old.items ++ reply_line command (search_json (shards_told shards reply.now) reply.now)) }
{
    push_start(alloc, out, command, ",\"reply\":")?;
    push_reply(alloc, out, shards_told(shards, reply), reply)?;
    push(out, "}\n")
}

/// How many shards a reply tells.
fn shards_told(shards: Shards, reply: &SearchReply) -> u64
    ensures { result ≡ shards_told shards reply.now }
{
    match shards {
        Shards::OfIndex(shards) => u64::from(shards),
        Shards::Read => shards_read(reply),
    }
}

/// How many shards were read: those that answered the query, and those that failed in it.
fn shards_read(reply: &SearchReply) -> u64
    ensures { result ≡ shards_read reply.now }
{
    let answered = reply.shards.as_slice();
    answered.len() as u64 + lost(answered, reply.failed.as_slice())
}

/// How many shards failed in the query, and not after it.
fn lost(answered: &[ShardCount], failed: &[FailedShard]) -> u64
    requires { length failed.now < 2 ^ 63 }
    ensures count { result ≡ count_by (λ f. not (list_any (λ n. n.shard == f.shard) answered.now)) failed.now }
    ensures few { result ≤ length failed.now }
{
    failed
        .iter()
        .filter(|shard| !has_answered(answered, shard.shard))
        .count() as u64
}

fn has_answered(answered: &[ShardCount], shard: u32) -> bool
    ensures { result ≡ list_any (λ n. n.shard == shard) answered.now }
{
    answered.iter().any(|count| count.shard == shard)
}

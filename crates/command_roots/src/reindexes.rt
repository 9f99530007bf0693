//! What reindexes are asked to do, and which indices they write to.

ghost use Rattle.std.specs.Prelude.{◌≡◌, ◌≤◌, [], ◌∷◌, ◌++◌, Some, IfOk, IfSome, OnOk, filter_map};
ghost use Rattle.std.specs.Option.{ForSome};
ghost use Rattle.std.specs.Result.{result_ok};
ghost use Rattle.query_parse.specs.Reindexes.{reindex_at};
ghost use Rattle.command_roots.specs.Known.{dest_of, dests_of};
ghost use Rattle.command_roots.specs.Reindexes.{reindex_ask};

use query_parse::{ReindexBody, ReindexError, read_reindex};
use script_lang::Command;
use shared_value::Shared;
use std::alloc::{AllocError, Global};
use task_events::ReindexAsk;
use task_ids::{Body, Text};

/// The body of a reindex, unless it has a fault. It fails only for want of memory.
pub fn reindex_body(alloc: Global, body: &Body) -> Result<Option<ReindexBody>, AllocError>
    ensures value { IfOk result (λ found. found ≡ result_ok (reindex_at body.now)) }
    ensures batch { IfOk result (λ found. IfSome found (λ read. (1 ≤ read.batch) × (read.batch ≤ 10000))) }
{
    match read_reindex(alloc, body.as_json()) {
        Ok(read) => Ok(Some(read)),
        Err(ReindexError::Memory) => Err(AllocError),
        Err(fault) => {
            drop(fault);
            Ok(None)
        }
    }
}

/// The copy that a body asks for, in so many slices and at this rate, if it has one. It fails only for want of memory.
pub fn reindex_ask(
    alloc: Global,
    body: ReindexBody,
    slices: u32,
    rate: Option<u32>,
) -> Result<ReindexAsk, AllocError>
    requires batch { (1 ≤ body.batch) × (body.batch ≤ 10000) }
    requires slices { (1 ≤ slices) × (slices ≤ 32) }
    requires rate { ForSome rate (λ r. (1 ≤ r) × (r ≤ 1000000)) }
    ensures { IfOk result (λ ask. reindex_ask body slices rate ≡ Some ask) }
{
    let ReindexBody {
        source,
        query,
        batch,
        dest,
    } = body;
    let source = Text::new(source.into_string());
    let dest = Text::new(dest.into_string());
    let (Ok(source), Ok(dest)) = (Shared::new(alloc, source), Shared::new(alloc, dest)) else {
        return Err(AllocError);
    };
    Ok(ReindexAsk {
        source,
        query,
        batch,
        dest,
        slices,
        rate,
    })
}

/// The index to which a command writes, where it is a reindex whose body has no fault.
fn dest_of(alloc: Global, command: &Command) -> Result<Option<Text>, AllocError>
    ensures { IfOk result (λ dest. dest ≡ dest_of command.now) }
{
    let Command::Reindex { body, .. } = command else {
        return Ok(None);
    };
    match reindex_body(alloc, body)? {
        Some(read) => Ok(Some(Text::new(read.dest.into_string()))),
        None => Ok(None),
    }
}

/// Adds the index to which a command writes.
fn push_dest(alloc: Global, dests: &mut Vec<Text>, command: &Command) -> Result<(), AllocError>
    ensures { OnOk result (dests.new.items ≡ dests.old.items ++ filter_map dest_of (command.now ∷ [])) }
{
    match dest_of(alloc, command)? {
        Some(dest) => Ok(dests.push(dest)?),
        None => Ok(()),
    }
}

/// The indices to which the reindexes among some commands write, in the order of the commands, but for reindexes whose
/// body has a fault. It reads each body once, and fails only for want of memory.
pub fn dests_of(alloc: Global, commands: &[Command]) -> Result<Vec<Text>, AllocError>
    ensures { IfOk result (λ dests. dests.items ≡ dests_of commands.now) }
{
    let mut dests = Vec::new(alloc);
    for command in commands {
        push_dest(alloc, &mut dests, command)?;
    }
    Ok(dests)
}

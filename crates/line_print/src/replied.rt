//! The lines of the commands of a run over threads, by what each came to.

ghost use Rattle.std.specs.Prelude.{◌≡◌, ◌++◌, ◌<◌, ◌^◌, OnOk, codes};
ghost use Rattle.serde_json.specs.Data.{string};
ghost use Rattle.scroll_table.specs.declared.context.PageError.TheVariants.{Missing};
ghost use Rattle.task_events.specs.Printed.{reply_line};
ghost use Rattle.line_print.specs.Errors.{body_error, reindex_error, index_not_found, rejected, context_error};
ghost use Rattle.line_print.specs.Lines as lines;
ghost use Rattle.line_print.specs.Lines.{cleared, moment_json};
ghost use Rattle.line_print.specs.RunLines.{line_of_reply, root_line, ended_as, shown_line, IsPrintable};

use crate::cancel_lines::{cancelled_line, none_line};
use crate::list_lines::text_line;
use crate::reply::LineReply;
use crate::scroll_lines::{cleared, moment_json};
use crate::write::{Shards, error_line, reply_line};
use crate::{errors, reindex_lines, searches};
use query_parse::{BodyError, ReindexError};
use script_lang::Command;
use scroll_table::PageError;
use serde_json::Value;
use std::alloc::{AllocError, Global};
use task_events::Reply;
use task_ids::{Cluster, TaskId, TaskInfo};
use tasks_api::list_line;

/// Appends the line of a command whose root ended with a reply, and was not rejected.
fn ended_line(
    alloc: Global,
    out: &mut Vec<u8>,
    cluster: &Cluster,
    script: &[Command],
    number: u32,
    command: &Command,
    reply: &Reply,
) -> Result<(), AllocError>
    ensures { OnOk result (out.new.items ≡ out.old.items ++ ended_as cluster.now script.now number command.now reply.now) }
{
    match command {
        Command::Search { .. } => {
            let shards = Shards::OfIndex(cluster.shards);
            searches::replied_line(alloc, out, shards, script, number, reply)
        }
        Command::Scroll { .. } => {
            searches::replied_line(alloc, out, Shards::Read, script, number, reply)
        }
        Command::Reindex { .. } => {
            reindex_lines::replied_line(alloc, out, script, number, reply)
        }
        _ => Ok(()),
    }
}

/// Appends the line of a command whose root was rejected.
fn rejected_line(alloc: Global, out: &mut Vec<u8>, number: u32, node: u32) -> Result<(), AllocError>
    ensures { OnOk result (out.new.items ≡ out.old.items ++ lines.error_line number (rejected node)) }
{
    let error = errors::rejected(alloc, node)?;
    error_line(alloc, out, number, error)
}

/// Appends the line of a command whose root ended with a reply, or was rejected.
fn root_line(
    alloc: Global,
    out: &mut Vec<u8>,
    cluster: &Cluster,
    script: &[Command],
    number: u32,
    command: &Command,
    reply: &Reply,
) -> Result<(), AllocError>
    ensures { OnOk result (out.new.items ≡ out.old.items ++ root_line cluster.now script.now number command.now reply.now) }
{
    match reply {
        Reply::Rejected { node } => rejected_line(alloc, out, number, *node),
        _ => ended_line(alloc, out, cluster, script, number, command, reply),
    }
}

/// Appends the line of a search whose body has a fault.
fn bad_body_line(
    alloc: Global,
    out: &mut Vec<u8>,
    number: u32,
    fault: &BodyError,
) -> Result<(), AllocError>
    ensures { OnOk result (out.new.items ≡ out.old.items ++ lines.error_line number (body_error fault.now)) }
{
    let error = errors::body_error(alloc, fault)?;
    error_line(alloc, out, number, error)
}

/// Appends the line of a reindex whose body has a fault.
fn bad_reindex_line(
    alloc: Global,
    out: &mut Vec<u8>,
    number: u32,
    fault: &ReindexError,
) -> Result<(), AllocError>
    ensures { OnOk result (out.new.items ≡ out.old.items ++ lines.error_line number (reindex_error fault.now)) }
{
    let error = errors::reindex_error(alloc, fault)?;
    error_line(alloc, out, number, error)
}

/// Appends the line of a command whose index is not known.
fn no_index_line(
    alloc: Global,
    out: &mut Vec<u8>,
    number: u32,
    index: &str,
) -> Result<(), AllocError>
    ensures { OnOk result (out.new.items ≡ out.old.items ++ lines.error_line number (index_not_found index.now)) }
{
    let error = errors::index_not_found(alloc, index)?;
    error_line(alloc, out, number, error)
}

/// Appends the line of a scroll whose context is not there.
fn no_context_line(
    alloc: Global,
    out: &mut Vec<u8>,
    number: u32,
    context: Option<TaskId>,
) -> Result<(), AllocError>
    ensures { OnOk result (out.new.items ≡ out.old.items ++ lines.error_line number (context_error context Missing)) }
{
    let error = errors::context_error(alloc, context, PageError::Missing)?;
    error_line(alloc, out, number, error)
}

/// Appends the line of a clear.
fn cleared_line(
    alloc: Global,
    out: &mut Vec<u8>,
    number: u32,
    freed: bool,
) -> Result<(), AllocError>
    ensures { OnOk result (out.new.items ≡ out.old.items ++ reply_line number (cleared freed)) }
{
    let reply = cleared(alloc, freed)?;
    reply_line(alloc, out, number, reply)
}

/// Appends the line of a tick, with the moment after it.
fn moment_line(alloc: Global, out: &mut Vec<u8>, number: u32, now: u64) -> Result<(), AllocError>
    ensures { OnOk result (out.new.items ≡ out.old.items ++ reply_line number (moment_json now)) }
{
    let reply = moment_json(alloc, now)?;
    reply_line(alloc, out, number, reply)
}

/// Appends the line of a list, with the live tasks at a moment.
fn shown_line(
    alloc: Global,
    out: &mut Vec<u8>,
    number: u32,
    command: &Command,
    rows: &[TaskInfo],
    now: u64,
) -> Result<(), AllocError>
    requires { now < 2 ^ 43 }
    ensures { OnOk result (out.new.items ≡ out.old.items ++ shown_line number command.now rows.now now) }
{
    match command {
        Command::ListTasks {
            filter,
            group,
            detailed,
        } => {
            let text = list_line(alloc, rows, filter, *group, *detailed, now)?;
            text_line(alloc, out, number, text.as_slice())
        }
        _ => Ok(()),
    }
}

/// Appends the line of a command that waited for the answer of another.
fn answered_line(alloc: Global, out: &mut Vec<u8>, number: u32) -> Result<(), AllocError>
    ensures { OnOk result (out.new.items ≡ out.old.items ++ reply_line number (string (codes "answered"))) }
{
    let reply = Value::try_from_str(alloc, "answered")?;
    reply_line(alloc, out, number, reply)
}

/// Appends the line of a command of a run over threads, which has this number and came to this reply. `script` has all commands, so that
/// the reason of a cancellation is found. A reply that no command of its kind has gets no line.
pub fn print_reply(
    alloc: Global,
    out: &mut Vec<u8>,
    cluster: &Cluster,
    script: &[Command],
    number: u32,
    command: &Command,
    reply: &LineReply,
) -> Result<(), AllocError>
    requires moment { IsPrintable reply.now }
    ensures { OnOk result (out.new.items ≡ out.old.items ++ line_of_reply cluster.now script.now number command.now reply.now) }
{
    match reply {
        LineReply::Task(reply) => root_line(alloc, out, cluster, script, number, command, reply),
        LineReply::BadBody(fault) => bad_body_line(alloc, out, number, fault),
        LineReply::BadReindex(fault) => bad_reindex_line(alloc, out, number, fault),
        LineReply::NoIndex(index) => no_index_line(alloc, out, number, index.as_str()),
        LineReply::NoContext(context) => no_context_line(alloc, out, number, *context),
        LineReply::NotFound(target) => none_line(alloc, out, number, *target),
        LineReply::Cancelled { tasks, waited } => {
            cancelled_line(alloc, out, number, tasks.as_slice(), *waited)
        }
        LineReply::Cleared(freed) => cleared_line(alloc, out, number, *freed),
        LineReply::Now(now) => moment_line(alloc, out, number, *now),
        LineReply::Listed { rows, now } => {
            shown_line(alloc, out, number, command, rows.as_slice(), *now)
        }
        LineReply::Answered => answered_line(alloc, out, number),
    }
}

//! The texts of events, as a script's output tells them.
#![tactic(auto)]

ghost use Rattle.std.specs.Prelude.{◌≡◌, ◌++◌, [], ◌∷◌, OnOk, OnErr, Some, codes, decimal, string_bytes};
ghost use Rattle.std.specs.List.{join_with_byte};
ghost use Rattle.task_ids.specs.TaskId.{task_id_text, node_name};
ghost use Rattle.task_events.specs.declared.event.Event.TheVariants.{Acked, Cancel, End, Put, Refuse, RootRejected, Write};
ghost use Rattle.task_events.specs.Texts.{event_text};

use std::alloc::AllocError;
use std::fmt;
use task_events::{Event, Outcome, Reply};
use task_ids::{TaskId, Text};

/// A task id as it is written.
#[derive(Clone, Copy)]
struct Id(TaskId);

impl fmt::Display for Id {
    ghost output = { λ id. Some (task_id_text id.0) };

    fn fmt<W: fmt::Write>(&self, f: &mut fmt::Formatter<W>) -> fmt::Result {
        write!(f, "n{}:{}", self.0.node, self.0.number)
    }
}

/// Appends how a task ended.
fn write_end(task: Id, reply: &Reply, out: &mut String) -> Result<(), AllocError>
    ensures { OnOk result (string_bytes out.new ≡ string_bytes out.old ++ event_text (codes "") (End task.0 reply.now)) }
{
    match reply {
        Reply::Cancelled { cancel, .. } => write!(out, "end {task} cancelled {cancel}"),
        Reply::AllFailed(_) | Reply::Rejected { .. } => write!(out, "end {task} failed"),
        Reply::Search(_) | Reply::Top(_) | Reply::Hits(_) | Reply::Wrote(_) => {
            write!(out, "end {task} done")
        }
    }
}

/// Appends a name and a number.
fn write_number(name: &str, number: u64, out: &mut String) -> Result<(), AllocError>
    ensures { OnOk result (string_bytes out.new ≡ string_bytes out.old ++ join_with_byte 32 (name.now ∷ decimal number ∷ [])) }
{
    write!(out, "{name} {number}")
}

/// Appends a name and a task.
fn write_task(name: &str, task: TaskId, out: &mut String) -> Result<(), AllocError>
    ensures { OnOk result (string_bytes out.new ≡ string_bytes out.old ++ join_with_byte 32 (name.now ∷ task_id_text task ∷ [])) }
{
    write!(out, "{name} {}", Id(task))
}

/// Appends a name, a task and a number.
fn write_task_number(
    name: &str,
    task: TaskId,
    number: u32,
    out: &mut String,
) -> Result<(), AllocError>
    ensures { OnOk result (string_bytes out.new ≡ string_bytes out.old ++ join_with_byte 32 (name.now ∷ task_id_text task ∷ decimal number ∷ [])) }
{
    write!(out, "{name} {} {number}", Id(task))
}

/// Appends a name, a number and a task.
fn write_number_task(
    name: &str,
    number: u32,
    task: TaskId,
    out: &mut String,
) -> Result<(), AllocError>
    ensures { OnOk result (string_bytes out.new ≡ string_bytes out.old ++ join_with_byte 32 (name.now ∷ decimal number ∷ task_id_text task ∷ [])) }
{
    write!(out, "{name} {number} {}", Id(task))
}

/// Appends a name, a node and a task.
fn write_node_task(name: &str, node: u32, task: TaskId, out: &mut String) -> Result<(), AllocError>
    ensures { OnOk result (string_bytes out.new ≡ string_bytes out.old ++ join_with_byte 32 (name.now ∷ node_name node ∷ task_id_text task ∷ [])) }
{
    write!(out, "{name} n{node} {}", Id(task))
}

/// Appends a name, a node, a task and a number.
fn write_node_task_number(
    name: &str,
    node: u32,
    task: TaskId,
    number: u32,
    out: &mut String,
) -> Result<(), AllocError>
    ensures { OnOk result (string_bytes out.new ≡ string_bytes out.old ++ join_with_byte 32 (name.now ∷ node_name node ∷ task_id_text task ∷ decimal number ∷ [])) }
{
    write!(out, "{name} n{node} {} {number}", Id(task))
}

/// Appends that a command found no free slot on a node.
fn write_root_rejected(command: u32, node: u32, out: &mut String) -> Result<(), AllocError>
    ensures { OnOk result (string_bytes out.new ≡ string_bytes out.old ++ event_text (codes "") (RootRejected command node)) }
{
    write!(out, "root-rejected {command} n{node}")
}

/// Appends that a task asked for a child on a node.
fn write_ask(parent: TaskId, ask: u32, to: u32, out: &mut String) -> Result<(), AllocError>
    ensures { OnOk result (string_bytes out.new ≡ string_bytes out.old ++ join_with_byte 32 (codes "ask" ∷ task_id_text parent ∷ decimal ask ∷ node_name to ∷ [])) }
{
    write!(out, "ask {} {ask} n{to}", Id(parent))
}

/// Appends that a child was registered for an ask.
fn write_put(task: TaskId, parent: TaskId, ask: u32, out: &mut String) -> Result<(), AllocError>
    ensures { OnOk result (string_bytes out.new ≡ string_bytes out.old ++ event_text (codes "") (Put task parent ask)) }
{
    write!(out, "put {} {} {ask}", Id(task), Id(parent))
}

/// Appends that a task was refused by a cancellation that has this reason.
fn write_refuse(task: TaskId, cancel: u32, reason: &str, out: &mut String) -> Result<(), AllocError>
    ensures { OnOk result (string_bytes out.new ≡ string_bytes out.old ++ event_text reason.now (Refuse task cancel)) }
{
    write!(out, "refuse {} {cancel} {reason}", Id(task))
}

/// Appends that a task was named by a cancel command, and whether that waits.
fn write_cancel(cancel: u32, task: TaskId, wait: bool, out: &mut String) -> Result<(), AllocError>
    ensures { OnOk result (string_bytes out.new ≡ string_bytes out.old ++ event_text (codes "") (Cancel cancel task wait)) }
{
    if wait {
        write!(out, "cancel {cancel} {} wait", Id(task))
    } else {
        write_number_task("cancel", cancel, task, out)
    }
}

/// Appends that the acknowledgement of a ban came from a node.
fn write_acked(parent: TaskId, from: u32, out: &mut String) -> Result<(), AllocError>
    ensures { OnOk result (string_bytes out.new ≡ string_bytes out.old ++ event_text (codes "") (Acked parent from)) }
{
    write!(out, "acked {} n{from}", Id(parent))
}

/// Appends that a document was written.
fn write_document(
    index: &Text,
    shard: u32,
    outcome: Outcome,
    id: &Text,
    out: &mut String,
) -> Result<(), AllocError>
    ensures { OnOk result (string_bytes out.new ≡ string_bytes out.old ++ event_text (codes "") (Write index.now shard outcome id.now)) }
{
    write!(
        out,
        "write {} {shard} {outcome} {}",
        index.as_str(),
        id.as_str()
    )
}

/// Appends the text of an event to a string.
pub fn write_event(event: &Event, reason: &str, out: &mut String) -> Result<(), AllocError>
    ensures { OnOk result (string_bytes out.new ≡ string_bytes out.old ++ event_text reason.now event.now) }
{
    match event {
        Event::Begin { .. } => Ok(()),
        Event::Root { command, task } => write_number_task("root", *command, *task, out),
        Event::RootRejected { command, node } => write_root_rejected(*command, *node, out),
        Event::Ask {
            parent,
            ask,
            to,
            ..
        } => write_ask(*parent, *ask, *to, out),
        Event::Put { task, parent, ask } => write_put(*task, *parent, *ask, out),
        Event::Reject { node, parent, ask } => write_node_task_number(
            "reject", *node, *parent, *ask, out,
        ),
        Event::Pass { task } => write_task("pass", *task, out),
        Event::Refuse { task, cancel } => write_refuse(*task, *cancel, reason, out),
        Event::Cancel { cancel, task, wait } => write_cancel(*cancel, *task, *wait, out),
        Event::NotFound { cancel } => write_number("not-found", u64::from(*cancel), out),
        Event::Mark { task, cancel } => write_task_number("mark", *task, *cancel, out),
        Event::BanPut {
            node,
            parent,
            cancel,
        } => write_node_task_number("ban", *node, *parent, *cancel, out),
        Event::Listed { node, parent } => write_node_task("listed", *node, *parent, out),
        Event::Acked { parent, from } => write_acked(*parent, *from, out),
        Event::BanGone { node, parent } => write_node_task("unban", *node, *parent, out),
        Event::Work { task } => write_task("work", *task, out),
        Event::Write {
            index,
            shard,
            outcome,
            id,
        } => write_document(index.get(), *shard, *outcome, id.get(), out),
        Event::Answered { parent, ask } => write_task_number("answered", *parent, *ask, out),
        Event::End { task, reply } => write_end(Id(*task), reply, out),
        Event::AnswerPlaced { cancel } => write_number("placed", u64::from(*cancel), out),
        Event::AnswerDone { cancel } => write_number("complete", u64::from(*cancel), out),
        Event::Tick { ms } => write_number("tick", *ms, out),
    }
}

/// Appends the text of an event: its words with a space between each two, and nothing where a command begins.
///
/// The reason is that of the cancellation that refuses a task; it shows at a refusal alone. Where memory runs out nothing was
/// appended.
pub fn print_event(event: &Event, reason: &str, out: &mut Vec<u8>) -> Result<(), AllocError>
    ensures ok { OnOk result (out.new.items ≡ out.old.items ++ event_text reason.now event.now) }
    ensures err { OnErr result (out.new.items ≡ out.old.items) }
{
    let mut text = String::new(*out.allocator());
    write_event(event, reason, &mut text)?;
    out.extend_from_slice(text.as_bytes())
}

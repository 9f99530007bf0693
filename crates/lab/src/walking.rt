// A script step by step.

use crate::fault::Fault;
use crate::input::Input;
use crate::lines::{line_of, push_line};
use crate::running::{Ran, run};
use crate::scene::{Message, Move, Scene};
use crate::schedule::{command_of, started_by};
use crate::task::{Id, Task};
use event_text::write_event;
use script_lang::Command;
use std::alloc::{AllocError, Global};
use std::collections::BTreeMap;
use task_events::Event;
use task_ids::{Action, TaskId};
use task_top::Cluster;

/// How the line of a step ends that a task does not make, since it waits.
const WAITING: &[u8] = br#"{"type":"waiting"}}"#;

/// How the line of a command begins that makes an index known.
const REINDEX: &[u8] = br#"{"reindex""#;

/// What is told of a task.
#[derive(Drop)]
struct Told<'a> {
    id: TaskId,
    task: &'a Task,
}

/// The reason of the cancel that an event tells, where it tells one.
fn reason_in<'a>(commands: &'a [Command], event: &Event) -> &'a str {
    let Event::Refuse { cancel, .. } = event else {
        return "";
    };
    match command_of(commands, *cancel) {
        Some(Command::Cancel { reason, .. }) => reason.as_str(),
        _ => "",
    }
}

/// The task that an event is about, if there is one.
fn task_in(event: &Event) -> Option<TaskId> {
    match event {
        Event::Root { task, .. }
        | Event::Put { task, .. }
        | Event::Pass { task }
        | Event::Refuse { task, .. }
        | Event::Cancel { task, .. }
        | Event::Mark { task, .. }
        | Event::Work { task }
        | Event::End { task, .. } => Some(*task),
        Event::Ask { parent, .. } | Event::Answered { parent, .. } => Some(*parent),
        _ => None,
    }
}

/// The line of an event, with the action of the task that it is about.
fn push_event(
    out: &mut String,
    commands: &[Command],
    scene: &Scene,
    event: &Event,
) -> Result<(), AllocError> {
    out.push_str("  ")?;
    write_event(event, reason_in(commands, event), out)?;
    if let Some(known) = task_in(event).and_then(|id| scene.tasks.get(&id)) {
        write!(out, "    {}", known.action.text())?;
    }
    out.push_str("\n")
}

/// What a message is, and where it goes.
fn push_message(out: &mut String, message: &Message, scene: &Scene) -> Result<(), AllocError> {
    match message {
        Message::Request { parent, ask, to } => {
            write!(out, "request to n{to}: ask {ask} of {}", Id(*parent))?;
            match scene.tasks.get(parent) {
                Some(known) => write!(out, ", {}", known.asked(*ask).text()),
                None => Ok(()),
            }
        }
        Message::Answer { parent, ask } => {
            write!(
                out,
                "answer to n{}: ask {ask} of {}",
                parent.node,
                Id(*parent)
            )
        }
        Message::Ban { parent, cancel, to } => {
            write!(
                out,
                "ban to n{to}: of {}, cancelled by command {cancel}",
                Id(*parent)
            )
        }
        Message::Ack { parent, from } => {
            write!(
                out,
                "acknowledgement to n{}: of the ban of {} on n{from}",
                parent.node,
                Id(*parent)
            )
        }
        Message::Unban { parent, to } => write!(out, "unban to n{to}: of {}", Id(*parent)),
    }
}

/// A task with its action and its mark.
fn push_task(out: &mut String, told: &Told<'_>) -> Result<(), AllocError> {
    write!(out, "    {}  {}", Id(told.id), told.task.action.text())?;
    if let Some(cancel) = told.task.mark {
        write!(out, ", marked by command {cancel}")?;
    }
    Ok(())
}

/// What a task waits for that can not step.
fn push_wait(out: &mut String, told: &Told<'_>) -> Result<(), AllocError> {
    push_task(out, told)?;
    if told.task.asks.is_empty() {
        return out.push_str(": for its moment on the clock\n");
    }
    out.push_str(": for the answer to ")?;
    let mut later = false;
    for open in told.task.asks.iter() {
        if later {
            out.push_str(", ")?;
        }
        later = true;
        write!(out, "ask {} on n{}", open.ask, open.to)?;
    }
    out.push_str("\n")
}

/// An input that does what a script does up to a command, and then tries a step of a task. The indices stay known to which later
/// commands write.
fn probe(
    alloc: Global,
    input: &Input<'_>,
    number: u32,
    task: TaskId,
) -> Result<Vec<u8>, AllocError> {
    let mut text = Vec::from_slice(alloc, input.head)?;
    for (place, line) in input.commands.iter().enumerate() {
        if place < number as usize || line.starts_with(REINDEX) {
            push_line(&mut text, line)?;
        }
        if place.saturating_add(1) == number as usize {
            push_line(&mut text, line_of(alloc, &Move::Step(task))?.as_bytes())?;
        }
    }
    Ok(text)
}

/// Whether a task that is live after a command can make a step then. What its events do not tell is tried out.
fn can_step(
    alloc: Global,
    cluster: &Cluster,
    input: &Input<'_>,
    number: u32,
    told: &Told<'_>,
) -> Result<bool, AllocError> {
    let task = told.task;
    if task.is_new {
        return Ok(true);
    }
    let is_waiting = !task.asks.is_empty();
    if task.mark.is_some() {
        return Ok(!is_waiting);
    }
    if !is_waiting && task.action != Action::Reindex {
        return Ok(true);
    }
    let text = probe(alloc, input, number, told.id)?;
    let ran = run(alloc, cluster, text.as_slice())?;
    let mut lines = ran.printed().split(|byte| *byte == b'\n');
    let line = lines.nth(number as usize).unwrap_or(b"");
    Ok(!line.ends_with(WAITING))
}

/// The tasks that can step after a command, and those that wait.
fn push_tasks(
    alloc: Global,
    out: &mut String,
    cluster: &Cluster,
    input: &Input<'_>,
    number: u32,
    tasks: &BTreeMap<TaskId, Task>,
) -> Result<(), AllocError> {
    let mut waits = String::new(alloc);
    let mut steps = String::new(alloc);
    for (id, task) in tasks.iter() {
        let told = Told { id: *id, task };
        if task.is_over {
            continue;
        }
        if can_step(alloc, cluster, input, number, &told)? {
            push_task(&mut steps, &told)?;
            steps.push_str("\n")?;
        } else {
            push_wait(&mut waits, &told)?;
        }
    }
    push_part(out, "can step", steps.as_str())?;
    push_part(out, "wait", waits.as_str())
}

/// Some lines under their title, if there are any.
fn push_part(out: &mut String, title: &str, lines: &str) -> Result<(), AllocError> {
    if lines.is_empty() {
        return Ok(());
    }
    write!(out, "  {title}:\n{lines}")
}

/// Why a command made nothing happen, if its printed line tells that.
fn push_error(out: &mut String, ran: &Ran, number: u32) -> Result<(), AllocError> {
    let mut lines = ran.printed().split(|byte| *byte == b'\n');
    let line = match (number as usize).checked_sub(1) {
        Some(place) => lines.nth(place).unwrap_or(b""),
        None => b"",
    };
    let Some((_, error)) = std::str::from_utf8(line)
        .ok()
        .and_then(|text| text.split_once("\"error\":"))
    else {
        return Ok(());
    };
    write!(
        out,
        "  nothing happened: {}\n",
        error.strip_suffix('}').unwrap_or(error)
    )
}

/// The children that the acknowledgements of bans wait for.
fn push_awaited(alloc: Global, out: &mut String, scene: &Scene) -> Result<(), AllocError> {
    let mut lines = String::new(alloc);
    for awaited in scene.awaited.iter() {
        write!(
            lines,
            "    n{} of the ban of {}: for {}\n",
            awaited.listing.node,
            Id(awaited.listing.parent),
            Id(awaited.child)
        )?;
    }
    push_part(out, "acknowledgements that wait", lines.as_str())
}

/// What is in flight, with the places that `deliver` takes, which listings are open, and which acknowledgements wait.
fn push_scene(alloc: Global, out: &mut String, scene: &Scene) -> Result<(), AllocError> {
    let mut flight = String::new(alloc);
    for (at, message) in scene.flight.iter().enumerate() {
        write!(flight, "    {at}  ")?;
        push_message(&mut flight, message, scene)?;
        flight.push_str("\n")?;
    }
    push_part(out, "in flight", flight.as_str())?;
    let mut listings = String::new(alloc);
    for listing in scene.listings.iter() {
        write!(
            listings,
            "    n{} of the children of {}\n",
            listing.node,
            Id(listing.parent)
        )?;
    }
    push_part(out, "open listings", listings.as_str())?;
    push_awaited(alloc, out, scene)
}

/// The title of a command: its number and its line. After the last one comes the closing drain.
fn push_title(out: &mut String, input: &Input<'_>, number: u32) -> Result<(), AllocError> {
    let line = match (number as usize).checked_sub(1) {
        Some(place) => input.commands.get(place),
        None => None,
    };
    match line.and_then(|line| std::str::from_utf8(line).ok()) {
        Some(line) => write!(out, "{number} {line}\n"),
        None => out.push_str("the closing drain\n"),
    }
}

/// Each command of a run with its events, and what there is after it.
pub fn walk(
    alloc: Global,
    cluster: &Cluster,
    input: &Input<'_>,
    ran: &Ran,
) -> Result<String, Fault> {
    let commands = ran.kept.script.commands.as_slice();
    let mut out = String::new(alloc);
    let mut scene = Scene::new(alloc);
    let mut number = 0;
    let mut is_still = false;
    for event in ran.kept.history.events() {
        if let Event::Begin { command } = event {
            if number > 0 {
                if is_still {
                    push_error(&mut out, ran, number)?;
                }
                push_scene(alloc, &mut out, &scene)?;
                push_tasks(alloc, &mut out, cluster, input, number, &scene.tasks)?;
            }
            number = *command;
            is_still = true;
            push_title(&mut out, input, number)?;
        } else {
            is_still = false;
            scene.take(event, started_by(command_of(commands, number)))?;
            push_event(&mut out, commands, &scene, event)?;
        }
    }
    Ok(out)
}

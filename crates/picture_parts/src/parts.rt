// The parts of the page that tell of events, commands, tasks and trees.

use crate::draw::{push_lanes, push_row};
use crate::layout::{Layout, ROW, TOP};
use crate::px::Px;
use crate::story::Story;
use crate::text::{MAX_WHOLE, push_escaped};
use crate::trace::{Arrow, Thing, Trace};
use crate::trees::push_id;
use serde_json::Value;
use std::alloc::AllocError;
use task_ids::TaskId;

/// The room for the bounds of commands, to the left of the picture.
pub const GUTTER: Px = Px(46);

/// How much further than their heads the lanes go there, so that their round corners are out of sight.
const LANE_ROUND: Px = Px(8);

/// Appends the events, each with all that is known of it.
pub fn push_events(
    texts: &[Value],
    trace: &Trace,
    layout: &Layout,
    story: &Story,
    out: &mut String,
) -> Result<(), AllocError> {
    out.push_str("<g id=\"events\" role=\"listbox\" tabindex=\"0\" aria-label=\"Events\">\n")?;
    for (row, text) in texts.iter().enumerate() {
        push_about(text.as_str().unwrap_or(""), row, trace, story, out)?;
        push_back(row, layout, out)?;
        push_row(text, row, out)?;
        out.push_str("</g>\n")?;
    }
    out.push_str("</g>\n")
}

/// Opens the group of an event, which tells all that is known of it: other events by their numbers, from 1.
fn push_about(
    text: &str,
    row: usize,
    trace: &Trace,
    story: &Story,
    out: &mut String,
) -> Result<(), AllocError> {
    let number = row.saturating_add(1);
    write!(
        out,
        r#"<g class="event" id="e{number}" role="option" aria-selected="false" aria-label="{number}: "#
    )?;
    push_escaped(text, MAX_WHOLE, out)?;
    out.push_str("\" data-text=\"")?;
    push_escaped(text, MAX_WHOLE, out)?;
    out.push('"')?;
    if let Some(task) = story.task(row) {
        out.push_str(" data-task=\"")?;
        push_id(task, out)?;
        out.push('"')?;
    }
    story.push_trees(row, out)?;
    if let Some(command) = story.command(row) {
        write!(out, r#" data-command="{command}""#)?;
    }
    push_causes(row, story, out)?;
    push_effects(row, story, out)?;
    push_sent(row, trace, out)?;
    out.push('>')
}

/// Appends the numbers of the events that the event of a row came of.
fn push_causes(row: usize, story: &Story, out: &mut String) -> Result<(), AllocError> {
    out.push_str(" data-causes=\"")?;
    let mut is_first = true;
    for cause in story.causes.all() {
        if cause.row == row {
            push_number(cause.by, is_first, out)?;
            is_first = false;
        }
    }
    out.push('"')
}

/// Appends the numbers of the events that came of the event of a row.
fn push_effects(row: usize, story: &Story, out: &mut String) -> Result<(), AllocError> {
    out.push_str(" data-effects=\"")?;
    let mut is_first = true;
    for cause in story.causes.all() {
        if cause.by == row {
            push_number(cause.row, is_first, out)?;
            is_first = false;
        }
    }
    out.push('"')
}

/// Appends the number of the event of a row, after a space if it is not the first.
fn push_number(row: usize, is_first: bool, out: &mut String) -> Result<(), AllocError> {
    if !is_first {
        out.push(' ')?;
    }
    write!(out, "{}", row.saturating_add(1))
}

/// Appends the messages that the event of a row sent: the kind of each, its node, and the number of the event that delivered it.
fn push_sent(row: usize, trace: &Trace, out: &mut String) -> Result<(), AllocError> {
    out.push_str(" data-sent=\"")?;
    let mut is_first = true;
    for arrow in trace.arrows.iter() {
        if arrow.from.row == row {
            if !is_first {
                out.push(',')?;
            }
            push_message(arrow, out)?;
            is_first = false;
        }
    }
    out.push('"')
}

fn push_message(arrow: &Arrow, out: &mut String) -> Result<(), AllocError> {
    let kind = arrow.message.style();
    let node = arrow.message.node();
    write!(out, "{kind} n{node}")?;
    match arrow.to {
        Some(to) => write!(out, " {}", to.row.saturating_add(1)),
        None => Ok(()),
    }
}

/// What stands behind an event and takes the pointer, over the whole row.
fn push_back(row: usize, layout: &Layout, out: &mut String) -> Result<(), AllocError> {
    let top = TOP + ROW * row;
    let width = layout.width - Px(12);
    let stripe = if row % 2 == 1 { " odd" } else { "" };
    write!(
        out,
        r#"<rect class="row{stripe}" x="6" y="{top}" width="{width}" height="{ROW}"/>"#
    )
}

/// Appends the bounds of the commands, where the lines tell them: the number of each beside the events that it made.
pub fn push_bounds(
    story: &Story,
    rows: usize,
    layout: &Layout,
    out: &mut String,
) -> Result<(), AllocError> {
    let mut first = 0_usize;
    for row in 0..rows {
        let next = row.saturating_add(1);
        if let Some(command) = story.bound(row)
            && story.bound(next) != Some(command)
        {
            push_bound(command, first, next, layout, out)?;
            first = next;
        }
    }
    Ok(())
}

/// The bracket of a command round its events, and a line over the first of them.
fn push_bound(
    command: u64,
    first: usize,
    end: usize,
    layout: &Layout,
    out: &mut String,
) -> Result<(), AllocError> {
    let top = TOP + ROW * first;
    let bottom = TOP + ROW * end;
    let right = layout.width - Px(6);
    writeln!(
        out,
        r#"<g class="bound" data-of="{command}"><text class="by" x="-10" y="{}">{command}</text><path class="by" d="M0 {}H-6V{}H0"/><path class="top" d="M-44 {top}H{right}"/></g>"#,
        top + ROW / 2 + Px(4),
        top + Px(3),
        bottom - Px(3)
    )
}

/// Appends the heads of the lanes, which stay in sight above the picture.
pub fn push_heads(layout: &Layout, out: &mut String) -> Result<(), AllocError> {
    let width = layout.width + GUTTER;
    writeln!(
        out,
        r#"<svg id="heads" class="wide" style="--wide:{width}px" width="{width}" height="{TOP}" viewBox="-{GUTTER} 0 {width} {TOP}" aria-hidden="true"><rect class="ground" x="-{GUTTER}" width="{width}" height="{TOP}"/>"#
    )?;
    push_lanes(layout, TOP + LANE_ROUND, out)?;
    out.push_str("<text class=\"by\" x=\"-2\" y=\"30\">command</text></svg>\n")
}

/// Appends the trees as choices, each by its root and the action of that.
pub fn push_trees(story: &Story, out: &mut String) -> Result<(), AllocError> {
    let roots = story.trees.roots(*out.allocator())?;
    for root in roots.iter() {
        out.push_str("<option value=\"")?;
        push_id(*root, out)?;
        out.push_str("\">")?;
        push_id(*root, out)?;
        if let Some(told) = story.actions.of(*root) {
            out.push(' ')?;
            push_escaped(told.action.as_str(), MAX_WHOLE, out)?;
        }
        out.push_str("</option>")?;
    }
    Ok(())
}

/// Appends a table of the tasks.
pub fn push_tasks(story: &Story, trace: &Trace, out: &mut String) -> Result<(), AllocError> {
    out.push_str(
        "<details><summary>Tasks</summary>\n<table id=\"tasks\"><tr><th scope=\"col\">task</th><th scope=\"col\">tree</th><th scope=\"col\">events</th><th scope=\"col\">action</th><th scope=\"col\">works on</th><th scope=\"col\">opaque id</th></tr>\n",
    )?;
    let tasks = story.trees.tasks(*out.allocator())?;
    for task in tasks.iter() {
        push_task(*task, story, trace, out)?;
    }
    out.push_str("</table>\n</details>\n")
}

fn push_task(
    task: TaskId,
    story: &Story,
    trace: &Trace,
    out: &mut String,
) -> Result<(), AllocError> {
    out.push_str("<tr data-task=\"")?;
    push_id(task, out)?;
    out.push('"')?;
    story.push_tree(task, out)?;
    out.push_str("><td>")?;
    push_id(task, out)?;
    out.push_str("</td><td>")?;
    push_id(story.trees.root(task), out)?;
    out.push_str("</td><td>")?;
    push_span(task, trace, out)?;
    let told = story.actions.of(task);
    push_cell(told.map(|told| told.action.as_str()), out)?;
    let description = told.and_then(|told| told.description.as_ref());
    push_cell(description.map(String::as_str), out)?;
    let opaque_id = told.and_then(|told| told.opaque_id.as_ref());
    push_cell(opaque_id.map(String::as_str), out)?;
    out.push_str("</td></tr>\n")
}

/// The numbers of a task's first and last event.
fn push_span(task: TaskId, trace: &Trace, out: &mut String) -> Result<(), AllocError> {
    let Some(bar) = trace.bars.iter().find(|bar| bar.thing == Thing::Task(task)) else {
        return Ok(());
    };
    write!(out, "{} to ", bar.from.saturating_add(1))?;
    match bar.end {
        Some(end) => write!(out, "{}", end.saturating_add(1)),
        None => Ok(()),
    }
}

/// A further cell of a row, with a text if there is one.
fn push_cell(text: Option<&str>, out: &mut String) -> Result<(), AllocError> {
    out.push_str("</td><td>")?;
    push_escaped(text.unwrap_or(""), MAX_WHOLE, out)
}

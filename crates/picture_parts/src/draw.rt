// The picture: its head, its lanes, its rows, and what stands on them.

use crate::bars::{push_bars, push_names, push_signs};
use crate::columns::Lane;
use crate::form::Form;
use crate::layout::{Layout, ROW, TEXT_LEFT, TOP, middle_of};
use crate::legend::{legend_height, push_legend};
use crate::look::{SIGNS, STYLE};
use crate::px::Px;
use crate::text::push_shown;
use crate::trace::Trace;
use crate::ways::push_lines;
use serde_json::Value;
use std::alloc::{AllocError, Global};

/// The kinds of messages, as the styles name them.
const MESSAGES: [&str; 5] = ["request", "answer", "ban", "ack", "unban"];

/// The SVG of what a history tells.
pub fn picture(
    alloc: Global,
    texts: &[Value],
    trace: &Trace,
    layout: &Layout,
) -> Result<String, AllocError> {
    let mut out = String::new(alloc);
    push_picture(texts, trace, layout, &mut out)?;
    Ok(out)
}

fn push_picture(
    texts: &[Value],
    trace: &Trace,
    layout: &Layout,
    out: &mut String,
) -> Result<(), AllocError> {
    let flying = trace.arrows.iter().any(|arrow| arrow.to.is_none());
    let last = layout.bottom() + if flying { ROW } else { Px(0) };
    push_head(trace, layout, last, out)?;
    push_lanes(layout, last, out)?;
    push_rows(texts, layout, out)?;
    if flying {
        push_flying(trace.rows, out)?;
    }
    push_history(trace, layout, Form::Alone, out)?;
    push_legend(layout, last + Px(8), out)?;
    out.push_str("</svg>\n")
}

/// The word before the arrows of the messages in flight.
pub fn push_flying(rows: usize, out: &mut String) -> Result<(), AllocError> {
    let y = middle_of(rows) + Px(4);
    writeln!(
        out,
        r#"<text class="word" x="{TEXT_LEFT}" y="{y}">in flight</text>"#
    )
}

/// The bars over the lines, the lines faintly once more, and on them the names and signs.
pub fn push_history(
    trace: &Trace,
    layout: &Layout,
    form: Form<'_>,
    out: &mut String,
) -> Result<(), AllocError> {
    push_lines(trace, layout, form, out)?;
    push_bars(trace, layout, form, out)?;
    out.push_str("<g class=\"behind\">\n")?;
    push_lines(trace, layout, form, out)?;
    out.push_str("</g>\n")?;
    push_names(trace, layout, form, out)?;
    push_signs(trace, layout, form, out)
}

/// The head, with the styles and what is used more than once, and the page.
fn push_head(trace: &Trace, layout: &Layout, last: Px, out: &mut String) -> Result<(), AllocError> {
    let width = layout.width;
    let height = last + legend_height();
    writeln!(
        out,
        r#"<svg xmlns="http://www.w3.org/2000/svg" width="{width}" height="{height}" viewBox="0 0 {width} {height}" role="img">"#
    )?;
    push_title(trace, out)?;
    push_used(out)?;
    writeln!(
        out,
        r#"<rect class="page" x=".5" y=".5" width="{}" height="{}" rx="6"/>"#,
        width - Px(1),
        height - Px(1)
    )
}

/// The title of a history.
pub fn push_title(trace: &Trace, out: &mut String) -> Result<(), AllocError> {
    let events = trace.rows;
    let nodes = trace.nodes;
    let plural = if nodes == 1 { "" } else { "s" };
    writeln!(
        out,
        "<title>A history of {events} events on {nodes} node{plural}</title>"
    )
}

/// The styles, and what is used more than once.
pub fn push_used(out: &mut String) -> Result<(), AllocError> {
    out.push_str(STYLE)?;
    out.push_str("<defs>\n")?;
    for name in MESSAGES {
        push_tips(name, out)?;
    }
    out.push_str(SIGNS)?;
    out.push_str("</defs>\n")
}

/// The tips of the arrows of a kind of messages: of those that are delivered, and of those in flight.
fn push_tips(name: &str, out: &mut String) -> Result<(), AllocError> {
    writeln!(
        out,
        r#"<marker id="{name}-tip" markerUnits="userSpaceOnUse" markerWidth="10" markerHeight="10" refX="9" refY="5" orient="auto"><path class="{name}-tip" d="M0 .6L9.6 5L0 9.4Z"/></marker>"#
    )?;
    writeln!(
        out,
        r#"<marker id="{name}-open" markerUnits="userSpaceOnUse" markerWidth="12" markerHeight="12" refX="10" refY="6" orient="auto"><path class="open {name}-open" d="M1 1L11 6L1 11Z"/></marker>"#
    )
}

/// The lanes with their names.
pub fn push_lanes(layout: &Layout, last: Px, out: &mut String) -> Result<(), AllocError> {
    let mut node = 0_u32;
    for lane in layout.lanes.iter() {
        push_lane(lane, node, last, out)?;
        node = node.saturating_add(1);
    }
    Ok(())
}

fn push_lane(lane: &Lane, node: u32, last: Px, out: &mut String) -> Result<(), AllocError> {
    let left = lane.left;
    let width = lane.right - left;
    let middle = left + width / 2;
    let top = TOP - Px(34);
    let height = last - top;
    write!(
        out,
        r#"<rect class="lane" x="{left}" y="{top}" width="{width}" height="{height}" rx="5"/><text class="head" x="{middle}" y="30">"#
    )?;
    if node == 0 {
        out.push_str("commands</text>\n")
    } else {
        write!(out, "n{node}</text>\n")
    }
}

/// The events' texts, each at its row.
fn push_rows(texts: &[Value], layout: &Layout, out: &mut String) -> Result<(), AllocError> {
    let width = layout.width - Px(12);
    let mut row = 0_usize;
    for text in texts {
        if row % 2 == 1 {
            push_stripe(row, width, out)?;
        }
        push_row(text, row, out)?;
        row = row.saturating_add(1);
    }
    Ok(())
}

/// What stands behind every second row.
fn push_stripe(row: usize, width: Px, out: &mut String) -> Result<(), AllocError> {
    let top = TOP + ROW * row;
    write!(
        out,
        r#"<rect class="stripe" x="6" y="{top}" width="{width}" height="{ROW}"/>"#
    )
}

/// The text of an event, after its place, from 1.
pub fn push_row(text: &Value, row: usize, out: &mut String) -> Result<(), AllocError> {
    let y = middle_of(row) + Px(4);
    let place = row.saturating_add(1);
    write!(
        out,
        r#"<text class="place" x="34" y="{y}">{place}</text><text x="{TEXT_LEFT}" y="{y}">"#
    )?;
    push_shown(text.as_str().unwrap_or(""), out)?;
    out.push_str("</text>\n")
}

// The lines of the picture: what acts within a row, and the ways of messages.

use crate::form::Form;
use crate::layout::{Layout, middle_of};
use crate::px::Px;
use crate::trace::{Arrow, Link, Message, Spot, Thing, Trace};
use std::alloc::AllocError;

/// What lies between the ends of two arrows side by side.
const STEP: Px = Px(17);

/// Appends what acts within a row, and the ways of messages.
pub fn push_lines(
    trace: &Trace,
    layout: &Layout,
    form: Form<'_>,
    out: &mut String,
) -> Result<(), AllocError> {
    for link in trace.links.iter() {
        form.open_link(link, trace, out)?;
        push_link(link, layout, out)?;
        form.close(out)?;
    }
    for arrow in trace.arrows.iter() {
        if let Some(to) = arrow.to {
            form.open_way(arrow, out)?;
            push_arrow(arrow, &to, layout, out)?;
            form.close(out)?;
        }
    }
    push_open_arrows(trace, layout, form, out)
}

fn push_link(link: &Link, layout: &Layout, out: &mut String) -> Result<(), AllocError> {
    let row = link.row;
    let start = Spot {
        row,
        bar: link.from,
    };
    let end = Spot { row, bar: link.to };
    let (from, to) = layout.between(&start, &end);
    let y = middle_of(row);
    writeln!(
        out,
        r#"<path class="line link" d="M{from} {y}H{to}" marker-end="url(#link-tip)"/>"#
    )
}

fn push_arrow(
    arrow: &Arrow,
    to: &Spot,
    layout: &Layout,
    out: &mut String,
) -> Result<(), AllocError> {
    let name = arrow.message.style();
    let (x, end) = layout.between(&arrow.from, to);
    let y = middle_of(arrow.from.row);
    let bottom = middle_of(to.row);
    writeln!(
        out,
        r#"<path class="line {name}" d="M{x} {y}L{end} {bottom}" marker-end="url(#{name}-tip)"/>"#
    )
}

/// The arrows of the messages in flight. Each ends below the last row, at its task or in its node's lane, beside those that end in
/// that lane too.
fn push_open_arrows(
    trace: &Trace,
    layout: &Layout,
    form: Form<'_>,
    out: &mut String,
) -> Result<(), AllocError> {
    let mut newest = Vec::new(*out.allocator());
    for _ in layout.lanes.iter() {
        newest.push(None)?;
    }
    for arrow in trace.arrows.iter() {
        if arrow.to.is_none() {
            let lane = arrow.message.node();
            let beside = newest.get(lane as usize).copied().flatten();
            let end = match beside {
                Some(other) => next_end(other, lane, layout),
                None => open_end(arrow, trace, layout),
            };
            if let Some(other) = newest.get_mut(lane as usize) {
                *other = Some(end);
            }
            form.open_way(arrow, out)?;
            push_open_arrow(arrow, trace.rows, end, layout, out)?;
            form.close(out)?;
        }
    }
    Ok(())
}

/// Where an arrow ends beside another one: to the right of it, or at the left edge of the lane again.
fn next_end(other: Px, lane: u32, layout: &Layout) -> Px {
    let lane = layout.lane(lane);
    let end = other + STEP;
    if end + STEP / 2 > lane.right {
        lane.left + STEP / 2
    } else {
        end
    }
}

/// Where the first arrow to the aim of a message in flight ends: on the near side of its task, or in its node's lane.
fn open_end(arrow: &Arrow, trace: &Trace, layout: &Layout) -> Px {
    let lane = arrow.message.node();
    let from = layout.place(arrow.from.bar);
    let lane_of_sender = trace.bars.get(arrow.from.bar).map(|bar| bar.thing.lane());
    let aim = match arrow.message {
        Message::Answer { parent, .. } | Message::Ack { parent, .. } => trace.find(Thing::Task(
            parent,
        )),
        _ if lane_of_sender == Some(lane) => Some(arrow.from.bar),
        _ => None,
    };
    match aim {
        None => layout.lane(lane).left + Px(16),
        Some(bar) => {
            let to = layout.place(bar);
            if from.middle < to.middle {
                to.middle - Px(8)
            } else {
                to.middle + to.half + Px(14)
            }
        }
    }
}

fn push_open_arrow(
    arrow: &Arrow,
    rows: usize,
    end: Px,
    layout: &Layout,
    out: &mut String,
) -> Result<(), AllocError> {
    let name = arrow.message.style();
    let from = layout.place(arrow.from.bar);
    let x = if end >= from.middle {
        from.middle + from.half
    } else {
        from.middle - from.half
    };
    let y = middle_of(arrow.from.row);
    let bottom = middle_of(rows) + Px(4);
    writeln!(
        out,
        r#"<path class="line {name}" d="M{x} {y}L{end} {bottom}" marker-end="url(#{name}-open)"/>"#
    )
}

// The bars of the picture, with their names and signs.

use crate::form::Form;
use crate::layout::{Layout, Place, middle_of};
use crate::px::Px;
use crate::trace::{Bar, Shape, Sign, Thing, Trace};
use std::alloc::{AllocError, Global};

/// Half the height of a bar's first and last row.
const HALF: Px = Px(9);

/// Appends the bars, without their names.
pub fn push_bars(
    trace: &Trace,
    layout: &Layout,
    form: Form<'_>,
    out: &mut String,
) -> Result<(), AllocError> {
    let mut place = 0_usize;
    for bar in trace.bars.iter() {
        match bar.thing {
            Thing::Tick(_) | Thing::NoSlot { .. } => {}
            _ => {
                form.open(&bar.thing, out)?;
                push_bar(bar, place, layout, out)?;
                form.close(out)?;
            }
        }
        place = place.saturating_add(1);
    }
    Ok(())
}

/// Appends the names of the bars.
pub fn push_names(
    trace: &Trace,
    layout: &Layout,
    form: Form<'_>,
    out: &mut String,
) -> Result<(), AllocError> {
    let mut place = 0_usize;
    for bar in trace.bars.iter() {
        if let Some(name) = name_of(*out.allocator(), &bar.thing)? {
            form.open(&bar.thing, out)?;
            push_name(name.as_str(), bar, layout.place(place), out)?;
            form.close(out)?;
        }
        place = place.saturating_add(1);
    }
    Ok(())
}

/// A bar, its parts one over the other.
fn push_bar(bar: &Bar, place: usize, layout: &Layout, out: &mut String) -> Result<(), AllocError> {
    let at = layout.place(place);
    let bottom = match bar.end {
        Some(row) => middle_of(row) + HALF,
        None => layout.bottom(),
    };
    let top = middle_of(bar.from) - HALF;
    match bar.thing {
        Thing::Command(_) | Thing::Tick(_) => push_part("waits", at, top, bottom, out)?,
        Thing::Ban { .. } => push_ban(bar, at, bottom, out)?,
        Thing::Task(_) | Thing::NoSlot { .. } => {
            push_part("new", at, top, bottom, out)?;
            if let Some(row) = bar.passed {
                push_part("running", at, start_of(row, bar.from), bottom, out)?;
            }
            if let Some(row) = bar.marked {
                push_part("marked", at, start_of(row, bar.from), bottom, out)?;
            }
        }
    }
    push_tail(bar, at.middle, bottom, out)
}

/// The bar of a ban. It is hatched from the end of its listing up to its acknowledgement, where that waits.
fn push_ban(bar: &Bar, at: Place, bottom: Px, out: &mut String) -> Result<(), AllocError> {
    push_part("stands", at, middle_of(bar.from) - HALF, bottom, out)?;
    let Some(listed) = bar.passed else {
        return Ok(());
    };
    let told = match bar.told {
        Some(row) => middle_of(row),
        None => bottom,
    };
    if bar.told == Some(listed) {
        return Ok(());
    }
    push_part("awaits", at, middle_of(listed), told, out)
}

/// The top edge of a part that begins at a row of a bar.
fn start_of(row: usize, from: usize) -> Px {
    if row == from {
        middle_of(row) - HALF
    } else {
        middle_of(row)
    }
}

fn push_part(
    name: &str,
    at: Place,
    top: Px,
    bottom: Px,
    out: &mut String,
) -> Result<(), AllocError> {
    writeln!(
        out,
        r#"<rect class="bar {name}" x="{}" y="{top}" width="{}" height="{}" rx="3"/>"#,
        at.middle - at.half,
        at.half + at.half,
        bottom - top
    )
}

/// What reaches a task after its end.
fn push_tail(bar: &Bar, middle: Px, bottom: Px, out: &mut String) -> Result<(), AllocError> {
    if bar.end.is_some_and(|end| end < bar.last) {
        let last = middle_of(bar.last) + HALF;
        writeln!(out, r#"<path class="tail" d="M{middle} {bottom}V{last}"/>"#)?;
    }
    Ok(())
}

/// How a bar is called.
fn name_of(alloc: Global, thing: &Thing) -> Result<Option<String>, AllocError> {
    let name = match thing {
        Thing::Command(command) => format!(in alloc; "{command}")?,
        Thing::Task(task) => format!(in alloc; "n{}:{}", task.node, task.number)?,
        Thing::Ban { parent, .. } => format!(in alloc; "ban n{}:{}", parent.node, parent.number)?,
        Thing::Tick(_) | Thing::NoSlot { .. } => return Ok(None),
    };
    Ok(Some(name))
}

/// A name in a bar's first row, over the lines that pass behind it.
fn push_name(name: &str, bar: &Bar, at: Place, out: &mut String) -> Result<(), AllocError> {
    let middle = at.middle;
    let left = middle - at.half + Px(2);
    let row = middle_of(bar.from);
    let top = row - Px(7);
    let width = at.half + at.half - Px(4);
    write!(
        out,
        r#"<rect class="plate {}" x="{left}" y="{top}" width="{width}" height="13"/>"#,
        plate_of(bar)
    )?;
    writeln!(
        out,
        r#"<text class="name" x="{middle}" y="{}">{name}</text>"#,
        row + Px(4)
    )
}

/// How a bar looks in its first row, behind its name.
fn plate_of(bar: &Bar) -> &'static str {
    match bar.thing {
        Thing::Command(_) | Thing::Tick(_) => "waits",
        Thing::Ban { .. } => "stands",
        Thing::Task(_) | Thing::NoSlot { .. } => {
            if bar.passed == Some(bar.from) {
                "running"
            } else {
                "new"
            }
        }
    }
}

/// How a sign is called.
fn sign_name(shape: Shape) -> &'static str {
    match shape {
        Shape::Pass => "pass",
        Shape::Work => "work",
        Shape::Write => "write",
        Shape::Mark => "mark",
        Shape::Refused => "refused",
        Shape::NoSlot => "no-slot",
        Shape::Done => "done",
        Shape::Failed => "failed",
        Shape::Cancelled => "cancelled",
        Shape::Listed => "listed",
        Shape::Answered => "replied",
        Shape::NotFound => "not-found",
        Shape::Tick => "tick",
    }
}

/// Appends the signs.
pub fn push_signs(
    trace: &Trace,
    layout: &Layout,
    form: Form<'_>,
    out: &mut String,
) -> Result<(), AllocError> {
    for sign in trace.signs.iter() {
        if let Some(bar) = trace.bars.get(sign.at.bar) {
            form.open(&bar.thing, out)?;
            push_sign(sign, bar, layout, out)?;
            form.close(out)?;
        }
    }
    Ok(())
}

/// A sign on its bar, or beside the bar's name.
fn push_sign(sign: &Sign, bar: &Bar, layout: &Layout, out: &mut String) -> Result<(), AllocError> {
    let name = sign_name(sign.shape);
    let place = layout.place(sign.at.bar);
    let beside = bar.from == sign.at.row
        && !matches!(bar.thing, Thing::Tick(_) | Thing::NoSlot { .. });
    let x = if beside {
        place.middle + place.half + Px(10)
    } else {
        place.middle
    };
    let y = middle_of(sign.at.row);
    writeln!(
        out,
        r##"<circle class="chip" cx="{x}" cy="{y}" r="8"/><use href="#{name}" x="{x}" y="{y}"/>"##
    )
}

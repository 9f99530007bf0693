// What the lines, bars and signs of the picture mean.

use crate::layout::Layout;
use crate::px::Px;
use std::alloc::AllocError;

/// A sample and what it means. A sample stands round the middle of its left edge, and is 30 wide.
pub const LEGEND: [(&str, &str); 27] = [
    (
        r##"<path class="line request" d="M0 0H29" marker-end="url(#request-tip)"/>"##,
        "request",
    ),
    (
        r##"<path class="line answer" d="M0 0H29" marker-end="url(#answer-tip)"/>"##,
        "answer",
    ),
    (
        r##"<path class="line ban" d="M0 0H29" marker-end="url(#ban-tip)"/>"##,
        "ban",
    ),
    (
        r##"<path class="line ack" d="M0 0H29" marker-end="url(#ack-tip)"/>"##,
        "acknowledgement",
    ),
    (
        r##"<path class="line unban" d="M0 0H29" marker-end="url(#unban-tip)"/>"##,
        "unban",
    ),
    (
        r##"<path class="line request" d="M0 0H29" marker-end="url(#request-open)"/>"##,
        "not delivered yet",
    ),
    (
        r##"<path class="line link" d="M0 0H29" marker-end="url(#link-tip)"/>"##,
        "acts on a task",
    ),
    (
        r##"<rect class="bar new" x="2" y="-7" width="26" height="14" rx="2"/>"##,
        "task is new",
    ),
    (
        r##"<rect class="bar running" x="2" y="-7" width="26" height="14" rx="2"/>"##,
        "task runs",
    ),
    (
        r##"<rect class="bar marked" x="2" y="-7" width="26" height="14" rx="2"/>"##,
        "task is marked",
    ),
    (
        r##"<path class="tail" d="M15 -8V8"/>"##,
        "over, bans still up",
    ),
    (
        r##"<rect class="bar stands" x="2" y="-7" width="26" height="14" rx="2"/>"##,
        "ban on the node",
    ),
    (
        r##"<rect class="bar awaits" x="2" y="-7" width="26" height="14" rx="2"/>"##,
        "awaits listed children",
    ),
    (
        r##"<rect class="bar waits" x="2" y="-7" width="26" height="14" rx="2"/>"##,
        "command waits",
    ),
    (r##"<use href="#pass" x="15"/>"##, "passes"),
    (r##"<use href="#work" x="15"/>"##, "turn of work"),
    (r##"<use href="#write" x="15"/>"##, "document written"),
    (r##"<use href="#mark" x="15"/>"##, "marked"),
    (r##"<use href="#refused" x="15"/>"##, "refused by a ban"),
    (r##"<use href="#no-slot" x="15"/>"##, "rejected, no slot"),
    (r##"<use href="#listed" x="15"/>"##, "listing ends"),
    (r##"<use href="#done" x="15"/>"##, "ends, done"),
    (r##"<use href="#failed" x="15"/>"##, "ends, failed"),
    (r##"<use href="#cancelled" x="15"/>"##, "ends, cancelled"),
    (r##"<use href="#replied" x="15"/>"##, "command is answered"),
    (r##"<use href="#not-found" x="15"/>"##, "no such task"),
    (r##"<use href="#tick" x="15"/>"##, "tick of the clock"),
];

const COLUMNS: usize = 5;

const LINE: Px = Px(21);

const LEFT: Px = Px(20);

/// How high the legend is.
pub fn legend_height() -> Px {
    LINE * LEGEND.len().div_ceil(COLUMNS) + Px(14)
}

/// Appends the legend, with its top edge here.
pub fn push_legend(layout: &Layout, top: Px, out: &mut String) -> Result<(), AllocError> {
    let step = (layout.width.min(Px(1000)) - LEFT) / COLUMNS;
    let mut place = 0_usize;
    for (sample, meaning) in LEGEND.iter() {
        let x = LEFT + step * (place % COLUMNS);
        let y = top + LINE * (place / COLUMNS) + LINE / 2;
        writeln!(
            out,
            r#"<g transform="translate({x} {y})">{sample}<text class="word" x="38" y="4">{meaning}</text></g>"#
        )?;
        place = place.saturating_add(1);
    }
    Ok(())
}

// The page: its picture, what can be asked of it, and the styles and the script that answer.

use crate::draw::{push_flying, push_history, push_lanes, push_title, push_used};
use crate::form::Form;
use crate::layout::{Layout, ROW, TOP};
use crate::legend::LEGEND;
use crate::parts::{GUTTER, push_bounds, push_events, push_heads, push_tasks, push_trees};
use crate::px::Px;
use crate::script::{SCRIPT, SCRIPT_SUM};
use crate::sheet::SHEET;
use crate::story::Story;
use crate::trace::Trace;
use serde_json::Value;
use std::alloc::{AllocError, Global};

/// What stands before the picture, after the list of trees.
const TOOLS: &str = r#"</select></label>
<button type="button" id="back">Previous</button>
<button type="button" id="on">Next</button>
<span class="keys"><kbd>↑</kbd> <kbd>↓</kbd> an event, <kbd>←</kbd> its cause, <kbd>→</kbd> what came of it, <kbd>Enter</kbd> its tree alone, <kbd>Esc</kbd> all trees</span>
</header>
<main id="box">
"#;

/// What is told of an event, before one is chosen.
const TOLD: &str = r#"</main>
<aside aria-label="What is known">
<section id="told" aria-live="polite" aria-label="The event">
<p>Point at an event, tap it, or press a key: here stands what it came of and what it sent.</p>
<noscript><p>This page answers by a script of its own, and scripts are off.</p></noscript>
</section>
"#;

/// The page of what a history tells.
pub fn page(
    alloc: Global,
    texts: &[Value],
    trace: &Trace,
    layout: &Layout,
    story: &Story,
) -> Result<String, AllocError> {
    let mut out = String::new(alloc);
    push_head(trace, &mut out)?;
    push_trees(story, &mut out)?;
    out.push_str(TOOLS)?;
    push_heads(layout, &mut out)?;
    push_picture(texts, trace, layout, story, &mut out)?;
    out.push_str(TOLD)?;
    push_tasks(story, trace, &mut out)?;
    push_signs(&mut out)?;
    out.push_str("</aside>\n<script>")?;
    out.push_str(SCRIPT)?;
    out.push_str("</script>\n</body>\n</html>\n")?;
    Ok(out)
}

/// The head of the page, and what stands before the list of trees. Its policy lets no script run but the page's own, whatever stands in
/// the page, and nothing be loaded.
fn push_head(trace: &Trace, out: &mut String) -> Result<(), AllocError> {
    out.push_str("<!DOCTYPE html>\n<html lang=\"en\">\n<head>\n<meta charset=\"utf-8\">\n")?;
    writeln!(
        out,
        r#"<meta http-equiv="Content-Security-Policy" content="default-src 'none'; style-src 'unsafe-inline'; script-src '{SCRIPT_SUM}'">"#
    )?;
    out.push_str("<meta name=\"viewport\" content=\"width=device-width,initial-scale=1\">\n")?;
    push_title(trace, out)?;
    out.push_str("<style>")?;
    out.push_str(SHEET)?;
    out.push_str("</style>\n</head>\n<body>\n<header>\n")?;
    let events = trace.rows;
    let nodes = trace.nodes;
    writeln!(out, "<h1>History: {events} events, nodes: {nodes}</h1>")?;
    out.push_str("<label>Tree <select id=\"tree\"><option value=\"\">all trees</option>")
}

/// The picture, without its legend and the heads of its lanes, and with the bounds of commands at its left.
fn push_picture(
    texts: &[Value],
    trace: &Trace,
    layout: &Layout,
    story: &Story,
    out: &mut String,
) -> Result<(), AllocError> {
    let form = Form::OnPage(story);
    let flying = trace.arrows.iter().any(|arrow| arrow.to.is_none());
    let last = layout.bottom() + if flying { ROW } else { Px(0) };
    let end = last + Px(8);
    let height = end - TOP;
    let width = layout.width + GUTTER;
    writeln!(
        out,
        r#"<svg id="picture" class="wide" style="--wide:{width}px" width="{width}" height="{height}" data-end="{end}" viewBox="-{GUTTER} {TOP} {width} {height}">"#
    )?;
    push_used(out)?;
    out.push_str("<g aria-hidden=\"true\">\n")?;
    push_lanes(layout, last, out)?;
    push_bounds(story, trace.rows, layout, out)?;
    out.push_str("</g>\n")?;
    push_events(texts, trace, layout, story, out)?;
    out.push_str("<g class=\"over\" aria-hidden=\"true\">\n")?;
    if flying {
        push_flying(trace.rows, out)?;
    }
    push_history(trace, layout, form, out)?;
    out.push_str("</g>\n</svg>\n")
}

/// What the signs of the picture mean.
fn push_signs(out: &mut String) -> Result<(), AllocError> {
    out.push_str("<details><summary>Signs</summary>\n<ul class=\"signs\">\n")?;
    for (sample, meaning) in LEGEND.iter() {
        writeln!(
            out,
            r#"<li><svg width="32" height="22" viewBox="-1 -11 32 22" aria-hidden="true">{sample}</svg>{meaning}</li>"#
        )?;
    }
    out.push_str("</ul>\n</details>\n")
}

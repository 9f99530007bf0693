//! The picture of the newest history among printed lines of `tasktree`: as one SVG, or as a page round that SVG which can be asked what each
//! event came of. It knows nothing of the world.
#![tactic(auto)]

mod about;
mod actions;
mod bars;
mod bounds;
mod causes;
mod columns;
mod draw;
mod event;
mod fault;
mod form;
mod layout;
mod legend;
mod lines;
mod look;
mod page;
mod parts;
mod px;
mod script;
mod sheet;
mod steps;
mod story;
mod text;
mod trace;
mod trees;
mod ways;

use draw::picture;
use es_io::{Sink, Source, read_all, write_all_of};
pub use fault::Fault;
use layout::Layout;
use lines::{Beside, HistoryLine, newest_history};
use page::page;
use serde_json::Value;
use std::alloc::{AllocError, Global};
use story::Story;
use text::shown_cells;
use trace::Trace;

/// The most bytes that are read.
const MAX_BYTES: usize = 268_435_456;

/// What is written of a history.
#[derive(Clone, Copy, PartialEq, Eq)]
pub enum Wanted {
    /// An SVG.
    Picture,
    /// A page with that SVG, which can be asked.
    Page,
}

/// What is wanted of the newest history among printed lines.
pub fn drawn(alloc: Global, wanted: Wanted, bytes: &[u8]) -> Result<String, Fault> {
    let history = newest_history(alloc, bytes)?;
    let events = history.events(alloc)?;
    let trace = Trace::of(alloc, events.as_slice())?;
    let layout = layout_of(alloc, &history, &trace)?;
    if wanted == Wanted::Picture {
        return Ok(picture(alloc, history.texts(), &trace, &layout)?);
    }
    let beside = Beside::of(alloc, bytes, &history, events.as_slice())?;
    let story = Story::of(alloc, events, &trace, beside)?;
    Ok(page(alloc, history.texts(), &trace, &layout, &story)?)
}

/// Where the parts of a picture stand.
fn layout_of(alloc: Global, history: &HistoryLine, trace: &Trace) -> Result<Layout, AllocError> {
    let cells = history
        .texts()
        .iter()
        .filter_map(Value::as_str)
        .map(shown_cells)
        .max();
    Layout::of(alloc, trace, cells.unwrap_or(0))
}

/// Reads printed lines and writes what is wanted of their newest history. Nothing is written where there is none.
pub fn draw_all<S: Source, K: Sink>(
    alloc: Global,
    wanted: Wanted,
    source: &mut S,
    sink: &mut K,
) -> Result<(), Fault> {
    let bytes = read_all(alloc, source, MAX_BYTES)?;
    let text = drawn(alloc, wanted, bytes.as_slice())?;
    write_all_of(sink, text.as_bytes())?;
    Ok(())
}

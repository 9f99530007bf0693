// Texts of events in the picture.

ghost use Rattle.std.specs.Prelude.{◌↔◌, IsNone};
ghost use Rattle.picture_parts.specs.Markup.{IsPlain};

use crate::layout::MAX_CELLS;
use std::alloc::AllocError;

/// The most characters of the whole text that stands behind a cut one.
pub const MAX_WHOLE: usize = 400;

/// How wide a character is: some scripts take two cells.
fn cells_of(c: char) -> usize {
    if c < '\u{1100}' { 1 } else { 2 }
}

/// How many cells a text takes in the picture.
pub fn shown_cells(text: &str) -> usize {
    let mut cells = 0_usize;
    for c in text.chars().take(MAX_CELLS) {
        cells = cells.saturating_add(cells_of(c));
    }
    cells.min(MAX_CELLS)
}

/// Appends a text, and an ellipsis in place of what there is no room for. The whole text then stands behind it.
pub fn push_shown(text: &str, out: &mut String) -> Result<(), AllocError> {
    match cut_of(text) {
        None => push_escaped(text, MAX_CELLS, out),
        Some(most) => {
            out.push_str("<title>")?;
            push_escaped(text, MAX_WHOLE, out)?;
            out.push_str("</title>")?;
            push_escaped(text, most, out)?;
            out.push('…')
        }
    }
}

/// How many characters of a text stand before an ellipsis, if there is no room for all.
fn cut_of(text: &str) -> Option<usize> {
    let mut cells = 0_usize;
    let mut fitting = 0_usize;
    for c in text.chars() {
        cells = cells.saturating_add(cells_of(c));
        if cells > MAX_CELLS {
            return Some(fitting.saturating_sub(1));
        }
        fitting = fitting.saturating_add(1);
    }
    None
}

/// Appends the first characters of a text, at most so many, as XML has them.
pub fn push_escaped(text: &str, most: usize, out: &mut String) -> Result<(), AllocError> {
    for c in text.chars().take(most) {
        match entity(c) {
            Some(name) => out.push_str(name)?,
            None => out.push(visible(c))?,
        }
    }
    Ok(())
}

/// The name by which a character is written that would else be a part of the markup.
fn entity(c: char) -> Option<&'static str>
    ensures plain { IsNone result ↔ IsPlain c }
{
    match c {
        '&' => Some("&amp;"),
        '<' => Some("&lt;"),
        '>' => Some("&gt;"),
        '"' => Some("&quot;"),
        _ => None,
    }
}

/// A character that XML has and that moves no other: a sign for a control or for one that turns the direction of writing.
fn visible(c: char) -> char
    ensures plain { IsPlain c → IsPlain result }
{
    match c {
        '\0'..='\u{1f}' => char::from_u32((c as u32).saturating_add(0x2400)).unwrap_or('?'),
        '\u{7f}'..='\u{9f}'
        | '\u{200e}'..='\u{200f}'
        | '\u{202a}'..='\u{202e}'
        | '\u{2066}'..='\u{2069}'
        | '\u{fffe}'..='\u{ffff}' => '\u{fffd}',
        _ => c,
    }
}

// Lines that are no JSON, or have numbers that are not whole.

use serde_json::Value;
use std::alloc::{AllocError, Global};

/// How many lines one value is looked for in.
const MAX_LINES: usize = 1000;

/// How many letters of a broken line are told.
const MAX_TOLD: usize = 24;

/// The bytes with which some programs begin a file.
pub const MARK: &[u8] = b"\xef\xbb\xbf";

/// Whether a number's text is a whole number in the range that is read.
fn is_whole(text: &str) -> bool {
    text != "-0" && (text.parse::<u64>().is_ok() || text.parse::<i64>().is_ok())
}

/// Whether a byte may stand in a number.
fn is_of_number(byte: u8) -> bool {
    byte.is_ascii_digit() || matches!(byte, b'-' | b'+' | b'.' | b'e' | b'E')
}

/// The numbers of a line of JSON that are not whole.
pub fn push_numbers(out: &mut String, line: &str) -> Result<(), AllocError> {
    let mut is_text = false;
    let mut is_escaped = false;
    let mut from = None;
    for (at, byte) in line.bytes().enumerate() {
        if is_text {
            is_text = is_escaped || byte != b'"';
            is_escaped = !is_escaped && byte == b'\\';
        } else if byte == b'"' {
            is_text = true;
        } else if is_of_number(byte) && (from.is_some() || byte == b'-' || byte.is_ascii_digit()) {
            from = Some(from.unwrap_or(at));
            continue;
        }
        if let Some(begin) = from.take() {
            if let Some(number) = line.get(begin..at) {
                if !is_whole(number) {
                    write!(
                        out,
                        "; {number} is no whole number from -9223372036854775808 to 18446744073709551615"
                    )?;
                }
            }
        }
    }
    Ok(())
}

/// A JSON value that begins at the first of some lines and ends at a later one: how many lines it takes, and the value.
pub fn spread(alloc: Global, lines: &[&[u8]]) -> Result<Option<(usize, Value)>, AllocError> {
    let mut whole = Vec::new(alloc);
    for (at, line) in lines.iter().take(MAX_LINES).enumerate() {
        whole.extend_from_slice(line)?;
        whole.extend_from_slice(b"\n")?;
        if at > 0 && line.trim_ascii_end().ends_with(b"}") {
            if let Ok(value) = Value::from_slice(alloc, whole.as_slice()) {
                return Ok(Some((at.saturating_add(1), value)));
            }
        }
    }
    Ok(None)
}

/// Tells where a line stops to be JSON.
pub fn push_broken(alloc: Global, out: &mut String, line: &[u8]) -> Result<(), AllocError> {
    let Err(error) = Value::from_slice(alloc, line) else {
        return Ok(());
    };
    if error.is_eof() {
        return out.push_str("; the line ends before the JSON does");
    }
    let at = error.column();
    write!(out, "; the fault is at byte {at}")?;
    let from = at.saturating_sub(MAX_TOLD);
    let near = line.get(from..at.min(line.len())).unwrap_or(b"");
    match std::str::from_utf8(near) {
        Ok(near) if !near.bytes().any(|byte| byte < b' ') => {
            write!(out, ", at the end of {near}")
        }
        _ => Ok(()),
    }
}

/// Tells where a line stops to be UTF-8.
pub fn push_utf8(out: &mut String, line: &[u8]) -> Result<(), AllocError> {
    match std::str::from_utf8(line) {
        Ok(_) => Ok(()),
        Err(error) => write!(out, "; at byte {}", error.valid_up_to().saturating_add(1)),
    }
}

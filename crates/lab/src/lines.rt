// Lines of scripts.

use crate::scene::{Listing, Move};
use crate::task::Id;
use serde_json::Value;
use std::alloc::{AllocError, Global};

/// Appends a line.
pub fn push_line(out: &mut Vec<u8>, line: &[u8]) -> Result<(), AllocError> {
    out.extend_from_slice(line)?;
    out.extend_from_slice(b"\n")
}

/// The line that makes a move.
pub fn line_of(alloc: Global, made: &Move) -> Result<String, AllocError> {
    match made {
        Move::Deliver(at) => format!(in alloc; "{{\"deliver\":{at}}}"),
        Move::Step(task) => format!(in alloc; "{{\"step\":\"{}\"}}", Id(*task)),
        Move::ListStep(Listing { node, parent }) => {
            format!(in alloc;
                "{{\"list_step\":{{\"node\":\"n{node}\",\"parent\":\"{}\"}}}}",
                Id(*parent)
            )
        }
        Move::Tick(ms) => format!(in alloc; "{{\"tick\":{ms}}}"),
    }
}

/// Where a command names an earlier one.
const NAMED: [&str; 6] = [
    "/cancel/command",
    "/scroll/command",
    "/clear_scroll/command",
    "/get_task/command",
    "/forget_task/command",
    "/wait_for/command",
];

/// The new number of a command, by its old one.
fn new_number(numbers: &[usize], old: u64) -> u64 {
    match numbers.get((old as usize).wrapping_sub(1)) {
        Some(number) => *number as u64,
        None => 0,
    }
}

/// Writes the new number where the command names an earlier one. Says whether it names one.
fn renumber(value: &mut Value, numbers: &[usize]) -> bool {
    for path in NAMED {
        if let Some(place) = value.pointer_mut(path) {
            if let Some(old) = place.as_u64() {
                *place = Value::from(new_number(numbers, old));
                return true;
            }
        }
    }
    false
}

/// Appends the line of a command, in which an earlier command that it names has its new number. `numbers` has these from the number of
/// the first command on, and 0 for a command that is gone. A line that names none stays as it is.
pub fn push_renumbered(
    alloc: Global,
    out: &mut Vec<u8>,
    line: &[u8],
    numbers: &[usize],
) -> Result<(), AllocError> {
    let Ok(mut value) = Value::from_slice(alloc, line) else {
        return push_line(out, line);
    };
    if !renumber(&mut value, numbers) {
        return push_line(out, line);
    }
    let text = value.to_string(alloc)?;
    push_line(out, text.as_bytes())
}

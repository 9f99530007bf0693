// All faults of an input, each told at length.

use crate::broken::{MARK, push_broken, push_numbers, push_utf8, spread};
use crate::explain::{Place, push_action, push_command, push_reference};
use crate::input::without_return;
use crate::known::{COMMANDS, nearest};
use crate::running::run;
use serde_json::Value;
use std::alloc::{AllocError, Global};
use task_top::{Cause, Cluster, Status};

/// How many faults are told at most.
const MAX_FAULTS: u32 = 200;

/// A line that is read, with its number in the input.
#[derive(Drop)]
struct Line {
    number: usize,
    text: Vec<u8>,
}

/// An input in which each line that was told is replaced by one that may stand there.
#[derive(Drop)]
struct Mended {
    alloc: Global,
    lines: Vec<Line>,
}

/// What was found.
#[derive(Drop)]
pub struct Report {
    pub text: String,
    pub faults: usize,
}

/// What a refused line is.
#[derive(Clone, Copy, PartialEq, Eq)]
enum Kind {
    Action,
    Source,
    Command,
}

impl Mended {
    /// The lines of an input.
    fn of(alloc: Global, bytes: &[u8]) -> Result<Mended, AllocError> {
        let mut lines = Vec::new(alloc);
        let mut number = 0_usize;
        for piece in bytes.split(|byte| *byte == b'\n') {
            number = number.saturating_add(1);
            let text = Vec::from_slice(alloc, without_return(piece))?;
            lines.push(Line { number, text })?;
        }
        Ok(Mended { alloc, lines })
    }

    /// The bytes of all lines.
    fn bytes(&self) -> Result<Vec<u8>, AllocError> {
        let mut bytes = Vec::new(self.alloc);
        let mut later = false;
        for line in self.lines.iter() {
            if later {
                bytes.push(b'\n')?;
            }
            later = true;
            bytes.extend_from_slice(line.text.as_slice())?;
        }
        Ok(bytes)
    }

    /// The text of the line at a place.
    fn text(&self, at: usize) -> &[u8] {
        match self.lines.get(at) {
            Some(line) => line.text.as_slice(),
            None => b"",
        }
    }

    /// Puts another text into the place of a line.
    fn put(&mut self, at: usize, text: &[u8]) -> Result<(), AllocError> {
        let text = Vec::from_slice(self.alloc, text)?;
        if let Some(line) = self.lines.get_mut(at) {
            line.text = text;
        }
        Ok(())
    }

    /// Leaves so many lines out.
    fn leave_out(&mut self, at: usize, count: usize) {
        for _ in 0..count {
            if at < self.lines.len() {
                drop(self.lines.remove(at));
            }
        }
    }

    /// What the line at a place is.
    fn kind(&self, at: usize) -> Kind {
        let mut kind = Kind::Action;
        for line in self.lines.iter().take(at) {
            let text = line.text.as_slice();
            kind = match kind {
                Kind::Source => Kind::Action,
                Kind::Action if text == b"--".as_slice() => Kind::Command,
                Kind::Action if !text.is_empty() => Kind::Source,
                other => other,
            };
        }
        kind
    }

    /// The names of the commands before a place.
    fn names_before(&self, at: usize) -> Result<Vec<String>, AllocError> {
        let mut names = Vec::new(self.alloc);
        let mut is_script = false;
        for line in self.lines.iter().take(at) {
            let text = line.text.as_slice();
            if is_script && !text.is_empty() {
                names.push(name_of(self.alloc, text)?)?;
            }
            is_script = is_script || text == b"--".as_slice();
        }
        Ok(names)
    }

    /// Whether a later line is `--`.
    fn has_dashes_after(&self, at: usize) -> bool {
        self.lines
            .iter()
            .skip(at)
            .any(|line| line.text.as_slice() == b"--".as_slice())
    }
}

/// The name of a command, and nothing where the line is none.
fn name_of(alloc: Global, text: &[u8]) -> Result<String, AllocError> {
    match Value::from_slice(alloc, text) {
        Ok(value) => match value
            .as_object()
            .and_then(|members| members.first_key_value())
        {
            Some((name, _)) => name.clone(),
            None => Ok(String::new(alloc)),
        },
        Err(_) => Ok(String::new(alloc)),
    }
}

/// A line that may stand in the place of a command of this name.
fn stand_in(name: &str) -> &'static [u8] {
    match name {
        "search" | "scroll" => br#"{"search":{"index":"lint","scroll":"1m"}}"#,
        "reindex" =>
            br#"{"reindex":{"body":{"source":{"index":"lint"},"dest":{"index":"other"}}}}"#,
        "cancel" => br#"{"cancel":{}}"#,
        _ => br#"{"summary":true}"#,
    }
}

/// A line that may stand in the place of one of this kind.
fn substitute(kind: Kind, name: &str) -> &'static [u8] {
    match kind {
        Kind::Action => br#"{"index":{"_index":"lint"}}"#,
        Kind::Source => b"{}",
        Kind::Command => stand_in(name),
    }
}

/// Explains a JSON value over several lines, and puts it on the first of them. Says whether it is one.
fn take_spread(out: &mut String, mended: &mut Mended, at: usize) -> Result<bool, AllocError> {
    let mut texts = Vec::new(mended.alloc);
    for line in mended.lines.iter().skip(at) {
        texts.push(line.text.as_slice())?;
    }
    let Some((count, value)) = spread(mended.alloc, texts.as_slice())? else {
        return Ok(false);
    };
    drop(texts);
    let last = mended.lines.get(at.saturating_add(count).saturating_sub(1));
    if let Some(last) = last {
        write!(
            out,
            "; the JSON goes on to line {}, and is to stand on one line",
            last.number
        )?;
    }
    let whole = value.to_string(mended.alloc)?;
    mended.put(at, whole.as_bytes())?;
    mended.leave_out(at.saturating_add(1), count.saturating_sub(1));
    Ok(true)
}

/// Explains a command before the line `--`, and puts that line there where it is missing. Says whether it is one.
fn take_early(
    out: &mut String,
    mended: &mut Mended,
    at: usize,
    name: &str,
) -> Result<bool, AllocError> {
    let Some(known) = nearest(mended.alloc, name, &COMMANDS)? else {
        return Ok(false);
    };
    let Some(line) = mended.lines.get(at) else {
        return Ok(false);
    };
    let number = line.number;
    if mended.has_dashes_after(at) {
        write!(out, "; the command {known} stands after the line --")?;
        mended.put(at, b"")?;
        return Ok(true);
    }
    write!(
        out,
        "; {known} is a command, and there is no line -- before line {number}"
    )?;
    let text = Vec::from_slice(mended.alloc, b"--")?;
    mended
        .lines
        .insert(at.min(mended.lines.len()), Line { number, text })?;
    Ok(true)
}

/// Explains a line that is no JSON. Says whether it was mended.
fn take_broken(out: &mut String, mended: &mut Mended, at: usize) -> Result<bool, AllocError> {
    if mended.text(at).starts_with(MARK) {
        out.push_str(
            "; it begins with a byte order mark, the bytes EF BB BF, which are to be left out",
        )?;
        let rest = Vec::from_slice(
            mended.alloc,
            mended.text(at).strip_prefix(MARK).unwrap_or(b""),
        )?;
        mended.put(at, rest.as_slice())?;
        return Ok(true);
    }
    if take_spread(out, mended, at)? {
        return Ok(true);
    }
    push_broken(mended.alloc, out, mended.text(at))?;
    Ok(false)
}

/// Explains a line whose JSON is refused. Says whether it was mended.
fn take_value(
    out: &mut String,
    mended: &mut Mended,
    cluster: &Cluster,
    at: usize,
    cause: Cause,
) -> Result<bool, AllocError> {
    let alloc = mended.alloc;
    let Ok(value) = Value::from_slice(alloc, mended.text(at)) else {
        return Ok(false);
    };
    match mended.kind(at) {
        Kind::Source => {
            out.push_str("; the source of a document is an object")?;
            Ok(false)
        }
        Kind::Action => {
            let name = name_of(alloc, mended.text(at))?;
            if take_early(out, mended, at, name.as_str())? {
                return Ok(true);
            }
            push_action(alloc, out, &value)?;
            Ok(false)
        }
        Kind::Command => {
            let before = mended.names_before(at)?;
            let place = Place {
                alloc,
                nodes: cluster.nodes,
                before: before.as_slice(),
            };
            if matches!(cause, Cause::BadReference | Cause::NotWaitable) {
                push_reference(out, &value, &place)?;
            } else {
                push_command(out, &value, &place)?;
            }
            Ok(false)
        }
    }
}

/// Explains the refusal of the line at a place. Says whether it was mended.
fn take_cause(
    out: &mut String,
    mended: &mut Mended,
    cluster: &Cluster,
    at: usize,
    cause: Cause,
) -> Result<bool, AllocError> {
    match cause {
        Cause::BadJson => return take_broken(out, mended, at),
        Cause::NoSource => {
            out.push_str("; the next line is to be the document, an object")?;
            mended.put(at, b"")?;
            return Ok(true);
        }
        Cause::LineTooLong => {
            write!(
                out,
                "; it has {} bytes, and 1048576 are the most",
                mended.text(at).len()
            )?;
        }
        Cause::BadUtf8 => push_utf8(out, mended.text(at))?,
        Cause::NotWhole => push_numbers(out, std::str::from_utf8(mended.text(at)).unwrap_or(""))?,
        Cause::Conflict => {
            out.push_str(
                "; an earlier line wrote a document of that id, and create does not replace it",
            )?;
        }
        _ => return take_value(out, mended, cluster, at, cause),
    }
    Ok(false)
}

/// Tells the refusal of a line and mends it. Says whether there may be more.
fn take_refusal(
    out: &mut String,
    mended: &mut Mended,
    cluster: &Cluster,
    line: u32,
    cause: Cause,
) -> Result<bool, AllocError> {
    let Some(at) = (line as usize).checked_sub(1) else {
        write!(out, "{cause}\n")?;
        return Ok(false);
    };
    let number = match mended.lines.get(at) {
        Some(line) => line.number,
        None => return Ok(false),
    };
    write!(out, "line {number}: {cause}")?;
    if cause == Cause::TooManyLines {
        out.push_str("; 65535 are the most\n")?;
        return Ok(false);
    }
    let kind = mended.kind(at);
    let met = name_of(mended.alloc, mended.text(at))?;
    let name = nearest(mended.alloc, met.as_str(), &COMMANDS)?.unwrap_or("");
    if !take_cause(out, mended, cluster, at, cause)? {
        mended.put(at, substitute(kind, name))?;
    }
    out.push_str("\n")?;
    Ok(true)
}

/// All faults of an input.
pub fn lint(alloc: Global, cluster: &Cluster, bytes: &[u8]) -> Result<Report, AllocError> {
    let mut text = String::new(alloc);
    let mut faults = 0_usize;
    let mut mended = Mended::of(alloc, bytes)?;
    for _ in 0..MAX_FAULTS {
        let input = mended.bytes()?;
        match run(alloc, cluster, input.as_slice())?.status {
            Status::Refused(line, cause) => {
                faults = faults.saturating_add(1);
                if !take_refusal(&mut text, &mut mended, cluster, line, cause)? {
                    return Ok(Report { text, faults });
                }
            }
            _ => return Ok(Report { text, faults }),
        }
    }
    text.push_str("and maybe more\n")?;
    Ok(Report { text, faults })
}

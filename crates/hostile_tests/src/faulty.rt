//! Inputs that are refused, each at its first bad line and for the first of the causes there.
ghost use Rattle.std.specs.Prelude.{◌<◌};

use crate::runs::{pieces_of, run};
use std::alloc::{AllocError, Global};
use task_ids::Cause;
use task_top::Status;

/// An input that is refused: what comes first in it, a text that comes so many times after that, the line that is to blame, and why.
#[derive(Clone, Copy)]
struct Faulty {
    before: &'static str,
    text: &'static str,
    times: u32,
    line: u32,
    cause: Cause,
}

/// An input with this text once.
fn once(before: &'static str, text: &'static str, line: u32, cause: Cause) -> Faulty {
    Faulty {
        before,
        text,
        times: 1,
        line,
        cause,
    }
}

/// An action that wants a source.
const ACTION: &str = "{\"index\":{\"_index\":\"a\",\"_id\":\"1\"}}\n";

/// The end of the documents.
const DASHES: &str = "--\n";

/// A command for which none can wait.
const TICK: &str = "--\n{\"tick\":1}\n";

/// A line that is longer by one byte than a line may be.
const LONG_LINE: Faulty = Faulty {
    before: "",
    text: "x",
    times: 1_048_577,
    line: 1,
    cause: Cause::LineTooLong,
};

/// One command more than a script may have.
const MANY_COMMANDS: Faulty = Faulty {
    before: DASHES,
    text: "{\"tick\":0}\n",
    times: 65_536,
    line: 65_537,
    cause: Cause::TooManyLines,
};

/// The inputs that are refused.
fn faulty_inputs() -> [Faulty; 12] {
    let other_field = r#"{"search":{"index":"a","x":1}}"#;
    let other_node = r#"{"search":{"index":"a","node":"n9"}}"#;
    let own_number = r#"{"cancel":{"command":1}}"#;
    [
        once("", r#"{"index":{"_index":""}}"#, 1, Cause::BadAction),
        once(ACTION, "[1]", 2, Cause::NotObject),
        once(ACTION, r#"{"x":-0}"#, 2, Cause::NotWhole),
        once(ACTION, r#"{"x":18446744073709551616}"#, 2, Cause::NotWhole),
        once(DASHES, r#"{"foo":1}"#, 2, Cause::UnknownCommand),
        once(DASHES, other_field, 2, Cause::UnknownField),
        once(DASHES, r#"{"search":{}}"#, 2, Cause::BadField),
        once(DASHES, other_node, 2, Cause::UnknownNode),
        once(DASHES, own_number, 2, Cause::BadReference),
        once(TICK, r#"{"wait_for":{"command":1}}"#, 3, Cause::NotWaitable),
        LONG_LINE,
        MANY_COMMANDS,
    ]
}

impl Faulty {
    /// Its bytes.
    fn input(&self, alloc: Global) -> Result<String, AllocError> {
        let mut input = String::from_str(alloc, self.before)?;
        for _ in 0..self.times {
            input.push_str(self.text)?;
        }
        Ok(input)
    }

    /// Whether it is refused so, and nothing written, where it comes in pieces of so many bytes.
    fn is_refused_in(&self, alloc: Global, piece: usize) -> Result<bool, AllocError>
        requires piece { 0 < piece }
    {
        let input = self.input(alloc)?;
        let ran = run(alloc, input.as_str(), pieces_of(piece))?;
        Ok(ran.is(Status::Refused(self.line, self.cause), &[]))
    }

    /// Whether it is refused so in large pieces, and where it is short in small ones too.
    fn is_refused(&self, alloc: Global) -> Result<bool, AllocError> {
        let in_large = self.is_refused_in(alloc, 65_536)?;
        if self.times > 1 {
            return Ok(in_large);
        }
        let in_bytes = self.is_refused_in(alloc, 1)?;
        let in_sevens = self.is_refused_in(alloc, 7)?;
        let in_small = self.is_refused_in(alloc, 64)?;
        Ok(in_large && in_bytes && in_sevens && in_small)
    }
}

#[test]
fn a_faulty_input_is_refused_at_its_line(rt: HostRuntime) -> Result<(), AllocError> {
    for faulty in faulty_inputs() {
        assert!(rt;
            faulty.is_refused(rt.alloc())?,
            "{} {}",
            faulty.before,
            faulty.text
        );
    }
    Ok(())
}

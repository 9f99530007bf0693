// Why no picture is drawn.

use es_io::{ReadAll, WroteFault};
use std::alloc::{AllocError, AllocFailed};
use std::fmt;

/// The most events that a picture shows.
pub const MAX_EVENTS: usize = 2000;

/// Why no picture is drawn. Lines and events are counted from 1.
#[derive(Drop)]
pub enum Fault {
    /// The command line has other words than `--html` alone.
    Usage,
    /// Standard input has more bytes than the program reads.
    TooLong,
    /// A line is no UTF-8 or no JSON, or nests deeper than JSON is read.
    NotJson {
        line: usize,
    },
    /// No line has the reply of a `history`.
    NoHistory,
    /// The newest history has more events than a picture shows.
    TooManyEvents {
        line: usize,
        events: usize,
    },
    /// The newest history has something that is not the text of an event.
    UnknownEvent {
        line: usize,
        event: usize,
        text: String,
    },
    /// Standard input could not be read.
    ReadFault,
    /// Standard output took only a first part of the picture.
    WriteFault,
    /// Memory ran out.
    Memory,
}

impl Fault {
    /// The program's exit status.
    pub fn exit_code(&self) -> u8 {
        match self {
            Fault::Usage => 1,
            Fault::TooLong
            | Fault::NotJson { .. }
            | Fault::NoHistory
            | Fault::TooManyEvents { .. }
            | Fault::UnknownEvent { .. } => 2,
            Fault::ReadFault => 3,
            Fault::WriteFault => 4,
            Fault::Memory => 5,
        }
    }
}

/// What the program shows on standard error.
impl fmt::Display for Fault {
    fn fmt<W: fmt::Write>(&self, f: &mut fmt::Formatter<W>) -> fmt::Result {
        match self {
            Fault::Usage => f.write_str("usage: picture [--html] <LINES >PICTURE"),
            Fault::TooLong => f.write_str("picture: input is too long"),
            Fault::NotJson { line } => write!(f, "picture: line {line}: not JSON"),
            Fault::NoHistory => f.write_str(
                r#"picture: no line has a history; a script asks for it by {"history":true}"#,
            ),
            Fault::TooManyEvents { line, events } => write!(
                f,
                "picture: line {line}: {events} events are more than {MAX_EVENTS}; ask for the history earlier in the script, or run a shorter one"
            ),
            Fault::UnknownEvent { line, event, text } => {
                write!(
                    f,
                    "picture: line {line}: event {event} is not known: {text}"
                )
            }
            Fault::ReadFault => f.write_str("picture: read failed"),
            Fault::WriteFault => f.write_str("picture: write failed"),
            Fault::Memory => f.write_str("picture: out of memory"),
        }
    }
}

impl From<AllocError> for Fault {
    fn from(_: AllocError) -> Self {
        Fault::Memory
    }
}

impl<T: Drop> From<AllocFailed<T>> for Fault {
    fn from(_: AllocFailed<T>) -> Self {
        Fault::Memory
    }
}

impl From<ReadAll> for Fault {
    fn from(error: ReadAll) -> Self {
        match error {
            ReadAll::ReadFault => Fault::ReadFault,
            ReadAll::TooLong(_) => Fault::TooLong,
            ReadAll::Memory => Fault::Memory,
        }
    }
}

impl From<WroteFault> for Fault {
    fn from(_: WroteFault) -> Self {
        Fault::WriteFault
    }
}

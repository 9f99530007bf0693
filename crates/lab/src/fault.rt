// Why the companion has nothing to show.

use std::alloc::{AllocError, AllocFailed};
use std::fmt;
use task_top::Status;

/// Why there is nothing to show. Standard error tells it, and the exit status says which kind it is.
#[derive(Clone, Copy)]
pub enum Fault {
    /// The words are in none of the forms.
    Usage,
    /// Those that the program is to be given are in none of its forms, which is told at length.
    Words,
    /// The program itself would end so.
    Ran(Status),
    /// The text that a script is to be shrunk for is not printed at all.
    NotPrinted,
    /// A schedule has more moves than a script has lines.
    TooManyMoves,
    /// The moves that were written out give another history. That is a fault of this program.
    OtherHistory,
    /// Standard input could not be read.
    ReadFault,
    /// Standard output took only a first part.
    WriteFault,
    /// Memory ran out.
    Memory,
}

impl Fault {
    /// The exit status.
    pub fn exit_code(self) -> u8 {
        match self {
            Fault::Usage | Fault::Words => 1,
            Fault::Ran(status) => status.exit_code(),
            Fault::NotPrinted | Fault::TooManyMoves => 2,
            Fault::ReadFault => 3,
            Fault::WriteFault => 4,
            Fault::Memory => 5,
            Fault::OtherHistory => 9,
        }
    }
}

impl fmt::Display for Fault {
    fn fmt<W: fmt::Write>(&self, f: &mut fmt::Formatter<W>) -> fmt::Result {
        match self {
            Fault::Usage => f.write_str(
                "usage: lab walk|replay [--nodes N] [--shards S] [--slots L] | lint WORDS | shrink TEXT [--nodes N] [--shards S] [--slots L]",
            ),
            Fault::Ran(status) => write!(f, "{status}"),
            Fault::NotPrinted => f.write_str("lab: the script does not print that text"),
            Fault::TooManyMoves => f.write_str("lab: the schedule has more than 65535 lines"),
            Fault::OtherHistory => f.write_str("lab: the moves give another history"),
            Fault::Words => Ok(()),
            Fault::ReadFault => f.write_str("lab: read failed"),
            Fault::WriteFault => f.write_str("lab: write failed"),
            Fault::Memory => f.write_str("lab: out of memory"),
        }
    }
}

impl From<AllocError> for Fault {
    fn from(_: AllocError) -> Self {
        Fault::Memory
    }
}

impl<T: Drop> From<AllocFailed<T>> for Fault {
    fn from(_: AllocFailed<T>) -> Self {
        Fault::Memory
    }
}

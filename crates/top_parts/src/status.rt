ghost use Rattle.std.specs.Prelude.{◌≡◌, Some};
ghost use Rattle.top_parts.specs.Status.{exit_code_of, status_text};

use std::fmt;
use task_ids::Cause;

/// How a call ended that the program makes.
#[derive(Clone, Copy, PartialEq, Eq)]
pub enum Status {
    /// Every command has its line, written in order.
    Done,
    /// The words of the command line are in none of the accepted forms. No top call gives it, the program does.
    Usage,
    /// The input is refused at this line, counted from 1, or 0 where no line is to blame. Nothing was run or written.
    Refused(u32, Cause),
    /// The source failed. Nothing was run or written.
    ReadFault,
    /// The sink failed. A first part of the text is written.
    WriteFault,
    /// Memory ran out. Nothing is written.
    Memory,
    /// A worker could not be started. Nothing is written.
    NoThread,
    /// A run needs more than 4,000,000 events. Nothing is written.
    HistoryFull,
    /// A node needs more than 1,048,575 task numbers. Nothing is written.
    NumbersSpent,
}

impl Status {
    /// The program's exit status.
    pub fn exit_code(self) -> u8
        ensures { result ≡ exit_code_of self }
    {
        match self {
            Status::Done => 0,
            Status::Usage => 1,
            Status::Refused(_, _) => 2,
            Status::ReadFault => 3,
            Status::WriteFault => 4,
            Status::Memory => 5,
            Status::NoThread => 6,
            Status::HistoryFull => 7,
            Status::NumbersSpent => 8,
        }
    }
}

/// What the program shows on standard error. `Done` shows nothing.
impl fmt::Display for Status {
    ghost output = { λ status. Some (status_text status) };

    fn fmt<W: fmt::Write>(&self, f: &mut fmt::Formatter<W>) -> fmt::Result {
        match self {
            Status::Done => Ok(()),
            Status::Usage => f.write_str(
                "usage: tasktree sim|run [--nodes N] [--shards S] [--slots L] | gen N",
            ),
            Status::Refused(0, cause) => write!(f, "tasktree: {cause}"),
            Status::Refused(line, cause) => write!(f, "tasktree: line {line}: {cause}"),
            Status::ReadFault => f.write_str("tasktree: read failed"),
            Status::WriteFault => f.write_str("tasktree: write failed"),
            Status::Memory => f.write_str("tasktree: out of memory"),
            Status::NoThread => f.write_str("tasktree: no thread"),
            Status::HistoryFull => f.write_str("tasktree: history is full"),
            Status::NumbersSpent => f.write_str("tasktree: task numbers are spent"),
        }
    }
}

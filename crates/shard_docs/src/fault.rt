ghost use Rattle.std.specs.Prelude.{◌≡◌};
ghost use Rattle.shard_docs.specs.Fault.{read_at};

use std::alloc::{AllocError, AllocFailed};
use task_ids::Cause;
use thiserror::Error;

/// Why a line was not read, whichever number it has.
#[derive(Clone, Copy, Debug, PartialEq, Eq, Error)]
pub enum LineError {
    /// The first of the causes for which it is refused.
    #[error("{0}")]
    Refused(Cause),
    /// Memory ran out.
    #[error("out of memory")]
    Memory,
}

impl From<Cause> for LineError {
    ghost use Rattle.shard_docs.specs.declared.fault.LineError.TheVariants.{Refused};
    ghost use Rattle.std.specs.Prelude.{◌≡◌};

    ghost from_gives = { λ cause error. error ≡ Refused cause };

    fn from(cause: Cause) -> LineError {
        LineError::Refused(cause)
    }
}

impl From<AllocError> for LineError {
    ghost use Rattle.shard_docs.specs.declared.fault.LineError.TheVariants.{Memory};
    ghost use Rattle.std.specs.Prelude.{◌≡◌};

    ghost from_gives = { λ _ error. error ≡ Memory };

    fn from(_refused: AllocError) -> LineError {
        LineError::Memory
    }
}

impl<T: Drop> From<AllocFailed<T>> for LineError {
    ghost use Rattle.shard_docs.specs.declared.fault.LineError.TheVariants.{Memory};
    ghost use Rattle.std.specs.Prelude.{◌≡◌};

    ghost from_gives = { λ _ error. error ≡ Memory };

    fn from(_refused: AllocFailed<T>) -> LineError {
        LineError::Memory
    }
}

/// Why a corpus was not read.
#[derive(Clone, Copy, Debug, PartialEq, Eq, Error)]
pub enum CorpusError {
    /// The first bad line, from 1, and the first of its causes.
    #[error("line {line}: {cause}")]
    Bad { line: u32, cause: Cause },
    /// Memory ran out at this line, from 1.
    #[error("line {line}: out of memory")]
    Memory { line: u32 },
}

/// What was read of the line of this number.
pub fn read_at<T>(line: u32, read: Result<T, LineError>) -> Result<T, CorpusError>
    ensures { result ≡ read_at line read }
{
    match read {
        Ok(value) => Ok(value),
        Err(LineError::Refused(cause)) => Err(CorpusError::Bad { line, cause }),
        Err(LineError::Memory) => Err(CorpusError::Memory { line }),
    }
}

use shard_docs::CorpusError;
use task_ids::Cause;
use thiserror::Error;

/// Why a script was not read.
#[derive(Clone, Copy, Debug, PartialEq, Eq, Error)]
pub enum ScriptError {
    /// The first bad line, numbered over the whole input, and the first of its causes.
    #[error("line {line}: {cause}")]
    Bad { line: u32, cause: Cause },
    /// Memory ran out at this line, numbered over the whole input.
    #[error("line {line}: out of memory")]
    Memory { line: u32 },
}

impl From<CorpusError> for ScriptError {
    ghost use Rattle.std.specs.Prelude.{◌≡◌};
    ghost use Rattle.script_lang.specs.Answers.{same_error};

    ghost from_gives = { λ corpus error. error ≡ same_error corpus };

    fn from(error: CorpusError) -> ScriptError {
        match error {
            CorpusError::Bad { line, cause } => ScriptError::Bad { line, cause },
            CorpusError::Memory { line } => ScriptError::Memory { line },
        }
    }
}

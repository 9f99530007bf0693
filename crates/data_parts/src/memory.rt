//! Want of memory ends a run.
ghost use Rattle.std.specs.Prelude.{◌≡◌, Ok, IfOk, IfErr};

use std::alloc::AllocError;
use task_events::Stop;

/// What was made, or the end of the run where memory ran out.
pub fn or_memory<T>(made: Result<T, AllocError>) -> Result<T, Stop>
    ensures ok { IfOk result (λ t. made ≡ Ok t) }
    ensures memory { IfErr result (λ stop. stop ≡ Stop.Memory) }
{
    match made {
        Ok(t) => Ok(t),
        Err(_) => Err(Stop::Memory),
    }
}

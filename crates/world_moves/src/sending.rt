//! How a message is sent.

ghost use Rattle.std.specs.Prelude.{◌≡◌, ◌++◌, ◌∷◌, [], IfErr, OnOk, OnErr};

use crate::flight::{Flight, Sent};
use task_events::Stop;

/// Sends a message after all others. Where memory runs out it is given up, and nothing has changed.
pub(crate) fn send(flight: &mut Flight, sent: Sent) -> Result<(), Stop>
    ensures ok { OnOk result (flight.new ≡ flight.old ++ sent ∷ []) }
    ensures memory { IfErr result (λ stop. stop ≡ Stop.Memory) }
    ensures err { OnErr result (flight.new ≡ flight.old) }
{
    match flight.send(sent) {
        Ok(()) => Ok(()),
        Err(failed) => {
            drop(failed);
            Err(Stop::Memory)
        }
    }
}

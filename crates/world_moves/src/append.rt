ghost use Rattle.std.specs.Prelude.{◌≡◌, ◌∷◌, ◌≤◌, ◌↔◌, length, Err, IsOk, IfErr, OnOk, OnErr};
ghost use Rattle.task_events.specs.declared.history.TheConstants.{MAX_EVENTS};
ghost use Rattle.task_events.specs.declared.history.PushError.TheVariants as push_errors;
ghost use Rattle.task_events.specs.History.{returned};

use task_events::{Event, History, PushError, Stop};

/// What came of adding an event.
fn outcome_of(pushed: &Result<(), PushError>) -> Result<(), Stop>
    ensures ok { IsOk result ↔ IsOk pushed.now }
    ensures full { IfErr pushed.now (λ error. (result ≡ Err Stop.HistoryFull) ↔ (error ≡ push_errors.Full (returned error))) }
    ensures numbers { result ≡ Err Stop.NumbersSpent → ⊥ }
{
    match pushed {
        Ok(()) => Ok(()),
        Err(PushError::Full(_)) => Err(Stop::HistoryFull),
        Err(PushError::Memory(_)) => Err(Stop::Memory),
    }
}

/// Adds an event to the history. It fails where that is full (`HistoryFull`, at 4,000,000 events), and for want of memory (`Memory`).
pub fn append(history: &mut History, event: Event) -> Result<(), Stop>
    ensures ok { OnOk result (history.new ≡ event ∷ history.old) }
    ensures room { OnOk result (length history.new ≤ MAX_EVENTS) }
    ensures err { OnErr result (history.new ≡ history.old) }
    ensures full { (result ≡ Err Stop.HistoryFull) ↔ (length history.old ≡ MAX_EVENTS) }
    ensures numbers { (result ≡ Err Stop.NumbersSpent) → ⊥ }
{
    let pushed = history.push(event);
    let outcome = outcome_of(&pushed);
    drop(pushed);
    outcome
}

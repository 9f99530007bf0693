//! The clock moves.

ghost use Rattle.std.specs.Prelude.{◌≡◌, ◌≢◌, ◌+◌, ◌<◌, ◌≤◌, ◌*◌, ◌^◌, ◌∷◌, length, Err, OnOk, OnErr};
ghost use Rattle.task_events.specs.declared.history.TheConstants.{MAX_EVENTS};
ghost use Rattle.task_events.specs.Cancels.{last_command};
ghost use Rattle.task_events.specs.Clock.{clock};
ghost use Rattle.script_lang.specs.KeepAlives.{day_ms};
ghost use Rattle.world_moves.specs.Describing.{longest_tick};
ghost use Rattle.world_moves.specs.Ties.{IsTied, Keeps};

use crate::append::append;
use crate::pages::expire;
use crate::state::State;
use task_events::{Event, Stop};

/// The clock moves on by so many milliseconds, and each context goes that was not used for its keep-alive.
///
/// It fails where the history is full (`HistoryFull`, at 4,000,000 events) or memory runs out (`Memory`); then nothing
/// was appended.
pub fn tick(state: &mut State<'_>, ms: u64) -> Result<(), Stop>
    requires tied { IsTied state.old }
    requires low { last_command state.old.history ≤ length state.old.script.now.commands → clock state.old.history + ms ≤ last_command state.old.history * day_ms }
    requires high { ms ≤ longest_tick }
    ensures happened { OnOk result (state.new.history ≡ Event.Tick ms ∷ state.old.history) }
    ensures tied { OnOk result (IsTied state.new) }
    ensures keeps { Keeps state.old state.new }
    ensures room { OnOk result (length state.new.history ≤ MAX_EVENTS) }
    ensures err { OnErr result (state.new.history ≡ state.old.history) }
    ensures full { result ≡ Err Stop.HistoryFull → length state.old.history ≡ MAX_EVENTS }
    ensures numbers { result ≡ Err Stop.NumbersSpent → ⊥ }
    ensures memory { result ≡ Err Stop.Memory → length state.old.history ≢ MAX_EVENTS }
{
    append(&mut state.history, Event::Tick { ms })?;
    state.clock += ms;
    expire(&mut state.contexts, state.clock);
    Ok(())
}

//! A live task asks for a child.

ghost use Rattle.std.specs.Prelude.{◌≡◌, ◌≢◌, ◌∷◌, ◌+◌, ◌≤◌, true, false, length, Err, None, OnOk, OnErr};
ghost use Rattle.task_events.specs.declared.history.TheConstants.{MAX_EVENTS};
ghost use Rattle.task_events.specs.Asks.{last_ask};
ghost use Rattle.task_events.specs.Kinds.{node_for};
ghost use Rattle.task_events.specs.Bans.{mark_of};
ghost use Rattle.task_events.specs.Tasks.{is_live, is_new};
ghost use Rattle.node_parts.specs.Running.{PlansToAsk};
ghost use Rattle.world_moves.specs.Ties.{IsTied, Keeps, task_at};

use crate::append::append;
use crate::flight::Sent;
use crate::sending::send;
use crate::state::State;
use node_parts::kinds::node_for;
use task_events::{Event, MAX_EVENTS, Request, Stop};
use task_ids::TaskId;

/// A task asks for what its plan says: the request goes on its way to the node of its shard.
///
/// It fails where the history is full (`HistoryFull`, at 4,000,000 events), which takes no memory to find, or else where memory runs out
/// (`Memory`); then nothing was appended.
pub fn ask(state: &mut State<'_>, task: TaskId, request: Request) -> Result<(), Stop>
    requires tied { IsTied state.old }
    requires live { is_live task state.old.history ≡ true }
    requires passed { is_new task state.old.history ≡ false }
    requires unmarked { mark_of task state.old.history ≡ None }
    requires planned { PlansToAsk (task_at state.old.tasks task) state.old.clock request }
    ensures happened { OnOk result (state.new.history
        ≡ Event.Ask task (last_ask task state.old.history + 1) (node_for state.old.cluster task request) request ∷ state.old.history) }
    ensures tied { OnOk result (IsTied state.new) }
    ensures keeps { Keeps state.old state.new }
    ensures err { OnErr result (state.new.history ≡ state.old.history) }
    ensures full { result ≡ Err Stop.HistoryFull → length state.old.history ≡ MAX_EVENTS }
    ensures numbers { result ≡ Err Stop.NumbersSpent → ⊥ }
    ensures room { OnOk result (length state.new.history ≤ MAX_EVENTS) }
    ensures memory { result ≡ Err Stop.Memory → length state.old.history ≢ MAX_EVENTS }
{
    if state.history.len() == MAX_EVENTS {
        drop(request);
        return Err(Stop::HistoryFull);
    }
    let to = node_for(task, &request, &state.cluster);
    let at = state.history.len();
    let Some(running) = state.tasks.get_mut(&task) else {
        unreachable!()
    };
    let running = running.get_mut();
    let Ok(headers) = running.headers.copy() else {
        drop(request);
        return Err(Stop::Memory);
    };
    let token = match running.ask(to, state.clock) {
        Ok(token) => token,
        Err(stop) => {
            drop(headers);
            drop(request);
            return Err(stop);
        }
    };
    let number = token.ask();
    let sent = Sent::Request {
        token,
        to,
        at,
        headers,
    };
    match send(&mut state.flight, sent) {
        Ok(()) => {}
        Err(stop) => {
            drop(request);
            return Err(stop);
        }
    }
    append(
        &mut state.history,
        Event::Ask {
            parent: task,
            ask: number,
            to,
            request,
        },
    )
}

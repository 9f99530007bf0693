//! How a task starts: it takes a slot of its node, and is kept.

ghost use Rattle.std.specs.Prelude.{◌≡◌, ◌≢◌, ◌∷◌, ◌+◌, ◌-◌, ◌≤◌, ◌<◌, ◌↔◌, length, slice_get, slice_set, Err, Some, None, cond, IfOk, IfErr, OnOk, OnErr, IsErrOf};
ghost use Rattle.std.specs.BTreeMap.{is_at};
ghost use Rattle.child_track.specs.Token.{token_parent};
ghost use Rattle.task_ids.specs.TaskIdOrder.{task_id_cmp};
ghost use Rattle.task_ids.specs.declared.task_id.TaskId.{TaskId};
ghost use Rattle.task_table.specs.Table.{Table, with_task};
ghost use Rattle.task_table.specs.Answer.{refused_token};
ghost use Rattle.task_events.specs.declared.history.TheConstants.{MAX_EVENTS};
ghost use Rattle.world_moves.specs.Moves.{greatest_number, NodeLacksNumber};
ghost use Rattle.world_moves.specs.Ties.{IsTied, task_at};

use crate::append::append;
use crate::state::State;
use child_track::AskToken;
use node_parts::running::Running;
use std::collections::BTreeMap;
use task_events::{Event, History, MAX_EVENTS, Stop};
use task_ids::{Boxed, NewTask, TaskId};
use task_table::{PutError, TaskTable, Ticket};

/// Puts a task into the table of a node, from 1 on, under the node's next number. It is refused where no slot is free (`Full`),
/// where the node has given its last number (`NumbersSpent`, at 1,048,575), and for want of memory (`Memory`); then nothing has
/// changed and the token comes back.
pub fn put_on(
    tables: &mut Vec<TaskTable>,
    node: u32,
    task: NewTask,
    token: Option<AskToken>,
) -> Result<Ticket, PutError>
    requires low { 1 ≤ node }
    requires high { node ≤ length tables.old.items }
    requires token { token_parent token ≡ task.parent }
    ensures id { (table : Table) → slice_get tables.old.items (node - 1) ≡ Some table → IfOk result (λ ticket.
        (ticket.id.node ≡ table.node) × (ticket.id.number ≡ table.last + 1)) }
    ensures token { IfOk result (λ ticket. ticket.token ≡ token) }
    ensures row { (table : Table) → slice_get tables.old.items (node - 1) ≡ Some table → IfOk result (λ ticket.
        tables.new.items ≡ slice_set tables.old.items (node - 1) (with_task table ticket.id task)) }
    ensures free { (table : Table) → slice_get tables.old.items (node - 1) ≡ Some table
        → OnOk result (length table.live ≢ table.slots) }
    ensures full { (table : Table) → slice_get tables.old.items (node - 1) ≡ Some table
        → IsErrOf result (PutError.Full token) → length table.live ≡ table.slots }
    ensures spent { (table : Table) → slice_get tables.old.items (node - 1) ≡ Some table
        → IsErrOf result (PutError.NumbersSpent token)
        → (length table.live < table.slots) × (table.last ≡ greatest_number) }
    ensures given_back { IfErr result (λ refused. refused_token refused ≡ token) }
    ensures err { OnErr result (tables.new.items ≡ tables.old.items) }
{
    tables[node as usize - 1].put(task, token)
}

/// Whether the event can come with which a root or a child comes to a node, from 1 on. It takes no memory, and fails where a slot is free
/// and the node has given its last number (`NumbersSpent`, at 1,048,575), else where the history is full (`HistoryFull`, at 4,000,000
/// events).
pub fn check_room(state: &State<'_>, node: u32) -> Result<(), Stop>
    requires tied { IsTied state.now }
    requires low { 1 ≤ node }
    requires high { node ≤ state.now.cluster.nodes }
    ensures spent { (result ≡ Err Stop.NumbersSpent) ↔ NodeLacksNumber state.now.cluster state.now.history node }
    ensures full { result ≡ Err Stop.HistoryFull → length state.now.history ≡ MAX_EVENTS }
    ensures room { OnOk result (length state.now.history ≢ MAX_EVENTS) }
    ensures memory { result ≡ Err Stop.Memory → ⊥ }
{
    if state.tables[node as usize - 1].is_spent() {
        return Err(Stop::NumbersSpent);
    }
    if state.history.len() == MAX_EVENTS {
        return Err(Stop::HistoryFull);
    }
    Ok(())
}

/// Spends the token of a task that does not start.
pub fn spend(token: Option<AskToken>) {
    if let Some(token) = token {
        let _receipt = token.reject();
    }
}

/// Keeps a new task, and then notes the event with which it starts.
///
/// It fails where the history is full (`HistoryFull`, at 4,000,000 events) or memory runs out (`Memory`); then nothing
/// was appended, and the task may be kept.
pub fn keep_started(
    history: &mut History,
    tasks: &mut BTreeMap<TaskId, Boxed<Running>>,
    running: Boxed<Running>,
    event: Event,
) -> Result<(), Stop>
    ensures happened { OnOk result (history.new ≡ event ∷ history.old) }
    ensures kept { OnOk result ((q : TaskId) → task_at tasks.new q
        ≡ cond (is_at (task_id_cmp running.ticket.id) q) (Some running) (task_at tasks.old q)) }
    ensures err { OnErr result (history.new ≡ history.old) }
    ensures full { result ≡ Err Stop.HistoryFull → length history.old ≡ MAX_EVENTS }
    ensures numbers { result ≡ Err Stop.NumbersSpent → ⊥ }
    ensures room { OnOk result (length history.new ≤ MAX_EVENTS) }
{
    let task = running.get().ticket.id();
    match tasks.insert(task, running) {
        Ok(before) => drop(before),
        Err(refused) => {
            drop(refused);
            drop(event);
            return Err(Stop::Memory);
        }
    }
    append(history, event)
}

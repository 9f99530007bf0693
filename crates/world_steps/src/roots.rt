//! Commands begin, and their roots come to their nodes.

ghost use Rattle.std.specs.Prelude.{◌≡◌, ◌≢◌, ◌∷◌, ◌↔◌, ℕ, Bool, ◌+◌, ◌≤◌, length, cond, false, Err, Some, None, IfOk, IfErr, OnOk, OnErr};
ghost use Rattle.std.specs.BTreeMap.{is_at, get};
ghost use Rattle.std.specs.Ordering.{nat_cmp};
ghost use Rattle.task_ids.specs.TaskIdOrder.{task_id_cmp};
ghost use Rattle.task_table.specs.Answer.{refused_token};
ghost use Rattle.task_events.specs.declared.history.TheConstants.{MAX_EVENTS};
ghost use Rattle.task_events.specs.Cancels.{beginning, last_command};
ghost use Rattle.world_moves.specs.Moves.{Starts, NodeLacksNumber, IsPartly, IsCutShort};
ghost use Rattle.command_roots.specs.Roots.{root_headers, root_request};
ghost use Rattle.node_parts.specs.Starting.{task_for};
ghost use Rattle.task_events.specs.Tasks.{is_live};
ghost use Rattle.world_moves.specs.Paging.{CanTake};
ghost use Rattle.world_moves.specs.Purging.{AllForgotten, NoneLost};
ghost use Rattle.world_moves.specs.Ties.{IsTied, Keeps, task_at};

use crate::scrolls::cleared;
use command_roots::headers_of;
use node_parts::running::Running;
use node_parts::starting::{new_task, with_work};
use script_lang::Script;
use shared_value::Shared;
use std::alloc::Global;
use std::collections::BTreeMap;
use task_events::{Event, History, ReindexAsk, Request, ScrollAsk, SearchAsk, Stop};
use task_ids::{Boxed, Headers, NewTask, TaskId};
use task_table::PutError;
use world_moves::append::append;
use world_moves::pages::{clear, page_asked, take};
use world_moves::purging::forget;
use world_moves::starting::{check_room, keep_started, put_on, spend};
use world_moves::state::State;

/// Notes that a command begins, the next in order. The context goes that it clears.
fn note_begin(state: &mut State<'_>, command: u32) -> Result<(), Stop>
    requires tied { IsTied state.old }
    requires next { last_command state.old.history + 1 ≡ command }
    requires few { command ≤ 65536 }
    ensures happened { OnOk result (state.new.history ≡ Event.Begin command ∷ state.old.history) }
    ensures tied { OnOk result (IsTied state.new) }
    ensures keeps { Keeps state.old state.new }
    ensures err { OnErr result (state.new.history ≡ state.old.history) }
    ensures full { result ≡ Err Stop.HistoryFull → length state.old.history ≡ MAX_EVENTS }
    ensures numbers { result ≡ Err Stop.NumbersSpent → ⊥ }
    ensures room { OnOk result (length state.new.history ≤ MAX_EVENTS) }
    ensures shards { state.new.shards ≡ state.old.shards }
{
    let goes = cleared(state, command);
    append(&mut state.history, Event::Begin { command })?;
    clear(&mut state.contexts, goes);
    Ok(())
}

/// A command begins, the next in order, and the context goes that it clears. Commands are numbered from 1. Where no task is
/// live, each shard has forgotten what was dead at the least version that a context kept of it, or at its newest where none
/// kept any; and nothing is forgotten that a context kept.
pub(crate) fn begin(state: &mut State<'_>, command: u32) -> Result<(), Stop>
    requires tied { IsTied state.old }
    requires next { last_command state.old.history + 1 ≡ command }
    requires few { command ≤ 65536 }
    ensures happened { OnOk result (state.new.history ≡ Event.Begin command ∷ state.old.history) }
    ensures tied { OnOk result (IsTied state.new) }
    ensures keeps { Keeps state.old state.new }
    ensures err { OnErr result (state.new.history ≡ state.old.history) }
    ensures full { result ≡ Err Stop.HistoryFull → length state.old.history ≡ MAX_EVENTS }
    ensures numbers { result ≡ Err Stop.NumbersSpent → ⊥ }
    ensures room { OnOk result (length state.new.history ≤ MAX_EVENTS) }
    ensures forgotten { ((task : TaskId) → is_live task state.old.history ≡ false) → AllForgotten state.old.contexts.items state.new.shards }
    ensures none_lost { NoneLost state.old.contexts.items state.new.shards }
{
    forget(state);
    note_begin(state, command)
}

/// Keeps the task of a root, and notes of which command it is and that it starts.
fn keep_root(
    history: &mut History,
    tasks: &mut BTreeMap<TaskId, Boxed<Running>>,
    roots: &mut BTreeMap<u32, TaskId>,
    command: u32,
    running: Boxed<Running>,
) -> Result<(), Stop>
    ensures happened { OnOk result (history.new ≡ Event.Root command running.ticket.id ∷ history.old) }
    ensures kept { OnOk result ((q : TaskId) → task_at tasks.new q
        ≡ cond (is_at (task_id_cmp running.ticket.id) q) (Some running) (task_at tasks.old q)) }
    ensures noted { OnOk result ((k : ℕ) → get nat_cmp roots.new k
        ≡ cond (is_at (nat_cmp command) k) (Some running.ticket.id) (get nat_cmp roots.old k)) }
    ensures err { OnErr result (history.new ≡ history.old) }
    ensures full { result ≡ Err Stop.HistoryFull → length history.old ≡ MAX_EVENTS }
    ensures numbers { result ≡ Err Stop.NumbersSpent → ⊥ }
    ensures room { OnOk result (length history.new ≤ MAX_EVENTS) }
{
    let task = running.get().ticket.id();
    match roots.insert(command, task) {
        Ok(_) => keep_started(history, tasks, running, Event::Root { command, task }),
        Err(_) => {
            drop(running);
            Err(Stop::Memory)
        }
    }
}

/// A root is rejected where its node has no free slot. Where its task was refused for another reason, that is the answer.
fn reject_root(
    history: &mut History,
    command: u32,
    node: u32,
    refused: PutError,
) -> Result<(), Stop>
    ensures happened { OnOk result (history.new ≡ Event.RootRejected command node ∷ history.old) }
    ensures no_slot { OnOk result (refused ≡ PutError.Full (refused_token refused)) }
    ensures err { OnErr result (history.new ≡ history.old) }
    ensures full { result ≡ Err Stop.HistoryFull → (length history.old ≡ MAX_EVENTS) × (refused ≡ PutError.Full (refused_token refused)) }
    ensures spent { result ≡ Err Stop.NumbersSpent → refused ≡ PutError.NumbersSpent (refused_token refused) }
    ensures room { OnOk result (length history.new ≤ MAX_EVENTS) }
{
    match refused {
        PutError::Full(token) => {
            spend(token);
            append(history, Event::RootRejected { command, node })
        }
        PutError::NumbersSpent(token) => {
            spend(token);
            Err(Stop::NumbersSpent)
        }
        PutError::Memory(token) => {
            spend(token);
            Err(Stop::Memory)
        }
    }
}

/// What the request of a command carries. It fails only for want of memory (`Memory`).
fn headers_at(script: &Script, command: u32) -> Result<Headers, Stop>
    requires { 1 ≤ command }
    ensures headers { IfOk result (λ headers. headers ≡ root_headers script.now command) }
    ensures memory { IfErr result (λ stop. stop ≡ Stop.Memory) }
{
    let Some(command) = script.commands.as_slice().get(command as usize - 1) else {
        return Ok(Headers::none());
    };
    match headers_of(command) {
        Ok(headers) => Ok(headers),
        Err(_) => Err(Stop::Memory),
    }
}

/// The task of a command's request, with what that carries. It fails only for want of memory (`Memory`).
fn root_task(state: &State<'_>, request: &Request, headers: &Headers) -> Result<NewTask, Stop>
    ensures task { IfOk result (λ task. task ≡ task_for request.now None state.now.clock headers.now) }
    ensures memory { IfErr result (λ stop. stop ≡ Stop.Memory) }
{
    match new_task(state.alloc, request, None, state.clock, headers) {
        Ok(task) => Ok(task),
        Err(_) => Err(Stop::Memory),
    }
}

/// The request of a command that has begun comes to its node. It starts where a slot is free there, and is rejected
/// where none is. The answer is whether it started.
///
/// Where a slot is free, the number of the task is looked for before there is room for the event.
fn start_with(
    state: &mut State<'_>,
    command: u32,
    node: u32,
    request: &Request,
) -> Result<bool, Stop>
    requires tied { IsTied state.old }
    requires begun { beginning state.old.history ≡ Some command }
    requires low { 1 ≤ node }
    requires high { node ≤ state.old.cluster.nodes }
    requires asked { root_request state.old.script.now command state.old.history ≡ Some request.now }
    requires usable { CanTake state.old.clock state.old.contexts.items request.now }
    ensures started { IfOk result (λ started.
        Starts state.old.cluster state.old.history command node started state.new.history) }
    ensures tied { OnOk result (IsTied state.new) }
    ensures keeps { Keeps state.old state.new }
    ensures err { OnErr result (state.new.history ≡ state.old.history) }
    ensures full { result ≡ Err Stop.HistoryFull
        → IsCutShort (IsPartly (λ h new. (started : Bool) × Starts state.old.cluster h command node started new) state.old.history) state.new.history }
    ensures spent { result ≡ Err Stop.NumbersSpent
        → NodeLacksNumber state.old.cluster state.old.history node }
    ensures room { OnOk result (length state.new.history ≤ MAX_EVENTS) }
{
    let headers = headers_at(state.script, command)?;
    let root = root_task(state, request, &headers)?;
    match put_on(&mut state.tables, node, root, None) {
        Ok(ticket) => {
            let task = ticket.id();
            let page = page_asked(state.contexts.as_slice(), request);
            let running = with_work(
                state.alloc,
                ticket,
                request,
                &state.cluster,
                page,
                false,
                headers,
            )?;
            keep_root(
                &mut state.history,
                &mut state.tasks,
                &mut state.roots,
                command,
                running,
            )?;
            take(&mut state.contexts, request, state.clock, task);
            Ok(true)
        }
        Err(refused) => {
            drop(headers);
            match reject_root(&mut state.history, command, node, refused) {
                Ok(()) => Ok(false),
                Err(stop) => Err(stop),
            }
        }
    }
}

/// The request of a search.
fn search_request(alloc: Global, ask: SearchAsk) -> Result<Request, Stop>
    ensures request { IfOk result (λ request. request ≡ Request.Search ask) }
    ensures memory { IfErr result (λ stop. stop ≡ Stop.Memory) }
{
    match Shared::new(alloc, ask) {
        Ok(search) => Ok(Request::Search(search)),
        Err(refused) => {
            drop(refused);
            Err(Stop::Memory)
        }
    }
}

/// The search of a command that has begun comes to its node. It starts where a slot is free there, and is rejected
/// where none is. The answer is whether it started.
///
/// It fails where a slot is free and the node has given its last number (`NumbersSpent`), else where the history is full (`HistoryFull`),
/// both of which take no memory to find, and else where memory runs out (`Memory`).
pub(crate) fn start(
    state: &mut State<'_>,
    command: u32,
    node: u32,
    ask: SearchAsk,
) -> Result<bool, Stop>
    requires tied { IsTied state.old }
    requires begun { beginning state.old.history ≡ Some command }
    requires low { 1 ≤ node }
    requires high { node ≤ state.old.cluster.nodes }
    requires asked { root_request state.old.script.now command state.old.history ≡ Some (Request.Search ask) }
    ensures started { IfOk result (λ started.
        Starts state.old.cluster state.old.history command node started state.new.history) }
    ensures tied { OnOk result (IsTied state.new) }
    ensures keeps { Keeps state.old state.new }
    ensures err { OnErr result (state.new.history ≡ state.old.history) }
    ensures full { result ≡ Err Stop.HistoryFull
        → IsCutShort (IsPartly (λ h new. (started : Bool) × Starts state.old.cluster h command node started new) state.old.history) state.new.history }
    ensures spent { (result ≡ Err Stop.NumbersSpent) ↔ NodeLacksNumber state.old.cluster state.old.history node }
    ensures memory { result ≡ Err Stop.Memory → length state.old.history ≢ MAX_EVENTS }
    ensures room { OnOk result (length state.new.history ≤ MAX_EVENTS) }
{
    check_room(state, node)?;
    let request = search_request(state.alloc, ask)?;
    let started = start_with(state, command, node, &request);
    drop(request);
    started
}

/// The request of a reindex.
fn reindex_request(alloc: Global, ask: ReindexAsk) -> Result<Request, Stop>
    ensures request { IfOk result (λ request. request ≡ Request.Reindex ask) }
    ensures memory { IfErr result (λ stop. stop ≡ Stop.Memory) }
{
    match Shared::new(alloc, ask) {
        Ok(reindex) => Ok(Request::Reindex(reindex)),
        Err(refused) => {
            drop(refused);
            Err(Stop::Memory)
        }
    }
}

/// The request of a page.
fn page_request(alloc: Global, ask: ScrollAsk) -> Result<Request, Stop>
    ensures request { IfOk result (λ request. request ≡ Request.Scroll ask) }
    ensures memory { IfErr result (λ stop. stop ≡ Stop.Memory) }
{
    match Shared::new(alloc, ask) {
        Ok(page) => Ok(Request::Scroll(page)),
        Err(_) => Err(Stop::Memory),
    }
}

/// The reindex of a command that has begun comes to its node. It starts where a slot is free there, and is rejected
/// where none is. The answer is whether it started.
///
/// It fails where a slot is free and the node has given its last number (`NumbersSpent`), else where the history is full (`HistoryFull`),
/// both of which take no memory to find, and else where memory runs out (`Memory`).
pub(crate) fn start_reindex(
    state: &mut State<'_>,
    command: u32,
    node: u32,
    ask: ReindexAsk,
) -> Result<bool, Stop>
    requires tied { IsTied state.old }
    requires begun { beginning state.old.history ≡ Some command }
    requires low { 1 ≤ node }
    requires high { node ≤ state.old.cluster.nodes }
    requires asked { root_request state.old.script.now command state.old.history ≡ Some (Request.Reindex ask) }
    ensures started { IfOk result (λ started.
        Starts state.old.cluster state.old.history command node started state.new.history) }
    ensures tied { OnOk result (IsTied state.new) }
    ensures keeps { Keeps state.old state.new }
    ensures err { OnErr result (state.new.history ≡ state.old.history) }
    ensures full { result ≡ Err Stop.HistoryFull
        → IsCutShort (IsPartly (λ h new. (started : Bool) × Starts state.old.cluster h command node started new) state.old.history) state.new.history }
    ensures spent { (result ≡ Err Stop.NumbersSpent) ↔ NodeLacksNumber state.old.cluster state.old.history node }
    ensures memory { result ≡ Err Stop.Memory → length state.old.history ≢ MAX_EVENTS }
    ensures room { OnOk result (length state.new.history ≤ MAX_EVENTS) }
{
    check_room(state, node)?;
    let request = reindex_request(state.alloc, ask)?;
    let started = start_with(state, command, node, &request);
    drop(request);
    started
}

/// The page of a command that has begun comes to the node of its context. It starts where a slot is free there, and is rejected where
/// none is, which leaves the last use of the context. The answer is whether it started.
///
/// It fails where a slot is free and the node has given its last number (`NumbersSpent`), else where the history is full (`HistoryFull`),
/// both of which take no memory to find, and else where memory runs out (`Memory`).
pub(crate) fn start_page(state: &mut State<'_>, command: u32, ask: ScrollAsk) -> Result<bool, Stop>
    requires tied { IsTied state.old }
    requires begun { beginning state.old.history ≡ Some command }
    requires asked { root_request state.old.script.now command state.old.history ≡ Some (Request.Scroll ask) }
    requires usable { CanTake state.old.clock state.old.contexts.items (Request.Scroll ask) }
    ensures started { IfOk result (λ started.
        Starts state.old.cluster state.old.history command ask.id.node started state.new.history) }
    ensures tied { OnOk result (IsTied state.new) }
    ensures keeps { Keeps state.old state.new }
    ensures err { OnErr result (state.new.history ≡ state.old.history) }
    ensures full { result ≡ Err Stop.HistoryFull
        → IsCutShort (IsPartly (λ h new. (started : Bool) × Starts state.old.cluster h command ask.id.node started new) state.old.history) state.new.history }
    ensures spent { (result ≡ Err Stop.NumbersSpent) ↔ NodeLacksNumber state.old.cluster state.old.history ask.id.node }
    ensures memory { result ≡ Err Stop.Memory → length state.old.history ≢ MAX_EVENTS }
    ensures room { OnOk result (length state.new.history ≤ MAX_EVENTS) }
{
    check_room(state, ask.id.node)?;
    let request = page_request(state.alloc, ask)?;
    let started = start_with(state, command, ask.id.node, &request);
    drop(request);
    started
}

//! The results of tasks that have ended, which follow the events, and what a command finds that is about a task.

ghost use Rattle.std.specs.Prelude.{◌≡◌, ◌∷◌, ◌+◌, List, true, false, [], None, OnOk, IfErr, IfOk};
ghost use Rattle.std.specs.BTreeSet.{contains};
ghost use Rattle.std.specs.FinMap as finite;
ghost use Rattle.std.specs.Option.{option_copied};
ghost use Rattle.task_ids.specs.TaskIdOrder.{task_id_cmp};
ghost use Rattle.task_events.specs.declared.event.Event.{Event};
ghost use Rattle.command_roots.specs.Results.{forgotten, found_of, has_result, keeping, status_of, stores, task_named};
ghost use Rattle.command_roots.specs.Roots.{command_at};
ghost use Rattle.task_events.specs.Tasks.{is_live};
ghost use Rattle.task_results.specs.Stands.{is_stored, results_at};
ghost use Rattle.world_moves.specs.Ties.{IsTied};
ghost use Rattle.world_steps.specs.Results.{KnowsResults, KnowsRoots};
ghost use Rattle.world_steps.specs.World.{past_of};
ghost use Rattle.script_lang.specs.declared.command.Script.{Script};

use command_roots::TaskFound;
use script_lang::{Command, Script, TaskTarget};
use std::alloc::Global;
use std::collections::{BTreeMap, BTreeSet};
use task_events::{Counts, Event, Reply, Stop};
use task_ids::TaskId;
use task_results::ResultTable;
use task_work::Work;
use world_moves::state::State;

/// The results that stand by the events that were looked at, and what the events to come need.
#[derive(Drop)]
pub(crate) struct KnownResults {
    /// The results that stand. In this world nobody waits for one, since all lines are printed after the run.
    table: ResultTable,
    /// The tasks whose replies are stored as they end.
    storing: BTreeSet<TaskId>,
    /// The task of each command that started one.
    roots: BTreeMap<u32, TaskId>,
}

impl KnownResults {
    /// Nothing has happened yet. It takes no memory.
    pub(crate) fn new(alloc: Global) -> KnownResults
        ensures { (script : Script) → KnowsResults script [] result }
    {
        KnownResults {
            table: ResultTable::new(alloc),
            storing: BTreeSet::new(alloc),
            roots: BTreeMap::new(alloc),
        }
    }
}

/// The command of this number, from 1, if there is one.
fn command_at(script: &Script, number: u32) -> Option<&Command>
    ensures { option_copied result ≡ command_at script.now number }
{
    let place = (number as usize).checked_sub(1)?;
    script.commands.as_slice().get(place)
}

/// Whether a command stores the reply of its task.
fn stores(script: &Script, number: u32) -> bool
    ensures { result ≡ stores script.now number }
{
    match command_at(script, number) {
        Some(Command::Reindex { store, .. }) => *store,
        _ => false,
    }
}

/// The task that is named, by the tasks that commands started.
fn named(roots: &BTreeMap<u32, TaskId>, target: &TaskTarget) -> Option<TaskId>
    ensures { (h : List Event) → KnowsRoots h roots.now → result ≡ task_named target.now h }
{
    match target {
        TaskTarget::Id(id) => Some(*id),
        TaskTarget::Command(number) => roots.get(number).copied(),
    }
}

/// The task whose result a command forgets that begins.
fn forgotten(script: &Script, roots: &BTreeMap<u32, TaskId>, number: u32) -> Option<TaskId>
    ensures { (h : List Event) → KnowsRoots h roots.now → result ≡ forgotten script.now number h }
{
    match command_at(script, number) {
        Some(Command::ForgetTask { task }) => named(roots, task),
        _ => None,
    }
}

/// A command begins, and the result goes that it forgets.
fn note_begin(script: &Script, results: &mut KnownResults, command: u32)
    ensures { (h : List Event) → KnowsResults script.now h results.old → KnowsResults script.now (Event.Begin command ∷ h) results.new }
{
    if let Some(task) = forgotten(script, &results.roots, command) {
        results.table.forget(task);
    }
}

/// A command has started a task, whose reply is stored as it ends where the command says so. It fails only for want of memory (`Memory`).
fn note_root(
    script: &Script,
    results: &mut KnownResults,
    command: u32,
    task: TaskId,
) -> Result<(), Stop>
    requires fresh { contains task_id_cmp results.old.storing task ≡ false }
    ensures known { OnOk result ((h : List Event) → KnowsResults script.now h results.old → KnowsResults script.now (Event.Root command task ∷ h) results.new) }
    ensures memory { IfErr result (λ stop. stop ≡ Stop.Memory) }
{
    let Ok(_) = results.roots.insert(command, task) else {
        return Err(Stop::Memory);
    };
    if !stores(script, command) {
        return Ok(());
    }
    match results.storing.insert(task) {
        Ok(_) => Ok(()),
        Err(_) => Err(Stop::Memory),
    }
}

/// A task has ended, and its reply is its result where it is stored. It fails only for want of memory (`Memory`).
fn note_end(results: &mut KnownResults, task: TaskId, reply: &Reply) -> Result<(), Stop>
    requires none { finite.get results.old.table.kept task ≡ None }
    ensures known { OnOk result ((script : Script) (h : List Event) → KnowsResults script h results.old → KnowsResults script (Event.End task reply.now ∷ h) results.new) }
    ensures memory { IfErr result (λ stop. stop ≡ Stop.Memory) }
{
    if !results.storing.contains(&task) {
        return Ok(());
    }
    let Ok(copy) = reply.copy() else {
        return Err(Stop::Memory);
    };
    match results.table.store(task, copy) {
        Ok(()) => Ok(()),
        Err(_) => Err(Stop::Memory),
    }
}

/// Notes what one event makes of results, which is at this place in the history. It fails only for want of memory (`Memory`).
pub(crate) fn note_result(
    state: &State<'_>,
    results: &mut KnownResults,
    event: &Event,
    at: usize,
) -> Result<(), Stop>
    requires tied { IsTied state.now }
    requires event { past_of (at + 1) state.now.history ≡ event.now ∷ past_of at state.now.history }
    requires known { KnowsResults state.now.script.now (past_of at state.now.history) results.old }
    ensures known { OnOk result (KnowsResults state.now.script.now (past_of (at + 1) state.now.history) results.new) }
    ensures memory { IfErr result (λ stop. stop ≡ Stop.Memory) }
{
    match event {
        Event::Begin { command } => {
            note_begin(state.script, results, *command);
            Ok(())
        }
        Event::Root { command, task } => note_root(state.script, results, *command, *task),
        Event::End { task, reply } => note_end(results, *task, reply),
        _ => Ok(()),
    }
}

/// Whether the result of the task stands that a command is about.
pub(crate) fn has_result(results: &KnownResults, target: &TaskTarget) -> bool
    ensures { (script : Script) (h : List Event) → KnowsResults script h results.now → result ≡ has_result script (task_named target.now h) h }
{
    match named(&results.roots, target) {
        Some(task) => results.table.get(task).is_some(),
        None => false,
    }
}

/// What a command finds that is about a task.
pub(crate) fn find(state: &State<'_>, results: &KnownResults, target: &TaskTarget) -> TaskFound
    requires tied { IsTied state.now }
    requires known { KnowsResults state.now.script.now state.now.history results.now }
    ensures { result ≡ found_of state.now.script.now target.now state.now.history }
{
    let Some(task) = named(&results.roots, target) else {
        return TaskFound::Missing(None);
    };
    if state.tasks.get(&task).is_some() {
        TaskFound::Live(task)
    } else if results.table.get(task).is_some() {
        TaskFound::Ended(task)
    } else {
        TaskFound::Missing(Some(task))
    }
}

/// What a live task has done so far, where it is the root of a reindex.
pub(crate) fn status(state: &State<'_>, task: TaskId) -> Option<Counts>
    requires tied { IsTied state.now }
    requires live { is_live task state.now.history ≡ true }
    ensures { result ≡ status_of state.now.script.now task state.now.history }
{
    let kept = state.tasks.get(&task)?;
    let running = kept.get();
    // A page counts nothing, whatever stands for its work until it has passed.
    if running.page.is_some() {
        return None;
    }
    match &running.work {
        Work::Reindex(root) => Some(root.counts()),
        _ => None,
    }
}

/// Whether the reply of a task is stored as it ends.
pub(crate) fn is_stored(results: &KnownResults, task: TaskId) -> bool
    ensures { (script : Script) (h : List Event) → KnowsResults script h results.now → result ≡ is_stored (keeping script) task h }
{
    results.storing.contains(&task)
}

/// The tasks whose results stand, ascending. It fails only for want of memory (`Memory`).
pub(crate) fn standing(results: &KnownResults) -> Result<Vec<TaskId>, Stop>
    ensures ids { IfOk result (λ ids. (script : Script) (h : List Event) → KnowsResults script h results.now → ids.items ≡ finite.keys (results_at (keeping script) h)) }
    ensures memory { IfErr result (λ stop. stop ≡ Stop.Memory) }
{
    match results.table.list() {
        Ok(ids) => Ok(ids),
        Err(_) => Err(Stop::Memory),
    }
}

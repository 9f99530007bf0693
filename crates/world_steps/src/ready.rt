//! The live tasks that do not wait, and the moments for which others wait.

ghost use Rattle.std.specs.Prelude.{◌≡◌, ◌≤◌, ℕ, List, [], length, false, None, IfErr, OnOk, if◌then◌else◌};
ghost use Rattle.std.specs.BTreeSet.{contains};
ghost use Rattle.task_ids.specs.declared.doc.Doc.{Doc};
ghost use Rattle.task_ids.specs.TaskIdOrder.{task_id_cmp};
ghost use Rattle.task_events.specs.Same.{same_task};
ghost use Rattle.world_moves.specs.Facts.{about};
ghost use Rattle.std.specs.Option.{option_copied};
ghost use Rattle.world_moves.specs.Ties.{IsTied, task_at};
ghost use Rattle.node_parts.specs.Running.{can_act};
ghost use Rattle.world_steps.specs.Alarms.{AreAlarms, alarm_at};
ghost use Rattle.script_lang.specs.declared.command.Script.{Script};
ghost use Rattle.world_steps.specs.Results.{KnowsResults};
ghost use Rattle.world_steps.specs.World.{HasReady, HadReady, alarm_in, due_by, ready_in, HasAlarmed, HasNoted};

use crate::alarms::Alarms;
use crate::results::{KnownResults, note_result};
use node_parts::running::Running;
use ranked::RankedSet;
use std::alloc::Global;
use task_events::{Event, Stop};
use task_ids::TaskId;
use world_moves::state::State;

/// What is known of the past beside the tables of the state: which live tasks do not wait, for which moments others wait, and which results
/// stand.
#[derive(Drop)]
pub(crate) struct Ready {
    /// The live tasks that do not wait.
    pub(crate) tasks: RankedSet<TaskId>,
    /// The moments for which tasks wait.
    pub(crate) alarms: Alarms,
    /// The results that stand, and what they come from.
    pub(crate) results: KnownResults,
}

impl Ready {
    /// No task yet. It takes no memory.
    pub(crate) fn new(alloc: Global) -> Ready
        ensures tasks { (q : TaskId) → contains task_id_cmp result.tasks q ≡ false }
        ensures kept { AreAlarms result.alarms }
        ensures alarms { (q : TaskId) → alarm_at result.alarms q ≡ None }
        ensures results { (script : Script) → KnowsResults script [] result.results }
    {
        Ready {
            tasks: RankedSet::new(alloc),
            alarms: Alarms::new(alloc),
            results: KnownResults::new(alloc),
        }
    }
}

/// The task that an event is about, if there is one.
pub(crate) fn task_of(event: &Event) -> Option<TaskId>
    ensures { result ≡ about event.now }
{
    match event {
        Event::Root { task, .. }
        | Event::Put { task, .. }
        | Event::Pass { task }
        | Event::Refuse { task, .. }
        | Event::Mark { task, .. }
        | Event::Work { task }
        | Event::End { task, .. } => Some(*task),
        Event::Ask { parent, .. } | Event::Answered { parent, .. } => Some(*parent),
        _ => None,
    }
}

/// Whether a kept task does not wait at this moment: a marked one waits while an ask of it is unanswered, and for the others their work
/// says.
fn can_act(running: &Running, now: u64) -> bool
    ensures { (writes : List Doc) → result ≡ can_act running.now writes now }
{
    if running.is_new {
        return true;
    }
    match running.track.closed() {
        Some(_) => running.track.unanswered() == 0,
        None => !running.work.waits(now),
    }
}

/// The moment for which a kept task waits: one that has passed and is not marked, as its work says.
fn due(running: &Running, now: u64) -> Option<u64>
    ensures { (writes : List Doc) → result ≡ due_by running.now writes now }
{
    if running.is_new || running.track.closed().is_some() {
        return None;
    }
    running.work.due(now)
}

/// A live task, as it is kept.
fn kept_at<'s>(state: &'s State<'_>, task: TaskId) -> Option<&'s Running>
    ensures { option_copied result ≡ task_at state.now.tasks task }
{
    match state.tasks.get(&task) {
        Some(running) => Some(running.get()),
        None => None,
    }
}

/// Whether a task is live and does not wait, which is kept as is given.
fn is_ready(state: &State<'_>, task: TaskId, kept: Option<&Running>) -> bool
    requires tied { IsTied state.now }
    requires given { option_copied kept ≡ task_at state.now.tasks task }
    ensures { result ≡ ready_in state.now task }
{
    match kept {
        Some(running) => can_act(running, state.clock),
        None => false,
    }
}

/// The moment for which a task waits, where it waits for one, which is kept as is given.
fn alarm_of(state: &State<'_>, task: TaskId, kept: Option<&Running>) -> Option<u64>
    requires tied { IsTied state.now }
    requires given { option_copied kept ≡ task_at state.now.tasks task }
    ensures { result ≡ alarm_in state.now task }
{
    match kept {
        Some(running) => due(running, state.clock),
        None => None,
    }
}

/// Notes whether a task does not wait now, which is kept as is given.
fn note_ready(
    state: &State<'_>,
    tasks: &mut RankedSet<TaskId>,
    task: TaskId,
    kept: Option<&Running>,
) -> Result<(), Stop>
    requires tied { IsTied state.now }
    requires given { option_copied kept ≡ task_at state.now.tasks task }
    ensures known { OnOk result ((q : TaskId) → contains task_id_cmp tasks.new q
        ≡ (if same_task task q then ready_in state.now q else contains task_id_cmp tasks.old q)) }
    ensures memory { IfErr result (λ stop. stop ≡ Stop.Memory) }
{
    if !is_ready(state, task, kept) {
        tasks.remove(&task);
        return Ok(());
    }
    match tasks.insert(task) {
        Ok(_) => Ok(()),
        Err(_) => Err(Stop::Memory),
    }
}

/// Notes for which moment a task waits now, if it waits for one, which is kept as is given.
fn note_alarm(
    state: &State<'_>,
    alarms: &mut Alarms,
    task: TaskId,
    kept: Option<&Running>,
) -> Result<(), Stop>
    requires tied { IsTied state.now }
    requires given { option_copied kept ≡ task_at state.now.tasks task }
    requires kept { AreAlarms alarms.old }
    ensures kept { AreAlarms alarms.new }
    ensures known { OnOk result ((q : TaskId) → alarm_at alarms.new q
        ≡ (if same_task task q then alarm_in state.now q else alarm_at alarms.old q)) }
    ensures memory { IfErr result (λ stop. stop ≡ Stop.Memory) }
{
    let Some(moment) = alarm_of(state, task, kept) else {
        alarms.remove(task);
        return Ok(());
    };
    match alarms.set(task, moment) {
        Ok(()) => Ok(()),
        Err(_) => Err(Stop::Memory),
    }
}

/// Notes what the events from this place on have changed: whether the tasks wait that they are about, for which moments, and which results
/// stand.
fn note_events(state: &State<'_>, ready: &mut Ready, before: usize) -> Result<(), Stop>
    requires tied { IsTied state.now }
    requires before { before ≤ length state.now.history }
    requires had { HadReady state.now before ready.old }
    ensures noted { OnOk result (HasNoted state.now before ready.new) }
    ensures memory { IfErr result (λ stop. stop ≡ Stop.Memory) }
{
    for at in before..state.history.len() {
        let Some(event) = state.history.get(at) else {
            unreachable!()
        };
        note_result(state, &mut ready.results, event, at)?;
        if let Some(task) = task_of(event) {
            let running = kept_at(state, task);
            note_ready(state, &mut ready.tasks, task, running)?;
            note_alarm(state, &mut ready.alarms, task, running)?;
        }
    }
    Ok(())
}

/// Takes out the tasks whose moment has come, and notes whether they do not wait now.
fn ring(state: &State<'_>, ready: &mut Ready) -> Result<(), Stop>
    requires tied { IsTied state.now }
    requires alarmed { HasAlarmed state.now ready.old }
    ensures known { OnOk result (HasReady state.now ready.new) }
    ensures memory { IfErr result (λ stop. stop ≡ Stop.Memory) }
{
    while let Some(task) = ready.alarms.take_due(state.clock) {
        note_ready(state, &mut ready.tasks, task, kept_at(state, task))?;
    }
    Ok(())
}

/// Notes what the events from this place on have changed: which tasks wait, for which moments, and which results stand. It costs what they
/// are about and what comes due with them.
pub(crate) fn refresh(state: &State<'_>, ready: &mut Ready, before: usize) -> Result<(), Stop>
    requires tied { IsTied state.now }
    requires before { before ≤ length state.now.history }
    requires had { HadReady state.now before ready.old }
    ensures known { OnOk result (HasReady state.now ready.new) }
    ensures memory { IfErr result (λ stop. stop ≡ Stop.Memory) }
{
    note_events(state, ready, before)?;
    ring(state, ready)?;
    Ok(())
}

//! The run of a script in a serial world.

ghost use Rattle.std.specs.Prelude.{◌≡◌, ◌+◌, ◌≤◌, true, [], None, Some, length, slice_get, OnOk, IfOk, IfErr};
ghost use Rattle.task_events.specs.Cancels.{last_command};
ghost use Rattle.task_events.specs.Lawful.{Lawful};
ghost use Rattle.command_roots.specs.Roots.{scripted};
ghost use Rattle.world_moves.specs.Owning.{OneAtATime};
ghost use Rattle.world_moves.specs.Plain.{AnswersPlainly};
ghost use Rattle.world_steps.specs.Scripts.{CanDo, CanRun};
ghost use Rattle.task_events.specs.Tasks.{is_live};
ghost use Rattle.command_roots.specs.Results.{found_of};
ghost use Rattle.line_print.specs.Lines.{get_note, note_of, running_note};
ghost use Rattle.task_top.specs.Progress.{HasCome, EndsEarly, EndsWhole};

use command_roots::TaskFound;
use line_print::Note;
use script_lang::{Command, Script, TaskTarget};
use std::alloc::Global;
use task_events::{History, Stop};
use task_ids::{Cluster, Corpus, Items, TaskId};
use world_steps::World;

/// What is noted of a get of a live task for which it does not wait. It fails only for want of memory.
fn running_note(world: &World<'_>, task: TaskId) -> Result<Option<Note>, Stop>
    requires goes_on { world.now.stopped ≡ None }
    requires live { is_live task world.now.past ≡ true }
    requires before { last_command world.now.past ≤ length world.now.script.commands }
    ensures ok { IfOk result (λ note. note ≡ running_note world.now.script task world.now.past) }
    ensures early { IfErr result (λ stop. stop ≡ Stop.Memory) }
{
    let status = world.status(task);
    match world.task_line(task)? {
        Some(text) => {
            let task = Items::from_vec(text);
            Ok(Some(Note::Running { task, status }))
        }
        None => Ok(None),
    }
}

/// What is noted of a get before it begins: what it finds. It fails only for want of memory.
fn get_note(world: &World<'_>, target: &TaskTarget, wait: bool) -> Result<Option<Note>, Stop>
    requires goes_on { world.now.stopped ≡ None }
    requires before { last_command world.now.past ≤ length world.now.script.commands }
    ensures ok { IfOk result (λ note. note ≡ get_note world.now.script wait world.now.past (found_of world.now.script target.now world.now.past)) }
    ensures early { IfErr result (λ stop. stop ≡ Stop.Memory) }
{
    match world.find(target) {
        TaskFound::Missing(task) => Ok(Some(Note::NoResult(task))),
        TaskFound::Ended(task) => {
            let stored = true;
            Ok(Some(Note::Completed { task, stored }))
        }
        TaskFound::Live(task) if wait => {
            let stored = world.is_stored(task);
            Ok(Some(Note::Completed { task, stored }))
        }
        TaskFound::Live(task) => running_note(world, task),
    }
}

/// What is noted of a command before it runs: what it lists, why it has no page, whether it frees a context, the moment that it makes,
/// what it finds or forgets of a task, which results stand, or why it makes nothing happen if it does not. It fails only for want of memory.
fn note_of(world: &World<'_>, command: &Command) -> Result<Option<Note>, Stop>
    requires goes_on { world.now.stopped ≡ None }
    requires can { CanDo world.now.cluster.nodes command.now }
    requires before { last_command world.now.past ≤ length world.now.script.commands }
    ensures ok { IfOk result (λ note. note ≡ note_of world.now.cluster world.now.script command.now world.now.past) }
    ensures early { IfErr result (λ stop. stop ≡ Stop.Memory) }
{
    match command {
        Command::ListTasks {
            filter,
            group,
            detailed,
        } => {
            let text = world.list(filter, *group, *detailed)?;
            Ok(Some(Note::Listed(Items::from_vec(text))))
        }
        Command::Scroll { context, .. } => {
            let id = world.context(context);
            Ok(
                world
                    .no_page(context)
                    .map(|error| Note::NoPage { id, error }),
            )
        }
        Command::ClearScroll { context } => Ok(Some(Note::Freed(world.can_clear(context)))),
        Command::GetTask { task, wait } => get_note(world, task, *wait),
        Command::ForgetTask { task } => Ok(Some(Note::Forgotten(world.has_result(task)))),
        Command::ListResults => {
            let tasks = world.results()?;
            Ok(Some(Note::Results(Items::from_vec(tasks))))
        }
        Command::Tick { ms } => Ok(Some(Note::Moment(world.now() + *ms))),
        Command::Summary => Ok(Some(Note::Counted(world.summary()))),
        Command::Deliver { .. } => {
            let in_flight = world.in_flight();
            Ok(Some(Note::NoSuchMessage { in_flight }))
        }
        Command::Step { task } if world.is_live(*task) => Ok(Some(Note::Waiting)),
        Command::Step { .. } => Ok(Some(Note::NotRunning)),
        Command::ListStep { .. } => Ok(Some(Note::NoListing)),
        _ => Ok(None),
    }
}

/// Runs the command at a place, from 0, and notes before what its line tells of it besides its events.
fn run_command(
    world: &mut World<'_>,
    script: &Script,
    found: &mut Vec<Option<Note>>,
    place: usize,
    command: &Command,
) -> Result<(), Stop>
    requires come { HasCome script.now place found.old.items world.old }
    requires next { slice_get script.now.commands place ≡ Some command.now }
    requires can { CanDo world.old.cluster.nodes command.now }
    requires few { length script.now.commands ≤ 65535 }
    ensures ok { OnOk result (HasCome script.now (place + 1) found.new.items world.new) }
    ensures early { IfErr result (λ stop. EndsEarly world.old.cluster world.old.corpus script.now world.new.past stop) }
    ensures keeps { world.new ≡ record world.old { past = world.new.past; stopped = world.new.stopped } }
{
    let note = note_of(world, command)?;
    if found.push(note).is_err() {
        return Err(Stop::Memory);
    }
    world.command(place as u32 + 1)
}

/// Runs all commands, and notes before each what its line tells of it besides its events.
fn run_commands(
    world: &mut World<'_>,
    script: &Script,
    found: &mut Vec<Option<Note>>,
) -> Result<(), Stop>
    requires come { HasCome script.now 0 found.old.items world.old }
    requires can { CanRun world.old.cluster.nodes script.now.commands }
    requires few { length script.now.commands ≤ 65535 }
    ensures ok { OnOk result (HasCome script.now (length script.now.commands) found.new.items world.new) }
    ensures early { IfErr result (λ stop. EndsEarly world.old.cluster world.old.corpus script.now world.new.past stop) }
    ensures keeps { world.new ≡ record world.old { past = world.new.past; stopped = world.new.stopped } }
{
    for (place, command) in script.commands.as_slice().iter().enumerate() {
        run_command(world, script, found, place, command)?;
    }
    Ok(())
}

/// Runs all commands and drains the world.
fn run_all(alloc: Global, world: &mut World<'_>, script: &Script) -> Result<Vec<Option<Note>>, Stop>
    requires come { HasCome script.now 0 [] world.old }
    requires can { CanRun world.old.cluster.nodes script.now.commands }
    requires few { length script.now.commands ≤ 65535 }
    ensures whole { IfOk result (λ found. EndsWhole world.old.cluster world.old.corpus script.now world.new.past found.items) }
    ensures early { IfErr result (λ stop. EndsEarly world.old.cluster world.old.corpus script.now world.new.past stop) }
    ensures keeps { world.new ≡ record world.old { past = world.new.past; stopped = world.new.stopped } }
{
    let mut found = Vec::new(alloc);
    run_commands(world, script, &mut found)?;
    world.drain()?;
    Ok(found)
}

/// Runs a script over the documents of a corpus: what happened, and what was noted before each command; or why the run came to
/// an early end.
pub(crate) fn run_script(
    alloc: Global,
    cluster: Cluster,
    corpus: &Corpus,
    script: &Script,
) -> (History, Result<Vec<Option<Note>>, Stop>)
    requires can_run { CanRun cluster.nodes script.now.commands }
    requires few { length script.now.commands ≤ 65535 }
    ensures whole { IfOk result.1 (λ found. EndsWhole cluster corpus.now script.now result.0 found.items) }
    ensures early { IfErr result.1 (λ stop. EndsEarly cluster corpus.now script.now result.0 stop) }
    ensures lawful { Lawful cluster result.0 }
    ensures plain { AnswersPlainly cluster corpus.now script.now result.0 }
    ensures alone { OneAtATime (scripted script.now) result.0 }
{
    let Ok(mut world) = World::new(alloc, cluster, corpus, script) else {
        return (History::new(alloc), Err(Stop::Memory));
    };
    let found = run_all(alloc, &mut world, script);
    (world.finish(), found)
}

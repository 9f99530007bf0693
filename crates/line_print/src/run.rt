//! What is looked up of a run while its lines are printed.

ghost use Rattle.std.specs.Prelude.{◌≡◌, ◌≤◌, length, flat_map, option_map, option_and_then};
ghost use Rattle.task_events.specs.Tasks.{reply_of};
ghost use Rattle.task_events.specs.Turns.{events_of, events_before};
ghost use Rattle.line_print.specs.Lines.{ending, target_in};
ghost use Rattle.line_print.specs.Looked.{IsReady};

use crate::searches::started;
use script_lang::{CancelTarget, Command};
use std::collections::{HashMap, HashSet};
use task_events::{Event, Events, History};
use task_ids::{Cluster, Corpus, TaskId};

/// What is looked up of a run.
#[derive(Drop)]
pub(crate) struct Run<'a> {
    pub cluster: &'a Cluster,
    pub corpus: &'a Corpus,
    pub script: &'a [Command],
    /// What happened.
    pub history: &'a History,
    /// What came while 0, 1, 2 and more commands had begun.
    pub turns: Vec<Events<'a>>,
    /// Where each task that has ended did so, among the events.
    pub ends: HashMap<TaskId, usize>,
    /// The indices that there are.
    pub known: HashSet<&'a str>,
}

impl<'a> Run<'a> {
    /// The events of a command.
    pub(crate) fn turn(&self, command: usize) -> &Events<'a>
        requires ready { IsReady self.now }
        requires command { command ≤ length self.now.script.now }
        ensures { result.now ≡ events_of command self.now.history.now }
    {
        &self.turns[command]
    }

    /// The turns before a command.
    pub(crate) fn turns_before(&self, command: usize) -> &[Events<'a>]
        requires ready { IsReady self.now }
        requires command { command ≤ length self.now.script.now }
        ensures { flat_map (λ turn. turn) result.now ≡ events_before command self.now.history.now }
    {
        &self.turns[..command]
    }

    /// The event with which a task ended, if there is a task and it has ended.
    pub(crate) fn end_of(&self, task: Option<TaskId>) -> Option<&Event>
        requires { IsReady self.now }
        ensures { option_map (λ end. end.1) (option_and_then (λ event. ending event.now) result)
            ≡ option_and_then (λ t. reply_of t self.now.history.now) task }
    {
        let at = self.ends.get(&task?)?;
        self.history.get(*at)
    }

    /// The task that a cancel is about, where it is about one.
    pub(crate) fn target(&self, target: &CancelTarget) -> Option<TaskId>
        requires { IsReady self.now }
        ensures { result ≡ target_in self.now.script.now self.now.history.now target.now }
    {
        match target {
            CancelTarget::Task(task) => Some(*task),
            CancelTarget::Command(command) => {
                let command = *command as usize;
                if command <= self.script.len() {
                    started(self.turn(command))
                } else {
                    None
                }
            }
            CancelTarget::Matching(_) => None,
        }
    }
}

// What a page tells of a history beside its picture.

use crate::actions::Actions;
use crate::bounds::Bounds;
use crate::causes::Causes;
use crate::event::Event;
use crate::lines::Beside;
use crate::trace::{Thing, Trace};
use crate::trees::{Trees, push_id};
use std::alloc::{AllocError, Global};
use task_ids::TaskId;

/// What is known of a history.
#[derive(Drop)]
pub struct Story {
    events: Vec<Event>,
    /// The task of which each event tells, where it tells of one.
    tasks: Vec<Option<TaskId>>,
    pub trees: Trees,
    pub causes: Causes,
    pub actions: Actions,
    bounds: Bounds,
}

impl Story {
    /// The story of these events, and of what other lines tell of them.
    pub fn of(
        alloc: Global,
        events: Vec<Event>,
        trace: &Trace,
        beside: Beside,
    ) -> Result<Story, AllocError> {
        let Beside { bounds, actions } = beside;
        let tasks = tasks_of(alloc, events.as_slice())?;
        let trees = Trees::of(alloc, events.as_slice())?;
        let causes = Causes::of(alloc, events.as_slice(), trace)?;
        Ok(Story {
            events,
            tasks,
            trees,
            causes,
            actions,
            bounds,
        })
    }

    /// The task of which the event of a row tells.
    pub fn task(&self, row: usize) -> Option<TaskId> {
        self.tasks.get(row).copied().flatten()
    }

    /// The command of the script that made the event of a row: the one that the lines tell, else the one that the event names.
    pub fn command(&self, row: usize) -> Option<u64> {
        match self.bound(row) {
            Some(command) => Some(command),
            None => self.events.get(row)?.command().map(u64::from),
        }
    }

    /// The command that made the event of a row, if the lines tell it of each.
    pub fn bound(&self, row: usize) -> Option<u64> {
        self.bounds.command(row, self.events.len())
    }

    /// Appends an attribute with the trees to which the event of a row belongs. A tick is of all, and has none.
    pub fn push_trees(&self, row: usize, out: &mut String) -> Result<(), AllocError> {
        let Some(event) = self.events.get(row) else {
            return Ok(());
        };
        match (self.task(row), event.command()) {
            (Some(task), _) => self.push_tree(task, out),
            (None, Some(command)) => self.push_trees_of(command, out),
            (None, None) => Ok(()),
        }
    }

    /// The same of a thing.
    pub fn push_trees_of_thing(&self, thing: &Thing, out: &mut String) -> Result<(), AllocError> {
        match thing {
            Thing::Task(task) => self.push_tree(*task, out),
            Thing::Ban { parent, .. } => self.push_tree(*parent, out),
            Thing::Command(command) => self.push_trees_of(*command, out),
            Thing::NoSlot { row, .. } | Thing::Tick(row) => self.push_trees(*row, out),
        }
    }

    /// Appends an attribute with the tree of a task.
    pub fn push_tree(&self, task: TaskId, out: &mut String) -> Result<(), AllocError> {
        out.push_str(" data-trees=\"")?;
        push_id(self.trees.root(task), out)?;
        out.push('"')
    }

    fn push_trees_of(&self, command: u32, out: &mut String) -> Result<(), AllocError> {
        out.push_str(" data-trees=\"")?;
        self.trees.push_named(command, out)?;
        out.push('"')
    }
}

/// The task of which each event tells. A write is of the task that made the newest turn of work.
fn tasks_of(alloc: Global, events: &[Event]) -> Result<Vec<Option<TaskId>>, AllocError> {
    let mut tasks = Vec::new(alloc);
    let mut worker = None;
    for event in events {
        if let Event::Work { task } = event {
            worker = Some(*task);
        }
        tasks.push(if matches!(event, Event::Write) {
            worker
        } else {
            event.task()
        })?;
    }
    Ok(tasks)
}

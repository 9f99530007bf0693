// The trees of tasks that a history tells of.

use crate::event::Event;
use std::alloc::{AllocError, Global};
use task_ids::TaskId;

/// A task and the root of its tree.
#[derive(Clone, Copy)]
struct Member {
    task: TaskId,
    root: TaskId,
}

/// A command and the root of a tree that it starts, or of which it cancels a task.
#[derive(Clone, Copy, PartialEq, Eq)]
struct Named {
    command: u32,
    root: TaskId,
}

/// The trees of a history. A task of which no event tells how it began is the root of a tree.
#[derive(Drop)]
pub struct Trees {
    members: Vec<Member>,
    named: Vec<Named>,
}

impl Trees {
    /// The trees of which events tell.
    pub fn of(alloc: Global, events: &[Event]) -> Result<Trees, AllocError> {
        let mut trees = Trees {
            members: Vec::new(alloc),
            named: Vec::new(alloc),
        };
        for event in events {
            trees.take(event)?;
        }
        Ok(trees)
    }

    fn take(&mut self, event: &Event) -> Result<(), AllocError> {
        if let Event::Put { task, parent, .. } = event {
            let root = self.root(*parent);
            self.join(*parent, root)?;
            return self.join(*task, root);
        }
        let Some(task) = event.task() else {
            return Ok(());
        };
        let root = self.root(task);
        self.join(task, root)?;
        match event.command() {
            Some(command) => self.name(command, root),
            None => Ok(()),
        }
    }

    /// A task belongs to the tree of this root, if it is of none yet.
    fn join(&mut self, task: TaskId, root: TaskId) -> Result<(), AllocError> {
        if !self.members.iter().any(|member| member.task == task) {
            self.members.push(Member { task, root })?;
        }
        Ok(())
    }

    fn name(&mut self, command: u32, root: TaskId) -> Result<(), AllocError> {
        let named = Named { command, root };
        if !self.named.iter().any(|other| *other == named) {
            self.named.push(named)?;
        }
        Ok(())
    }

    /// The root of a task's tree.
    pub fn root(&self, task: TaskId) -> TaskId {
        match self.members.iter().find(|member| member.task == task) {
            Some(member) => member.root,
            None => task,
        }
    }

    /// The roots, in the order in which events first tell of them.
    pub fn roots(&self, alloc: Global) -> Result<Vec<TaskId>, AllocError> {
        self.members
            .iter()
            .filter(|member| member.task == member.root)
            .map(|member| member.root)
            .collect(alloc)
    }

    /// The tasks, in the order in which events first tell of them.
    pub fn tasks(&self, alloc: Global) -> Result<Vec<TaskId>, AllocError> {
        self.members.iter().map(|member| member.task).collect(alloc)
    }

    /// Appends the roots of the trees that a command names, with a space between each two.
    pub fn push_named(&self, command: u32, out: &mut String) -> Result<(), AllocError> {
        let mut is_first = true;
        for named in self.named.iter().filter(|named| named.command == command) {
            if !is_first {
                out.push(' ')?;
            }
            push_id(named.root, out)?;
            is_first = false;
        }
        Ok(())
    }
}

/// Appends the id of a task.
pub fn push_id(task: TaskId, out: &mut String) -> Result<(), AllocError> {
    write!(out, "n{}:{}", task.node, task.number)
}

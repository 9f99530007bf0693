// What is known of a task.

use std::alloc::Global;
use std::fmt;
use task_ids::{Action, TaskId};

/// A task's id as it is written.
#[derive(Clone, Copy)]
pub struct Id(pub TaskId);

impl fmt::Display for Id {
    fn fmt<W: fmt::Write>(&self, f: &mut fmt::Formatter<W>) -> fmt::Result {
        write!(f, "n{}:{}", self.0.node, self.0.number)
    }
}

/// An ask that is still to be answered.
#[derive(Clone, Copy)]
pub struct OpenAsk {
    pub ask: u32,
    pub to: u32,
    pub action: Action,
    /// The task that was put for it, once it was.
    pub child: Option<TaskId>,
}

/// What the events tell of a task.
#[derive(Drop)]
pub struct Task {
    pub action: Action,
    /// The task that asked for it, and the number of the ask.
    pub asked_by: Option<(TaskId, u32)>,
    /// The asks that are still to be answered.
    pub asks: Vec<OpenAsk>,
    /// A child that has not made its first step.
    pub is_new: bool,
    pub mark: Option<u32>,
    pub is_over: bool,
    /// The nodes to which its bans went, ascending.
    pub banned: Vec<u32>,
    /// How many of these have not acknowledged.
    pub unacked: usize,
}

impl Task {
    /// A task that has just begun.
    pub fn new(alloc: Global, action: Action, asked_by: Option<(TaskId, u32)>) -> Task {
        Task {
            action,
            asked_by,
            asks: Vec::new(alloc),
            is_new: asked_by.is_some(),
            mark: None,
            is_over: false,
            banned: Vec::new(alloc),
            unacked: 0,
        }
    }

    /// Whether it is live and its bans are not placed.
    pub fn goes_on(&self) -> bool {
        !self.is_over && (self.mark.is_none() || self.unacked > 0)
    }

    /// The action of the child that an open ask is for.
    pub fn asked(&self, ask: u32) -> Action {
        match self.asks.iter().find(|open| open.ask == ask) {
            Some(open) => open.action,
            None => self.action,
        }
    }
}

// Which events an event came of.

ghost use Rattle.std.specs.Prelude.{◌<◌};

use crate::event::{Ending, Event};
use crate::trace::Trace;
use std::alloc::{AllocError, Global};
use task_ids::TaskId;

/// An event and an earlier one that it came of, by their rows.
#[derive(Clone, Copy, PartialEq, Eq)]
pub struct Cause {
    pub row: usize,
    pub by: usize,
    pub ghost earlier: { by < row },
}

/// What each event came of: the sending of the message that it delivers, what acts on a task in it, and for a step of a task what let
/// the task go on.
#[derive(Drop)]
pub struct Causes {
    causes: Vec<Cause>,
}

impl Causes {
    /// The causes of the events of a history.
    pub fn of(alloc: Global, events: &[Event], trace: &Trace) -> Result<Causes, AllocError> {
        let mut causes = Causes {
            causes: Vec::new(alloc),
        };
        for (row, event) in events.iter().enumerate() {
            causes.take_sent(row, trace)?;
            causes.take_acting(row, event, events, trace)?;
            causes.take_step(row, event, events)?;
        }
        Ok(causes)
    }

    /// All causes, by the rows of the events that came of them.
    pub fn all(&self) -> &[Cause] {
        self.causes.as_slice()
    }

    fn add(&mut self, row: usize, by: Option<usize>) -> Result<(), AllocError> {
        let Some(by) = by else {
            return Ok(());
        };
        if by >= row {
            return Ok(());
        }
        let cause = Cause { row, by };
        if !self.causes.iter().any(|other| *other == cause) {
            self.causes.push(cause)?;
        }
        Ok(())
    }

    /// The sending of what is delivered at this row.
    fn take_sent(&mut self, row: usize, trace: &Trace) -> Result<(), AllocError> {
        for arrow in trace.arrows.iter() {
            if arrow.to.is_some_and(|to| to.row == row) {
                self.add(row, Some(arrow.from.row))?;
            }
        }
        Ok(())
    }

    /// What acts on a task at this row: the cancel that names it, or the ban that marks or refuses it.
    fn take_acting(
        &mut self,
        row: usize,
        event: &Event,
        events: &[Event],
        trace: &Trace,
    ) -> Result<(), AllocError> {
        if let Event::Mark { task } = event
            && names_at(events, row.saturating_sub(1), *task)
        {
            return self.add(row, row.checked_sub(1));
        }
        for link in trace.links.iter() {
            if link.row == row {
                let from = trace.bars.get(link.from).map(|bar| bar.from);
                self.add(row, from)?;
            }
        }
        Ok(())
    }

    /// What let the step be made that is taken at this row, or the command be answered.
    fn take_step(&mut self, row: usize, event: &Event, events: &[Event]) -> Result<(), AllocError> {
        let before = events.get(..row).unwrap_or(&[]);
        match event {
            Event::Pass { task }
            | Event::Work { task }
            | Event::Ask { parent: task, .. }
            | Event::End {
                task,
                how: Ending::Done | Ending::Failed,
            } => self.add(row, newest_of_task(before, *task)),
            Event::End { task, .. } => {
                self.add(row, newest_mark(before, *task))?;
                self.add(row, newest_of_task(before, *task))
            }
            Event::Refuse { task } => self.add(row, newest_put(before, *task)),
            Event::Write => self.add(row, newest_work(before)),
            Event::Listed { node, parent } => self.add(row, newest_ban(before, *node, *parent)),
            Event::AnswerPlaced { cancel } | Event::AnswerDone { cancel } => {
                self.add(row, newest_cancel(before, *cancel))?;
                self.add(row, before.iter().rposition(|event| !event.answers()))
            }
            _ => Ok(()),
        }
    }
}

/// Whether the event of a row is a cancel of this task.
fn names_at(events: &[Event], row: usize, task: TaskId) -> bool {
    match events.get(row) {
        Some(Event::Cancel { task: named, .. }) => *named == task,
        _ => false,
    }
}

/// The newest event that let this task go on.
fn newest_of_task(events: &[Event], task: TaskId) -> Option<usize> {
    events
        .iter()
        .rposition(|event| event.lets_go_on() == Some(task))
}

fn newest_mark(events: &[Event], task: TaskId) -> Option<usize> {
    events.iter().rposition(
        |event| matches!(event, Event::Mark { task: marked } if *marked == task),
    )
}

fn newest_put(events: &[Event], task: TaskId) -> Option<usize> {
    events.iter().rposition(|event| matches!(event, Event::Put { task: put, .. } if *put == task))
}

fn newest_work(events: &[Event]) -> Option<usize> {
    events
        .iter()
        .rposition(|event| matches!(event, Event::Work { .. }))
}

/// The newest ban of this task on this node.
fn newest_ban(events: &[Event], node: u32, parent: TaskId) -> Option<usize> {
    events.iter().rposition(|event| match event {
        Event::BanPut {
            node: at,
            parent: of,
        } => *at == node && *of == parent,
        _ => false,
    })
}

fn newest_cancel(events: &[Event], cancel: u32) -> Option<usize> {
    events.iter().rposition(
        |event| matches!(event, Event::Cancel { cancel: one, .. } if *one == cancel),
    )
}

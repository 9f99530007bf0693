// What a history's events tell of tasks, bans, commands and messages.

use crate::event::Event;
use std::alloc::{AllocError, Global};
use task_ids::TaskId;

/// What a bar of the picture stands for.
#[derive(Clone, Copy, PartialEq, Eq)]
pub enum Thing {
    /// A command that starts a task or cancels one, and waits for its answer.
    Command(u32),
    /// A tick of the clock, by its row.
    Tick(usize),
    /// A task.
    Task(TaskId),
    /// The place of a task that found no slot, by its node and row.
    NoSlot { node: u32, row: usize },
    /// The ban of a task on a node.
    Ban { node: u32, parent: TaskId },
}

/// A bar, from its first row to its end. Rows are places of events, from 0.
#[derive(Clone, Copy)]
pub struct Bar {
    pub thing: Thing,
    pub from: usize,
    /// A task's pass; for a ban the end of its listing.
    pub passed: Option<usize>,
    pub marked: Option<usize>,
    /// For a ban, the row from which it was acknowledged.
    pub told: Option<usize>,
    pub end: Option<usize>,
    /// The last row at which something reached it.
    pub last: usize,
    /// The task and the ask for which a task was put.
    pub asked: Option<(TaskId, u32)>,
}

/// A bar at a row.
#[derive(Clone, Copy)]
pub struct Spot {
    pub row: usize,
    pub bar: usize,
}

/// A small sign at a row of a bar.
#[derive(Clone, Copy, PartialEq, Eq)]
pub enum Shape {
    Pass,
    Work,
    Write,
    Mark,
    Refused,
    NoSlot,
    Done,
    Failed,
    Cancelled,
    Listed,
    Answered,
    NotFound,
    Tick,
}

/// A sign of the picture.
#[derive(Clone, Copy)]
pub struct Sign {
    pub shape: Shape,
    pub at: Spot,
}

/// A message. No two that are in flight at once are equal.
#[derive(Clone, Copy, PartialEq, Eq)]
pub enum Message {
    Request { parent: TaskId, ask: u32, to: u32 },
    Answer { parent: TaskId, ask: u32 },
    Ban { parent: TaskId, to: u32 },
    Ack { parent: TaskId, from: u32 },
    Unban { parent: TaskId, to: u32 },
}

impl Message {
    /// The node to which it goes.
    pub fn node(&self) -> u32 {
        match self {
            Message::Request { to, .. } | Message::Ban { to, .. } | Message::Unban { to, .. } =>
                *to,
            Message::Answer { parent, .. } | Message::Ack { parent, .. } => parent.node,
        }
    }

    /// The task that asked, or that is cancelled.
    pub fn parent(&self) -> TaskId {
        match self {
            Message::Request { parent, .. }
            | Message::Answer { parent, .. }
            | Message::Ban { parent, .. }
            | Message::Ack { parent, .. }
            | Message::Unban { parent, .. } => *parent,
        }
    }

    /// How the styles name it.
    pub fn style(&self) -> &'static str {
        match self {
            Message::Request { .. } => "request",
            Message::Answer { .. } => "answer",
            Message::Ban { .. } => "ban",
            Message::Ack { .. } => "ack",
            Message::Unban { .. } => "unban",
        }
    }
}

/// A message's way, from the event that sent it to the one that delivered it.
#[derive(Clone, Copy)]
pub struct Arrow {
    pub message: Message,
    pub from: Spot,
    /// Where it was delivered, if it was.
    pub to: Option<Spot>,
}

/// What acts on a task within a row: a command, or a ban that marks or refuses a child.
#[derive(Clone, Copy)]
pub struct Link {
    pub row: usize,
    pub from: usize,
    pub to: usize,
}

/// An ask that has no answer yet.
#[derive(Clone, Copy, PartialEq, Eq)]
pub struct OpenAsk {
    pub parent: TaskId,
    pub ask: u32,
    pub to: u32,
}

/// A ban that was sent, and whether it is acknowledged.
#[derive(Clone, Copy)]
pub struct SentBan {
    pub parent: TaskId,
    pub to: u32,
    pub is_acked: bool,
}

/// A child for which the acknowledgement of a ban waits, and the ban's bar.
#[derive(Clone, Copy)]
pub struct Awaited {
    pub child: TaskId,
    pub ban: usize,
}

/// What events tell. Bars stand in the order of their first rows. A history that no run makes is told as far as it goes: what it
/// speaks of for the first time begins there.
#[derive(Drop)]
pub struct Trace {
    pub bars: Vec<Bar>,
    pub signs: Vec<Sign>,
    pub arrows: Vec<Arrow>,
    pub links: Vec<Link>,
    /// How many events there are.
    pub rows: usize,
    /// The greatest number of a node.
    pub nodes: u32,
    pub open_asks: Vec<OpenAsk>,
    pub sent_bans: Vec<SentBan>,
    pub awaited: Vec<Awaited>,
    /// The command that named a task in the row before, and its bar.
    pub named_by: Option<usize>,
}

impl Trace {
    /// What a list of events tells.
    pub fn of(alloc: Global, events: &[Event]) -> Result<Trace, AllocError> {
        let mut trace = Trace {
            bars: Vec::new(alloc),
            signs: Vec::new(alloc),
            arrows: Vec::new(alloc),
            links: Vec::new(alloc),
            rows: 0,
            nodes: 1,
            open_asks: Vec::new(alloc),
            sent_bans: Vec::new(alloc),
            awaited: Vec::new(alloc),
            named_by: None,
        };
        for event in events {
            trace.take(*event)?;
            trace.rows = trace.rows.saturating_add(1);
        }
        Ok(trace)
    }

    /// The bar of a thing, which now reaches this row. Where there is none one begins.
    pub fn bar(&mut self, thing: Thing) -> Result<usize, AllocError> {
        let row = self.rows;
        self.nodes = self.nodes.max(thing.lane());
        if let Some(bar) = self.find(thing) {
            if let Some(known) = self.bars.get_mut(bar) {
                known.last = row;
            }
            return Ok(bar);
        }
        let bar = self.bars.len();
        self.bars.push(Bar {
            thing,
            from: row,
            passed: None,
            marked: None,
            told: None,
            end: None,
            last: row,
            asked: None,
        })?;
        Ok(bar)
    }

    /// The newest bar of a thing.
    pub fn find(&self, thing: Thing) -> Option<usize> {
        self.bars.iter().rposition(|bar| bar.thing == thing)
    }

    pub fn sign(&mut self, bar: usize, shape: Shape) -> Result<(), AllocError> {
        let at = Spot {
            row: self.rows,
            bar,
        };
        self.signs.push(Sign { shape, at })?;
        Ok(())
    }

    pub fn link(&mut self, from: usize, to: usize) -> Result<(), AllocError> {
        let row = self.rows;
        self.links.push(Link { row, from, to })?;
        Ok(())
    }

    pub fn send(&mut self, message: Message, bar: usize) -> Result<(), AllocError> {
        self.nodes = self.nodes.max(message.node());
        let from = Spot {
            row: self.rows,
            bar,
        };
        self.arrows.push(Arrow {
            message,
            from,
            to: None,
        })?;
        Ok(())
    }

    /// The message is delivered here, if it is in flight.
    pub fn deliver(&mut self, message: Message, bar: usize) {
        let to = Spot {
            row: self.rows,
            bar,
        };
        for arrow in self.arrows.iter_mut() {
            if arrow.to.is_none() && arrow.message == message {
                arrow.to = Some(to);
                return;
            }
        }
    }
}

impl Thing {
    /// The lane in which its bar stands: 0 is that of the commands, and each other that of the node of that number.
    pub fn lane(&self) -> u32 {
        match self {
            Thing::Command(_) | Thing::Tick(_) => 0,
            Thing::Task(task) => task.node,
            Thing::NoSlot { node, .. } | Thing::Ban { node, .. } => *node,
        }
    }
}

// What a history tells at each of its moments: the live tasks, the messages in flight and the open listings.

use crate::task::{OpenAsk, Task};
use node_parts::kinds::action_of;
use std::alloc::{AllocError, Global};
use std::collections::BTreeMap;
use task_events::Event;
use task_ids::{Action, TaskId};

/// A message in flight.
#[derive(Clone, Copy, PartialEq, Eq)]
pub enum Message {
    Request {
        parent: TaskId,
        ask: u32,
        to: u32,
    },
    Answer {
        parent: TaskId,
        ask: u32,
    },
    Ban {
        parent: TaskId,
        cancel: u32,
        to: u32,
    },
    Ack {
        parent: TaskId,
        from: u32,
    },
    Unban {
        parent: TaskId,
        to: u32,
    },
}

/// An open listing of the children of a banned task.
#[derive(Clone, Copy, PartialEq, Eq)]
pub struct Listing {
    pub node: u32,
    pub parent: TaskId,
}

/// A child for which the acknowledgement of a ban waits.
#[derive(Clone, Copy, PartialEq, Eq)]
pub struct Awaited {
    pub listing: Listing,
    pub child: TaskId,
}

/// A move by which an event came.
#[derive(Clone, Copy)]
pub enum Move {
    /// The message of this place in flight was delivered.
    Deliver(usize),
    Step(TaskId),
    ListStep(Listing),
    /// The clock moved on by so many milliseconds.
    Tick(u64),
}

/// What is known after some events.
#[derive(Drop)]
pub struct Scene {
    alloc: Global,
    /// All tasks so far.
    pub tasks: BTreeMap<TaskId, Task>,
    /// The messages in flight, the oldest first.
    pub flight: Vec<Message>,
    /// The open listings.
    pub listings: Vec<Listing>,
    /// The children for which ended listings wait.
    pub awaited: Vec<Awaited>,
}

impl Scene {
    /// Nothing has happened.
    pub fn new(alloc: Global) -> Scene {
        Scene {
            alloc,
            tasks: BTreeMap::new(alloc),
            flight: Vec::new(alloc),
            listings: Vec::new(alloc),
            awaited: Vec::new(alloc),
        }
    }

    /// The move that delivers this message, which is in flight no more.
    fn deliver(&mut self, message: Message) -> Option<Move> {
        let at = self.flight.iter().position(|sent| *sent == message)?;
        self.flight.remove(at);
        Some(Move::Deliver(at))
    }

    /// Takes the next event, which belongs to a task that a command of this action starts, if it starts one. Gives the move that
    /// begins with the event, where one does.
    pub fn take(&mut self, event: &Event, started: Action) -> Result<Option<Move>, AllocError> {
        match event {
            Event::Root { task, .. } => {
                let root = Task::new(self.alloc, started, None);
                self.tasks.insert(*task, root)?;
                Ok(None)
            }
            Event::Put { task, parent, ask } => self.put(*task, *parent, *ask),
            Event::Reject { node, parent, ask } => self.reject(*node, *parent, *ask),
            Event::Answered { parent, ask } => Ok(self.answered(*parent, *ask)),
            Event::BanPut {
                node,
                parent,
                cancel,
            } => self.ban_put(*node, *parent, *cancel),
            Event::Acked { parent, from } => self.acked(*parent, *from),
            Event::BanGone { node, parent } => Ok(self.deliver(Message::Unban {
                parent: *parent,
                to: *node,
            })),
            Event::Mark { task, cancel } => self.mark(*task, *cancel),
            Event::Listed { node, parent } => self.listed(*node, *parent),
            Event::Tick { ms } => Ok(Some(Move::Tick(*ms))),
            Event::Ask { .. }
            | Event::Pass { .. }
            | Event::Refuse { .. }
            | Event::Work { .. }
            | Event::End { .. } => self.take_step(event),
            _ => Ok(None),
        }
    }

    /// Takes an event that a step of a task begins with.
    fn take_step(&mut self, event: &Event) -> Result<Option<Move>, AllocError> {
        let task = match event {
            Event::Ask {
                parent,
                ask,
                to,
                request,
            } => {
                self.ask(*parent, *ask, *to, action_of(request))?;
                *parent
            }
            Event::Pass { task } => {
                if let Some(known) = self.tasks.get_mut(task) {
                    known.is_new = false;
                }
                *task
            }
            Event::Work { task } => *task,
            Event::Refuse { task, .. } | Event::End { task, .. } => {
                self.end(*task)?;
                *task
            }
            _ => return Ok(None),
        };
        Ok(Some(Move::Step(task)))
    }

    fn ask(&mut self, parent: TaskId, ask: u32, to: u32, action: Action) -> Result<(), AllocError> {
        if let Some(known) = self.tasks.get_mut(&parent) {
            let child = None;
            known.asks.push(OpenAsk {
                ask,
                to,
                action,
                child,
            })?;
        }
        self.flight.push(Message::Request { parent, ask, to })?;
        Ok(())
    }

    fn put(&mut self, task: TaskId, parent: TaskId, ask: u32) -> Result<Option<Move>, AllocError> {
        let to = task.node;
        let made = self.deliver(Message::Request { parent, ask, to });
        let mut action = Action::Search;
        if let Some(known) = self.tasks.get_mut(&parent) {
            action = known.asked(ask);
            for open in known.asks.iter_mut().filter(|open| open.ask == ask) {
                open.child = Some(task);
            }
        }
        let child = Task::new(self.alloc, action, Some((parent, ask)));
        self.tasks.insert(task, child)?;
        Ok(made)
    }

    fn reject(&mut self, node: u32, parent: TaskId, ask: u32) -> Result<Option<Move>, AllocError> {
        let to = node;
        let made = self.deliver(Message::Request { parent, ask, to });
        self.flight.push(Message::Answer { parent, ask })?;
        Ok(made)
    }

    fn answered(&mut self, parent: TaskId, ask: u32) -> Option<Move> {
        if let Some(known) = self.tasks.get_mut(&parent) {
            known.asks.retain(|open| open.ask != ask);
        }
        self.deliver(Message::Answer { parent, ask })
    }

    /// A mark sends a ban to each node from which the task awaits an answer. It is the step of a listing, where the task has a parent
    /// whose children are listed.
    fn mark(&mut self, task: TaskId, cancel: u32) -> Result<Option<Move>, AllocError> {
        let Some(known) = self.tasks.get_mut(&task) else {
            return Ok(None);
        };
        known.mark = Some(cancel);
        for to in 1..16 {
            if known.asks.iter().any(|open| open.to == to) {
                known.banned.push(to)?;
                self.flight.push(Message::Ban {
                    parent: task,
                    cancel,
                    to,
                })?;
            }
        }
        known.unacked = known.banned.len();
        Ok(match known.asked_by {
            Some((parent, _)) => Some(Move::ListStep(Listing {
                node: task.node,
                parent,
            })),
            None => None,
        })
    }

    fn ban_put(
        &mut self,
        node: u32,
        parent: TaskId,
        cancel: u32,
    ) -> Result<Option<Move>, AllocError> {
        let to = node;
        let made = self.deliver(Message::Ban { parent, cancel, to });
        self.listings.push(Listing { node, parent })?;
        Ok(made)
    }

    /// A listing ends. Its ban is acknowledged once it awaits no child.
    fn listed(&mut self, node: u32, parent: TaskId) -> Result<Option<Move>, AllocError> {
        let listing = Listing { node, parent };
        self.listings.retain(|open| *open != listing);
        self.await_children(listing)?;
        self.acknowledge(listing)?;
        Ok(Some(Move::ListStep(listing)))
    }

    /// Notes the children that are live and whose own bans are not placed.
    fn await_children(&mut self, listing: Listing) -> Result<(), AllocError> {
        let Some(known) = self.tasks.get(&listing.parent) else {
            return Ok(());
        };
        for child in known.asks.iter().filter_map(|open| open.child) {
            let goes_on = self.tasks.get(&child).is_some_and(|task| task.goes_on());
            if goes_on && child.node == listing.node {
                self.awaited.push(Awaited { listing, child })?;
            }
        }
        Ok(())
    }

    /// Sends the acknowledgement of a ban whose listing awaits no child.
    fn acknowledge(&mut self, listing: Listing) -> Result<(), AllocError> {
        if self
            .awaited
            .iter()
            .any(|awaited| awaited.listing == listing)
        {
            return Ok(());
        }
        self.flight.push(Message::Ack {
            parent: listing.parent,
            from: listing.node,
        })?;
        Ok(())
    }

    /// A task that has ended, or whose bans are placed, is awaited no more.
    fn leave(&mut self, task: TaskId) -> Result<(), AllocError> {
        if self.tasks.get(&task).is_some_and(|known| known.goes_on()) {
            return Ok(());
        }
        let Some(at) = self
            .awaited
            .iter()
            .position(|awaited| awaited.child == task)
        else {
            return Ok(());
        };
        let left = self.awaited.remove(at);
        self.acknowledge(left.listing)
    }

    fn acked(&mut self, parent: TaskId, from: u32) -> Result<Option<Move>, AllocError> {
        let made = self.deliver(Message::Ack { parent, from });
        if let Some(known) = self.tasks.get_mut(&parent) {
            known.unacked = known.unacked.saturating_sub(1);
        }
        self.send_unbans(parent)?;
        self.leave(parent)?;
        Ok(made)
    }

    fn end(&mut self, task: TaskId) -> Result<(), AllocError> {
        if let Some(known) = self.tasks.get_mut(&task) {
            known.is_over = true;
            if let Some((parent, ask)) = known.asked_by {
                self.flight.push(Message::Answer { parent, ask })?;
            }
        }
        self.send_unbans(task)?;
        self.leave(task)
    }

    /// Sends an unban to each banned node of a task, where it has ended and its bans are placed.
    fn send_unbans(&mut self, task: TaskId) -> Result<(), AllocError> {
        if let Some(known) = self.tasks.get(&task) {
            if known.is_over && known.unacked == 0 {
                for to in known.banned.iter() {
                    self.flight.push(Message::Unban {
                        parent: task,
                        to: *to,
                    })?;
                }
            }
        }
        Ok(())
    }
}

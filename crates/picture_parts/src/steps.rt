// What each event tells.

use crate::event::{Ending, Event, MAX_NODE};
use crate::trace::{Awaited, Message, OpenAsk, SentBan, Shape, Thing, Trace};
use std::alloc::AllocError;
use task_ids::TaskId;

impl Trace {
    /// Takes the next event.
    pub fn take(&mut self, event: Event) -> Result<(), AllocError> {
        let named_by = self.named_by;
        self.named_by = None;
        match event {
            Event::Root { command, task } => self.root(command, task),
            Event::RootRejected { command, node } => self.root_rejected(command, node),
            Event::Cancel { cancel, task } => self.cancel(cancel, task),
            Event::NotFound { cancel } => self.answer_command(cancel, Shape::NotFound),
            Event::AnswerPlaced { cancel } | Event::AnswerDone { cancel } => {
                self.answer_command(cancel, Shape::Answered)
            }
            Event::Tick => {
                let bar = self.bar(Thing::Tick(self.rows))?;
                self.sign(bar, Shape::Tick)
            }
            Event::Ask { parent, ask, to } => self.ask(parent, ask, to),
            Event::Put { task, parent, ask } => self.put(task, parent, ask),
            Event::Reject { node, parent, ask } => self.reject(node, parent, ask),
            Event::Answered { parent, ask } => self.answered(parent, ask),
            Event::Mark { task } => self.mark(task, named_by),
            Event::BanPut { node, parent } => self.ban_put(node, parent),
            Event::Listed { node, parent } => self.listed(node, parent),
            Event::Acked { parent, from } => self.acked(parent, from),
            Event::BanGone { node, parent } => self.ban_gone(node, parent),
            Event::Pass { .. }
            | Event::Work { .. }
            | Event::Write
            | Event::Refuse { .. }
            | Event::End { .. } => self.take_step(event),
        }
    }

    /// Takes a step of a task that sends nothing, or its end.
    fn take_step(&mut self, event: Event) -> Result<(), AllocError> {
        match event {
            Event::Pass { task } => self.pass(task),
            Event::Work { task } => {
                let bar = self.bar(Thing::Task(task))?;
                self.sign(bar, Shape::Work)
            }
            Event::Write => self.write(),
            Event::Refuse { task } => self.refuse(task),
            Event::End { task, how } => self.end(task, how),
            _ => Ok(()),
        }
    }

    fn root(&mut self, command: u32, task: TaskId) -> Result<(), AllocError> {
        let row = self.rows;
        let from = self.bar(Thing::Command(command))?;
        let to = self.bar(Thing::Task(task))?;
        if let Some(bar) = self.bars.get_mut(from) {
            bar.end = Some(row);
        }
        if let Some(bar) = self.bars.get_mut(to) {
            bar.passed = Some(row);
        }
        self.link(from, to)
    }

    fn root_rejected(&mut self, command: u32, node: u32) -> Result<(), AllocError> {
        let row = self.rows;
        let from = self.bar(Thing::Command(command))?;
        let to = self.bar(Thing::NoSlot { node, row })?;
        if let Some(bar) = self.bars.get_mut(from) {
            bar.end = Some(row);
        }
        self.link(from, to)?;
        self.sign(to, Shape::NoSlot)
    }

    fn cancel(&mut self, cancel: u32, task: TaskId) -> Result<(), AllocError> {
        let from = self.bar(Thing::Command(cancel))?;
        let to = self.bar(Thing::Task(task))?;
        self.named_by = Some(from);
        self.link(from, to)
    }

    /// A command has its answer, and its bar ends.
    fn answer_command(&mut self, cancel: u32, shape: Shape) -> Result<(), AllocError> {
        let row = self.rows;
        let bar = self.bar(Thing::Command(cancel))?;
        if let Some(known) = self.bars.get_mut(bar) {
            known.end = Some(row);
        }
        self.sign(bar, shape)
    }

    fn ask(&mut self, parent: TaskId, ask: u32, to: u32) -> Result<(), AllocError> {
        let bar = self.bar(Thing::Task(parent))?;
        self.open_asks.push(OpenAsk { parent, ask, to })?;
        self.send(Message::Request { parent, ask, to }, bar)
    }

    fn put(&mut self, task: TaskId, parent: TaskId, ask: u32) -> Result<(), AllocError> {
        let bar = self.bar(Thing::Task(task))?;
        if let Some(known) = self.bars.get_mut(bar) {
            known.asked = Some((parent, ask));
        }
        let to = task.node;
        self.deliver(Message::Request { parent, ask, to }, bar);
        Ok(())
    }

    fn reject(&mut self, node: u32, parent: TaskId, ask: u32) -> Result<(), AllocError> {
        let row = self.rows;
        let bar = self.bar(Thing::NoSlot { node, row })?;
        if let Some(known) = self.bars.get_mut(bar) {
            known.end = Some(row);
        }
        let to = node;
        self.deliver(Message::Request { parent, ask, to }, bar);
        self.sign(bar, Shape::NoSlot)?;
        self.send(Message::Answer { parent, ask }, bar)
    }

    fn answered(&mut self, parent: TaskId, ask: u32) -> Result<(), AllocError> {
        let bar = self.bar(Thing::Task(parent))?;
        self.open_asks
            .retain(|open| open.parent != parent || open.ask != ask);
        self.deliver(Message::Answer { parent, ask }, bar);
        Ok(())
    }

    fn pass(&mut self, task: TaskId) -> Result<(), AllocError> {
        let row = self.rows;
        let bar = self.bar(Thing::Task(task))?;
        if let Some(known) = self.bars.get_mut(bar) {
            known.passed = Some(row);
        }
        self.sign(bar, Shape::Pass)
    }

    /// A document is written by the task that made the newest turn of work.
    fn write(&mut self) -> Result<(), AllocError> {
        let row = self.rows;
        let worker = self
            .signs
            .iter()
            .rfind(|sign| sign.shape == Shape::Work)
            .map(|sign| sign.at.bar);
        match worker {
            None => Ok(()),
            Some(bar) => {
                if let Some(known) = self.bars.get_mut(bar) {
                    known.last = row;
                }
                self.sign(bar, Shape::Write)
            }
        }
    }

    /// The ban of a task's parent that stands on its node.
    fn ban_over(&self, bar: usize) -> Option<usize> {
        let child = self.bars.get(bar)?;
        let (parent, _) = child.asked?;
        let node = child.thing.lane();
        let ban = self.find(Thing::Ban { node, parent })?;
        match self.bars.get(ban)?.end {
            None => Some(ban),
            Some(_) => None,
        }
    }

    fn refuse(&mut self, task: TaskId) -> Result<(), AllocError> {
        let bar = self.bar(Thing::Task(task))?;
        if let Some(ban) = self.ban_over(bar) {
            self.link(ban, bar)?;
        }
        self.sign(bar, Shape::Refused)?;
        self.close(task, bar)
    }

    fn end(&mut self, task: TaskId, how: Ending) -> Result<(), AllocError> {
        let bar = self.bar(Thing::Task(task))?;
        let shape = match how {
            Ending::Done => Shape::Done,
            Ending::Failed => Shape::Failed,
            Ending::Cancelled => Shape::Cancelled,
        };
        self.sign(bar, shape)?;
        self.close(task, bar)
    }

    /// A task ends. Its answer is sent where it has a parent, its unbans where its bans are all acknowledged, and the
    /// acknowledgement that waited for it alone.
    fn close(&mut self, task: TaskId, bar: usize) -> Result<(), AllocError> {
        let row = self.rows;
        let mut asked = None;
        if let Some(known) = self.bars.get_mut(bar) {
            known.end = Some(row);
            asked = known.asked;
        }
        if let Some((parent, ask)) = asked {
            self.send(Message::Answer { parent, ask }, bar)?;
        }
        self.unban(task, bar)?;
        self.leave(task)
    }

    /// Sends the unbans of a task whose bans are all acknowledged.
    fn unban(&mut self, parent: TaskId, bar: usize) -> Result<(), AllocError> {
        let mut nodes = Vec::new(*self.bars.allocator());
        for ban in self.sent_bans.iter() {
            if ban.parent == parent {
                if !ban.is_acked {
                    return Ok(());
                }
                nodes.push(ban.to)?;
            }
        }
        for to in nodes.iter() {
            self.send(Message::Unban { parent, to: *to }, bar)?;
        }
        Ok(())
    }

    /// A task is marked, by the command that named it in the row before or by a listing. Bans go where an ask of it is open.
    fn mark(&mut self, task: TaskId, named_by: Option<usize>) -> Result<(), AllocError> {
        let row = self.rows;
        let bar = self.bar(Thing::Task(task))?;
        if let Some(known) = self.bars.get_mut(bar) {
            known.marked = Some(row);
        }
        if let Some(from) = named_by.or(self.ban_over(bar)) {
            self.link(from, bar)?;
        }
        self.sign(bar, Shape::Mark)?;
        for to in 1..=MAX_NODE {
            if self.awaits(task, to) {
                let is_acked = false;
                self.sent_bans.push(SentBan {
                    parent: task,
                    to,
                    is_acked,
                })?;
                self.send(Message::Ban { parent: task, to }, bar)?;
            }
        }
        Ok(())
    }

    /// Whether an ask of a task to a node is open.
    fn awaits(&self, parent: TaskId, to: u32) -> bool {
        self.open_asks
            .iter()
            .any(|open| open.parent == parent && open.to == to)
    }

    fn ban_put(&mut self, node: u32, parent: TaskId) -> Result<(), AllocError> {
        let bar = self.bar(Thing::Ban { node, parent })?;
        self.deliver(Message::Ban { parent, to: node }, bar);
        Ok(())
    }

    /// A listing ends. The acknowledgement is sent once it awaits no child.
    fn listed(&mut self, node: u32, parent: TaskId) -> Result<(), AllocError> {
        let row = self.rows;
        let bar = self.bar(Thing::Ban { node, parent })?;
        if let Some(known) = self.bars.get_mut(bar) {
            known.passed = Some(row);
        }
        self.sign(bar, Shape::Listed)?;
        for place in 0..self.bars.len() {
            if let Some(child) = self.awaited_at(place, node, parent) {
                self.awaited.push(Awaited { child, ban: bar })?;
            }
        }
        self.acknowledge(bar)
    }

    /// The task of a bar, if it is a live child of this parent on this node whose own bans are not placed.
    fn awaited_at(&self, place: usize, node: u32, parent: TaskId) -> Option<TaskId> {
        let known = self.bars.get(place)?;
        let (asked_by, _) = known.asked?;
        match known.thing {
            Thing::Task(child)
                if child.node == node
                    && asked_by == parent
                    && known.end.is_none()
                    && !self.has_bans_placed(child) => Some(child),
            _ => None,
        }
    }

    fn has_bans_placed(&self, task: TaskId) -> bool {
        self.sent_bans
            .iter()
            .all(|ban| ban.parent != task || ban.is_acked)
    }

    /// Sends the acknowledgement of the ban of this bar, if it awaits no child.
    fn acknowledge(&mut self, bar: usize) -> Result<(), AllocError> {
        let row = self.rows;
        if self.awaited.iter().any(|awaited| awaited.ban == bar) {
            return Ok(());
        }
        let Some(known) = self.bars.get_mut(bar) else {
            return Ok(());
        };
        known.told = Some(row);
        known.last = row;
        let Thing::Ban { node, parent } = known.thing else {
            return Ok(());
        };
        self.send(Message::Ack { parent, from: node }, bar)
    }

    /// A task that has ended, or whose bans are placed, is awaited no more.
    fn leave(&mut self, task: TaskId) -> Result<(), AllocError> {
        let Some(at) = self
            .awaited
            .iter()
            .position(|awaited| awaited.child == task)
        else {
            return Ok(());
        };
        let left = self.awaited.remove(at);
        self.acknowledge(left.ban)
    }

    fn acked(&mut self, parent: TaskId, from: u32) -> Result<(), AllocError> {
        let bar = self.bar(Thing::Task(parent))?;
        self.deliver(Message::Ack { parent, from }, bar);
        for ban in self.sent_bans.iter_mut() {
            if ban.parent == parent && ban.to == from {
                ban.is_acked = true;
            }
        }
        match self.bars.get(bar) {
            Some(known) if known.end.is_some() => self.unban(parent, bar)?,
            _ => {}
        }
        if self.has_bans_placed(parent) {
            self.leave(parent)?;
        }
        Ok(())
    }

    fn ban_gone(&mut self, node: u32, parent: TaskId) -> Result<(), AllocError> {
        let row = self.rows;
        let bar = self.bar(Thing::Ban { node, parent })?;
        if let Some(known) = self.bars.get_mut(bar) {
            known.end = Some(row);
        }
        self.deliver(Message::Unban { parent, to: node }, bar);
        Ok(())
    }
}

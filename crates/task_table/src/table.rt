ghost use Rattle.std.specs.Prelude.{◌≡◌, ◌+◌, ◌++◌, ◌<◌, ◌≤◌, ◌↔◌, length, IsTrue, IsErrOf, IfOk, IfErr, OnErr, IfSome, IfNone, All, Any};
ghost use Rattle.task_ids.specs.Limits.{IsNode, IsCancel};
ghost use Rattle.child_track.specs.Token.{token_parent};
ghost use Rattle.child_track.specs.Track.{unanswered, sealed};
ghost use Rattle.task_table.specs.Rows.{IsUnmarkedChild};
ghost use Rattle.task_table.specs.Table.{IsTable, new_table, with_task, without_task, row_of, IsLive, mark_of};
ghost use Rattle.task_table.specs.Answer.{mark_answer, after_mark, refused_token};

use crate::ended::{Ended, MarkAnswer, PutError};
use crate::rows::{is_unmarked_child, place_of, row_of_task, take_row};
use crate::ticket::Ticket;
use child_track::{AskToken, ChildTrack};
use std::alloc::{AllocError, Global};
use std::collections::VecDeque;
use std::marker::Model;
use task_ids::{NewTask, TaskId, TaskInfo};

/// The number that a node gives last.
const LAST_NUMBER: u32 = 1_048_575;

/// The live tasks of one node. Each gets the next number when it is put in, and a number is never given again.
#[derive(Drop)]
pub struct TaskTable {
    node: u32,
    slots: u32,
    last: u32,
    rows: VecDeque<TaskInfo>,
}

impl Model for TaskTable {
    ghost use Rattle.task_table.specs.Table.{Table, IsTable};

    ghost Value = { Table };

    ghost view = { λ a. record { node = a.node; slots = a.slots; last = a.last; live = a.rows.items } };

    ghost invariant = { λ a. IsTable (record { node = a.node; slots = a.slots; last = a.last; live = a.rows.items }) };
}

impl TaskTable {
    /// An empty table of the node, with so many slots. It fails only for want of memory.
    pub fn new(alloc: Global, node: u32, slots: u32) -> Result<TaskTable, AllocError>
        requires { IsNode node }
        ensures { IfOk result (λ table. table ≡ new_table node slots) }
    {
        let rows = VecDeque::with_capacity(alloc, slots as usize)?;
        Ok(TaskTable {
            node,
            slots,
            last: 0,
            rows,
        })
    }

    /// Puts a task in under the next number, and gives its ticket. A token goes with it exactly where it has a
    /// parent, and is that parent's.
    ///
    /// Where it is refused, nothing has changed and the token comes back: first where every slot holds a live task,
    /// then where the last number was given, then for want of memory.
    pub fn put(&mut self, task: NewTask, token: Option<AskToken>) -> Result<Ticket, PutError>
        requires { token_parent token ≡ task.parent }
        ensures id { IfOk result (λ ticket.
            (ticket.id.node ≡ self.old.node) × (ticket.id.number ≡ self.old.last + 1)) }
        ensures token { IfOk result (λ ticket. ticket.token ≡ token) }
        ensures row { IfOk result (λ ticket. self.new ≡ with_task self.old ticket.id task) }

        ensures full { IsErrOf result (PutError.Full token) ↔ (length self.old.live ≡ self.old.slots) }
        ensures spent { IsErrOf result (PutError.NumbersSpent token)
            ↔ ((length self.old.live < self.old.slots) × (self.old.last ≡ LAST_NUMBER)) }
        ensures given_back { IfErr result (λ refused. refused_token refused ≡ token) }
        ensures err { OnErr result (self.new ≡ self.old) }
    {
        if self.rows.len() == self.slots as usize {
            return Err(PutError::Full(token));
        }
        if self.last == LAST_NUMBER {
            return Err(PutError::NumbersSpent(token));
        }
        let id = TaskId {
            node: self.node,
            number: self.last + 1,
        };
        if self.rows.push_back(row_of_task(id, task)).is_err() {
            return Err(PutError::Memory(token));
        }
        self.last = id.number;
        Ok(Ticket::new(id, token))
    }

    /// Whether a slot is free and the last number was given, so that the next task is refused for that (`NumbersSpent`). It takes no
    /// memory.
    pub fn is_spent(&self) -> bool
        ensures { IsTrue result ↔ ((length self.now.live < self.now.slots) × (self.now.last ≡ LAST_NUMBER)) }
    {
        self.rows.len() < self.slots as usize && self.last == LAST_NUMBER
    }

    /// Ends a live task: its row goes, its ticket and its track, in which nothing is unanswered, are spent.
    pub fn end(&mut self, ticket: Ticket, track: ChildTrack) -> Ended
        requires live { IsLive self.old ticket.id }
        requires track { track.task ≡ ticket.id }
        requires answered { unanswered track ≡ 0 }
        ensures receipt { result.receipt ≡ sealed track ticket.token }
        ensures mark { result.mark ≡ mark_of ticket.id.number self.old }
        ensures row { self.new ≡ without_task self.old ticket.id.number }
    {
        let number = ticket.id().number;
        let receipt = ticket.seal(track);
        let mark = take_row(&mut self.rows, number);
        Ended { receipt, mark }
    }

    /// Marks a live task with the number of a cancellation, unless it is marked already.
    pub fn mark(&mut self, number: u32, cancel: u32) -> MarkAnswer
        requires { IsCancel cancel }
        ensures answer { result ≡ mark_answer (row_of number self.old) }
        ensures after { self.new ≡ after_mark result self.old number cancel }
    {
        let Some(place) = place_of(&self.rows, number) else {
            return MarkAnswer::NotFound;
        };
        if let Some(earlier) = self.rows[place].cancelled {
            return MarkAnswer::Already(earlier);
        }
        self.rows[place].cancelled = Some(cancel);
        MarkAnswer::Marked
    }

    /// The lowest number of a live child of the task that is not marked.
    pub fn next_child(&self, parent: TaskId) -> Option<u32>
        ensures found { IfSome result (λ number.
            Any (λ row. IsUnmarkedChild parent row × (row.id.number ≡ number)) self.now.live) }
        ensures lowest { IfSome result (λ number.
            All (λ row. IsUnmarkedChild parent row → number ≤ row.id.number) self.now.live) }
        ensures none { IfNone result (All (λ row. ¬ IsUnmarkedChild parent row) self.now.live) }
    {
        for place in 0..self.rows.len() {
            let row = &self.rows[place];
            if is_unmarked_child(row, parent) {
                return Some(row.id.number);
            }
        }
        None
    }

    /// The live tasks, by ascending number, in two parts, the second after the first.
    pub fn live(&self) -> (&[TaskInfo], &[TaskInfo])
        ensures live { result.0.now ++ result.1.now ≡ self.now.live }
        ensures table { IsTable self.now }
    {
        self.rows.as_slices()
    }

    /// Copies of the live tasks, by ascending number. It fails only for want of memory.
    pub fn rows(&self) -> Result<Vec<TaskInfo>, AllocError>
        ensures rows { IfOk result (λ rows. rows.items ≡ self.now.live) }
        ensures table { IsTable self.now }
    {
        let mut rows = Vec::with_capacity(*self.rows.allocator(), self.rows.len())?;
        for place in 0..self.rows.len() {
            rows.push(self.rows[place].copy()?)?;
        }
        Ok(rows)
    }
}

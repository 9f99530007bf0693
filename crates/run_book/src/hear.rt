//! What the letters of workers bring.
ghost use Rattle.std.specs.Prelude.{◌≡◌, ◌⊎◌, ◌-◌, [], ◌∷◌, Some, Err, is_some, length, IfOk, IfErr, OnOk};
ghost use Rattle.node_link.specs.declared.body.Body.TheVariants as says;
ghost use Rattle.task_events.specs.declared.stop.Stop as stops;
ghost use Rattle.node_link.specs.Lawful.{IsLawful};
ghost use Rattle.reply_facts.specs.Letters.{TellsPlainly};
ghost use Rattle.run_facts.specs.Cancels.{cancels_of};
ghost use Rattle.run_facts.specs.Inboxes.{IsPoolSize};
ghost use Rattle.task_ids.specs.Limits.{IsNode};
ghost use Rattle.run_book.specs.Answering as answers;
ghost use Rattle.run_book.specs.Answering.{same_bool};
ghost use Rattle.run_book.specs.Entries.{Keeps, SameRun, SameTime, Turned};
ghost use Rattle.run_book.specs.Hearing.{ContextsAfter, Hears, with_state};
ghost use Rattle.run_book.specs.Listing.{part_of};

use crate::book::{Book, place_of};
use crate::entry::{Answer, Naming, State, Waits};
use crate::lists::{part_of, with_rows};
use crate::naming::{with_done, with_named};
use child_track::Receipt;
use line_print::LineReply;
use node_link::{Body, Letter};
use run_facts::{Of, Run};
use std::alloc::{AllocError, Global};
use std::mem::replace;
use task_events::Stop;
use task_ids::{Items, TaskId, TaskInfo};

/// A list of one task.
fn just(alloc: Global, task: TaskId) -> Result<Items<TaskId>, AllocError>
    ensures { IfOk result (λ tasks. tasks ≡ task ∷ []) }
{
    let mut tasks = Items::new(alloc);
    tasks.push(task)?;
    Ok(tasks)
}

/// Whether a receipt is there exactly where a cancel waits.
fn is_wanted(wait: bool, receipt: &Option<Receipt>) -> bool
    ensures { result ≡ same_bool wait (is_some receipt.now) }
{
    if wait {
        receipt.is_some()
    } else {
        receipt.is_none()
    }
}

/// A cancel of one task after a task is cancelled.
fn after_one(
    alloc: Global,
    named: TaskId,
    wait: bool,
    task: TaskId,
    receipt: Option<Receipt>,
) -> Result<State, AllocError>
    ensures { IfOk result (λ state. state ≡ answers.after_cancelled (State.Waits (Waits.Cancel named wait)) task receipt) }
{
    if named != task || !is_wanted(wait, &receipt) {
        return Ok(State::Waits(Waits::Cancel { task: named, wait }));
    }
    let tasks = just(alloc, task)?;
    Ok(State::Answered(Answer {
        reply: LineReply::Cancelled {
            tasks,
            waited: wait,
        },
        receipt,
        page: None,
    }))
}

/// A cancel by a filter after a task is cancelled.
fn after_one_of(
    alloc: Global,
    naming: Naming,
    receipt: Option<Receipt>,
) -> Result<State, AllocError>
    ensures { IfOk result (λ state. state ≡ answers.after_one_of naming receipt) }
{
    if !is_wanted(naming.wait, &receipt) {
        return Ok(State::Waits(Waits::Naming(naming)));
    }
    match with_done(alloc, naming, receipt) {
        Ok(state) => Ok(state),
        Err(error) => Err(error),
    }
}

/// A command after a task is cancelled as a cancel of this number wants it.
fn after_cancelled(
    alloc: Global,
    state: State,
    task: TaskId,
    receipt: Option<Receipt>,
) -> Result<State, AllocError>
    ensures { IfOk result (λ after. after ≡ answers.after_cancelled state task receipt) }
{
    match state {
        State::Waits(Waits::Cancel { task: named, wait }) => {
            match after_one(alloc, named, wait, task, receipt) {
                Ok(state) => Ok(state),
                Err(error) => Err(error),
            }
        }
        State::Waits(Waits::Naming(naming)) => match after_one_of(alloc, naming, receipt) {
            Ok(state) => Ok(state),
            Err(error) => Err(error),
        },
        other => Ok(other),
    }
}

/// A command after a node told that its cancel finds no task.
fn after_not_found(state: State) -> State
    ensures { result ≡ answers.after_not_found state }
{
    match state {
        State::Waits(Waits::Cancel { task, wait: _ }) => State::Answered(Answer {
            reply: LineReply::NotFound(Some(task)),
            receipt: None,
            page: None,
        }),
        other => other,
    }
}

/// A command after a node named the tasks that its cancel is about.
fn after_named(
    alloc: Global,
    state: State,
    node: u32,
    tasks: Items<TaskId>,
) -> Result<State, AllocError>
    ensures { IfOk result (λ after. after ≡ answers.after_named node tasks state) }
{
    match state {
        State::Waits(Waits::Naming(naming)) => match with_named(alloc, naming, node, tasks) {
            Ok(state) => Ok(state),
            Err(error) => Err(error),
        },
        other => Ok(other),
    }
}

/// A command after a data worker told its live tasks. There is no part of a worker that the cluster does not have.
fn after_rows(
    alloc: Global,
    state: State,
    part: Option<u32>,
    told: Items<TaskInfo>,
) -> Result<State, AllocError>
    ensures { IfOk result (λ after. after ≡ answers.after_rows part told state) }
{
    match state {
        State::Waits(Waits::Rows { rows, now }) => match with_rows(alloc, rows, now, part, told) {
            Ok(state) => Ok(state),
            Err(error) => Err(error),
        },
        other => Ok(other),
    }
}

impl<'a, W: Run> Book<'a, W> {
    /// A command's root has an id.
    fn hear_root(&mut self, command: u32, task: TaskId)
        ensures told { Turned (λ e. record e { root = Some task }) (command - 1) self.old.entries.items self.new.entries.items }
        ensures same { SameTime self.old self.new }
        ensures contexts { self.new.contexts ≡ self.old.contexts }
        ensures begun { length self.new.entries.items ≡ length self.old.entries.items }
    {
        if let Some(entry) = self.entries.get_mut(place_of(command)) {
            entry.root = Some(task);
        }
    }

    /// A data worker tells its live tasks.
    fn hear_rows(
        &mut self,
        node: u32,
        worker: u32,
        command: u32,
        told: Items<TaskInfo>,
    ) -> Result<(), AllocError>
        requires nodes { IsNode self.old.nodes }
        requires workers { IsPoolSize self.old.workers }
        ensures told { OnOk result (Turned (with_state (answers.after_rows (part_of self.old.nodes self.old.workers node worker) told)) (command - 1) self.old.entries.items self.new.entries.items) }
        ensures same { SameTime self.old self.new }
        ensures contexts { self.new.contexts ≡ self.old.contexts }
        ensures begun { length self.new.entries.items ≡ length self.old.entries.items }
    {
        let alloc = self.alloc;
        let part = part_of(self.nodes, self.workers, node, worker);
        if let Some(entry) = self.entries.get_mut(place_of(command)) {
            let state = replace(&mut entry.state, State::Told);
            entry.state = after_rows(alloc, state, part, told)?;
        }
        Ok(())
    }

    /// A node names the tasks that a cancel by a filter is about.
    fn hear_named(&mut self, node: u32, cancel: u32, tasks: Items<TaskId>) -> Result<(), AllocError>
        ensures told { OnOk result (Turned (with_state (answers.after_named node tasks)) (cancel - 1) self.old.entries.items self.new.entries.items) }
        ensures same { SameTime self.old self.new }
        ensures contexts { self.new.contexts ≡ self.old.contexts }
        ensures begun { length self.new.entries.items ≡ length self.old.entries.items }
    {
        let alloc = self.alloc;
        if let Some(entry) = self.entries.get_mut(place_of(cancel)) {
            let state = replace(&mut entry.state, State::Told);
            entry.state = after_named(alloc, state, node, tasks)?;
        }
        Ok(())
    }

    /// A task is cancelled as a cancel wants it: its bans are placed, and, where there is a receipt, it has ended.
    fn hear_cancelled(
        &mut self,
        cancel: u32,
        task: TaskId,
        receipt: Option<Receipt>,
    ) -> Result<(), AllocError>
        ensures told { OnOk result (Turned (with_state (λ s. answers.after_cancelled s task receipt)) (cancel - 1) self.old.entries.items self.new.entries.items) }
        ensures same { SameTime self.old self.new }
        ensures contexts { self.new.contexts ≡ self.old.contexts }
        ensures begun { length self.new.entries.items ≡ length self.old.entries.items }
    {
        let alloc = self.alloc;
        if let Some(entry) = self.entries.get_mut(place_of(cancel)) {
            let state = replace(&mut entry.state, State::Told);
            entry.state = after_cancelled(alloc, state, task, receipt)?;
        }
        Ok(())
    }

    /// A cancel finds no task.
    fn hear_not_found(&mut self, cancel: u32)
        ensures told { Turned (with_state answers.after_not_found) (cancel - 1) self.old.entries.items self.new.entries.items }
        ensures same { SameTime self.old self.new }
        ensures contexts { self.new.contexts ≡ self.old.contexts }
        ensures begun { length self.new.entries.items ≡ length self.old.entries.items }
    {
        if let Some(entry) = self.entries.get_mut(place_of(cancel)) {
            let state = replace(&mut entry.state, State::Told);
            entry.state = after_not_found(state);
        }
    }

    /// What is said in a letter to the driver.
    fn hear_body(&mut self, body: Body) -> Result<(), AllocError>
        requires lawful { IsLawful (cancels_of W.cancels) body }
        requires tells { TellsPlainly W.setting body }
        requires keeps { Keeps W.cancels W.setting self.old }
        ensures keeps { OnOk result (Keeps W.cancels W.setting self.new) }
        ensures hears { OnOk result (Hears self.old.nodes self.old.workers body self.old.entries.items self.new.entries.items) }
        ensures contexts { OnOk result (ContextsAfter body self.old self.new.contexts) }
        ensures same { SameTime self.old self.new }
        ensures begun { length self.new.entries.items ≡ length self.old.entries.items }
    {
        match body {
            Body::Root { command, task } => {
                self.hear_root(command, task);
                Ok(())
            }
            Body::RootAnswer(answered) => Ok(self.hear_root_answer(answered)?),
            Body::Rows {
                node,
                worker,
                command,
                rows,
            } => Ok(self.hear_rows(node, worker, command, rows)?),
            Body::Named {
                node,
                cancel,
                tasks,
            } => Ok(self.hear_named(node, cancel, tasks)?),
            Body::AnswerPlaced { cancel, task } => Ok(self.hear_cancelled(cancel, task, None)?),
            Body::AnswerDone {
                cancel,
                task,
                receipt,
            } => Ok(self.hear_cancelled(cancel, task, Some(receipt))?),
            Body::NotFound { cancel } => {
                self.hear_not_found(cancel);
                Ok(())
            }
            _ => Ok(()),
        }
    }

    /// What a letter brings. One that is not for the driver, or not what was asked, is passed over, which in a lawful run never happens.
    ///
    /// It fails where a worker tells that it has stopped, for the cause that it tells, and for want of memory (`Memory`).
    pub fn hear(&mut self, letter: Letter<Of<W>>) -> Result<(), Stop>
        requires keeps { Keeps W.cancels W.setting self.old }
        ensures keeps { OnOk result (Keeps W.cancels W.setting self.new) }
        ensures hears { OnOk result (Hears self.old.nodes self.old.workers letter self.old.entries.items self.new.entries.items) }
        ensures contexts { OnOk result (ContextsAfter letter self.old self.new.contexts) }
        ensures stopped { (stop : stops.Stop) → letter ≡ says.Stopped stop → result ≡ Err stop }
        ensures fails { IfErr result (λ stop. (letter ≡ says.Stopped stop) ⊎ (stop ≡ Stop.Memory)) }
        ensures same { SameRun self.old self.new }
        ensures time { SameTime self.old self.new }
        ensures begun { length self.new.entries.items ≡ length self.old.entries.items }
    {
        match letter.into_body() {
            Body::Stopped(stop) => Err(stop),
            body => match self.hear_body(body) {
                Ok(()) => Ok(()),
                Err(_) => Err(Stop::Memory),
            },
        }
    }
}

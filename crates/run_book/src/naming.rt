//! What comes of a cancel by a filter.
ghost use Rattle.std.specs.Prelude.{◌≡◌, ◌++◌, IfOk, OnOk};
ghost use Rattle.run_book.specs.Answering as answers;
ghost use Rattle.run_book.specs.Answering.{is_later_task, later_of, shows_last};
ghost use Rattle.run_book.specs.Told.{all_told};

use crate::entry::{Answer, Naming, State, Waits};
use child_track::Receipt;
use line_print::LineReply;
use std::alloc::{AllocError, Global};
use task_ids::{Items, TaskId};

/// Adds the tasks that a node named.
fn add_tasks(all: &mut Items<TaskId>, tasks: &Items<TaskId>) -> Result<(), AllocError>
    ensures { OnOk result (all.new ≡ all.old ++ tasks.now) }
{
    for task in tasks.as_slice() {
        all.push(*task)?;
    }
    Ok(())
}

/// All tasks that were named, by their nodes.
fn all_named(alloc: Global, parts: &[Option<Items<TaskId>>]) -> Result<Items<TaskId>, AllocError>
    ensures { IfOk result (λ all. all ≡ all_told parts.now) }
{
    let mut all = Items::new(alloc);
    for part in parts {
        if let Some(tasks) = part {
            add_tasks(&mut all, tasks)?;
        }
    }
    Ok(all)
}

/// Whether a task comes after another, or there is no other.
fn is_later_task(task: Option<TaskId>, other: Option<TaskId>) -> bool
    ensures { result ≡ is_later_task task other }
{
    match (task, other) {
        (Some(task), Some(other)) => other < task,
        (Some(_), None) => true,
        (None, _) => false,
    }
}

/// The later of two receipts, by the ids of their tasks.
fn later(a: Option<Receipt>, b: Option<Receipt>) -> Option<Receipt>
    ensures { result ≡ later_of a b }
{
    match (a, b) {
        (Some(first), Some(second)) => {
            if is_later_task(second.task(), first.task()) {
                Some(second)
            } else {
                Some(first)
            }
        }
        (Some(first), None) => Some(first),
        (None, other) => other,
    }
}

/// Whether a receipt is that of the last of these tasks, or there is none.
fn shows_last(tasks: &[TaskId], receipt: &Option<Receipt>) -> bool
    ensures { result ≡ shows_last tasks.now receipt.now }
{
    let Some(last) = tasks.last() else {
        return true;
    };
    match receipt {
        Some(receipt) => receipt.task() == Some(*last),
        None => false,
    }
}

/// A cancel by a filter, which has its answer where each node has named its tasks and each of these is cancelled.
fn settled(alloc: Global, naming: Naming) -> Result<State, AllocError>
    ensures { IfOk result (λ state. state ≡ answers.settled naming) }
{
    if !naming.named.is_whole() || naming.done != naming.tasks {
        return Ok(State::Waits(Waits::Naming(naming)));
    }
    let tasks = all_named(alloc, naming.named.parts())?;
    if naming.wait && !shows_last(tasks.as_slice(), &naming.receipt) {
        return Ok(State::Waits(Waits::Naming(naming)));
    }
    let (waited, receipt) = (naming.wait, naming.receipt);
    drop(naming);
    Ok(State::Answered(Answer {
        reply: LineReply::Cancelled { tasks, waited },
        receipt,
        page: None,
    }))
}

/// A cancel by a filter after a node named its tasks.
pub(crate) fn with_named(
    alloc: Global,
    naming: Naming,
    node: u32,
    tasks: Items<TaskId>,
) -> Result<State, AllocError>
    ensures { IfOk result (λ state. state ≡ answers.settled (answers.with_named naming node tasks)) }
{
    let mut naming = naming;
    naming.tasks = naming.tasks.saturating_add(tasks.as_slice().len());
    naming.named.put(node, tasks);
    match settled(alloc, naming) {
        Ok(state) => Ok(state),
        Err(error) => Err(error),
    }
}

/// A cancel by a filter after one of its tasks is cancelled as it wants it.
pub(crate) fn with_done(
    alloc: Global,
    naming: Naming,
    receipt: Option<Receipt>,
) -> Result<State, AllocError>
    ensures { IfOk result (λ state. state ≡ answers.settled (answers.with_done naming receipt)) }
{
    let mut naming = naming;
    naming.done = naming.done.saturating_add(1);
    naming.receipt = later(naming.receipt, receipt);
    match settled(alloc, naming) {
        Ok(state) => Ok(state),
        Err(error) => Err(error),
    }
}

ghost use Rattle.std.specs.Prelude.{◌≡◌, IfOk, map};
ghost use Rattle.child_track.specs.NodeSet.{nodes_of};
ghost use Rattle.cancel_core.specs.Acts.{ban_acts, unban_acts, placed_answers, answer_act, placed_acts, due_acts};
ghost use Rattle.cancel_core.specs.Stage.{seen};

use crate::act::{Act, Waiter};
use crate::stage::Stage;
use child_track::{NodeSet, Receipt};
use std::alloc::{AllocError, Global};
use task_ids::TaskId;

/// A ban to each of the nodes.
#[tactic(auto, unfolding(child_track::specs::NodeSet::all_nodes))]
pub(crate) fn bans(
    alloc: Global,
    task: TaskId,
    cancel: u32,
    nodes: &NodeSet,
) -> Result<Vec<Act>, AllocError>
    ensures { IfOk result (λ acts. acts.items ≡ ban_acts task cancel (nodes_of nodes.now)) }
{
    (1..16)
        .filter(|node| nodes.has(*node))
        .map(|to| Act::SendBan {
            to,
            parent: task,
            cancel,
        })
        .collect(alloc)
}

#[tactic(auto, unfolding(child_track::specs::NodeSet::all_nodes))]
fn unbans(alloc: Global, task: TaskId, nodes: &NodeSet) -> Result<Vec<Act>, AllocError>
    ensures { IfOk result (λ acts. acts.items ≡ unban_acts task (nodes_of nodes.now)) }
{
    (1..16)
        .filter(|node| nodes.has(*node))
        .map(|to| Act::SendUnban { to, parent: task })
        .collect(alloc)
}

fn answers_placed(alloc: Global, task: TaskId, waiters: &[Waiter]) -> Result<Vec<Act>, AllocError>
    ensures { IfOk result (λ acts. acts.items ≡ placed_answers task waiters.now) }
{
    waiters
        .iter()
        .filter(|waiter| !waiter.wait)
        .map(|waiter| Act::AnswerPlaced {
            cancel: waiter.cancel,
            task,
        })
        .collect(alloc)
}

/// The answer to one waiter, once the task has ended.
fn answer(task: TaskId, receipt: &Receipt, waiter: &Waiter) -> Act
    ensures { result ≡ answer_act task receipt.now waiter.now }
{
    if waiter.wait {
        Act::AnswerDone {
            cancel: waiter.cancel,
            task,
            receipt: *receipt,
        }
    } else {
        Act::AnswerPlaced {
            cancel: waiter.cancel,
            task,
        }
    }
}

fn answers(
    alloc: Global,
    task: TaskId,
    receipt: &Receipt,
    waiters: &[Waiter],
) -> Result<Vec<Act>, AllocError>
    ensures { IfOk result (λ acts. acts.items
        ≡ map (answer_act task receipt.now) waiters.now) }
{
    waiters
        .iter()
        .map(|waiter| answer(task, receipt, waiter))
        .collect(alloc)
}

/// What is due once the bans are placed.
fn once_placed(
    alloc: Global,
    task: TaskId,
    stage: &Stage,
    waiters: &[Waiter],
) -> Result<Vec<Act>, AllocError>
    ensures { IfOk result (λ acts. acts.items
        ≡ placed_acts task (seen stage.now waiters.now) stage.now.receipt) }
{
    match &stage.receipt {
        Some(receipt) => {
            let mut acts = unbans(alloc, task, &stage.banned)?;
            acts.extend_from_slice(answers(alloc, task, receipt, waiters)?.as_slice())?;
            Ok(acts)
        }
        None => answers_placed(alloc, task, waiters),
    }
}

/// What is due at a stage.
pub(crate) fn due(
    alloc: Global,
    task: TaskId,
    stage: &Stage,
    waiters: &[Waiter],
) -> Result<Vec<Act>, AllocError>
    ensures { IfOk result (λ acts. acts.items ≡ due_acts task (seen stage.now waiters.now)) }
{
    if !stage.is_placed() {
        return Ok(Vec::new(alloc));
    }
    once_placed(alloc, task, stage, waiters)
}

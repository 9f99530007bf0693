//! The program `cancel_example`: a task of node 1 that asked on three nodes is cancelled, and its whole tree is stopped.
//!
//! Each node has a core, which says at each step what its node is to do. Here the messages of the cores are carried by hand.
//! On node 2 the ban finds a child that asked on node 3 in its turn: so node 2 acknowledges last, once node 3 has refused
//! new children to that child too.
#![tactic(auto)]

ghost use Rattle.std.specs.Prelude.{◌≡◌, Some};
ghost use Rattle.std.specs.Option.{ForSome};
ghost use Rattle.task_ids.specs.Limits.{IsCancel};

use cancel_core::{Act, CancelCore, Waiter};
use child_track::{ChildTrack, NodeSet, Receipt};
use std::alloc::{AllocError, Global};
use std::io;
use task_ids::TaskId;

/// The task that is cancelled.
fn root_task() -> TaskId {
    TaskId { node: 1, number: 1 }
}

/// A child of it on node 2.
fn child_task() -> TaskId {
    TaskId { node: 2, number: 1 }
}

/// The nodes 1, 2 and 3.
const ASKED: NodeSet = NodeSet(0b1110);

/// The node 3 alone.
const ASKED_BY_CHILD: NodeSet = NodeSet(0b1000);

/// The number of the cancel command, which waits until all is over.
const CANCEL: Waiter = Waiter {
    cancel: 9,
    wait: true,
};

/// What an act tells its node to do.
fn told(alloc: Global, act: &Act) -> Result<String, AllocError> {
    match act {
        Act::SendBan { to, .. } => format!(in alloc; "send the ban to n{to}"),
        Act::SendAck { to, .. } => format!(in alloc; "acknowledge to n{to}"),
        Act::SendUnban { to, .. } => format!(in alloc; "send the unban to n{to}"),
        Act::AnswerPlaced { cancel, .. } => format!(in alloc; "answer {cancel}: placed"),
        Act::AnswerDone { cancel, .. } => format!(in alloc; "answer {cancel}: done"),
    }
}

/// Prints what a node is to do at a step of a task.
fn show(
    rt: &HostRuntime,
    core: &CancelCore,
    step: &str,
    task: TaskId,
    acts: &[Act],
) -> io::Result<()> {
    println!(rt; "n{} {step} n{}:{}", core.node(), task.node, task.number)?;
    for act in acts {
        println!(rt; "  {}", told(rt.alloc(), act)?.as_str())?;
    }
    Ok(())
}

/// The receipt of a task, all of whose asks are answered.
fn receipt_of(alloc: Global, task: TaskId) -> Receipt
    ensures own { result.task ≡ Some task }
{
    ChildTrack::new(alloc, task).seal(None)
}

/// The cancellation of a task begins.
fn begin(
    rt: &HostRuntime,
    core: &mut CancelCore,
    task: TaskId,
    asked: NodeSet,
    waiter: Option<Waiter>,
) -> io::Result<()>
    requires { ForSome waiter (λ w. IsCancel w.cancel) }
{
    if core.has(task) {
        return Ok(());
    }
    let acts = core.begin(task, CANCEL.cancel, asked, waiter)?;
    show(rt, core, "cancels", task, acts.as_slice())
}

/// A node that a ban has reached has marked the children of the task that it has. It acknowledges once they have stopped.
fn list(
    rt: &HostRuntime,
    core: &mut CancelCore,
    task: TaskId,
    children: &[TaskId],
) -> io::Result<()> {
    if core.has_listing(task) {
        return Ok(());
    }
    let act = core.ban_listed(task, children)?;
    show(rt, core, "has marked the children of", task, act.as_slice())
}

/// The core of a task's node takes the acknowledgement of a node.
fn acknowledge(rt: &HostRuntime, core: &mut CancelCore, task: TaskId, from: u32) -> io::Result<()> {
    if !core.awaits(task, from) {
        return Ok(());
    }
    let acts = core.acked(task, from)?;
    show(
        rt,
        core,
        "takes an acknowledgement for",
        task,
        acts.as_slice(),
    )
}

/// A task ends.
fn end(rt: &HostRuntime, core: &mut CancelCore, task: TaskId) -> io::Result<()> {
    if !core.has(task) || core.has_ended(task) {
        return Ok(());
    }
    let acts = core.ended(task, receipt_of(rt.alloc(), task))?;
    show(rt, core, "ends", task, acts.as_slice())
}

fn main(rt: HostRuntime) -> io::Result<()> {
    let (root, child) = (root_task(), child_task());
    let mut first = CancelCore::new(rt.alloc(), 1);
    let mut second = CancelCore::new(rt.alloc(), 2);
    let mut third = CancelCore::new(rt.alloc(), 3);
    begin(&rt, &mut first, root, ASKED, Some(CANCEL))?;
    list(&rt, &mut first, root, &[])?;
    acknowledge(&rt, &mut first, root, 1)?;
    begin(&rt, &mut second, child, ASKED_BY_CHILD, None)?;
    list(&rt, &mut second, root, &[child])?;
    list(&rt, &mut third, root, &[])?;
    acknowledge(&rt, &mut first, root, 3)?;
    list(&rt, &mut third, child, &[])?;
    acknowledge(&rt, &mut second, child, 3)?;
    acknowledge(&rt, &mut first, root, 2)?;
    end(&rt, &mut second, child)?;
    end(&rt, &mut first, root)?;
    println!(rt; "a cancellation is under way: {}", first.has(root))
}

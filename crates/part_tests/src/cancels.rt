//! The cancellations of one node, step by step: what is done at each step.

ghost use Rattle.std.specs.Prelude.{◌≡◌, Some};

use cancel_core::{Act, CancelCore, Waiter};
use child_track::{ChildTrack, NodeSet, Receipt};
use std::alloc::Global;
use task_ids::TaskId;

/// The task that is cancelled. Its cancellation has the number 4.
fn task() -> TaskId {
    TaskId { node: 1, number: 1 }
}

fn receipt_of(alloc: Global, task: TaskId) -> Receipt
    ensures { result.task ≡ Some task }
{
    ChildTrack::new(alloc, task).seal(None)
}

/// A waiter that waits for the task's end, and one that does not.
fn waits(cancel: u32) -> Waiter {
    Waiter { cancel, wait: true }
}

pub(crate) fn hurries(cancel: u32) -> Waiter {
    Waiter {
        cancel,
        wait: false,
    }
}

/// Whether the cancellation begins with these acts.
pub(crate) fn begins(
    core: &mut CancelCore,
    task: TaskId,
    nodes: NodeSet,
    waiter: Option<Waiter>,
    wanted: &[Act],
) -> bool {
    let may_be = waiter.is_none_or(|waiter| 0 < waiter.cancel && waiter.cancel < 65_536);
    if !may_be || core.has(task) {
        return false;
    }
    core.begin(task, 4, nodes, waiter)
        .is_ok_and(|acts| acts.as_slice() == wanted)
}

/// Whether these acts are done when a waiter joins.
fn joins(core: &mut CancelCore, task: TaskId, waiter: Waiter, wanted: &[Act]) -> bool {
    let may_be = 0 < waiter.cancel && waiter.cancel < 65_536;
    if !may_be || !core.has(task) || core.has_ended(task) {
        return false;
    }
    core.joined(task, waiter)
        .is_ok_and(|acts| acts.as_slice() == wanted)
}

/// Whether these acts are done at the acknowledgement of a node.
pub(crate) fn takes(core: &mut CancelCore, task: TaskId, from: u32, wanted: &[Act]) -> bool {
    core.awaits(task, from)
        && core
            .acked(task, from)
            .is_ok_and(|acts| acts.as_slice() == wanted)
}

/// Whether these acts are done when the task ends.
pub(crate) fn ends(alloc: Global, core: &mut CancelCore, task: TaskId, wanted: &[Act]) -> bool {
    if !core.has(task) || core.has_ended(task) {
        return false;
    }
    core.ended(task, receipt_of(alloc, task))
        .is_ok_and(|acts| acts.as_slice() == wanted)
}

fn ban(to: u32) -> Act {
    Act::SendBan {
        to,
        parent: task(),
        cancel: 4,
    }
}

fn unban(to: u32) -> Act {
    Act::SendUnban { to, parent: task() }
}

fn placed(cancel: u32) -> Act {
    Act::AnswerPlaced {
        cancel,
        task: task(),
    }
}

fn done(alloc: Global, cancel: u32) -> Act {
    Act::AnswerDone {
        cancel,
        task: task(),
        receipt: receipt_of(alloc, task()),
    }
}

#[test]
fn waiting_cancels_are_answered_after_the_bans_and_the_end(rt: HostRuntime) {
    let alloc = rt.alloc();
    let mut core = CancelCore::new(alloc, 1);
    let last = [unban(1), unban(2), done(alloc, 4), done(alloc, 6)];
    assert!(rt;
        begins(
            &mut core,
            task(),
            NodeSet(0b110),
            Some(waits(4)),
            &[ban(1), ban(2)]
        )
    );
    assert!(rt; joins(&mut core, task(), waits(6), &[]));
    assert!(rt; takes(&mut core, task(), 1, &[]));
    assert!(rt; takes(&mut core, task(), 2, &[]));
    assert!(rt; ends(alloc, &mut core, task(), &last));
    assert!(rt; !core.has(task()));
}

#[test]
fn those_who_join_are_answered_by_ascending_number(rt: HostRuntime) {
    let alloc = rt.alloc();
    let mut core = CancelCore::new(alloc, 1);
    let last = [unban(2), placed(5), done(alloc, 7), done(alloc, 9)];
    assert!(rt; begins(&mut core, task(), NodeSet(0b100), None, &[ban(2)]));
    assert!(rt; joins(&mut core, task(), waits(9), &[]));
    assert!(rt; joins(&mut core, task(), hurries(5), &[]));
    assert!(rt; joins(&mut core, task(), waits(7), &[]));
    assert!(rt; ends(alloc, &mut core, task(), &[]));
    assert!(rt; takes(&mut core, task(), 2, &last));
}

#[test]
fn with_no_node_to_ban_the_bans_are_placed_at_once(rt: HostRuntime) {
    let mut core = CancelCore::new(rt.alloc(), 1);
    assert!(rt;
        begins(
            &mut core,
            task(),
            NodeSet(0),
            Some(hurries(4)),
            &[placed(4)]
        )
    );
    assert!(rt; joins(&mut core, task(), hurries(5), &[placed(5)]));
    assert!(rt; core.node() == 1);
}

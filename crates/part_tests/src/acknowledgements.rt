//! When a node acknowledges a ban: once the children that it listed have stopped.

use crate::cancels::{begins, ends, hurries, takes};
use cancel_core::{Act, CancelCore};
use child_track::NodeSet;
use task_ids::TaskId;

/// A banned task of node 2, and its children on node 1.
const PARENT: TaskId = TaskId { node: 2, number: 9 };

const FIRST: TaskId = TaskId { node: 1, number: 2 };

const SECOND: TaskId = TaskId { node: 1, number: 3 };

/// A banned task of node 3, and its child on node 1.
const OTHER_PARENT: TaskId = TaskId { node: 3, number: 9 };

const OTHER: TaskId = TaskId { node: 1, number: 4 };

/// Whether this is done once the children of the parent are listed.
fn lists(core: &mut CancelCore, parent: TaskId, children: &[TaskId], wanted: Option<Act>) -> bool {
    !core.has_listing(parent)
        && core
            .ban_listed(parent, children)
            .is_ok_and(|act| act == wanted)
}

fn ban(parent: TaskId, to: u32) -> Act {
    Act::SendBan {
        to,
        parent,
        cancel: 4,
    }
}

fn ack(parent: TaskId) -> Act {
    Act::SendAck {
        to: parent.node,
        parent,
    }
}

#[test]
fn a_listing_waits_until_the_bans_of_its_child_are_placed(rt: HostRuntime) {
    let mut core = CancelCore::new(rt.alloc(), 1);
    let bans = [ban(FIRST, 1), ban(FIRST, 2)];
    assert!(rt; begins(&mut core, FIRST, NodeSet(0b110), None, &bans));
    assert!(rt; lists(&mut core, PARENT, &[FIRST], None));
    assert!(rt; takes(&mut core, FIRST, 1, &[]));
    assert!(rt; core.has_listing(PARENT));
    assert!(rt; takes(&mut core, FIRST, 2, &[ack(PARENT)]));
    assert!(rt; !core.has_listing(PARENT));
}

#[test]
fn a_listing_waits_until_its_child_ends(rt: HostRuntime) {
    let alloc = rt.alloc();
    let mut core = CancelCore::new(alloc, 1);
    let bans = [ban(FIRST, 1), ban(FIRST, 2)];
    assert!(rt; begins(&mut core, FIRST, NodeSet(0b110), None, &bans));
    assert!(rt; lists(&mut core, PARENT, &[FIRST, FIRST], None));
    assert!(rt; ends(alloc, &mut core, FIRST, &[ack(PARENT)]));
    assert!(rt; takes(&mut core, FIRST, 1, &[]));
}

#[test]
fn where_all_children_have_stopped_the_acknowledgement_comes_at_once(rt: HostRuntime) {
    let alloc = rt.alloc();
    let mut core = CancelCore::new(alloc, 1);
    assert!(rt; lists(&mut core, PARENT, &[], Some(ack(PARENT))));
    assert!(rt; begins(&mut core, FIRST, NodeSet(0b100), None, &[ban(FIRST, 2)]));
    assert!(rt; ends(alloc, &mut core, FIRST, &[]));
    assert!(rt; begins(&mut core, SECOND, NodeSet(0b100), None, &[ban(SECOND, 2)]));
    assert!(rt; takes(&mut core, SECOND, 2, &[]));
    assert!(rt;
        lists(
            &mut core,
            PARENT,
            &[FIRST, SECOND, OTHER],
            Some(ack(PARENT))
        )
    );
}

#[test]
fn two_listings_wait_each_for_its_own_children(rt: HostRuntime) {
    let alloc = rt.alloc();
    let mut core = CancelCore::new(alloc, 1);
    for child in [FIRST, SECOND, OTHER] {
        assert!(rt; begins(&mut core, child, NodeSet(0b100), None, &[ban(child, 2)]));
    }
    assert!(rt; lists(&mut core, PARENT, &[FIRST, SECOND], None));
    assert!(rt; lists(&mut core, OTHER_PARENT, &[OTHER], None));
    assert!(rt; ends(alloc, &mut core, FIRST, &[]));
    assert!(rt; ends(alloc, &mut core, OTHER, &[ack(OTHER_PARENT)]));
    assert!(rt; takes(&mut core, SECOND, 2, &[ack(PARENT)]));
}

#[test]
fn the_acknowledgement_comes_after_the_answers(rt: HostRuntime) {
    let mut core = CancelCore::new(rt.alloc(), 1);
    let answer = Act::AnswerPlaced {
        cancel: 6,
        task: FIRST,
    };
    let acts = [answer, ack(PARENT)];
    assert!(rt;
        begins(
            &mut core,
            FIRST,
            NodeSet(0b100),
            Some(hurries(6)),
            &[ban(FIRST, 2)]
        )
    );
    assert!(rt; lists(&mut core, PARENT, &[FIRST], None));
    assert!(rt; takes(&mut core, FIRST, 2, &acts));
}

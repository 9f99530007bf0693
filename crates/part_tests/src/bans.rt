//! The bans of a node.

ghost use Rattle.task_ids.specs.Limits.{IsCancel};

use ban_table::{Ban, BanPut, BanTable};
use task_ids::TaskId;

/// Puts a ban of a parent by a cancel. Gives what the table answers, if there is memory.
fn put(bans: &mut BanTable, parent: TaskId, cancel: u32) -> Option<BanPut>
    requires { IsCancel cancel }
{
    bans.put(parent, cancel).ok()
}

#[test]
fn keeps_the_first_ban_of_a_parent(rt: HostRuntime) {
    let parent = TaskId { node: 1, number: 1 };
    let mut bans = BanTable::new(rt.alloc());
    assert!(rt; put(&mut bans, parent, 4) == Some(BanPut::Put));
    assert!(rt; put(&mut bans, parent, 5) == Some(BanPut::There(4)));
    assert!(rt; bans.find(parent) == Some(4));
    let first = Ban { parent, cancel: 4 };
    assert!(rt;
        bans.list()
            .is_ok_and(|list| list.as_slice() == [first].as_slice())
    );
    assert!(rt; bans.remove(parent));
    assert!(rt; !bans.remove(parent));
    assert!(rt; bans.find(parent).is_none());
}

#[test]
fn lists_bans_by_parent(rt: HostRuntime) {
    let low = TaskId {
        node: 1,
        number: 10,
    };
    let high = TaskId { node: 2, number: 1 };
    let mut bans = BanTable::new(rt.alloc());
    assert!(rt; put(&mut bans, high, 3) == Some(BanPut::Put));
    assert!(rt; put(&mut bans, low, 2) == Some(BanPut::Put));
    let first = Ban {
        parent: low,
        cancel: 2,
    };
    let second = Ban {
        parent: high,
        cancel: 3,
    };
    assert!(rt;
        bans.list()
            .is_ok_and(|list| list.as_slice() == [first, second].as_slice())
    );
}

//! What the control seat does in a round, on whichever board.
ghost use Rattle.std.specs.Prelude.{◌≡◌, ◌≤◌, ◌<◌, ℕ, slice_index};
ghost use Rattle.node_boards.specs.Seats.{HasNoBan};

use crate::start::Pace;
use child_track::NodeSet;
use node_boards::ControlBoard;
use task_ids::{AnyCancel, TaskId};
use task_table::MarkAnswer;

/// The cancellation of each round.
pub const CANCEL: u32 = 5;

/// The slots of a board.
pub const SLOTS: usize = 4;

/// What the control seat did: the children that it listed with their masks, and the root's mask where it marked the root.
#[derive(Clone, Copy)]
pub struct Cancelled {
    pub listed: [u32; SLOTS],
    pub masks: [NodeSet; SLOTS],
    pub count: u32,
    pub root: Option<NodeSet>,
}

/// Takes the masks of the first `count` children.
fn take_masks<C: ControlBoard<AnyCancel>>(
    control: &mut C,
    listed: &[u32; SLOTS],
    count: u32,
    masks: &mut [NodeSet; SLOTS],
)
    requires few { count ≤ 4 }
    requires marked { (k : ℕ) → k < count → C.marked control.old (slice_index listed.now k) }
{
    for k in 0..count as usize {
        masks[k] = control.mask(listed[k]);
    }
}

/// Marks the root, and takes its mask where it was not marked yet.
fn mark_root<C: ControlBoard<AnyCancel>>(control: &mut C, root: u32) -> Option<NodeSet> {
    match control.mark(root, CANCEL) {
        MarkAnswer::Marked => Some(control.mask(root)),
        MarkAnswer::Already(_) | MarkAnswer::NotFound => None,
    }
}

/// Bans the root, marks its children and the root, and takes their masks, once all threads are here.
pub fn cancel<C: ControlBoard<AnyCancel> + Drop>(
    mut control: C,
    root: TaskId,
    pace: &Pace,
) -> (C, Cancelled)
    requires slots { C.slots control ≡ 4 }
    requires new { HasNoBan (C.bans control) }
{
    pace.begin();
    pace.hold_control();
    let Ok(place) = control.ban(root, CANCEL) else {
        return (control, Cancelled::NOTHING);
    };
    let mut listed = [0u32; SLOTS];
    let count = control.list(place, &mut listed);
    let mut masks = [NodeSet(0); SLOTS];
    take_masks(&mut control, &listed, count, &mut masks);
    let root = mark_root(&mut control, root.number);
    (
        control,
        Cancelled {
            listed,
            masks,
            count,
            root,
        },
    )
}

impl Cancelled {
    const NOTHING: Cancelled = Cancelled {
        listed: [0; SLOTS],
        masks: [NodeSet(0); SLOTS],
        count: 0,
        root: None,
    };

    /// The mask of a listed child.
    pub fn mask_of(&self, number: u32) -> Option<NodeSet> {
        for k in 0..SLOTS {
            if k < self.count as usize && self.listed[k] == number {
                return Some(self.masks[k]);
            }
        }
        None
    }
}

//! Messages about bans reach their nodes.

ghost use Rattle.std.specs.Prelude.{◌≡◌, ◌≤◌, length, slice_get, Err, Some, OnOk, OnErr, IfErr};
ghost use Rattle.task_events.specs.declared.history.TheConstants.{MAX_EVENTS};
ghost use Rattle.node_parts.specs.declared.notice.Notice.TheVariants as notices;
ghost use Rattle.world_moves.specs.declared.flight.Sent.TheVariants as sent;
ghost use Rattle.world_moves.specs.Moves.{Delivers, IsPartly, IsCutShort, StopsDelivery};
ghost use Rattle.world_moves.specs.Ties.{IsTied, Keeps, KeepsLaws};

use crate::append::append;
use crate::performing::perform;
use crate::state::State;
use ban_table::BanPut;
use node_parts::listing::Listing;
use node_parts::notice::Notice;
use task_events::{Event, Stop};
use task_ids::TaskId;

/// A ban reaches its node. It stands there from then on, and the listing of the task's children is open.
fn deliver_ban(
    state: &mut State<'_>,
    nth: usize,
    parent: TaskId,
    cancel: u32,
    node: u32,
) -> Result<(), Stop>
    requires tied { IsTied state.old }
    requires there { slice_get state.old.flight nth ≡ Some (sent.Notice (notices.Ban parent cancel node)) }
    ensures delivered { OnOk result (Delivers state.old.cluster state.old.history nth state.new.history) }
    ensures tied { OnOk result (IsTied state.new) }
    ensures keeps { Keeps state.old state.new }
    ensures room { OnOk result (length state.new.history ≤ MAX_EVENTS) }
    ensures err { OnErr result (state.new.history ≡ state.old.history) }
    ensures full { result ≡ Err Stop.HistoryFull → IsCutShort (IsPartly (λ h new. Delivers state.old.cluster h nth new) state.old.history) state.new.history }
    ensures numbers { result ≡ Err Stop.NumbersSpent → ⊥ }
{
    let ban = state.flight.take(nth);
    drop(ban);
    match state.bans[node as usize - 1].put(parent, cancel) {
        Ok(BanPut::Put) => {}
        Ok(BanPut::There(_)) => unreachable!(),
        Err(_) => return Err(Stop::Memory),
    }
    let Ok(_) = state.listings.insert(Listing { node, parent }) else {
        return Err(Stop::Memory);
    };
    append(
        &mut state.history,
        Event::BanPut {
            node,
            parent,
            cancel,
        },
    )
}

/// An acknowledgement reaches the node of its task. The answers follow that come due with it. Where this was the last one, the unbans
/// of the task are sent if it has ended, and else the ban of its parent is acknowledged if of the listed children the task was the last
/// to stop.
///
/// Where it fails, it may have come.
fn deliver_ack(state: &mut State<'_>, nth: usize, parent: TaskId, node: u32) -> Result<(), Stop>
    requires tied { IsTied state.old }
    requires there { slice_get state.old.flight nth ≡ Some (sent.Notice (notices.Ack parent node)) }
    ensures delivered { OnOk result (Delivers state.old.cluster state.old.history nth state.new.history) }
    ensures tied { OnOk result (IsTied state.new) }
    ensures keeps { Keeps state.old state.new }
    ensures room { OnOk result (length state.new.history ≤ MAX_EVENTS) }
    ensures part { OnErr result (IsPartly (λ h new. Delivers state.old.cluster h nth new) state.old.history state.new.history) }
    ensures laws { OnErr result (KeepsLaws state.new) }
    ensures full { result ≡ Err Stop.HistoryFull → IsCutShort (IsPartly (λ h new. Delivers state.old.cluster h nth new) state.old.history) state.new.history }
    ensures numbers { result ≡ Err Stop.NumbersSpent → ⊥ }
{
    let ack = state.flight.take(nth);
    drop(ack);
    let Ok(acts) = state.cores[parent.node as usize - 1].acked(parent, node) else {
        return Err(Stop::Memory);
    };
    append(&mut state.history, Event::Acked { parent, from: node })?;
    perform(
        &mut state.flight,
        &mut state.history,
        &mut state.left,
        parent.node,
        acts.as_slice(),
    )
}

/// An unban reaches its node, where the ban is taken away.
fn deliver_unban(state: &mut State<'_>, nth: usize, parent: TaskId, node: u32) -> Result<(), Stop>
    requires tied { IsTied state.old }
    requires there { slice_get state.old.flight nth ≡ Some (sent.Notice (notices.Unban parent node)) }
    ensures delivered { OnOk result (Delivers state.old.cluster state.old.history nth state.new.history) }
    ensures tied { OnOk result (IsTied state.new) }
    ensures keeps { Keeps state.old state.new }
    ensures room { OnOk result (length state.new.history ≤ MAX_EVENTS) }
    ensures err { OnErr result (state.new.history ≡ state.old.history) }
    ensures full { result ≡ Err Stop.HistoryFull → IsCutShort (IsPartly (λ h new. Delivers state.old.cluster h nth new) state.old.history) state.new.history }
    ensures numbers { result ≡ Err Stop.NumbersSpent → ⊥ }
{
    let unban = state.flight.take(nth);
    drop(unban);
    let _stood = state.bans[node as usize - 1].remove(parent);
    append(&mut state.history, Event::BanGone { node, parent })
}

/// The message about bans of this place among those in flight, counted from 0, is delivered.
///
/// It fails where the history is full (`HistoryFull`, at 4,000,000 events) or memory runs out (`Memory`); the first of
/// its events may stand then.
pub fn deliver_notice(state: &mut State<'_>, nth: usize, notice: Notice) -> Result<(), Stop>
    requires tied { IsTied state.old }
    requires there { slice_get state.old.flight nth ≡ Some (sent.Notice notice) }
    ensures delivered { OnOk result (Delivers state.old.cluster state.old.history nth state.new.history) }
    ensures tied { OnOk result (IsTied state.new) }
    ensures keeps { Keeps state.old state.new }
    ensures room { OnOk result (length state.new.history ≤ MAX_EVENTS) }
    ensures part { OnErr result (IsPartly (λ h new. Delivers state.old.cluster h nth new) state.old.history state.new.history) }
    ensures laws { OnErr result (KeepsLaws state.new) }
    ensures stop { IfErr result (λ stop. StopsDelivery state.old.cluster state.old.history nth state.new.history stop) }
{
    let delivered = match notice {
        Notice::Ban { parent, cancel, to } => deliver_ban(state, nth, parent, cancel, to),
        Notice::Ack { parent, from } => deliver_ack(state, nth, parent, from),
        Notice::Unban { parent, to } => deliver_unban(state, nth, parent, to),
    };
    match delivered {
        Ok(()) => Ok(()),
        Err(stop) => Err(stop),
    }
}

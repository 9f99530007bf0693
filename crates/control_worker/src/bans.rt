//! Bans and unbans.
ghost use Rattle.std.specs.Prelude.{◌≡◌, ◌<◌, true, false, not, filter, length, IfOk, IfSome, OnOk, OnErr, List};
ghost use Rattle.std.specs.FinMap as finite;
ghost use Rattle.task_ids.specs.Limits.{IsCancel};
ghost use Rattle.task_ids.specs.declared.task_id.TaskId.{TaskId};
ghost use Rattle.cancel_core.specs.Fields.{map_of};
ghost use Rattle.node_boards.specs.Seats.{HasBanAt};
ghost use Rattle.control_worker.specs.declared.act.ControlAct.{ControlAct};
ghost use Rattle.control_worker.specs.View.{view_of, is_of, is_banned};
ghost use Rattle.control_worker.specs.Steps.{Makes, at};
ghost use Rattle.control_worker.specs.Bans.{PlacesOrNot, PutsOrNot, PutsOrKeeps, TakesBan, TriesOldest, TriesKept, Lifts, TakesUnban};
ghost use Rattle.control_worker.specs.Together.{Together, MayPut};

use crate::act::ControlAct;
use crate::control_core::{Ban, ControlCore};
use crate::listing::list_ban;
use node_boards::ControlBoard;
use std::alloc::{AllocError, Global};
use std::collections::{BTreeMap, VecDeque};
use task_ids::{BoardName, TaskId};
use task_table::NoRoom;

/// Notes that the board has a ban of the parent.
fn note_ban(bans: &mut BTreeMap<TaskId, u32>, ban: Ban) -> Result<(), AllocError>
    ensures ok { OnOk result (map_of bans.new ≡ finite.insert (map_of bans.old) ban.parent ban.cancel) }
    ensures err { OnErr result (map_of bans.new ≡ map_of bans.old) }
{
    bans.insert(ban.parent, ban.cancel)?;
    Ok(())
}

/// Notes that the board has no ban of the parent.
fn forget_ban(bans: &mut BTreeMap<TaskId, u32>, parent: TaskId)
    ensures { map_of bans.new ≡ finite.remove (map_of bans.old) parent }
{
    bans.remove(&parent);
}

/// Puts a ban on the board, and gives its place, where there is room.
#[tactic(auto, using(crate::proofs::Banning::makes_places, crate::proofs::Banning::makes_full, crate::proofs::Belonging::together_put, crate::proofs::Belonging::together_stays, crate::proofs::Belonging::not_banned))]
fn place_ban<N: BoardName, B: ControlBoard<N>>(
    core: &mut ControlCore,
    board: &mut B,
    ban: Ban,
) -> Result<Option<u32>, AllocError>
    requires together { Together (B.bans board.old) (B.slots board.old) N.allowed (view_of core.old) }
    requires new { is_banned ban.parent (view_of core.old) ≡ false }
    requires may_put { MayPut N.allowed ban }
    ensures together { Together (B.bans board.new) (B.slots board.new) N.allowed (view_of core.new) }
    ensures cancels { core.new.cancels ≡ core.old.cancels }
    ensures kept { core.new.kept ≡ core.old.kept }
    ensures put { IfOk result (λ told. IfSome told (λ place. HasBanAt (B.bans board.new) place × B.unlisted board.new place)) }
    ensures did { IfOk result (λ told. (given : List ControlAct) → Makes B.rests (PlacesOrNot ban told) (at board.old core.old given) (at board.new core.new given)) }
{
    note_ban(&mut core.bans, ban)?;
    match board.ban(ban.parent, ban.cancel) {
        Ok(place) => Ok(Some(place)),
        Err(NoRoom) => {
            forget_ban(&mut core.bans, ban.parent);
            Ok(None)
        }
    }
}

/// Puts a ban on the board and lists it, unless the parent is banned already. False where there is no room for it.
#[tactic(auto, using(crate::proofs::Banning::puts_first, crate::proofs::Banning::puts_second, crate::proofs::Banning::puts_none))]
fn put_ban<N: BoardName, B: ControlBoard<N>>(
    core: &mut ControlCore,
    board: &mut B,
    ban: Ban,
    acts: &mut Vec<ControlAct>,
) -> Result<bool, AllocError>
    requires together { Together (B.bans board.old) (B.slots board.old) N.allowed (view_of core.old) }
    requires may_put { MayPut N.allowed ban }
    ensures together { Together (B.bans board.new) (B.slots board.new) N.allowed (view_of core.new) }
    ensures kept { core.new.kept.items ≡ core.old.kept.items }
    ensures did { IfOk result (λ done. Makes B.rests (PutsOrNot ban done) (at board.old core.old acts.old.items) (at board.new core.new acts.new.items)) }
{
    if core.is_banned(ban.parent) {
        return Ok(true);
    }
    match place_ban(core, board, ban)? {
        Some(place) => {
            list_ban(core, board, place, ban, acts)?;
            Ok(true)
        }
        None => Ok(false),
    }
}

/// Takes in a ban, which is kept back where there is no room for it.
#[tactic(auto, using(crate::proofs::Banning::keeps_none, crate::proofs::Banning::keeps_one, crate::proofs::Belonging::together_keeps))]
fn put_or_keep<N: BoardName, B: ControlBoard<N>>(
    core: &mut ControlCore,
    board: &mut B,
    ban: Ban,
    acts: &mut Vec<ControlAct>,
) -> Result<(), AllocError>
    requires together { Together (B.bans board.old) (B.slots board.old) N.allowed (view_of core.old) }
    requires may_put { MayPut N.allowed ban }
    ensures together { Together (B.bans board.new) (B.slots board.new) N.allowed (view_of core.new) }
    ensures did { OnOk result (Makes B.rests (PutsOrKeeps ban) (at board.old core.old acts.old.items) (at board.new core.new acts.new.items)) }
{
    if put_ban(core, board, ban, acts)? {
        return Ok(());
    }
    core.kept.push_back(ban)?;
    Ok(())
}

/// Takes in a ban letter. One for another node is passed over, and so is one of a parent whose ban is known.
#[tactic(auto, using(crate::proofs::Banning::takes_here, crate::proofs::Banning::takes_kept, crate::proofs::Banning::takes_other))]
pub(crate) fn take_ban<N: BoardName, B: ControlBoard<N>>(
    core: &mut ControlCore,
    board: &mut B,
    ban: Ban,
    to: u32,
    acts: &mut Vec<ControlAct>,
) -> Result<(), AllocError>
    requires together { Together (B.bans board.old) (B.slots board.old) N.allowed (view_of core.old) }
    requires may_put { MayPut N.allowed ban }
    ensures together { Together (B.bans board.new) (B.slots board.new) N.allowed (view_of core.new) }
    ensures did { OnOk result (Makes B.rests (TakesBan ban to) (at board.old core.old acts.old.items) (at board.new core.new acts.new.items)) }
{
    if to != core.node() || core.is_kept_back(ban.parent) {
        return Ok(());
    }
    put_or_keep(core, board, ban, acts)
}

/// Puts the oldest of the bans that are kept back. False where there is none, or no room for it.
fn put_oldest<N: BoardName, B: ControlBoard<N>>(
    core: &mut ControlCore,
    board: &mut B,
    acts: &mut Vec<ControlAct>,
) -> Result<bool, AllocError>
    requires together { Together (B.bans board.old) (B.slots board.old) N.allowed (view_of core.old) }
    ensures together { Together (B.bans board.new) (B.slots board.new) N.allowed (view_of core.new) }
    ensures fewer { IfOk result (λ more. more ≡ true → length core.new.kept.items < length core.old.kept.items) }
    ensures did { IfOk result (λ more. TriesOldest B.rests core.old.kept.items core.new.kept.items (at board.old core.old acts.old.items) (at board.new core.new acts.new.items) more) }
{
    let Some(&ban) = core.kept.front() else {
        return Ok(false);
    };
    if !put_ban(core, board, ban, acts)? {
        return Ok(false);
    }
    core.kept.pop_front();
    Ok(true)
}

/// Puts the bans that were kept back, oldest first, until there is no room.
fn put_kept<N: BoardName, B: ControlBoard<N>>(
    core: &mut ControlCore,
    board: &mut B,
    acts: &mut Vec<ControlAct>,
) -> Result<(), AllocError>
    requires together { Together (B.bans board.old) (B.slots board.old) N.allowed (view_of core.old) }
    ensures together { Together (B.bans board.new) (B.slots board.new) N.allowed (view_of core.new) }
    ensures did { OnOk result (Makes B.rests TriesKept (at board.old core.old acts.old.items) (at board.new core.new acts.new.items)) }
{
    loop {
        if !put_oldest(core, board, acts)? {
            return Ok(());
        }
    }
}

/// Takes the ban of a parent out of those that are kept back.
fn drop_kept(kept: &mut VecDeque<Ban>, parent: TaskId)
    ensures { kept.new.items ≡ filter (λ ban. not (is_of parent ban)) kept.old.items }
{
    kept.retain(|ban| ban.parent != parent);
}

/// Takes the ban of a parent away, also where it is kept back.
#[tactic(auto, using(crate::proofs::Banning::makes_lifts, crate::proofs::Belonging::together_lifted))]
fn lift<N: BoardName, B: ControlBoard<N>>(core: &mut ControlCore, board: &mut B, parent: TaskId)
    requires together { Together (B.bans board.old) (B.slots board.old) N.allowed (view_of core.old) }
    ensures together { Together (B.bans board.new) (B.slots board.new) N.allowed (view_of core.new) }
    ensures did { (given : List ControlAct) → Makes B.rests (Lifts parent) (at board.old core.old given) (at board.new core.new given) }
{
    board.unban(parent);
    forget_ban(&mut core.bans, parent);
    drop_kept(&mut core.kept, parent);
}

/// Takes in an unban letter. One for another node is passed over.
#[tactic(auto, using(crate::proofs::Banning::unbans_here, crate::proofs::Banning::unbans_other))]
pub(crate) fn take_unban<N: BoardName, B: ControlBoard<N>>(
    core: &mut ControlCore,
    board: &mut B,
    parent: TaskId,
    to: u32,
    acts: &mut Vec<ControlAct>,
) -> Result<(), AllocError>
    requires together { Together (B.bans board.old) (B.slots board.old) N.allowed (view_of core.old) }
    ensures together { Together (B.bans board.new) (B.slots board.new) N.allowed (view_of core.new) }
    ensures did { OnOk result (Makes B.rests (TakesUnban parent to) (at board.old core.old acts.old.items) (at board.new core.new acts.new.items)) }
{
    if to != core.node() {
        return Ok(());
    }
    lift(core, board, parent);
    put_kept(core, board, acts)
}

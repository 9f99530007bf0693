//! The matches of a filter, of which each data worker of the node tells a part.
ghost use Rattle.std.specs.Prelude.{◌≡◌, None, IfOk, OnOk, option_map, unwrap_or};
ghost use Rattle.std.specs.FinMap as finite;
ghost use Rattle.data_pool.specs.Gathered.{takes, nothing_given};
ghost use Rattle.control_worker.specs.View.{view_of, gathers_of};
ghost use Rattle.control_worker.specs.Steps.{Makes, Stays, at};
ghost use Rattle.control_worker.specs.Gathers.{gather_for, gathered_by, after_part, Gathers};
ghost use Rattle.control_worker.specs.Together.{Together, MayHear};

use crate::act::ControlAct;
use crate::control_core::ControlCore;
use crate::matches::take_matches;
use cancel_core::Waiter;
use data_pool::Gather;
use node_boards::ControlBoard;
use std::alloc::{AllocError, Global};
use std::collections::BTreeMap;
use task_ids::{BoardName, Items, TaskInfo};

/// Takes out what was gathered for a cancel. Where nothing was, none of so many workers has told its part.
fn take_gather(
    gathers: &mut BTreeMap<u32, Gather>,
    alloc: Global,
    workers: u32,
    cancel: u32,
) -> Result<Gather, AllocError>
    ensures gather { IfOk result (λ gather. gather ≡ unwrap_or (finite.get (gathers_of gathers.old) cancel) (nothing_given workers)) }
    ensures after { gathers_of gathers.new ≡ finite.remove (gathers_of gathers.old) cancel }
{
    match gathers.remove(&cancel) {
        Some(gather) => Ok(gather),
        None => Gather::new(alloc, workers),
    }
}

/// Keeps what was gathered for a cancel.
fn keep_gather(
    gathers: &mut BTreeMap<u32, Gather>,
    cancel: u32,
    gather: Gather,
) -> Result<(), AllocError>
    ensures ok { OnOk result (gathers_of gathers.new ≡ finite.insert (gathers_of gathers.old) cancel gather) }
{
    gathers.insert(cancel, gather)?;
    Ok(())
}

impl ControlCore {
    /// Whether a worker has not told its part of a filter's matches, for this cancel.
    fn misses_part(&self, worker: u32, cancel: u32) -> bool
        ensures { result ≡ takes (gather_for cancel (view_of self.now)) worker }
    {
        match self.gathers.get(&cancel) {
            Some(gather) => gather.takes(worker),
            None => worker < self.workers,
        }
    }

    /// The rows of all data workers for a cancel by a filter, by ascending id, once this part is the last. The part of a worker that has
    /// told its own, or that the node does not have, is passed over. It fails only for want of memory.
    #[tactic(auto, using(crate::proofs::Gathering::passed_answer, crate::proofs::Gathering::passed_after, crate::proofs::Gathering::last_answer, crate::proofs::Gathering::last_after, crate::proofs::Gathering::one_answer, crate::proofs::Gathering::one_after, crate::proofs::Waiting::stays_unmoved))]
    fn gathered(
        &mut self,
        worker: u32,
        cancel: u32,
        rows: Vec<TaskInfo>,
    ) -> Result<Option<Vec<TaskInfo>>, AllocError>
        ensures answer { IfOk result (λ all. option_map (λ rows. rows.items) all ≡ gathered_by worker cancel rows.items (view_of self.old)) }
        ensures after { OnOk result (view_of self.new ≡ after_part worker cancel rows.items (view_of self.old)) }
        ensures same { Stays None (view_of self.old) (view_of self.new) }
    {
        if !self.misses_part(worker, cancel) {
            return Ok(None);
        }
        let mut gather = take_gather(&mut self.gathers, self.alloc, self.workers, cancel)?;
        match gather.part(worker, rows)? {
            Some(all) => Ok(Some(all)),
            None => {
                keep_gather(&mut self.gathers, cancel, gather)?;
                Ok(None)
            }
        }
    }
}

/// Takes in a data worker's part of what a filter lets through on this node. With the last part it cancels each task of all parts, and
/// names those that were found.
#[tactic(auto, using(crate::proofs::Gathering::makes_last, crate::proofs::Gathering::makes_missing, crate::proofs::Belonging::together_stays))]
pub(crate) fn take_part<N: BoardName, B: ControlBoard<N>>(
    core: &mut ControlCore,
    board: &mut B,
    worker: u32,
    rows: Items<TaskInfo>,
    waiter: Waiter,
    acts: &mut Vec<ControlAct>,
) -> Result<(), AllocError>
    requires together { Together (B.bans board.old) (B.slots board.old) N.allowed (view_of core.old) }
    requires waiter { MayHear N.allowed waiter }
    ensures together { Together (B.bans board.new) (B.slots board.new) N.allowed (view_of core.new) }
    ensures did { OnOk result (Makes B.rests (Gathers worker waiter rows) (at board.old core.old acts.old.items) (at board.new core.new acts.new.items)) }
{
    match core.gathered(worker, waiter.cancel, rows.into_vec())? {
        Some(all) => take_matches(core, board, all.as_slice(), waiter, acts),
        None => Ok(()),
    }
}

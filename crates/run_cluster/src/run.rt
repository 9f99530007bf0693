// A run over threads.
ghost use Rattle.std.specs.Prelude.{◌≡◌, ◌<◌, ◌+◌, IfOk, OnOk, MatchResult, length};
ghost use Rattle.run_inboxes.specs.Pairs.{Pairwise};
ghost use Rattle.run_inboxes.specs.Ends.{AreLinked};
ghost use Rattle.run_threads.specs.Causes.{IsCauseOf};
ghost use Rattle.run_cluster.specs.Boards.{AreNewBoards, AreSeatsOf, AllHoldNothing};
ghost use Rattle.run_cluster.specs.Crews.{AllWorked};
ghost use Rattle.run_cluster.specs.Notes.{AreClear};
ghost use Rattle.run_cluster.specs.Runs.{IsRunOf};
ghost use Rattle.run_facts.specs.Cancels.{cancels_of};
ghost use Rattle.run_facts.specs.Inboxes.{IsPoolSize, driver_of};
ghost use Rattle.run_facts.specs.declared.Of.{Of};

use crate::boards::{Boards, Seats};
use crate::closing::close;
use crate::jobs::Ground;
use crate::left::{Left, left_of};
use crate::notes::RunNotes;
use es_io::{Gate, Spawner};
use race_board::RaceBoard;
use run_facts::{Of, Run, driver_of};
use run_inboxes::inboxes;
use run_threads::{Drive, RunStop, run_workers};
use std::alloc::Global;
use std::sync::Wait;
use std::thread::Threads;
use task_ids::{Cluster, Corpus};

impl<'b, G: Gate> Ground<'b, G> {
    // Runs the workers over these boards, and takes apart what they left.
    fn run<W: Run + Send, P: Spawner, D: Drive<Of<W>>, R: Threads + Wait + Sync>(
        &self,
        rt: &R,
        alloc: Global,
        boards: &'b [RaceBoard<Of<W>>],
        seats: Vec<Seats<Of<W>>>,
        capacity: u32,
        spawner: &mut P,
        drive: &mut D,
    ) -> Result<Left<Of<W>>, RunStop>
        requires setting { (W.setting.corpus ≡ self.now.corpus.now) × (W.setting.shards ≡ self.now.cluster.shards) }
        requires workers { IsPoolSize self.now.workers }
        requires capacity { 0 < capacity }
        requires boards { AreNewBoards self.now.cluster self.now.workers boards.now seats.items }
        ensures seats { IfOk result (λ left. Pairwise AreSeatsOf boards.now left.boards.items) }
        ensures none { IfOk result (λ left. AllHoldNothing left.boards.items) }
        ensures linked { IfOk result (λ left. AreLinked left.inboxes.items) }
        ensures ends { IfOk result (λ left. length left.inboxes.items ≡ driver_of self.now.workers (length boards.now) + 1) }
        ensures worked { IfOk result (λ left. AllWorked self.now.cluster self.now.corpus.now self.now.workers boards.now left.boards.items left.inboxes.items) }
        ensures done { OnOk result (D.done drive.old drive.new) }
        ensures cause { MatchResult result (λ _. P.faults spawner.new ≡ P.faults spawner.old) (IsCauseOf (P.faults spawner.old) (P.faults spawner.new)) }
    {
        let count = driver_of(self.workers, self.cluster.nodes) + 1;
        let ends = inboxes(alloc, capacity, count)?;
        let workers = self.crew(alloc, boards, seats, ends)?;
        let rest = run_workers(rt, alloc, workers, spawner, drive)?;
        let left = left_of(alloc, rest)?;
        Ok(left)
    }
}

/// Runs a cluster: for each node a board, a control worker and so many data workers, from 1 to 4, in threads of their own, and a driver,
/// which runs in this thread. The shards of each index lie on the nodes as `node_of` tells, and on the data workers of a node as
/// `shards_of`; the slots of a node are shared out to them as `quota_of` tells. Each inbox has room for `capacity` letters at a time. Once
/// the driver has every answer, the workers are told to leave. It comes back when all have ended.
///
/// It fails where a worker could not be given a thread, or where a worker or the driver had to stop; all workers that were started have
/// been told to stop then, and have ended. Of several causes it tells the first of NoThread, NumbersSpent and Memory.
pub fn run_cluster<W: Run + Send, P: Spawner, G: Gate, D: Drive<Of<W>>, R: Threads + Wait + Sync>(
    rt: &R,
    alloc: Global,
    cluster: &Cluster,
    workers: u32,
    corpus: &Corpus,
    capacity: u32,
    spawner: &mut P,
    gate: &G,
    drive: &mut D,
) -> Result<RunNotes, RunStop>
    requires setting { (W.setting.corpus ≡ corpus.now) × (W.setting.shards ≡ cluster.now.shards) }
    requires workers { IsPoolSize workers }
    requires capacity { 0 < capacity }
    ensures clear { IfOk result (λ notes. AreClear cluster.now.nodes notes.nodes.items) }
    ensures run { IfOk result (λ notes. IsRunOf (Of W) (record { allowed = cancels_of W.cancels }) cluster.now corpus.now workers notes.nodes.items notes.driver) }
    ensures done { OnOk result (D.done drive.old drive.new) }
    ensures cause { MatchResult result (λ _. P.faults spawner.new ≡ P.faults spawner.old) (IsCauseOf (P.faults spawner.old) (P.faults spawner.new)) }
{
    let Boards { boards, seats } = Boards::<Of<W>>::new(alloc, cluster, workers)?;
    let ground = Ground {
        cluster: *cluster,
        workers,
        corpus,
        gate,
    };
    let left = ground.run(
        rt,
        alloc,
        boards.as_slice(),
        seats,
        capacity,
        spawner,
        drive,
    )?;
    let notes = close(rt, alloc, boards, left, workers)?;
    Ok(notes)
}

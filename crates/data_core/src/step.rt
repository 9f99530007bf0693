//! The steps of a core's live tasks.
ghost use Rattle.std.specs.Prelude.{◌≡◌, IfOk, IfErr, IsSome, Some, option_map};
ghost use Rattle.task_ids.specs.Limits.{IsNode};
ghost use Rattle.task_work.specs.Works.{place_of};
ghost use Rattle.run_facts.specs.Cancels.{cancels_of};
ghost use Rattle.live_tasks.specs.declared.entry.Entry.{Entry};
ghost use Rattle.live_tasks.specs.Live.{entry_at, HasId};
ghost use Rattle.live_tasks.specs.Entries.{after_ask};
ghost use Rattle.live_tasks.specs.Ties.{IsNew, IsPassed};
ghost use Rattle.data_parts.specs.Places.{child_place};
ghost use Rattle.data_parts.specs.Steps.{HasCome};
ghost use Rattle.entry_facts.specs.Entries.{IsCoreOfRun, writes_for};
ghost use Rattle.data_core.specs.Cores.{IsSound, SameSelf};
ghost use Rattle.data_core.specs.Plans.{plan_for, IsOpen, MayAsk, TurnsNext};
ghost use Rattle.data_core.specs.Steps.{Stepped, Checks, DoesPlan, Asks, Looks, Works, Waits, Noted, asked_post};

use crate::endings::finish;
use crate::state::DataCore;
use data_parts::{Ending, child_place, moment_of, one, or_memory, plan_of};
use data_pool::worker_of;
use node_boards::DataBoard;
use node_link::{Asked, Body, Letter, SentToken};
use node_parts::kinds::node_for;
use run_facts::{Of, Post, Run, To};
use task_events::{Do, Request, Stop};
use task_ids::TaskId;
use task_table::{Check, Track};

/// Does one step of a live task of this core, and gives the letters that are to be sent for it, in order. There are none, and no list
/// of them, exactly where the step waits.
pub fn data_step<W: Run, B: DataBoard<Of<W>>>(
    core: &mut DataCore,
    board: &mut B,
    task: TaskId,
) -> Result<Option<Vec<Post<Letter<Of<W>>>>>, Stop>
    requires sound { IsSound (cancels_of W.cancels) (B.node board.old) (B.has board.old) (B.drawn board.old) (B.clear board.old) core.old }
    requires of_run { IsCoreOfRun W.setting core.old.cluster.shards core.old.shards core.old.live }
    requires live { HasId task (entry_at core.old.live task.number) }
    ensures sound { IsSound (cancels_of W.cancels) (B.node board.new) (B.has board.new) (B.drawn board.new) (B.clear board.new) core.new }
    ensures of_run { IsCoreOfRun W.setting core.new.cluster.shards core.new.shards core.new.live }
    ensures own { SameSelf core.old core.new }
    ensures memory { IfErr result (λ stop. stop ≡ Stop.Memory) }
    ensures steps { (e : Entry) → entry_at core.old.live task.number ≡ Some e → IfOk result (λ given. Stepped B.rests e board.old core.old (option_map (λ posts. posts.items) given) core.new board.new) }
{
    let Some(entry) = core.live.get(task.number) else {
        unreachable!()
    };
    let is_new = entry.running.is_new;
    if is_new {
        return first_step(core, board, task);
    }
    match entry.running.track.closed() {
        Some(cancel) => finish(core, board, task, Ending::Marked(cancel)),
        None => follow_plan(core, board, task),
    }
}

/// The first step of a child: it passes, or ends refused.
fn first_step<W: Run, B: DataBoard<Of<W>>>(
    core: &mut DataCore,
    board: &mut B,
    task: TaskId,
) -> Result<Option<Vec<Post<Letter<Of<W>>>>>, Stop>
    requires sound { IsSound (cancels_of W.cancels) (B.node board.old) (B.has board.old) (B.drawn board.old) (B.clear board.old) core.old }
    requires of_run { IsCoreOfRun W.setting core.old.cluster.shards core.old.shards core.old.live }
    requires live { HasId task (entry_at core.old.live task.number) }
    requires new { IsNew (entry_at core.old.live task.number) }
    ensures sound { IsSound (cancels_of W.cancels) (B.node board.new) (B.has board.new) (B.drawn board.new) (B.clear board.new) core.new }
    ensures of_run { IsCoreOfRun W.setting core.new.cluster.shards core.new.shards core.new.live }
    ensures own { SameSelf core.old core.new }
    ensures memory { IfErr result (λ stop. stop ≡ Stop.Memory) }
    ensures steps { (e : Entry) → entry_at core.old.live task.number ≡ Some e → IfOk result (λ given. Checks B.rests e board.old core.old (option_map (λ posts. posts.items) given) core.new board.new) }
{
    match core.live.check(board, task.number) {
        Check::Clear => Ok(Some(Vec::new(core.alloc))),
        Check::Banned(cancel) => finish(core, board, task, Ending::Refused(cancel)),
    }
}

/// A task that is not marked, as far as is known here, does what its plan says.
fn follow_plan<W: Run, B: DataBoard<Of<W>>>(
    core: &mut DataCore,
    board: &mut B,
    task: TaskId,
) -> Result<Option<Vec<Post<Letter<Of<W>>>>>, Stop>
    requires sound { IsSound (cancels_of W.cancels) (B.node board.old) (B.has board.old) (B.drawn board.old) (B.clear board.old) core.old }
    requires of_run { IsCoreOfRun W.setting core.old.cluster.shards core.old.shards core.old.live }
    requires live { HasId task (entry_at core.old.live task.number) }
    requires passed { IsPassed (entry_at core.old.live task.number) }
    requires unmarked { IsOpen (entry_at core.old.live task.number) }
    ensures sound { IsSound (cancels_of W.cancels) (B.node board.new) (B.has board.new) (B.drawn board.new) (B.clear board.new) core.new }
    ensures of_run { IsCoreOfRun W.setting core.new.cluster.shards core.new.shards core.new.live }
    ensures own { SameSelf core.old core.new }
    ensures memory { IfErr result (λ stop. stop ≡ Stop.Memory) }
    ensures steps { (e : Entry) → entry_at core.old.live task.number ≡ Some e → IfOk result (λ given. DoesPlan B.rests (plan_for core.old.shards core.old.clock e) e board.old core.old (option_map (λ posts. posts.items) given) core.new board.new) }
{
    match core.plan(task.number)? {
        Do::AskNext(request) => ask_next(core, board, task, request),
        Do::Turn => take_turn(core, board, task),
        Do::Wait(None) => Ok(None),
        Do::Wait(Some(_)) => await_moment(core, board, task),
        Do::Finish(reply) => finish(core, board, task, Ending::Finished(reply)),
    }
}

/// A task asks for a child, unless the board tells that it is marked.
fn ask_next<W: Run, B: DataBoard<Of<W>>>(
    core: &mut DataCore,
    board: &mut B,
    task: TaskId,
    request: Request,
) -> Result<Option<Vec<Post<Letter<Of<W>>>>>, Stop>
    requires sound { IsSound (cancels_of W.cancels) (B.node board.old) (B.has board.old) (B.drawn board.old) (B.clear board.old) core.old }
    requires of_run { IsCoreOfRun W.setting core.old.cluster.shards core.old.shards core.old.live }
    requires live { HasId task (entry_at core.old.live task.number) }
    requires passed { IsPassed (entry_at core.old.live task.number) }
    requires unmarked { IsOpen (entry_at core.old.live task.number) }
    requires asks { MayAsk (entry_at core.old.live task.number) }
    requires planned { (e : Entry) → entry_at core.old.live task.number ≡ Some e → plan_for core.old.shards core.old.clock e ≡ Do.AskNext request }
    ensures sound { IsSound (cancels_of W.cancels) (B.node board.new) (B.has board.new) (B.drawn board.new) (B.clear board.new) core.new }
    ensures of_run { IsCoreOfRun W.setting core.new.cluster.shards core.new.shards core.new.live }
    ensures own { SameSelf core.old core.new }
    ensures memory { IfErr result (λ stop. stop ≡ Stop.Memory) }
    ensures steps { (e : Entry) → entry_at core.old.live task.number ≡ Some e → IfOk result (λ given. Asks B.rests request e board.old core.old (option_map (λ posts. posts.items) given) core.new board.new) }
{
    let to = node_for(task, &request, &core.cluster);
    match core.live.track(board, task.number, to) {
        Track::Cancelled(cancel) => finish(core, board, task, Ending::Marked(cancel)),
        Track::Cleared => ask_child(core, board, task, to, request),
    }
}

/// The task asks for the child that comes next, on this node, of the worker that holds the request's shard there.
fn ask_child<W: Run, B: DataBoard<Of<W>>>(
    core: &mut DataCore,
    board: &B,
    task: TaskId,
    to: u32,
    request: Request,
) -> Result<Option<Vec<Post<Letter<Of<W>>>>>, Stop>
    requires sound { IsSound (cancels_of W.cancels) (B.node board.now) (B.has board.now) (B.drawn board.now) (B.clear board.now) core.old }
    requires of_run { IsCoreOfRun W.setting core.old.cluster.shards core.old.shards core.old.live }
    requires live { HasId task (entry_at core.old.live task.number) }
    requires unmarked { IsOpen (entry_at core.old.live task.number) }
    requires asks { MayAsk (entry_at core.old.live task.number) }
    requires planned { (e : Entry) → entry_at core.old.live task.number ≡ Some e → plan_for core.old.shards core.old.clock e ≡ Do.AskNext request }
    requires node { IsNode to }
    ensures sound { IsSound (cancels_of W.cancels) (B.node board.now) (B.has board.now) (B.drawn board.now) (B.clear board.now) core.new }
    ensures of_run { IsCoreOfRun W.setting core.new.cluster.shards core.new.shards core.new.live }
    ensures own { SameSelf core.old core.new }
    ensures memory { IfErr result (λ stop. stop ≡ Stop.Memory) }
    ensures asked { (e : Entry) → entry_at core.old.live task.number ≡ Some e → IfOk result (λ given.
        Noted e (after_ask e to (child_place e.place request)) core.old core.new × (option_map (λ posts. posts.items) given ≡ Some (asked_post core.old.pool e to request))) }
{
    let _ = board;
    let Some(entry) = core.live.get(task.number) else {
        unreachable!()
    };
    let headers = or_memory(entry.running.headers.copy())?;
    let place = child_place(&entry.place, &request);
    let now = moment_of(&entry.running.work, &core.clock);
    let token = core.live.ask(task.number, to, place, now)?;
    let worker = worker_of(&core.pool, &request);
    let post = Post {
        to: To::Data { node: to, worker },
        letter: Letter::new(Body::Request(Asked {
            to,
            place,
            token: SentToken::new(token),
            request,
            headers,
        })),
    };
    Ok(Some(one(core.alloc, post)?))
}

/// A task takes a turn of work over its shard, unless it is marked.
fn take_turn<W: Run, B: DataBoard<Of<W>>>(
    core: &mut DataCore,
    board: &mut B,
    task: TaskId,
) -> Result<Option<Vec<Post<Letter<Of<W>>>>>, Stop>
    requires sound { IsSound (cancels_of W.cancels) (B.node board.old) (B.has board.old) (B.drawn board.old) (B.clear board.old) core.old }
    requires of_run { IsCoreOfRun W.setting core.old.cluster.shards core.old.shards core.old.live }
    requires live { HasId task (entry_at core.old.live task.number) }
    requires turns { TurnsNext core.old.shards (entry_at core.old.live task.number) }
    ensures sound { IsSound (cancels_of W.cancels) (B.node board.new) (B.has board.new) (B.drawn board.new) (B.clear board.new) core.new }
    ensures of_run { IsCoreOfRun W.setting core.new.cluster.shards core.new.shards core.new.live }
    ensures own { SameSelf core.old core.new }
    ensures memory { IfErr result (λ stop. stop ≡ Stop.Memory) }
    ensures steps { (e : Entry) → entry_at core.old.live task.number ≡ Some e → IfOk result (λ given. Looks B.rests (Works B.rests e) e board.old core.old (option_map (λ posts. posts.items) given) core.new board.new) }
{
    match core.live.look(board, task.number) {
        Some(cancel) => finish(core, board, task, Ending::Marked(cancel)),
        None => work_on(core, board, task),
    }
}

/// A task that waits for a moment ends where it is marked.
fn await_moment<W: Run, B: DataBoard<Of<W>>>(
    core: &mut DataCore,
    board: &mut B,
    task: TaskId,
) -> Result<Option<Vec<Post<Letter<Of<W>>>>>, Stop>
    requires sound { IsSound (cancels_of W.cancels) (B.node board.old) (B.has board.old) (B.drawn board.old) (B.clear board.old) core.old }
    requires of_run { IsCoreOfRun W.setting core.old.cluster.shards core.old.shards core.old.live }
    requires live { HasId task (entry_at core.old.live task.number) }
    ensures sound { IsSound (cancels_of W.cancels) (B.node board.new) (B.has board.new) (B.drawn board.new) (B.clear board.new) core.new }
    ensures of_run { IsCoreOfRun W.setting core.new.cluster.shards core.new.shards core.new.live }
    ensures own { SameSelf core.old core.new }
    ensures memory { IfErr result (λ stop. stop ≡ Stop.Memory) }
    ensures steps { (e : Entry) → entry_at core.old.live task.number ≡ Some e → IfOk result (λ given. Looks B.rests (Waits B.rests) e board.old core.old (option_map (λ posts. posts.items) given) core.new board.new) }
{
    match core.live.look(board, task.number) {
        Some(cancel) => finish(core, board, task, Ending::Marked(cancel)),
        None => Ok(None),
    }
}

/// A task takes a turn of work over its shard.
fn work_on<W: Run, B: DataBoard<Of<W>>>(
    core: &mut DataCore,
    board: &B,
    task: TaskId,
) -> Result<Option<Vec<Post<Letter<Of<W>>>>>, Stop>
    requires sound { IsSound (cancels_of W.cancels) (B.node board.now) (B.has board.now) (B.drawn board.now) (B.clear board.now) core.old }
    requires of_run { IsCoreOfRun W.setting core.old.cluster.shards core.old.shards core.old.live }
    requires live { HasId task (entry_at core.old.live task.number) }
    requires turns { TurnsNext core.old.shards (entry_at core.old.live task.number) }
    ensures sound { IsSound (cancels_of W.cancels) (B.node board.now) (B.has board.now) (B.drawn board.now) (B.clear board.now) core.new }
    ensures of_run { IsCoreOfRun W.setting core.new.cluster.shards core.new.shards core.new.live }
    ensures own { SameSelf core.old core.new }
    ensures memory { IfErr result (λ stop. stop ≡ Stop.Memory) }
    ensures works { (e : Entry) → entry_at core.old.live task.number ≡ Some e → IfOk result (λ given.
        Works B.rests e board.now core.old (option_map (λ posts. posts.items) given) core.new board.now) }
{
    let _ = board;
    let Some(entry) = core.live.get(task.number) else {
        unreachable!()
    };
    let Some((index, shard)) = entry.running.work.place() else {
        unreachable!()
    };
    let place = or_memory(core.shards.place(index.get().as_str(), shard))?;
    let notes = core.live.turn(task.number, core.shards.get_mut(place))?;
    drop(notes);
    Ok(Some(Vec::new(core.alloc)))
}

impl DataCore {
    /// What a live task does next by its plan. It fails only for want of memory (`Memory`).
    fn plan(&self, number: u32) -> Result<Do, Stop>
        requires live { IsSome (entry_at self.now.live number) }
        ensures plan { (e : Entry) → entry_at self.now.live number ≡ Some e → HasCome e.running.work (writes_for self.now.shards (place_of e.running.work))
            → IfOk result (λ step. step ≡ plan_for self.now.shards self.now.clock e) }
        ensures memory { IfErr result (λ stop. stop ≡ Stop.Memory) }
    {
        let Some(entry) = self.live.get(number) else {
            unreachable!()
        };
        plan_of(&entry.running.work, &self.clock)
    }
}

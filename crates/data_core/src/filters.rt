//! Lists of live tasks, and cancellations by a filter.
ghost use Rattle.data_core.specs.Turns.{Tells, post, through};
ghost use Rattle.std.specs.Prelude.{◌≡◌, IfOk, IfErr, All, filter};
ghost use Rattle.data_core.specs.Cores.{IsSound, SameSelf};
ghost use Rattle.entry_facts.specs.Entries.{IsCoreOfRun};
ghost use Rattle.node_link.specs.Lawful.{IsCancelOfRun, IsCommand, IsLawfulRow, IsWorker};
ghost use Rattle.task_ids.specs.Limits.{IsNode};
ghost use Rattle.run_facts.specs.Cancels.{cancels_of};
ghost use Rattle.tasks_api.specs.Filters.{filter_matches};

use crate::rows::live_rows;
use crate::state::DataCore;
use data_parts::{one, or_memory};
use node_boards::DataBoard;
use node_link::{Body, Letter};
use run_facts::{Of, Post, Run, To};
use std::alloc::{AllocError, Global};
use task_events::Stop;
use task_ids::{Items, TaskInfo};
use tasks_api::Filter;

/// Those of some rows that a filter lets through, in order. It fails only for want of memory.
fn let_through(
    alloc: Global,
    wanted: &Filter,
    rows: Vec<TaskInfo>,
) -> Result<Vec<TaskInfo>, AllocError>
    ensures { IfOk result (λ through. through.items ≡ filter (filter_matches wanted.now) rows.items) }
{
    let mut through = Vec::new(alloc);
    for row in rows {
        if wanted.matches(&row) {
            through.push(row)?;
        }
    }
    Ok(through)
}

/// The live tasks of this worker, for the driver.
pub(crate) fn list<W: Run, B: DataBoard<Of<W>>>(
    core: &mut DataCore,
    board: &mut B,
    command: u32,
) -> Result<Vec<Post<Letter<Of<W>>>>, Stop>
    requires sound { IsSound (cancels_of W.cancels) (B.node board.old) (B.has board.old) (B.drawn board.old) (B.clear board.old) core.old }
    requires of_run { IsCoreOfRun W.setting core.old.cluster.shards core.old.shards core.old.live }
    requires command { IsCommand command }
    ensures sound { IsSound (cancels_of W.cancels) (B.node board.new) (B.has board.new) (B.drawn board.new) (B.clear board.new) core.new }
    ensures of_run { IsCoreOfRun W.setting core.new.cluster.shards core.new.shards core.new.live }
    ensures own { SameSelf core.old core.new }
    ensures memory { IfErr result (λ stop. stop ≡ Stop.Memory) }
    ensures turned { IfOk result (λ posts. Tells B.rests (λ rows. post To.Driver (Body.Rows core.old.node core.old.worker command rows)) board.old core.old posts.items core.new board.new) }
{
    let rows = live_rows(core, board)?;
    one(core.alloc, rows_post(core.node, core.worker, command, rows))
}

/// The letter that tells the driver these rows.
fn rows_post<W: Run>(
    node: u32,
    worker: u32,
    command: u32,
    rows: Vec<TaskInfo>,
) -> Post<Letter<Of<W>>>
    requires node { IsNode node }
    requires worker { IsWorker worker }
    requires command { IsCommand command }
    requires rows { All (IsLawfulRow (cancels_of W.cancels)) rows.items }
    ensures { result ≡ record { to = To.Driver; letter = Body.Rows node worker command rows.items } }
{
    Post {
        to: To::Driver,
        letter: Letter::new(Body::Rows {
            node,
            worker,
            command,
            rows: Items::from_vec(rows),
        }),
    }
}

/// The live tasks of this worker that a cancellation's filter lets through, for the control worker of its node.
pub(crate) fn name_matches<W: Run, B: DataBoard<Of<W>>>(
    core: &mut DataCore,
    board: &mut B,
    cancel: u32,
    wanted: &Filter,
    wait: bool,
) -> Result<Vec<Post<Letter<Of<W>>>>, Stop>
    requires sound { IsSound (cancels_of W.cancels) (B.node board.old) (B.has board.old) (B.drawn board.old) (B.clear board.old) core.old }
    requires of_run { IsCoreOfRun W.setting core.old.cluster.shards core.old.shards core.old.live }
    requires cancel { IsCancelOfRun (cancels_of W.cancels) cancel }
    ensures sound { IsSound (cancels_of W.cancels) (B.node board.new) (B.has board.new) (B.drawn board.new) (B.clear board.new) core.new }
    ensures of_run { IsCoreOfRun W.setting core.new.cluster.shards core.new.shards core.new.live }
    ensures own { SameSelf core.old core.new }
    ensures memory { IfErr result (λ stop. stop ≡ Stop.Memory) }
    ensures turned { IfOk result (λ posts. Tells B.rests (λ rows. post (To.Control core.old.node) (Body.Matches core.old.worker cancel (through wanted.now rows) wait)) board.old core.old posts.items core.new board.new) }
{
    let rows = live_rows(core, board)?;
    let rows = or_memory(let_through(core.alloc, wanted, rows))?;
    one(
        core.alloc,
        matches_post(core.node, core.worker, cancel, rows, wait),
    )
}

/// The letter that tells the control worker of a node which live tasks a filter lets through.
fn matches_post<W: Run>(
    node: u32,
    worker: u32,
    cancel: u32,
    rows: Vec<TaskInfo>,
    wait: bool,
) -> Post<Letter<Of<W>>>
    requires worker { IsWorker worker }
    requires cancel { IsCancelOfRun (cancels_of W.cancels) cancel }
    requires rows { All (IsLawfulRow (cancels_of W.cancels)) rows.items }
    ensures { result ≡ record { to = To.Control node; letter = Body.Matches worker cancel rows.items wait } }
{
    Post {
        to: To::Control(node),
        letter: Letter::new(Body::Matches {
            worker,
            cancel,
            rows: Items::from_vec(rows),
            wait,
        }),
    }
}

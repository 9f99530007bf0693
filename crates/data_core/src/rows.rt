//! The live tasks of a core as lists show them.
ghost use Rattle.node_boards.specs.Calls as call;
ghost use Rattle.live_tasks.specs.declared.entry.Entry.{Entry};
ghost use Rattle.live_tasks.specs.Entries.{after_look};
ghost use Rattle.live_tasks.specs.Live.{ChangesTask};
ghost use Rattle.data_core.specs.Turns.{Lists, OnlyTasks};
ghost use Rattle.std.specs.Prelude.{◌≡◌, IfOk, IfErr, IsSome, All, Some, None};
ghost use Rattle.data_core.specs.Cores.{IsSound, SameSelf};
ghost use Rattle.entry_facts.specs.Entries.{IsCoreOfRun};
ghost use Rattle.data_core.specs.Letters.{row_of};
ghost use Rattle.live_tasks.specs.Live.{entry_at};
ghost use Rattle.node_link.specs.Lawful.{IsLawfulRow};
ghost use Rattle.run_facts.specs.Cancels.{cancels_of};

use crate::state::DataCore;
use data_parts::or_memory;
use live_tasks::Entry;
use node_boards::DataBoard;
use run_facts::{Of, Run};
use std::alloc::AllocError;
use task_events::Stop;
use task_ids::TaskInfo;

/// The row of a live task, whose mark is this one. It fails only for want of memory.
fn row_of(entry: &Entry, mark: Option<u32>) -> Result<TaskInfo, AllocError>
    ensures { IfOk result (λ row. row ≡ row_of entry.now mark) }
{
    let description = entry.info.description.copy()?;
    let headers = entry.info.headers.copy()?;
    Ok(TaskInfo {
        id: entry.running.ticket.id(),
        action: entry.info.action,
        description,
        start_ms: entry.info.start_ms,
        parent: entry.info.parent,
        headers,
        cancelled: mark,
    })
}

/// The row of the live task of a number, whose mark is this one. It fails only for want of memory (`Memory`).
fn row_at(core: &DataCore, number: u32, mark: Option<u32>) -> Result<TaskInfo, Stop>
    requires live { IsSome (entry_at core.now.live number) }
    ensures row { (e : Entry) → entry_at core.now.live number ≡ Some e → IfOk result (λ row. row ≡ row_of e mark) }
    ensures memory { IfErr result (λ stop. stop ≡ Stop.Memory) }
{
    let Some(entry) = core.live.get(number) else {
        unreachable!()
    };
    match row_of(entry, mark) {
        Ok(row) => Ok(row),
        Err(_) => Err(Stop::Memory),
    }
}

/// Looks at the mark of a live task, and gives its row.
fn look_at<W: Run, B: DataBoard<Of<W>>>(
    core: &mut DataCore,
    board: &mut B,
    number: u32,
) -> Result<TaskInfo, Stop>
    requires sound { IsSound (cancels_of W.cancels) (B.node board.old) (B.has board.old) (B.drawn board.old) (B.clear board.old) core.old }
    requires of_run { IsCoreOfRun W.setting core.old.cluster.shards core.old.shards core.old.live }
    requires live { IsSome (entry_at core.old.live number) }
    ensures sound { IsSound (cancels_of W.cancels) (B.node board.new) (B.has board.new) (B.drawn board.new) (B.clear board.new) core.new }
    ensures of_run { IsCoreOfRun W.setting core.new.cluster.shards core.new.shards core.new.live }
    ensures own { SameSelf core.old core.new }
    ensures memory { IfErr result (λ stop. stop ≡ Stop.Memory) }
    ensures rest { OnlyTasks core.old core.new }
    ensures row { IfOk result (IsLawfulRow (cancels_of W.cancels)) }
    ensures looked { (e : Entry) → entry_at core.old.live number ≡ Some e → IfOk result (λ row. (row ≡ row_of e row.cancelled)
        × B.rests board.old board.new (call.look e.running.ticket row.cancelled) × ChangesTask core.old.live core.new.live number (after_look e row.cancelled)) }
{
    let mark = core.live.look(board, number);
    match row_at(core, number, mark) {
        Ok(row) => Ok(row),
        Err(stop) => Err(stop),
    }
}

/// The rows of the live tasks by ascending id, each with its mark as the board tells it.
pub(crate) fn live_rows<W: Run, B: DataBoard<Of<W>>>(
    core: &mut DataCore,
    board: &mut B,
) -> Result<Vec<TaskInfo>, Stop>
    requires sound { IsSound (cancels_of W.cancels) (B.node board.old) (B.has board.old) (B.drawn board.old) (B.clear board.old) core.old }
    requires of_run { IsCoreOfRun W.setting core.old.cluster.shards core.old.shards core.old.live }
    ensures sound { IsSound (cancels_of W.cancels) (B.node board.new) (B.has board.new) (B.drawn board.new) (B.clear board.new) core.new }
    ensures of_run { IsCoreOfRun W.setting core.new.cluster.shards core.new.shards core.new.live }
    ensures own { SameSelf core.old core.new }
    ensures memory { IfErr result (λ stop. stop ≡ Stop.Memory) }
    ensures rest { OnlyTasks core.old core.new }
    ensures rows { IfOk result (λ rows. All (IsLawfulRow (cancels_of W.cancels)) rows.items) }
    ensures lists { IfOk result (λ rows. Lists B.rests None rows.items board.old core.old.live core.new.live board.new) }
{
    let mut rows = Vec::new(core.alloc);
    let mut after = None;
    while let Some(task) = core.live.live_after(after) {
        let row = look_at(core, board, task.number)?;
        or_memory(rows.reserve(1))?;
        rows.push_reserved(row);
        after = Some(task);
    }
    Ok(rows)
}

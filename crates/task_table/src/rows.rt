ghost use Rattle.std.specs.Prelude.{◌≡◌, ◌≢◌, ◌<◌, ◌↔◌, length, IsTrue, IfSome, IfNone, All, HoldsAt};
ghost use Rattle.task_table.specs.Rows.{IsAscending, row_for, without_number, mark_among, IsUnmarkedChild};

use std::collections::VecDeque;
use task_ids::{NewTask, TaskId, TaskInfo};

/// The row of a task under the id that it is given, not marked.
pub fn row_of_task(id: TaskId, task: NewTask) -> TaskInfo
    ensures { result ≡ row_for id task }
{
    let NewTask {
        action,
        description,
        start_ms,
        parent,
        headers,
    } = task;
    TaskInfo {
        id,
        action,
        description,
        start_ms,
        parent,
        headers,
        cancelled: None,
    }
}

/// Where the row of a number stands among rows that ascend.
pub fn place_of(rows: &VecDeque<TaskInfo>, number: u32) -> Option<usize>
    requires { IsAscending rows.now.items }
    ensures found { IfSome result (λ place. (place < length rows.now.items)
        × HoldsAt (λ row. row.id.number ≡ number) rows.now.items place) }
    ensures none { IfNone result (All (λ row. row.id.number ≢ number) rows.now.items) }
{
    rows.binary_search_by_key(&number, |row| row.id.number).ok()
}

/// Takes out the row of a number, where there is one, and gives its mark. It moves the rows on one side of it, where there are fewer.
pub fn take_row(rows: &mut VecDeque<TaskInfo>, number: u32) -> Option<u32>
    requires { IsAscending rows.old.items }
    ensures mark { result ≡ mark_among number rows.old.items }
    ensures rows { rows.new.items ≡ without_number number rows.old.items }
{
    let place = place_of(rows, number)?;
    let row = rows.remove(place)?;
    row.cancelled
}

/// Whether a row is that of a child of the task, not marked.
pub fn is_unmarked_child(row: &TaskInfo, parent: TaskId) -> bool
    ensures { IsTrue result ↔ IsUnmarkedChild parent row.now }
{
    match row.parent {
        Some(other) => other == parent && row.cancelled.is_none(),
        None => false,
    }
}

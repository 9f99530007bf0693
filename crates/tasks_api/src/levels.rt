//! What lists by parents leave out: nothing.

ghost use Rattle.std.specs.Prelude.{◌≡◌, ◌+◌, ℕ, List, length};
ghost use Rattle.serde_json.specs.Data.{Data};
ghost use Rattle.task_ids.specs.declared.task_info.TaskInfo.{TaskInfo};
ghost use Rattle.tasks_api.specs.Lists.{HasEachOnce, parents_json};

/// A list by parents goes as deep as its tasks do. Where each id stands once, more levels than there are tasks show
/// no more.
pub fn no_level_is_missing()
    ensures { (look : List Data → TaskInfo → Data) (rows : List TaskInfo) (more : ℕ) → HasEachOnce rows
        → parents_json (length rows + more) look rows ≡ parents_json (length rows) look rows }
{}

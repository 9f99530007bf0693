ghost use Rattle.std.specs.Prelude.{◌≡◌, ℕ, Bool, true, List, [], Option, Some};
ghost use Rattle.script_lang.specs.declared.command.Command.{Command};
ghost use Rattle.task_events.specs.declared.reply.Counts.{Counts};
ghost use Rattle.task_events.specs.declared.reply.Reply.{Reply};
ghost use Rattle.task_events.specs.Printed.{reply_line};
ghost use Rattle.task_ids.specs.declared.task_info.TaskInfo.{TaskInfo};
ghost use Rattle.tasks_api.specs.declared.filter.Filter.{Filter};
ghost use Rattle.tasks_api.specs.declared.list.GroupBy.{GroupBy};
ghost use Rattle.tasks_api.specs.Lists.{list_json, list_text, shown, task_json, task_text};
ghost use Rattle.line_print.specs.declared.note.Note.TheVariants.{Listed, Running};
ghost use Rattle.line_print.specs.Lines.{get_line, list_line, running_json};

/// Where the noted text is that of a list, its line is a line of JSON like those of all other commands, whose reply is the tasks that
/// the filter shows.
///
/// It computes nothing: its contract is the law.
pub fn list_is_a_reply()
    ensures { (k : ℕ) (group : GroupBy) (detailed : Bool) (now : ℕ) (wanted : Filter) (rows : List TaskInfo)
        → list_line k (Some (Listed (list_text group detailed now wanted rows))) ≡ reply_line k (list_json group (task_json detailed now) (shown wanted rows)) }
{}

/// Where the noted text is that of a live task, the line of a get is a line of JSON, whose reply has the task as a detailed list shows it.
///
/// It computes nothing: its contract is the law.
pub fn live_task_is_a_reply()
    ensures { (script : List Command) (k now : ℕ) (row : TaskInfo) (status : Option Counts) (reply : Option Reply)
        → get_line script k (Some (Running (task_text now row) status)) reply ≡ reply_line k (running_json (task_json true now [] row) status) }
{}

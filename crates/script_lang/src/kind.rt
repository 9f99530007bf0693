ghost use Rattle.std.specs.Prelude.{◌≡◌};
ghost use Rattle.script_lang.specs.Kinds.{kind_named, is_schedule};

use task_ids::Cause;

/// The kind of a command, which the key of its line names.
#[derive(Clone, Copy, PartialEq, Eq)]
pub(crate) enum Kind {
    Search,
    Scroll,
    ClearScroll,
    Reindex,
    Cancel,
    ListTasks,
    GetTask,
    ForgetTask,
    ListResults,
    Tick,
    Deliver,
    Step,
    ListStep,
    Settle,
    Shuffle,
    WaitFor,
    History,
    Summary,
}

impl Kind {
    /// The kind of a name. It is refused where there is no such command.
    pub(crate) fn named(name: &str) -> Result<Kind, Cause>
        ensures { result ≡ kind_named name.now }
    {
        match name {
            "search" => Ok(Kind::Search),
            "scroll" => Ok(Kind::Scroll),
            "clear_scroll" => Ok(Kind::ClearScroll),
            "reindex" => Ok(Kind::Reindex),
            "cancel" => Ok(Kind::Cancel),
            "list" => Ok(Kind::ListTasks),
            "get_task" => Ok(Kind::GetTask),
            "forget_task" => Ok(Kind::ForgetTask),
            "list_results" => Ok(Kind::ListResults),
            "tick" => Ok(Kind::Tick),
            "deliver" => Ok(Kind::Deliver),
            "step" => Ok(Kind::Step),
            "list_step" => Ok(Kind::ListStep),
            "settle" => Ok(Kind::Settle),
            "shuffle" => Ok(Kind::Shuffle),
            "wait_for" => Ok(Kind::WaitFor),
            "history" => Ok(Kind::History),
            "summary" => Ok(Kind::Summary),
            _ => Err(Cause::UnknownCommand),
        }
    }

    /// Whether it writes a schedule or is about results, which threads do not take.
    pub(crate) fn is_schedule(self) -> bool
        ensures { result ≡ is_schedule self }
    {
        match self {
            Kind::Search
            | Kind::Scroll
            | Kind::ClearScroll
            | Kind::Reindex
            | Kind::Cancel
            | Kind::ListTasks
            | Kind::Tick
            | Kind::WaitFor => false,
            Kind::GetTask
            | Kind::ForgetTask
            | Kind::ListResults
            | Kind::Deliver
            | Kind::Step
            | Kind::ListStep
            | Kind::Settle
            | Kind::Shuffle
            | Kind::History
            | Kind::Summary => true,
        }
    }
}

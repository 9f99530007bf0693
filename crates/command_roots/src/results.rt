use task_ids::TaskId;

/// What a command finds that is about a task.
#[derive(Clone, Copy, PartialEq, Eq)]
pub enum TaskFound {
    /// The task is live.
    Live(TaskId),
    /// It has ended, and its result stands.
    Ended(TaskId),
    /// It is not live and no result of it stands; none where the command that was named started no task.
    Missing(Option<TaskId>),
}

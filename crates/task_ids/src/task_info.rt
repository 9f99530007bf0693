ghost use Rattle.std.specs.Prelude.{◌≡◌, IfOk};

use crate::action::Action;
use crate::task_id::TaskId;
use crate::text::Text;
use shared_value::Shared;
use std::alloc::AllocError;

/// What a request carries beside its content, as Elasticsearch's `X-Opaque-Id`. A child has its parent's, and shares it.
#[derive(Drop)]
pub struct Headers {
    /// The text by which a client knows its requests, where it gave one.
    pub opaque_id: Option<Shared<Text>>,
}

impl Headers {
    ghost use Rattle.task_ids.specs.Headers.{no_headers};

    /// No header.
    pub fn none() -> Headers
        ensures { result ≡ no_headers }
    {
        Headers { opaque_id: None }
    }

    /// Equal headers, which share the text.
    pub fn copy(&self) -> Result<Headers, AllocError>
        ensures { IfOk result (λ headers. headers ≡ self.now) }
    {
        let opaque_id = match &self.opaque_id {
            Some(text) => Some(text.copy()?),
            None => None,
        };
        Ok(Headers { opaque_id })
    }
}

/// A task that is to be put into a node's table, which then gives it its id.
#[derive(Drop)]
pub struct NewTask {
    pub action: Action,
    /// What the task works on, as a detailed task list shows it.
    pub description: Text,
    /// When it starts, in milliseconds of the script's clock.
    pub start_ms: u64,
    /// The task that asked for it, and none for a root.
    pub parent: Option<TaskId>,
    pub headers: Headers,
}

/// A live task, as a task list shows it.
#[derive(Drop)]
pub struct TaskInfo {
    pub id: TaskId,
    pub action: Action,
    /// What the task works on, as a detailed task list shows it.
    pub description: Text,
    /// When it started, in milliseconds of the script's clock.
    pub start_ms: u64,
    /// The task that asked for it, and none for a root.
    pub parent: Option<TaskId>,
    pub headers: Headers,
    /// The number of the cancellation that marked it.
    pub cancelled: Option<u32>,
}

impl TaskInfo {
    /// An equal row. It fails only for want of memory.
    pub fn copy(&self) -> Result<TaskInfo, AllocError>
        ensures { IfOk result (λ info. info ≡ self.now) }
    {
        let description = self.description.copy()?;
        let headers = self.headers.copy()?;
        Ok(TaskInfo {
            id: self.id,
            action: self.action,
            description,
            start_ms: self.start_ms,
            parent: self.parent,
            headers,
            cancelled: self.cancelled,
        })
    }
}

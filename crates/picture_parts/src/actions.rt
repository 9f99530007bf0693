// What lists of tasks tell of them.

use crate::event::task_id;
use serde_json::Value;
use std::alloc::{AllocError, Global};
use task_ids::TaskId;

/// How deep tasks nest in a list: more than JSON is read.
const MAX_NESTING: usize = 128;

/// What a list tells of a task.
#[derive(Drop)]
pub struct Told {
    task: TaskId,
    pub action: String,
    /// What it works on, where a list was detailed.
    pub description: Option<String>,
    /// The `X-Opaque-Id` with which it was asked for.
    pub opaque_id: Option<String>,
}

/// What lists tell of tasks.
#[derive(Drop)]
pub struct Actions {
    told: Vec<Told>,
}

impl Actions {
    /// Nothing is told yet.
    pub fn new(alloc: Global) -> Actions {
        Actions {
            told: Vec::new(alloc),
        }
    }

    /// What is told of a task.
    pub fn of(&self, task: TaskId) -> Option<&Told> {
        self.told.iter().find(|told| told.task == task)
    }

    /// Takes a printed line, which may be that of a list.
    pub fn take(&mut self, alloc: Global, line: &Value) -> Result<(), AllocError> {
        let mut layer = Vec::new(alloc);
        if let Some(reply) = line.get("reply") {
            push_listed(reply, &mut layer)?;
        }
        for _ in 0..MAX_NESTING {
            if layer.is_empty() {
                return Ok(());
            }
            layer = self.take_layer(alloc, layer.as_slice())?;
        }
        Ok(())
    }

    /// Takes tasks of a list, and gives the children that stand in them.
    fn take_layer<'a>(
        &mut self,
        alloc: Global,
        layer: &[&'a Value],
    ) -> Result<Vec<&'a Value>, AllocError> {
        let mut children = Vec::new(alloc);
        for task in layer {
            self.take_task(alloc, task)?;
            if let Some(below) = task.get("children") {
                push_tasks(below, &mut children)?;
            }
        }
        Ok(children)
    }

    fn take_task(&mut self, alloc: Global, task: &Value) -> Result<(), AllocError> {
        let Some(id) = id_of(alloc, task)? else {
            return Ok(());
        };
        let Some(action) = text_at(alloc, task, "/action")? else {
            return Ok(());
        };
        let description = text_at(alloc, task, "/description")?;
        let opaque_id = text_at(alloc, task, "/headers/X-Opaque-Id")?;
        let known = self.told.iter_mut().find(|told| told.task == id);
        if let Some(known) = known {
            if description.is_some() {
                known.description = description;
            }
            return Ok(());
        }
        self.told.push(Told {
            task: id,
            action,
            description,
            opaque_id,
        })?;
        Ok(())
    }
}

/// Appends the tasks at the top of a list, however it is grouped. Only the reply of a list has its tasks or its nodes alone.
fn push_listed<'a>(reply: &'a Value, layer: &mut Vec<&'a Value>) -> Result<(), AllocError> {
    if let Some(tasks) = reply.get("tasks") {
        push_tasks(tasks, layer)?;
    }
    let Some(nodes) = reply.get("nodes").and_then(Value::as_object) else {
        return Ok(());
    };
    for node in nodes.values() {
        if let Some(tasks) = node.get("tasks") {
            push_tasks(tasks, layer)?;
        }
    }
    Ok(())
}

/// Appends the tasks of an array, or of an object by their ids.
fn push_tasks<'a>(tasks: &'a Value, layer: &mut Vec<&'a Value>) -> Result<(), AllocError> {
    if let Some(list) = tasks.as_array() {
        for task in list.iter() {
            layer.push(task)?;
        }
    }
    if let Some(object) = tasks.as_object() {
        for task in object.values() {
            layer.push(task)?;
        }
    }
    Ok(())
}

/// The id that a task of a list has.
fn id_of(alloc: Global, task: &Value) -> Result<Option<TaskId>, AllocError> {
    let node = task.get("node").and_then(Value::as_str);
    let number = task.get("id").and_then(Value::as_u64);
    let (Some(node), Some(number)) = (node, number) else {
        return Ok(None);
    };
    let id = format!(in alloc; "{node}:{number}")?;
    Ok(task_id(id.as_str()))
}

/// The text at a place of a task.
fn text_at(alloc: Global, task: &Value, path: &str) -> Result<Option<String>, AllocError> {
    match task.pointer(path).and_then(Value::as_str) {
        Some(text) => Ok(Some(String::from_str(alloc, text)?)),
        None => Ok(None),
    }
}

//! Which tasks a list shows and a cancellation names.

ghost use Rattle.std.specs.Prelude.{◌≡◌, ◌==◌, IfOk, map, option_map};
ghost use Rattle.std.specs.List.{list_any, slice_split};
ghost use Rattle.task_ids.specs.Pattern.{matches_pattern};
ghost use Rattle.tasks_api.specs.Filters.{patterns_in, is_let_through, is_task, is_child_of, has_wanted_parent, filter_matches};

use crate::names::node_name;
use std::alloc::{AllocError, Global};
use task_ids::{Items, TaskId, TaskInfo, Text, matches_pattern};

/// Which tasks are wanted. It lets a task through where each list that has a pattern has one that matches, and where
/// the task's parent is the one that is given.
#[derive(Drop)]
pub struct Filter {
    /// Patterns for the names of actions, of which one is to match. With none each action will do.
    pub actions: Items<Text>,
    /// Patterns for the names of nodes, likewise.
    pub nodes: Items<Text>,
    /// The parent, where the children of one task are wanted.
    pub parent: Option<TaskId>,
}

impl Filter {
    /// The filter that a command writes: patterns with commas between them, and a parent. What is absent asks for nothing.
    /// An empty text, or nothing between two commas, is the empty pattern. It fails only for want of memory.
    pub fn read(
        alloc: Global,
        actions: Option<&str>,
        nodes: Option<&str>,
        parent: Option<TaskId>,
    ) -> Result<Filter, AllocError>
        ensures actions { IfOk result (λ filter. filter.actions ≡ patterns_in (option_map (λ text. text.now) actions.entry)) }
        ensures nodes { IfOk result (λ filter. filter.nodes ≡ patterns_in (option_map (λ text. text.now) nodes.entry)) }
        ensures parent { IfOk result (λ filter. filter.parent ≡ parent) }
    {
        let actions = patterns_in(alloc, actions)?;
        let nodes = patterns_in(alloc, nodes)?;
        Ok(Filter {
            actions,
            nodes,
            parent,
        })
    }

    /// An equal filter, for a letter that goes to each worker. It fails only for want of memory.
    pub fn copy(&self) -> Result<Filter, AllocError>
        ensures { IfOk result (λ filter. filter ≡ self.now) }
    {
        Ok(Filter {
            actions: copy_texts(&self.actions)?,
            nodes: copy_texts(&self.nodes)?,
            parent: self.parent,
        })
    }

    /// Whether the filter lets a task through.
    pub fn matches(&self, info: &TaskInfo) -> bool
        ensures { result ≡ filter_matches self.now info.now }
    {
        is_let_through(self.actions.as_slice(), info.action.text())
            && is_let_through(self.nodes.as_slice(), node_name(info.id))
            && has_wanted_parent(self.parent, info.parent)
    }
}

/// The patterns that a text lists.
fn patterns_in(alloc: Global, text: Option<&str>) -> Result<Items<Text>, AllocError>
    ensures { IfOk result (λ list. list ≡ patterns_in (option_map (λ text. text.now) text.entry)) }
{
    match text {
        Some(text) => {
            let pieces = pieces(alloc, text)?;
            owned(alloc, pieces.as_slice())
        }
        None => Ok(Items::new(alloc)),
    }
}

/// What stands between the commas of a text.
fn pieces<'a>(alloc: Global, text: &'a str) -> Result<Vec<&'a str>, AllocError>
    ensures { IfOk result (λ list. map (λ piece. piece.now) list.items ≡ slice_split (λ byte. byte == 44) text.now) }
{
    text.split(',').collect(alloc)
}

/// Texts of their own.
fn owned(alloc: Global, pieces: &[&str]) -> Result<Items<Text>, AllocError>
    ensures { IfOk result (λ list. list ≡ map (λ piece. piece.now) pieces.now) }
{
    let mut texts = Vec::with_capacity(alloc, pieces.len())?;
    for piece in pieces {
        texts.push(Text::new(String::from_str(alloc, *piece)?))?;
    }
    Ok(Items::from_vec(texts))
}

/// Equal texts, in the same order.
fn copy_texts(texts: &Items<Text>) -> Result<Items<Text>, AllocError>
    ensures { IfOk result (λ copies. copies ≡ texts.now) }
{
    let mut copies = Vec::with_capacity(texts.allocator(), texts.as_slice().len())?;
    for text in texts.as_slice() {
        copies.push(text.copy()?)?;
    }
    Ok(Items::from_vec(copies))
}

/// Whether one of some patterns matches a text, or there is none.
fn is_let_through(patterns: &[Text], text: &str) -> bool
    ensures { result ≡ is_let_through patterns.now text.now }
{
    patterns.is_empty() || some_match(patterns, text)
}

fn some_match(patterns: &[Text], text: &str) -> bool
    ensures { result ≡ list_any (λ p. matches_pattern p text.now) patterns.now }
{
    patterns
        .iter()
        .any(|pattern| matches_pattern(pattern.as_str(), text))
}

/// Whether a task with this parent, or with none, is a child of a task.
fn is_child_of(task: TaskId, parent: Option<TaskId>) -> bool
    ensures { result ≡ is_child_of task parent }
{
    parent.is_some_and(|parent| parent == task)
}

fn has_wanted_parent(wanted: Option<TaskId>, parent: Option<TaskId>) -> bool
    ensures { result ≡ has_wanted_parent wanted parent }
{
    match wanted {
        Some(wanted) => is_child_of(wanted, parent),
        None => true,
    }
}

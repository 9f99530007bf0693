// In which form a history is drawn.

use crate::story::Story;
use crate::trace::{Arrow, Link, Thing, Trace};
use std::alloc::AllocError;

/// A form of a picture.
#[derive(Clone, Copy)]
pub enum Form<'a> {
    /// A file of its own.
    Alone,
    /// A part of a page. What belongs to a tree of tasks stands in a group that names the tree, so that one tree can be shown alone.
    OnPage(&'a Story),
}

impl Form<'_> {
    /// Opens the group of what belongs to a thing.
    pub fn open(&self, thing: &Thing, out: &mut String) -> Result<(), AllocError> {
        let Form::OnPage(story) = self else {
            return Ok(());
        };
        out.push_str("<g")?;
        story.push_trees_of_thing(thing, out)?;
        out.push('>')
    }

    /// Opens the group of what acts within a row.
    pub fn open_link(
        &self,
        link: &Link,
        trace: &Trace,
        out: &mut String,
    ) -> Result<(), AllocError> {
        let Form::OnPage(story) = self else {
            return Ok(());
        };
        let row = link.row.saturating_add(1);
        write!(out, r#"<g data-from="{row}""#)?;
        if let Some(bar) = trace.bars.get(link.to) {
            story.push_trees_of_thing(&bar.thing, out)?;
        }
        out.push('>')
    }

    /// Opens the group of a message's way, with the numbers of the events that sent and delivered it.
    pub fn open_way(&self, arrow: &Arrow, out: &mut String) -> Result<(), AllocError> {
        let Form::OnPage(story) = self else {
            return Ok(());
        };
        let from = arrow.from.row.saturating_add(1);
        write!(out, r#"<g data-from="{from}""#)?;
        if let Some(to) = arrow.to {
            write!(out, r#" data-to="{}""#, to.row.saturating_add(1))?;
        }
        story.push_tree(arrow.message.parent(), out)?;
        out.push('>')
    }

    /// Closes a group.
    pub fn close(&self, out: &mut String) -> Result<(), AllocError> {
        match self {
            Form::Alone => Ok(()),
            Form::OnPage(_) => out.push_str("</g>\n"),
        }
    }
}

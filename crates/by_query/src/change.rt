//! Documents that are to be rewritten.

ghost use Rattle.std.specs.Prelude.{◌≡◌, IfOk};

use shared_value::Shared;
use std::alloc::AllocError;
use task_ids::{DocSource, Items, Text};

/// A document that is to be rewritten: the row of it that was read, and what takes its place.
#[derive(Drop)]
pub struct Change {
    /// The id of the document.
    pub id: Shared<Text>,
    /// The place of the row that was read, in its shard, from 0.
    pub place: u32,
    /// The source that was read.
    pub seen: DocSource,
    /// The source that is written.
    pub new: DocSource,
}

impl Change {
    /// An equal change. It takes no memory, and fails only where a part of it has too many owners.
    pub fn copy(&self) -> Result<Change, AllocError>
        ensures { IfOk result (λ change. change ≡ self.now) }
    {
        Ok(Change {
            id: self.id.copy()?,
            place: self.place,
            seen: self.seen.copy()?,
            new: self.new.copy()?,
        })
    }
}

/// Equal changes, in the same order. It fails only for want of memory.
pub fn copy_changes(changes: &Items<Change>) -> Result<Items<Change>, AllocError>
    ensures { IfOk result (λ copies. copies ≡ changes.now) }
{
    let mut copies = Vec::with_capacity(changes.allocator(), changes.as_slice().len())?;
    for change in changes.as_slice() {
        copies.push(change.copy()?)?;
    }
    Ok(Items::from_vec(copies))
}

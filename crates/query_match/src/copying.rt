//! Copies of lists and bodies.

ghost use Rattle.std.specs.Prelude.{◌≡◌, IfOk};

use crate::body::SearchBody;
use crate::items::Items;
use crate::scalar::Scalar;
use crate::sort::{KeyPart, SortBy};
use crate::text::Text;
use std::alloc::{AllocError, Global};

/// A value of which a copy can be made that is equal to it.
pub trait Copied: Drop {
    /// An equal value. It fails only for want of memory.
    fn copied(&self) -> Result<Self, AllocError>
        ensures { IfOk result (λ copy. copy ≡ self.now) };
}

impl Copied for Text {
    fn copied(&self) -> Result<Text, AllocError> {
        self.copy()
    }
}

impl Copied for Scalar {
    fn copied(&self) -> Result<Scalar, AllocError> {
        self.copy()
    }
}

impl Copied for SortBy {
    fn copied(&self) -> Result<SortBy, AllocError> {
        self.copy()
    }
}

impl Copied for KeyPart {
    fn copied(&self) -> Result<KeyPart, AllocError> {
        self.copy()
    }
}

/// Equal values, in the same order. It fails only for want of memory.
pub fn copies_of<X: Copied>(alloc: Global, items: &[X]) -> Result<Vec<X>, AllocError>
    ensures { IfOk result (λ copies. copies.items ≡ items.now) }
{
    let mut copies = Vec::with_capacity(alloc, items.len())?;
    for item in items {
        copies.push(item.copied()?)?;
    }
    Ok(copies)
}

fn copy_items<X: Copied>(items: &Items<X>) -> Result<Items<X>, AllocError>
    ensures { IfOk result (λ copies. copies ≡ items.now) }
{
    let copies = copies_of(items.allocator(), items.as_slice())?;
    Ok(Items::from_vec(copies))
}

impl Items<Text> {
    /// Equal texts. It fails only for want of memory.
    pub fn copy(&self) -> Result<Items<Text>, AllocError>
        ensures { IfOk result (λ copies. copies ≡ self.now) }
    {
        copy_items(self)
    }
}

impl Items<Scalar> {
    /// Equal values. It fails only for want of memory.
    pub fn copy(&self) -> Result<Items<Scalar>, AllocError>
        ensures { IfOk result (λ copies. copies ≡ self.now) }
    {
        copy_items(self)
    }
}

impl Items<SortBy> {
    /// Equal entries. It fails only for want of memory.
    pub fn copy(&self) -> Result<Items<SortBy>, AllocError>
        ensures { IfOk result (λ copies. copies ≡ self.now) }
    {
        copy_items(self)
    }
}

impl Items<KeyPart> {
    /// Equal parts. It fails only for want of memory.
    pub fn copy(&self) -> Result<Items<KeyPart>, AllocError>
        ensures { IfOk result (λ copies. copies ≡ self.now) }
    {
        copy_items(self)
    }
}

impl SearchBody {
    /// An equal body. It fails only for want of memory.
    pub fn copy(&self) -> Result<SearchBody, AllocError>
        ensures { IfOk result (λ body. body ≡ self.now) }
    {
        let sort = self.sort.copy()?;
        let query = self.query.copy()?;
        Ok(SearchBody {
            query,
            sort,
            from: self.from,
            size: self.size,
        })
    }
}

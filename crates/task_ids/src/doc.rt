ghost use Rattle.std.specs.Prelude.{◌≡◌, IfOk};

use crate::source::DocSource;
use crate::text::Text;
use shared_value::Shared;
use std::alloc::AllocError;

/// A document: its id in its index, and its source. Both are shared, so a copy costs two counts.
#[derive(Drop)]
pub struct Doc {
    pub id: Shared<Text>,
    pub source: DocSource,
}

impl Doc {
    /// An equal document. It takes no memory, and fails only where one of them has too many owners.
    pub fn copy(&self) -> Result<Doc, AllocError>
        ensures { IfOk result (λ doc. doc ≡ self.now) }
    {
        Ok(Doc {
            id: self.id.copy()?,
            source: self.source.copy()?,
        })
    }
}

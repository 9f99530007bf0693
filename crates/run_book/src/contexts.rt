//! The contexts of the script's searches.
ghost use Rattle.std.specs.Prelude.{◌≡◌};
ghost use Rattle.std.specs.FinMap.{empty};

use crate::openers::Openers;
use scroll_table::ScrollTable;
use std::alloc::Global;

/// The contexts that stand, and which searches opened them.
#[derive(Drop)]
pub(crate) struct Contexts {
    pub(crate) table: ScrollTable,
    pub(crate) openers: Openers,
}

impl Contexts {
    /// No context yet, which takes no memory.
    pub(crate) fn new(alloc: Global) -> Contexts
        ensures { result ≡ record { table = empty; openers = empty } }
    {
        Contexts {
            table: ScrollTable::new(alloc),
            openers: Openers::new(alloc),
        }
    }
}

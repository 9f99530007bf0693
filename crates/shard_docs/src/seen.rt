ghost use Rattle.std.specs.Prelude.{◌≡◌, [], not, IfOk, OnOk};
ghost use Rattle.shard_docs.specs.Seen.{has_name, with_name};

use indexmap::IndexSet;
use std::alloc::{AllocError, Global};
use std::marker::Model;

/// The documents that were met, each once, by index and id. Contracts see the list of these names.
#[derive(Drop)]
pub(crate) struct Seen {
    names: IndexSet<(String, String)>,
}

impl Model for Seen {
    ghost use Rattle.std.specs.Prelude.{List, map, string_bytes};
    ghost use Rattle.shard_docs.specs.Seen.{Name};

    ghost Value = { List Name };

    ghost view = { λ s. map (λ name. (string_bytes name.0, string_bytes name.1)) s.names.keys };
}

impl Seen {
    /// No document yet.
    pub(crate) fn new(alloc: Global) -> Seen
        ensures { result ≡ [] }
    {
        Seen {
            names: IndexSet::new(alloc),
        }
    }

    /// Notes a document, and tells whether it is new. It fails only for want of memory.
    pub(crate) fn insert(&mut self, index: &str, id: &str) -> Result<bool, AllocError>
        ensures told { IfOk result (λ is_new. is_new ≡ not (has_name index.now id.now self.old)) }
        ensures ok { OnOk result (self.new ≡ with_name index.now id.now self.old) }
    {
        let alloc = *self.names.allocator();
        let index = String::from_str(alloc, index)?;
        let id = String::from_str(alloc, id)?;
        let (_, is_new) = self.names.insert_full((index, id))?;
        Ok(is_new)
    }
}

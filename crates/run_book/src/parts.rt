//! What the nodes of a cluster tell, one part each.
ghost use Rattle.std.specs.Prelude.{◌≡◌, IfOk};
ghost use Rattle.run_book.specs.Told.{nothing_told, is_whole, with_part};

use std::alloc::{AllocError, Global};
use std::marker::Model;
use task_ids::Items;

/// What the nodes have told so far. Contracts see the parts by their nodes.
#[derive(Drop)]
pub(crate) struct Parts<X: Drop> {
    // By the numbers of the nodes, which are from 1.
    parts: Vec<Option<Items<X>>>,
    // How many nodes have told nothing.
    missing: usize,
}

impl<X: Drop> Model for Parts<X> {
    ghost use Rattle.std.specs.Prelude.{◌≡◌, List, Option, is_none};
    ghost use Rattle.std.specs.List.{count_by};
    ghost use Rattle.std.specs.Coded.{coded_list, coded_option};

    ghost Value = { List (Option (List X)) };

    ghost coded = { coded_list (coded_option (coded_list X.code)) };

    ghost view = { λ a. a.parts.items };

    ghost invariant = { λ a. a.missing ≡ count_by is_none a.parts.items };
}

impl<X: Drop> Parts<X> {
    /// No node has told anything. It fails only for want of memory.
    pub(crate) fn new(alloc: Global, nodes: u32) -> Result<Parts<X>, AllocError>
        ensures { IfOk result (λ parts. parts ≡ nothing_told nodes) }
    {
        let mut parts = Vec::new(alloc);
        for before in 0..nodes {
            parts.push(None)?;
        }
        let missing = parts.len();
        Ok(Parts { parts, missing })
    }

    /// A node tells its part. A second one, and one of a node that is not of the cluster, is passed over.
    pub(crate) fn put(&mut self, node: u32, part: Items<X>)
        ensures { self.new ≡ with_part self.old node part }
    {
        let Some(place) = (node as usize).checked_sub(1) else {
            return;
        };
        let Some(slot) = self.parts.get_mut(place) else {
            return;
        };
        if slot.is_none() {
            *slot = Some(part);
            self.missing = self.missing.saturating_sub(1);
        }
    }

    /// Whether each node has told its part.
    pub(crate) fn is_whole(&self) -> bool
        ensures { result ≡ is_whole self.now }
    {
        self.missing == 0
    }

    /// The parts that were told, by their nodes.
    pub(crate) fn parts(&self) -> &[Option<Items<X>>]
        ensures { result.now ≡ self.now }
    {
        self.parts.as_slice()
    }

    /// The parts that were told, by their nodes, which move out.
    pub(crate) fn into_parts(self) -> Vec<Option<Items<X>>>
        ensures { result.items ≡ self }
    {
        let Parts { parts, missing: _ } = self;
        parts
    }
}

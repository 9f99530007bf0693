ghost use Rattle.std.specs.Prelude.{◌≡◌, ◌∷◌, [], ◌++◌, IfErr, OnOk, OnErr};

use std::alloc::{AllocFailed, Global};
use std::marker::Model;

/// A list. Contracts see its elements in order, and no capacity.
#[derive(Drop)]
pub struct Items<X> {
    items: Vec<X>,
}

impl<X> Model for Items<X> {
    ghost use Rattle.std.specs.Prelude.{List};
    ghost use Rattle.std.specs.Coded.{coded_list};

    ghost Value = { List X };

    ghost coded = { coded_list X.code };

    ghost view = { λ a. a.items.items };
}

impl<X> Items<X> {
    /// No element yet, which takes no memory.
    pub fn new(alloc: Global) -> Items<X>
        ensures { result ≡ [] }
    {
        Items {
            items: Vec::new(alloc),
        }
    }

    /// The elements of a vector, which moves in.
    pub fn from_vec(items: Vec<X>) -> Items<X>
        ensures { result ≡ items.items }
    {
        Items { items }
    }

    /// The vector, which moves out.
    pub fn into_vec(self) -> Vec<X>
        ensures { result.items ≡ self }
    {
        self.items
    }

    /// The allocator that its memory comes from, for a further list beside it, as a copy.
    pub fn allocator(&self) -> Global {
        *self.items.allocator()
    }

    /// The elements in order, borrowed.
    pub fn as_slice(&self) -> &[X]
        ensures { result.now ≡ self.now }
    {
        self.items.as_slice()
    }

    /// Adds an element at the end. Where memory runs out the element comes back and nothing has changed.
    pub fn push(&mut self, item: X) -> Result<(), AllocFailed<X>>
        ensures ok { OnOk result (self.new ≡ self.old ++ item ∷ []) }
        ensures err { OnErr result (self.new ≡ self.old) }
        ensures given_back { IfErr result (λ e. e.value ≡ item) }
    {
        self.items.push(item)
    }
}

ghost use Rattle.std.specs.Prelude.{◌≡◌, ◌-◌, ◌↔◌, ◌++◌, ◌∷◌, [], List, Some, length, slice_get, IsTrue, OnOk, OnErr};
ghost use Rattle.node_link.specs.declared.body.Place.{Place};

use node_link::Place;
use std::alloc::{AllocError, Global};
use std::marker::Model;

/// The places of the children that a task has asked for, by the numbers of the asks from 1.
#[derive(Drop)]
pub struct AskedPlaces {
    places: Vec<Place>,
}

impl Model for AskedPlaces {
    ghost use Rattle.std.specs.Prelude.{List};
    ghost use Rattle.node_link.specs.declared.body.Place.{Place};

    ghost Value = { List Place };

    ghost view = { λ a. a.places.items };
}

impl AskedPlaces {
    /// None yet, which takes no memory.
    pub fn new(alloc: Global) -> AskedPlaces
        ensures { result ≡ [] }
    {
        AskedPlaces {
            places: Vec::new(alloc),
        }
    }

    /// How many there are.
    pub fn len(&self) -> usize
        ensures { result ≡ length self.now }
    {
        self.places.len()
    }

    /// The place of the next ask. Where memory runs out nothing has changed.
    pub(crate) fn push(&mut self, place: Place) -> Result<(), AllocError>
        ensures ok { OnOk result (self.new ≡ self.old ++ place ∷ []) }
        ensures err { OnErr result (self.new ≡ self.old) }
    {
        match self.places.push(place) {
            Ok(()) => Ok(()),
            Err(_) => Err(AllocError),
        }
    }

    /// The last ask was not made.
    pub(crate) fn forget_last(&mut self)
        ensures { (places : List Place) (place : Place) → self.old ≡ places ++ place ∷ [] → self.new ≡ places }
    {
        self.places.pop();
    }

    /// Whether the ask of this number was for a child at this place.
    pub fn is_at(&self, ask: u32, place: &Place) -> bool
        ensures { IsTrue result ↔ (slice_get self.now (ask - 1) ≡ Some place.now) }
    {
        match self.places.get((ask as usize).saturating_sub(1)) {
            Some(asked) => asked == place,
            None => false,
        }
    }
}

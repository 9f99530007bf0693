ghost use Rattle.std.specs.Prelude.{◌≡◌, IfOk, IfErr};

use std::alloc::{AllocFailed, Global};
use std::marker::Model;

/// A value in an allocation of its own, which keeps what holds it small. Contracts see the value.
#[derive(Drop)]
pub struct Boxed<X> {
    held: Box<X>,
}

impl<X> Model for Boxed<X> {
    ghost Value = { X };

    ghost coded = { X.code };

    ghost view = { λ b. b.held.value };
}

impl<X> Boxed<X> {
    ghost use Rattle.std.specs.Borrow.{sem, Lends};
    ghost use Rattle.task_ids.specs.contracts.boxed.Boxed.{the_row};

    /// Moves a value into an allocation. Where memory runs out the value comes back.
    pub fn new(alloc: Global, value: X) -> Result<Boxed<X>, AllocFailed<X>>
        ensures ok { IfOk result (λ boxed. boxed ≡ value) }
        ensures given_back { IfErr result (λ e. e.value ≡ value) }
    {
        let held = Box::new(alloc, value)?;
        Ok(Boxed { held })
    }

    /// Where its memory comes from, so that a copy can take its own from there.
    pub fn allocator(&self) -> Global {
        *Box::allocator(&self.held)
    }

    /// The value, which stays.
    pub fn get(&self) -> &X
        ensures { result.now ≡ self.now }
    {
        &self.held
    }

    /// The value, which may be changed.
    pub fn get_mut(&mut self) -> &mut X
        ensures* lent { sem 𝓛 (Lends (the_row X.row) X.row self.entry result (λ w. w)) }
        ensures value { result.now ≡ self.old }
    {
        &mut self.held
    }

    /// The value, which moves out.
    pub fn into_inner(self) -> X
        ensures { result ≡ self }
    {
        Box::into_inner(self.held)
    }
}

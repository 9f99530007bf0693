//! A value that several owners share.
#![tactic(auto)]

ghost use Rattle.std.specs.Prelude.{◌≡◌, IfOk, IfErr};

use std::alloc::{AllocError, AllocFailed, Global};
use std::marker::Model;
use std::sync::Arc;

/// A value that is never changed and may have several owners, also in several threads. Contracts see the value.
#[derive(Drop)]
pub struct Shared<X> {
    held: Arc<X, Global>,
}

impl<X> Model for Shared<X> {
    ghost Value = { X };

    ghost coded = { X.code };

    ghost view = { λ s. s.held.value };
}

impl<X> Shared<X> {
    /// Moves a value into an allocation. Where memory runs out the value comes back.
    pub fn new(alloc: Global, value: X) -> Result<Shared<X>, AllocFailed<X>>
        ensures ok { IfOk result (λ shared. shared ≡ value) }
        ensures given_back { IfErr result (λ e. e.value ≡ value) }
    {
        let held = Arc::new(alloc, value)?;
        Ok(Shared { held })
    }

    /// The value, which stays.
    pub fn get(&self) -> &X
        ensures { result.now ≡ self.now }
    {
        &self.held
    }

    /// One more owner of the value, which takes no memory. It fails only where the count of owners is full, at 2^63, and that is told
    /// as want of memory.
    pub fn copy(&self) -> Result<Shared<X>, AllocError>
        ensures { IfOk result (λ copy. copy ≡ self.now) }
    {
        let held = Arc::try_clone(&self.held)?;
        Ok(Shared { held })
    }
}

ghost use Rattle.std.specs.Prelude.{◌≡◌, IfOk, IfSome};

use crate::copying::TryClone;
use std::alloc::{AllocError, Global};
use std::marker::Model;
use std::rc::Rc;

/// A value that several holders may have. Another holder costs no copy. Contracts see the value.
#[derive(Drop)]
pub struct Shared<T: Drop> {
    held: Rc<T>,
}

impl<T: Drop> Model for Shared<T> {
    ghost Value = { T };

    ghost view = { λ s. s.held.value };
}

impl<T: Drop> Shared<T> {
    /// Makes a value with one holder.
    pub fn new(alloc: Global, value: T) -> Result<Self, AllocError>
        ensures { IfOk result (λ shared. shared ≡ value) }
    {
        let held = Rc::new(alloc, value)?;
        Ok(Shared { held })
    }

    /// Returns the value.
    pub fn as_ref(&self) -> &T
        ensures { result.now ≡ self.now }
    {
        self.held.as_ref()
    }

    /// Adds a holder of the same value.
    pub fn share(&self) -> Result<Self, AllocError>
        ensures { IfOk result (λ shared. shared ≡ self.now) }
    {
        let held = self.held.clone()?;
        Ok(Shared { held })
    }

    /// Returns the value, where it has no other holder.
    pub fn into_sole(self) -> Option<T>
        ensures { IfSome result (λ value. value ≡ self) }
    {
        Rc::try_unwrap(self.held).ok()
    }
}

impl<T: TryClone> Shared<T> {
    /// Returns the value: itself where it has no other holder, otherwise a copy.
    pub fn into_value(self, alloc: Global) -> Result<T, AllocError>
        ensures { IfOk result (λ value. value ≡ self) }
    {
        match Rc::try_unwrap(self.held) {
            Ok(value) => Ok(value),
            Err(shared) => shared.as_ref().try_clone(alloc),
        }
    }
}

//! Copies that take memory from an allocator.

ghost use Rattle.std.specs.Prelude.{◌≡◌, IfOk};

use std::alloc::{AllocError, Global};

/// A value that can be copied. We use this trait instead of `Clone`; this is our own choice. By the
/// contract, the copy is equal to the value. The caller names the allocator of the copy.
pub trait TryCopy: Drop {
    /// Returns a copy.
    ///
    /// Errors: out of memory.
    fn copy(&self, alloc: Global) -> Result<Self, AllocError>
        ensures { IfOk result (λ made. made ≡ self.now) };
}

impl<T: TryCopy> TryCopy for Option<T> {
    fn copy(&self, alloc: Global) -> Result<Option<T>, AllocError> {
        match self {
            Some(value) => {
                let made = value.copy(alloc)?;
                Ok(Some(made))
            }
            None => Ok(None),
        }
    }
}

impl<A: TryCopy, B: TryCopy> TryCopy for (A, B) {
    fn copy(&self, alloc: Global) -> Result<(A, B), AllocError> {
        let first = self.0.copy(alloc)?;
        let second = self.1.copy(alloc)?;
        Ok((first, second))
    }
}

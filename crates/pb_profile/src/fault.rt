//! Why a profile has no settings.

ghost use Rattle.std.specs.Prelude.{◌≡◌};
ghost use Rattle.pb_profile.specs.declared.fault.ProfileFault.TheVariants as profile_fault;

use std::alloc::{AllocError, AllocFailed};
use thiserror::Error;

/// Why a profile has no settings.
#[derive(Clone, Copy, Debug, PartialEq, Eq, Error)]
pub enum ProfileFault {
    /// The requested profile, or a profile from which it inherits, is neither built in nor written.
    #[error("a requested profile does not exist")]
    NoSuchProfile,
    /// The requested profile leads to profiles that inherit from one another.
    #[error("profiles inherit from one another")]
    InheritsCycle,
    /// An override of the requested profile, or of a profile from which it inherits, sets `panic`,
    /// `lto` or `rpath`.
    #[error("an override in a profile sets `panic`, `lto` or `rpath`")]
    NotInOverride,
    /// Out of memory.
    #[error("out of memory")]
    OutOfMemory,
}

impl From<AllocError> for ProfileFault {
    ghost from_gives = { λ _ e. e ≡ profile_fault.OutOfMemory };

    fn from(_: AllocError) -> Self {
        ProfileFault::OutOfMemory
    }
}

impl<T: Drop> From<AllocFailed<T>> for ProfileFault {
    ghost from_gives = { λ _ e. e ≡ profile_fault.OutOfMemory };

    fn from(_: AllocFailed<T>) -> Self {
        ProfileFault::OutOfMemory
    }
}

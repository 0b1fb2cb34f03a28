//! Why no features are resolved.

ghost use Rattle.std.specs.Prelude.{◌≡◌};
ghost use Rattle.pb_feature.specs.declared.fault.FeatureFault.TheVariants as feature_fault;

use std::alloc::{AllocError, AllocFailed};
use thiserror::Error;

/// Why no features are resolved.
#[derive(Clone, Copy, Debug, PartialEq, Eq, Error)]
pub enum FeatureFault {
    /// A feature does not exist. There are three cases:
    ///
    /// - An item names a feature that its package does not have.
    /// - No selected package has a requested feature.
    /// - A feature is requested of a package that does not have this feature.
    #[error("a requested feature does not exist")]
    NoSuchFeature,
    /// An item names a dependency that its package does not have.
    #[error("a feature names a dependency that does not exist")]
    NoSuchDependency,
    /// An item `dep:N` or `N?/F` names a dependency that is not optional.
    #[error("a feature names a dependency that is not optional")]
    NotOptional,
    /// Out of memory.
    #[error("out of memory")]
    OutOfMemory,
}

impl From<AllocError> for FeatureFault {
    ghost from_gives = { λ _ e. e ≡ feature_fault.OutOfMemory };

    fn from(_: AllocError) -> Self {
        FeatureFault::OutOfMemory
    }
}

impl<T: Drop> From<AllocFailed<T>> for FeatureFault {
    ghost from_gives = { λ _ e. e ≡ feature_fault.OutOfMemory };

    fn from(_: AllocFailed<T>) -> Self {
        FeatureFault::OutOfMemory
    }
}

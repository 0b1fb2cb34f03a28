//! Why a manifest is refused.

ghost use Rattle.std.specs.Prelude.{◌≡◌};
ghost use Rattle.pb_manifest_types.specs.declared.fault.ManifestFault.TheVariants.{OutOfMemory};

use crate::key::Key;
use std::alloc::{AllocError, AllocFailed};
use thiserror::Error;

/// Why a manifest is refused.
///
/// The first of these errors is reported: `TooLarge`, `NotToml`, `UnsupportedTable`, `OldResolver`.
/// After these comes the first fault in `[package]`, `[lib]`, `[[bin]]`, `[dependencies]`,
/// `[build-dependencies]`, `[features]`, `[profile]` and `[workspace]`, with the keys of each table
/// in byte order. `OutOfMemory` can occur at any time.
#[derive(Clone, Copy, Debug, PartialEq, Eq, Error)]
pub enum ManifestFault {
    /// The bytes are not UTF-8 or not TOML.
    #[error("the manifest is not TOML")]
    NotToml,
    /// A value outside `[profile]` has the wrong type, is not an allowed value, or is a path with
    /// byte 0. The reported key is the key that the rule names. For an entry in a table of
    /// dependencies or features, the reported key is the key of that table.
    #[error("`{}` has a value that is not allowed", .0.name())]
    BadKind(Key),
    /// The name of a package, a binary or a dependency is missing. Or the name of a package, a
    /// binary, a dependency or a library has invalid letters.
    #[error("a name is missing or has letters that are not allowed")]
    BadName,
    /// A version or a version requirement is not valid by Semantic Versioning.
    #[error("a version or a version requirement cannot be read")]
    BadVersion,
    /// The manifest has a table `target`, `patch` or `replace`. Our own choice.
    #[error("`target`, `patch` and `replace` are not supported")]
    UnsupportedTable,
    /// A dependency has `git` or `registry`, or no path. Our own choice.
    #[error("a dependency has a source other than `path`")]
    UnsupportedSource,
    /// A library has a crate type other than `lib`, `rlib` and `bin`. Our own choice.
    #[error("the library has a crate type that is not supported")]
    UnsupportedCrateType,
    /// A value in `[profile]` is not allowed for its key. Or a custom profile has no `inherits`,
    /// has invalid letters in its name, or is called `debug`.
    #[error("a profile has a name or a value that is not allowed, or has no `inherits`")]
    BadProfile,
    /// A feature's name has invalid letters, or an item of a feature has no valid form.
    #[error("a feature has a name or an item that is not allowed")]
    BadFeature,
    /// The manifest has more than 1,048,576 bytes. Our own choice.
    #[error("the manifest is too long")]
    TooLarge,
    /// `[package]` or `[workspace]` requests resolver 1. Our own choice.
    #[error("resolver 1 is not supported")]
    OldResolver,
    /// Out of memory.
    #[error("out of memory")]
    OutOfMemory,
}

impl From<AllocError> for ManifestFault {
    ghost from_gives = { λ _ e. e ≡ OutOfMemory };

    fn from(_: AllocError) -> Self {
        ManifestFault::OutOfMemory
    }
}

impl<T: Drop> From<AllocFailed<T>> for ManifestFault {
    ghost from_gives = { λ _ e. e ≡ OutOfMemory };

    fn from(_: AllocFailed<T>) -> Self {
        ManifestFault::OutOfMemory
    }
}

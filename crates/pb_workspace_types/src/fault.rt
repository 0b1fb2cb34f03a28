//! Why a workspace cannot be read, or why nothing can be selected in it.

ghost use Rattle.std.specs.Prelude.{◌≡◌};
ghost use Rattle.pb_workspace_types.specs.declared.fault.LoadFault.TheVariants as load_fault;

use pb_manifest_types::ManifestFault;
use pb_place_types::{PathText, PlaceFault};
use std::alloc::{AllocError, AllocFailed};
use thiserror::Error;

/// Why a workspace cannot be read, or why nothing can be selected in it.
#[derive(Debug, Drop, Error)]
pub enum LoadFault {
    /// No manifest can be read at this path: no file is there, the file is not named `Cargo.toml`,
    /// or the file is at or below the target folder. The last two rules are our own choice.
    #[error("no manifest can be read at `{}`", .0.as_str())]
    NoManifest(PathText),
    /// The manifest at this path is refused.
    #[error("`{}` is refused: {}", .0.as_str(), .1)]
    Manifest(PathText, ManifestFault),
    /// Two packages have the same name.
    #[error("two packages have the same name")]
    SameName,
    /// A dependency leads to a package that does not have the requested name.
    #[error("a dependency leads to a package with another name")]
    NameMismatch,
    /// A dependency leads to a package whose version does not match the dependency's requirement.
    #[error("a dependency leads to a package whose version does not match")]
    VersionMismatch,
    /// Two packages link the same native library.
    #[error("two packages link the same native library")]
    LinksTwice,
    /// A package links a native library but has no build script.
    #[error("a package links a native library but has no build script")]
    LinksWithoutScript,
    /// A package inherits a key or an entry that the workspace does not have. Or a package inherits
    /// although it is not a member.
    #[error("a package inherits a key or an entry that does not exist")]
    NoInherited,
    /// There are more than 256 packages.
    #[error("there are more than 256 packages")]
    TooMany,
    /// A package has two `[[bin]]` with the same name.
    #[error("a package has two binaries with the same name")]
    SameBinary,
    /// A call on this path failed.
    #[error("a call on `{}` failed: {}", .0.as_str(), .1)]
    Place(PathText, PlaceFault),
    /// `-p` names a package that is not a member, or `default-members` names a folder that is not a
    /// member.
    #[error("a requested package is not a member of the workspace")]
    NoSuchPackage,
    /// Out of memory.
    #[error("out of memory")]
    OutOfMemory,
}

impl From<AllocError> for LoadFault {
    ghost from_gives = { λ _ e. e ≡ load_fault.OutOfMemory };

    fn from(_: AllocError) -> Self {
        LoadFault::OutOfMemory
    }
}

impl<T: Drop> From<AllocFailed<T>> for LoadFault {
    ghost from_gives = { λ _ e. e ≡ load_fault.OutOfMemory };

    fn from(_: AllocFailed<T>) -> Self {
        LoadFault::OutOfMemory
    }
}

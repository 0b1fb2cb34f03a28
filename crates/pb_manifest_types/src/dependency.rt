//! The tables of dependencies (The Cargo Book, Specifying Dependencies and Workspaces).

use crate::version::Requirement;
use crate::written_path::WrittenPath;
use pb_data::{Items, Text, TryCopy};
use std::alloc::{AllocError, Global};

/// The package that an entry with a path requests.
#[derive(Drop)]
pub struct PathSource {
    /// The path of the package's folder. The path is relative to the manifest's folder. In
    /// `[workspace.dependencies]` the path is relative to the workspace's root.
    pub path: WrittenPath,
    /// The package's name. `None` means the entry's key.
    pub package: Option<Text>,
    /// The requirement on the package's version. `None` means any version.
    pub version: Option<Requirement>,
    /// Whether the package's feature `default` is requested. True unless `default-features =
    /// false`.
    pub default_features: bool,
}

impl TryCopy for PathSource {
    fn copy(&self, alloc: Global) -> Result<PathSource, AllocError> {
        let path = self.path.copy(alloc)?;
        let package = self.package.copy(alloc)?;
        let version = self.version.copy(alloc)?;
        Ok(PathSource {
            path,
            package,
            version,
            default_features: self.default_features,
        })
    }
}

/// The source of a package's own dependency.
#[derive(Drop)]
pub enum Source {
    /// A folder.
    Path(PathSource),
    /// `workspace = true`: the entry with the same key in `[workspace.dependencies]`. Next to
    /// `workspace = true`, the keys `path`, `package` and `version` have no effect.
    Workspace {
        /// Whether `default-features = true` is written next to `workspace = true`. Then the
        /// package's feature `default` is requested even if the workspace's entry does not request
        /// it. `default-features = false` has no effect here: our own choice.
        default_features: bool,
    },
}

/// An entry of `[dependencies]` or `[build-dependencies]`.
#[derive(Drop)]
pub struct Dependency {
    /// The name that the manifest uses for the dependency, with the letters of package names.
    pub key: Text,
    /// The source of the dependency.
    pub source: Source,
    /// Whether the dependency is optional. False if `optional` is not written.
    pub optional: bool,
    /// The features that the entry requests, in the manifest's order. With `workspace = true` these
    /// features are added to the features of the workspace's entry.
    pub features: Items<Text>,
}

/// The source of an entry of `[workspace.dependencies]`.
#[derive(Drop)]
pub enum WorkspaceSource {
    /// A folder.
    Path(PathSource),
    /// `git`, `registry` or no path. An unsupported source is refused only if a package inherits
    /// the entry.
    Unsupported,
}

/// An entry of `[workspace.dependencies]`. Its `optional` has no effect.
#[derive(Drop)]
pub struct WorkspaceDependency {
    /// The name by which packages inherit this entry, with the letters of package names.
    pub key: Text,
    /// The source of the dependency.
    pub source: WorkspaceSource,
    /// The features that the entry requests, in the manifest's order.
    pub features: Items<Text>,
}

//! The contents of a manifest.

use crate::dependency::{Dependency, WorkspaceDependency};
use crate::feature::Feature;
use crate::package::{Edition, Package, Readme};
use crate::profile::Profile;
use crate::target::{Binary, Library};
use crate::version::Version;
use crate::written_path::WrittenPath;
use pb_data::{Items, Text};

/// The table `[workspace.package]`: what members inherit (The Cargo Book, Workspaces). Paths are
/// relative to the workspace's root.
#[derive(Drop)]
pub struct WorkspacePackage {
    /// `authors`. `None` if the key is not written.
    pub authors: Option<Items<Text>>,
    /// `description`. `None` if the key is not written.
    pub description: Option<Text>,
    /// `edition`. `None` if the key is not written.
    pub edition: Option<Edition>,
    /// `homepage`. `None` if the key is not written.
    pub homepage: Option<Text>,
    /// `license`. `None` if the key is not written.
    pub license: Option<Text>,
    /// `license-file`. `None` if the key is not written.
    pub license_file: Option<Text>,
    /// `readme`. `None` if the key is not written.
    pub readme: Option<Readme>,
    /// `repository`. `None` if the key is not written.
    pub repository: Option<Text>,
    /// `rust-version`. `None` if the key is not written.
    pub rust_version: Option<Text>,
    /// `version`. `None` if the key is not written.
    pub version: Option<Version>,
}

/// The table `[workspace]` (The Cargo Book, Workspaces).
#[derive(Drop)]
pub struct WorkspaceTable {
    /// `members`: paths and globs, in the manifest's order.
    pub members: Items<WrittenPath>,
    /// `default-members`: paths and globs, in the manifest's order. `None` if the key is not
    /// written.
    pub default_members: Option<Items<WrittenPath>>,
    /// `exclude`: paths, in the manifest's order.
    pub exclude: Items<WrittenPath>,
    /// `[workspace.package]`. `None` if the table is not written.
    pub package: Option<WorkspacePackage>,
    /// `[workspace.dependencies]`, in byte order of the keys.
    pub dependencies: Items<WorkspaceDependency>,
}

/// A manifest. A table that is not written has no entries.
#[derive(Drop)]
pub struct Manifest {
    /// `None` if the manifest has only `[workspace]`.
    pub package: Option<Package>,
    /// `[lib]`, if it is written.
    pub library: Option<Library>,
    /// `[[bin]]`, in the manifest's order.
    pub binaries: Items<Binary>,
    /// `[dependencies]`, in byte order of the keys.
    pub dependencies: Items<Dependency>,
    /// `[build-dependencies]`, in byte order of the keys.
    pub build_dependencies: Items<Dependency>,
    /// The keys of `[dev-dependencies]` in byte order, with any letters. A feature may name such a
    /// key, without effect. Nothing else of this table is read. If the value is not a table, there
    /// are no keys.
    pub dev_dependencies: Items<Text>,
    /// `[features]`, in byte order of the names.
    pub features: Items<Feature>,
    /// `[profile]`, in byte order of the names.
    pub profiles: Items<Profile>,
    /// `[workspace]`, if it is written.
    pub workspace: Option<WorkspaceTable>,
}

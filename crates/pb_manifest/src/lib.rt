//! The manifest reader: what the bytes of a `Cargo.toml` mean, by The Cargo Book.
//!
//! `read_manifest` is the crate's only function. Its contract names one definition, `manifest_of`
//! of `specs/Document.antt`, which is composed of one small definition for each table and key.
#![tactic(auto)]

mod dependency;
mod document;
mod entry;
mod feature;
mod laws;
mod package;
mod profile;
mod profile_values;
mod shared_dependency;
mod target;
mod values;
mod version;
mod workspace;

pub use document::read_manifest;
pub use pb_manifest_types::{
    Binary, Build, CrateType, Dependency, Edition, Feature, FeatureItem, Inheritable, Inherited,
    Key, Library, Manifest, ManifestFault, Package, PathSource, Profile, ProfileKey, ProfileKeys,
    ProfileOverride, Readme, Requirement, Setting, Source, Version, Word, WorkspaceDependency,
    WorkspacePackage, WorkspaceSource, WorkspaceTable, WrittenPath,
};

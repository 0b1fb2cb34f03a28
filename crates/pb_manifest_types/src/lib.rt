//! The contents of a manifest, by The Cargo Book: its types, and why a manifest is refused.
//!
//! `pb_manifest` reads a manifest. The fields of each type describe their possible values. The
//! types of versions, requirements and paths have only valid values.
#![tactic(auto)]

mod crate_names;
pub mod dependency;
pub mod fault;
pub mod feature;
pub mod inherited;
pub mod key;
mod laws;
pub mod letters;
pub mod manifest;
pub mod package;
pub mod profile;
mod spelling;
pub mod target;
mod version;
mod written_path;

pub use crate_names::{crate_name, library_name};
pub use dependency::{Dependency, PathSource, Source, WorkspaceDependency, WorkspaceSource};
pub use fault::ManifestFault;
pub use feature::{Feature, FeatureItem};
pub use inherited::{Inheritable, Inherited};
pub use key::Key;
pub use manifest::{Manifest, WorkspacePackage, WorkspaceTable};
pub use package::{Build, Edition, Package, Readme};
pub use pb_profile_keys::{ProfileKey, ProfileKeys, Setting, Word};
pub use profile::{Profile, ProfileOverride};
pub use spelling::crate_type_texts;
pub use target::{Binary, CrateType, Library};
pub use version::{Requirement, Version};
pub use written_path::WrittenPath;

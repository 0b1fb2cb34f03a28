//! The contents of a workspace: its packages, with everything that is inherited and discovered. The
//! crate also defines what a build requests of a workspace, and why a workspace cannot be read. The
//! rules are in The Cargo Book (Workspaces, Manifest Format, Specifying Dependencies).
//! `pb_workspace` reads a workspace. Crates that only use a workspace depend on this crate.
#![tactic(auto)]

mod by_key;
mod by_name;
pub mod fault;
pub mod options;
pub mod package;
mod settled;
pub mod workspace;

pub use by_key::EntriesByKey;
pub use by_name::{BinariesByName, FeaturesByName};
pub use fault::LoadFault;
pub use options::{Options, Selection};
pub use package::{About, Binary, DependencyKind, Entry, Library, Package, Side};
pub use settled::{SelectedWorkspace, SettledWorkspace};
pub use workspace::{DefaultMembers, Workspace};

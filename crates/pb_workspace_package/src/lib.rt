//! One package, before the packages of a workspace are put together. The package's manifest, its
//! files, and what it takes from its workspace determine the package (The Cargo Book, Manifest
//! Format, Cargo Targets, Features, Specifying Dependencies, Workspaces). `pb_workspace` reads the
//! manifests and puts the packages together.
#![tactic(auto)]

mod again;
mod between;
mod binaries;
mod by_key;
mod features;
mod found;
mod found_binaries;
pub mod keys;
mod laws;
mod listings;
mod own_file;
pub mod settling;
mod sorted;
pub mod source;
mod taken;
pub mod unresolved_package;
pub mod wanted;

pub use again::was_mentioned;
pub use between::{cut_at_slashes, names_in};
pub use by_key::{SharedByKey, WantedByKey};
pub use laws::found_binaries_are_looked_for;
pub use settling::Given;
pub use unresolved_package::{Tables, UnresolvedPackage, draft_of};
pub use wanted::{PackageLocation, Wanted};

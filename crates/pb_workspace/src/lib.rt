//! Workspaces: their packages, with all that the packages inherit and all that is discovered in
//! folders. The crate also selects the packages that a build must build (The Cargo Book,
//! Workspaces, Manifest Format, Specifying Dependencies).
#![tactic(auto)]

mod assembled;
mod by_folder;
mod checks;
mod glob;
mod indices;
mod laws;
mod loading;
mod member;
mod member_folders;
mod normal_paths;
pub mod rounds;
mod selecting;
pub mod workspace_root;

pub use laws::{
    globs_stand_for_names, rounds_are_enough, workspaces_are_settled, workspaces_look_at_sources,
};
pub use loading::load;
pub use normal_paths::workspace_has_paths;
pub use pb_workspace_package::found_binaries_are_looked_for;
pub use pb_workspace_types::{
    About, BinariesByName, Binary, DefaultMembers, DependencyKind, EntriesByKey, Entry,
    FeaturesByName, Library, LoadFault, Options, Package, SelectedWorkspace, Selection,
    SettledWorkspace, Side, Workspace,
};
pub use selecting::selected;

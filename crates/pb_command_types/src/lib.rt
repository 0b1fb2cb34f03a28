//! What a build knows after the planning: the project and its settings, what a unit produces and
//! where, and what a unit needs. The crate also contains the directives of build scripts, the
//! contents of a good answer, and the faults of a bad answer. The crates that make the commands of
//! units use this crate, as do the other crates about units.
#![tactic(auto)]

pub mod checked_reply;
pub mod fault;
mod needed;
pub mod project;
mod targets;

pub use checked_reply::CheckedReply;
pub use fault::UnitFault;
pub use needed::{
    is_library, is_run, library_file, own_run, own_said, said_at, script_file, unit_at,
};
pub use project::{Done, Project, Setup};
pub use targets::{
    crate_name_of, dep_info_path, folder_of, library_name, made_file, package_of, source_by,
};

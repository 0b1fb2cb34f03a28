//! Tests of workspaces and of profiles. They test which packages are loaded, each with its settled
//! contents, or which refusal comes. They also test which packages are selected, and the settings
//! of packages, by The Cargo Book, Profiles, and our own choices.

mod cases;
mod loaded;
mod locations;
mod profiles;
mod settings;
mod show;

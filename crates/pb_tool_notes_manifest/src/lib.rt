//! Notes on one manifest. The notes say which rules the manifest's text, keys or values break, and
//! which keys nothing reads.
#![tactic(auto)]

mod kinds;
mod names;
mod profiles;
mod toml_fault;
mod unsupported;

pub use kinds::{tell_bad_kinds, tell_bad_profiles};
pub use names::{tell_bad_features, tell_bad_names, tell_bad_versions};
pub use profiles::{tell_inherits_cycle, tell_no_profile, tell_not_in_override};
pub use toml_fault::{tell_not_toml, tell_too_large};
pub use unsupported::{tell_crate_types, tell_resolver, tell_sources, tell_tables, tell_unused};

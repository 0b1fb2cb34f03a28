//! Notes that compare the manifests of a workspace with one another, and with the options of a
//! build.
#![tactic(auto)]

mod above;
mod asked;
mod binaries;
mod circle;
mod crowd;
mod features;
mod inherited;
mod pairs;
mod selected;

pub use above::tell_above;
pub use asked::tell_missing;
pub use circle::tell_circle;
pub use crowd::{tell_too_many, tell_too_many_units};
pub use features::{tell_all_items, tell_entries, tell_requested};
pub use inherited::{tell_no_inherited, tell_taken_sources};
pub use pairs::{tell_names, tell_same, tell_same_binaries, tell_versions};
pub use selected::{tell_binaries, tell_no_package, tell_nothing, tell_patterns};

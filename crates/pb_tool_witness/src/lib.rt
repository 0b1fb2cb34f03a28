//! How a unit whose child is started differs from its record, as a place sees it. The notes outlive
//! a fault. The place also remembers the manifests that a planning read.
#![tactic(auto)]

mod command;
mod comparison;
mod differing;
mod folders;
mod notes;
pub mod noting;
mod remembered;
mod values;
mod variables;
pub mod witness;
mod words;

pub use noting::Noting;
pub use pb_tool_reasons::{Detail, Noted};
pub use witness::Witness;

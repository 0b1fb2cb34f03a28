//! The first notes on a build: the sentence of the fault that ends the build, and notes on packages
//! without a library.
#![tactic(auto)]

mod details;
mod libraries;

pub use details::detail;
pub use libraries::notes_of;

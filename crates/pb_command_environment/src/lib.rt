//! The variables of a command: those that the builder sets, and those that build scripts have set
//! (The Cargo Book, Environment Variables).
#![tactic(auto)]

mod pairs;
mod platform;
mod run_pairs;

pub use pairs::pairs_of;

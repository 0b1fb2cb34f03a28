//! A build that shows its progress: its turn shows which unit begins.
#![tactic(auto)]

mod building;
mod watched;

pub use building::build_watched;

//! Runs the units of a build by the steps that a turn decides, and makes the build's summary.
#![tactic(auto)]

mod dropping;
mod executor;
mod laws;
mod summing;
mod turns;

pub use executor::{RunningUnit, UnitExecutor};
pub use turns::run_turns;

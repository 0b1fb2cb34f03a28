//! The outside world: a place in memory, and the trait, paths and sinks that every place shares.
//!
//! `Memory` is a place. Contracts see all files, variables and child processes of `Memory`. `Seen`
//! counts the calls that a caller makes after a failing call. `Unfailing` is a place at which no
//! call fails.
#![tactic(auto)]

pub mod in_flight;
mod landing;
mod memory;
mod seen;
mod sight;
mod tally;
mod unfailing;

pub use memory::Memory;
pub use pb_place_types::{
    Child, Command, Ended, Failure, Out, Over, PathFault, PathText, Place, PlaceFault,
    RelativePath, Reply, StartFault, View, ViewFault,
};
pub use seen::Seen;
pub use tally::Tally;
pub use unfailing::Unfailing;

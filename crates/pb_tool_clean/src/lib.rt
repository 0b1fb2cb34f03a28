//! The removal of what builds have made: records and folders of units in a target folder, and
//! nothing else.
#![tactic(auto)]

pub mod choice;
pub mod fault;
mod finding;
mod laws;
pub mod looking;
mod names;
mod removing;
mod target;

pub use choice::Choice;
pub use fault::{CleanFault, Wanted};
pub use finding::find;
pub use laws::chosen_are_made;
pub use looking::Listed;
pub use removing::clean;

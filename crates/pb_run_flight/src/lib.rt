//! The flight table of a build: which units may begin, which units are in flight, and which lines
//! are due. The table knows no place and no compiler. A unit is a number. The answer of a unit
//! consists of bytes, and of a fault if the unit is bad.
#![tactic(auto)]

mod driving;
mod executor;
pub mod flight;
pub mod laws;
mod needs;
pub mod turn;

pub use driving::drive;
pub use executor::Executor;
pub use flight::{Answer, Flight, State};
pub use turn::{First, Jobs, Last, Pick, Step, Turn};

//! The messages of a unit, made from the answer of its child, and the lines of these messages. The
//! lines contain the unit's package and target (The Cargo Book, External Tools).
#![tactic(auto)]

mod messages;
mod subjects;

pub use messages::{bad_messages, good_messages, said_by};
pub use subjects::lines_of_unit;

//! What a build would start, and why. Nothing is started: the units of a project are only compared
//! with their records.
#![tactic(auto)]

mod comparing;
pub mod fate;
mod foreseeing;
mod laws;
mod replaying;
mod telling;
mod waiting;

pub use fate::Fate;
pub use foreseeing::foresee;
pub use laws::units_begin_as_foreseen;
pub use telling::preview_lines;

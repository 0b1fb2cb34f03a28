//! The settings of a package under a profile. The first location that has a value for a key
//! determines the value of this key (The Cargo Book, Profiles).
#![tactic(auto)]

pub mod fault;
mod laws;
pub mod line;
mod locations;
pub mod settings;

pub use fault::ProfileFault;
pub use laws::{lines_follow_inherits, values_are_found};
pub use line::{Ancestor, folder_of, line_of};
pub use settings::{Settings, settings_along};

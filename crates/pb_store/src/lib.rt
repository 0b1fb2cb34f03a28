//! The records of a profile folder. Records are compared with the present, replayed, dropped, kept
//! and migrated, and the folder is sound after every call.
#![tactic(auto)]

mod asking;
mod comparing;
pub mod difference;
mod differing;
mod dropping;
pub mod fault;
mod inputs;
mod keeping;
pub mod keys;
mod laws;
mod migrating;
mod numbers;
mod opening;
pub mod replaying;
mod store;

pub use asking::{first_part, first_variable};
pub use difference::{CommandPart, Difference};
pub use fault::{OpenFault, StoreFault};
pub use keys::Key;
pub use laws::{differences_are_one, first_name_is_first, unchanged_is_same};
pub use numbers::first_number;
pub use replaying::{Compared, Replayed};
pub use store::Store;

//! The keys of a profile as data (The Cargo Book, Profiles). One table has a row for each key.
//! Profiles and compiles have a value for each key of the table.
#![tactic(auto)]

mod key;
mod keys;
mod laws;
mod setting;
mod table;

pub use key::{COUNT, ProfileKey};
pub use keys::ProfileKeys;
pub use laws::{keys_are_at_their_index, keys_are_told_once};
pub use setting::{Choice, Setting, Word, meaning};
pub use table::{Row, told_keys};

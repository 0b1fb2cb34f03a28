//! What the names of result lines mean, in the words of `docs/ERRORS.md`, and which name is similar
//! to a word. `bench/pages/explained.py` writes the tables from that page.
#![tactic(auto)]

pub mod entry;
mod looking;
mod others;
mod refused;

pub use entry::{Entry, Page, page_of_errors};
pub use looking::{meaning, near};

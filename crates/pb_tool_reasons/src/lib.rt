//! Why the children of units were started, as lines for people.
#![tactic(auto)]

pub mod detail;
pub mod grouping;
pub mod noted;
mod started;
mod wording;

pub use detail::Detail;
pub use grouping::{Row, group_rows};
pub use noted::{Noted, details_for};
pub use started::explanation;
pub use wording::{if_some, reason, reason_with};

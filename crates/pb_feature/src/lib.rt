//! Which packages, features and dependencies are on, on each of two sides (The Cargo Book,
//! Features, resolver 2).
#![tactic(auto)]

mod asked;
mod checks;
pub mod fault;
mod items;
mod numbers;
mod resolution;
mod resolved;
mod rules;
mod rules_of_entries;
mod rules_of_items;
mod seeds;

pub use fault::FeatureFault;
pub use pb_feature_types::{Features, Part, Sides};
pub use resolution::resolve;

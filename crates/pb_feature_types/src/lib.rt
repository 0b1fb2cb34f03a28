//! Which packages, features and entries are on in a workspace, on each of two sides (The Cargo
//! Book, Features, resolver 2). `pb_feature` computes the answer.
#![tactic(auto)]

pub mod features;

pub use features::{Features, Part, Sides, is_marked};

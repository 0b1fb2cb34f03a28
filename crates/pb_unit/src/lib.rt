//! The units of a build, and their plan. The plan contains all units that the selected packages
//! need. Each unit comes after the units that it needs (The Cargo Book, Build Scripts, Features,
//! Profiles, cargo build).
#![tactic(auto)]

mod candidates;
mod dependencies;
mod drawing;
pub mod fault;
mod laws;
mod names;
mod needed;
pub mod plan;
mod roots;
pub mod unit;

pub use fault::PlanFault;
pub use plan::{Plan, Planned};
pub use unit::{Unit, What};

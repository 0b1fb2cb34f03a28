//! Least sets, and orders of graphs.
//!
//! `least` computes the least set that contains some seeds and is closed under rules. `order` sorts
//! the roots, and all nodes that the roots reach, by level and then by key. Each node then comes
//! after all nodes that it needs. If some nodes reach themselves, `order` returns these nodes as
//! its error.
#![tactic(auto)]

mod closure;
pub mod graph;
mod index;
mod levels;
pub mod order;
mod ranks;
mod reach;
pub mod table;

pub use closure::{Rules, least};
pub use graph::{Node, OrderFault, Step};
pub use ranks::sort_once;
pub use table::{Rule, derive};

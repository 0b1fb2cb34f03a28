//! The plan of a build as a text: in lines, as JSON, and as a graph for Graphviz.
#![tactic(auto)]

mod dot;
mod json;
mod keys;
mod lines;

pub use dot::plan_dot;
pub use json::plan_json;
pub use lines::plan_lines;

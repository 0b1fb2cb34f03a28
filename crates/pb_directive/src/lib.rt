//! What the output of a build script and the dep-info of a compiler mean, line by line.
#![tactic(auto)]

mod copying;
pub mod dep_info;
pub mod directive;
pub mod fault;
mod flags;
mod keys;
pub mod laws;
pub mod lines;
mod metadata;
mod names;
mod read;
mod rules;
pub mod texts;
mod values;
pub mod words;

pub use dep_info::DepInfo;
pub use directive::{Directive, Directives};
pub use fault::LineFault;
pub use metadata::{add_dep_pairs, dep_pairs, with_underscores};
pub use names::read_dep_info;
pub use read::read_directives;

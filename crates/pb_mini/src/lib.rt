//! The small compiler, which compiles one file and replaces a real compiler in every session and
//! test. The small compiler is a child like any other, so its contract shows that a child can be
//! honest. The language that it compiles is our own.
#![tactic(auto)]

mod buffer;
pub mod command_line;
mod compile;
pub mod dep_info;
mod diagnostic;
mod effects;
mod include;
pub mod laws;
mod lines;
mod lookups;
mod mini;
mod output;
pub mod request;
pub mod scope;
pub mod script;
pub mod verbs;

pub use mini::{Mini, answer};

//! The message lines of a build (The Cargo Book, External Tools): messages as values, and their
//! lines.
#![tactic(auto)]

mod diagnostic;
mod json;
mod line;
pub mod message;
pub mod subject;
mod writing;

pub use diagnostic::{diagnostics, plain_lines};
pub use line::{finish_line, line_of, lines_of};
pub use message::{Artifact, Executed, Level, Message};
pub use subject::{Subject, Target};
pub use writing::{SinkFault, write_lines};

//! The command line of the program `pb_tool`. The options of a build are those that The Cargo Book
//! describes for `cargo build`. `clap` reads the words, and no caller sees a type of `clap`.
#![tactic(auto)]

mod description;
mod here;
pub mod invocation;
mod options;
mod reading;
mod unknown;
mod values;

pub use here::Here;
pub use invocation::{ArgumentsError, Invocation, PlanForm, Shown};
pub use reading::read_command_line;

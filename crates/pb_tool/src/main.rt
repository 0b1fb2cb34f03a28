//! The package builder as a program.
//!
//! `pb_tool build` builds a workspace of path packages with the compiler that `RUSTC` names, and
//! prints message lines in JSON for all that it makes. The status is 0 for success, 101 for a build
//! that failed or was refused, and 1 for a bad command line.
//!
//! `pb_tool explain NAME` prints what the name of an error means. The status is 0, or 1 if there is
//! no such name.
//!
//! `pb_tool session FILE` runs a session in memory with the small compiler. The command prints all
//! message lines and then one result line for each build. The status is 0. For a bad command line
//! or a bad session, the status is 1.
#![tactic(auto)]

use pb_tool_program::tool;
use std::process::ExitCode;

fn main(rt: HostRuntime) -> ExitCode {
    ExitCode::from(tool(&rt))
}

//! The small compiler as a program.
//!
//! `pb_mini ARGUMENTS..` replies as the small compiler does, over real files and variables. The
//! files of the reply are written into the output folder, and the reply's two streams are printed.
//! The program ends with the reply's status. The output folder of a compile is the value of
//! `--out-dir`. The output folder of a run is the value of the variable `OUT_DIR`. Without a
//! folder, no file is written. If a read or a write fails, or memory runs out, the status is 2.
#![tactic(auto)]

use pb_mini_program::compiler;
use std::process::ExitCode;

fn main(rt: HostRuntime) -> ExitCode {
    ExitCode::from(compiler(&rt))
}

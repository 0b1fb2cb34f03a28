//! Starting real children, and waiting for their end.

ghost use Rattle.std.specs.Prelude.{◌≡◌, ◌++◌, ℕ, List, Some, None, if◌then◌else◌, OnOk, IfOk, IfErr};
ghost use Rattle.std.specs.Str.{bytes_eq};
ghost use Rattle.std.specs.Process.{command_program, command_args, command_var, command_dir, clears_env, exit_code, SameEnv, SameDir, SameProgramAndArgs};
ghost use Rattle.pb_place_host.specs.Starting.{value_over, IsProcessOf};

use crate::failed::Failed;
use crate::moving::{Moment, moment_of};
use crate::program::program_of;
use pb_data::{Bytes, Text, with_next};
use pb_place_types::{Command, Ended, StartFault};
use std::alloc::{AllocError, Global};
use std::process::{Child, Output, Processes, Stdio};
use std::rt::{Env, Files};
use std::{fs, io, process};

/// Adds arguments to the arguments of a process.
fn add_words(made: &mut process::Command, words: &[Text]) -> Result<(), AllocError>
    ensures words { OnOk result (command_args made.new ≡ command_args made.old ++ words.now) }
    ensures program { OnOk result (command_program made.new ≡ command_program made.old) }
    ensures variables { OnOk result (SameEnv made.old made.new) }
    ensures folder { OnOk result (SameDir made.old made.new) }
{
    for word in words {
        made.arg(word.as_str())?;
    }
    Ok(())
}

/// Sets a variable of a process.
#[tactic(auto, using(crate::proofs::Variables::set_law))]
fn set_variable(made: &mut process::Command, name: &str, value: &str) -> Result<(), AllocError>
    ensures set { OnOk result
        ((other : List ℕ)
        → command_var made.new other
        ≡ (if bytes_eq name.now other then Some (Some value.now) else command_var made.old other)) }
    ensures call { OnOk result (SameProgramAndArgs made.old made.new) }
    ensures inherits { OnOk result (clears_env made.new ≡ clears_env made.old) }
    ensures folder { OnOk result (SameDir made.old made.new) }
{
    made.env(name, value)?;
    Ok(())
}

/// Sets the variables of a process, one after another.
fn add_pairs(made: &mut process::Command, pairs: &[(Text, Text)]) -> Result<(), AllocError>
    ensures pairs { OnOk result ((name : List ℕ)
        → command_var made.new name ≡ value_over name (command_var made.old name) pairs.now) }
    ensures call { OnOk result (SameProgramAndArgs made.old made.new) }
    ensures inherits { OnOk result (clears_env made.new ≡ clears_env made.old) }
    ensures folder { OnOk result (SameDir made.old made.new) }
{
    for (name, value) in pairs {
        set_variable(made, name.as_str(), value.as_str())?;
    }
    Ok(())
}

/// Sets everything in a process that a command contains besides its program.
fn fill(made: &mut process::Command, command: &Command) -> Result<(), AllocError>
    ensures program { OnOk result (command_program made.new ≡ command_program made.old) }
    ensures words { OnOk result
        (command_args made.new ≡ command_args made.old ++ command.now.words) }
    ensures folder { OnOk result (command_dir made.new ≡ Some command.now.folder) }
    ensures inherits { OnOk result (clears_env made.new ≡ clears_env made.old) }
    ensures pairs { OnOk result ((name : List ℕ) → command_var made.new name
        ≡ value_over name (command_var made.old name) command.now.pairs) }
{
    add_words(made, command.words.as_slice())?;
    add_pairs(made, command.pairs.as_slice())?;
    made.current_dir(command.folder.as_str())?;
    Ok(())
}

/// Returns the process of a command: this program with the command's arguments, in the command's
/// folder. The variables of the command override the inherited variables.
fn process_of(
    alloc: Global,
    program: &str,
    command: &Command,
) -> Result<process::Command, AllocError>
    ensures { IfOk result (IsProcessOf program.now command.now) }
{
    let mut made = process::Command::new(alloc, program)?;
    let filled = fill(&mut made, command);
    let (made, ()) = with_next(made, filled)?;
    Ok(made)
}

/// Starts a process. The process has an empty standard input, and its output is read later.
fn begin<R: Processes>(runtime: &R, mut made: process::Command) -> io::Result<Child<R::Started>> {
    made.stdin(Stdio::null());
    made.stdout(Stdio::piped());
    made.stderr(Stdio::piped());
    let spawned = made.spawn(runtime);
    drop(made);
    spawned
}

/// Makes the output folder of a command, and returns when the folder was made, by the clock of its
/// file system. The result is `None` if the command has no output folder, or the time is unknown.
///
/// Errors: the system's error with the folder's path, if the folder cannot be made.
fn make_out<R: Files>(
    runtime: &R,
    alloc: Global,
    command: &Command,
) -> Result<Option<Moment>, Failed> {
    let Some(out) = &command.out else {
        return Ok(None);
    };
    match fs::create_dir_all(runtime, out.as_str()) {
        Ok(()) => Ok(moment_of(runtime, out)),
        Err(error) => Err(Failed::from(error).at(alloc, out.as_str())),
    }
}

/// Starts the child of a command, after making the output folder. Returns the child with the moment
/// at which the folder was made. Every change after this moment counts as a change while the child
/// runs.
///
/// Errors:
///
/// - `CannotStart`, if the output folder cannot be made, or if the program is not found or cannot
///   be started.
/// - `OutOfMemory`.
pub(crate) fn spawn<R: Files + Env + Processes + AllocGlobal>(
    runtime: &R,
    alloc: Global,
    command: &Command,
) -> Result<(Child<R::Started>, Option<Moment>), Failed> {
    // The folder is made before the child starts, because a compiler does not make it.
    let since = make_out(runtime, alloc, command)?;
    let program = program_of(runtime, alloc, command.program.as_str())?;
    let made = process_of(alloc, program.as_str(), command)?;
    let child = begin(runtime, made)?;
    Ok((child, since))
}

/// Returns how a child ended: its status code and both output streams, as the child wrote them.
///
/// Errors: `Died`, if the child has no status code.
pub(crate) fn end_of(output: Output) -> Result<Ended, StartFault>
    ensures ended { IfOk result (λ e. (exit_code output.status ≡ Some e.status)
        × (e.stdout ≡ output.stdout.items) × (e.stderr ≡ output.stderr.items)) }
    ensures fault { IfErr result (λ e. (exit_code output.status ≡ None) × (e ≡ StartFault.Died)) }
{
    match output.status.code() {
        Some(status) => Ok(Ended {
            status,
            stdout: Bytes::new(output.stdout),
            stderr: Bytes::new(output.stderr),
        }),
        None => Err(StartFault::Died),
    }
}

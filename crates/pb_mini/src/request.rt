//! The requests of arguments.

ghost use Rattle.std.specs.Prelude.{◌≡◌};
ghost use Rattle.pb_data.specs.UnlessOom.{UnlessOom};
ghost use Rattle.pb_mini.specs.Answer.{compile_in, request_of};
ghost use Rattle.pb_mini.specs.declared.command_line.CommandLineFault.TheVariants as fault;

use crate::command_line::{CommandLine, CommandLineFault, command_line_of};
use pb_data::{Text, TryCopy};
use std::alloc::Global;

/// What some arguments request.
#[derive(Drop)]
pub enum Request {
    /// The version of the compiler.
    Version,
    /// The run of the image at a path.
    Run(Text),
    /// A compile.
    Compile(CommandLine),
}

/// Returns the compile that some arguments request.
fn compile_in(alloc: Global, words: &[Text]) -> Result<Request, CommandLineFault>
    ensures { UnlessOom fault.OutOfMemory (λ request. request) result (compile_in words.now) }
{
    let line = command_line_of(alloc, words)?;
    Ok(Request::Compile(line))
}

/// Returns the request of some arguments. `-vV` alone requests the version. `--run` with one more
/// argument requests the run of an image. Other arguments request a compile.
///
/// Errors: `Bad`, if the arguments are not a valid request; `OutOfMemory`.
pub(crate) fn request_of(alloc: Global, words: &[Text]) -> Result<Request, CommandLineFault>
    ensures { UnlessOom fault.OutOfMemory (λ request. request) result (request_of words.now) }
{
    match words {
        [word] if word.as_str() == "-vV" => Ok(Request::Version),
        [word, path] if word.as_str() == "--run" => {
            let path = path.copy(alloc)?;
            Ok(Request::Run(path))
        }
        _ => compile_in(alloc, words),
    }
}

//! The small compiler's reply to any arguments.

ghost use Rattle.std.specs.Prelude.{◌≡◌, [], IfOk, IfErr, IsTrue};
ghost use Rattle.pb_mini.specs.Answer.{version, bad_command_line, replied_to, answered};

use crate::command_line::CommandLineFault;
use crate::compile::compile;
use crate::lookups::table_of;
use crate::request::{Request, request_of};
use crate::script::run;
use pb_data::{Bytes, Items, Table, Text};
use pb_place_types::{Child, Command, Reply, View, ViewFault};
use std::alloc::{AllocError, Global};

/// Returns a reply without files.
fn reply_with(alloc: Global, status: i32, stdout: &[u8], stderr: &[u8]) -> Result<Reply, AllocError>
    ensures { IfOk result (λ reply. reply ≡ record {
      status = status;
      stdout = stdout.now;
      stderr = stderr.now;
      files = [];
    }) }
{
    Ok(Reply {
        status,
        stdout: Bytes::from_slice(alloc, stdout)?,
        stderr: Bytes::from_slice(alloc, stderr)?,
        files: Items::new(alloc),
    })
}

/// Returns the reply to `-vV`.
fn version(alloc: Global) -> Result<Reply, ViewFault>
    ensures reply { IfOk result (λ reply. reply ≡ version) }
    ensures err { IfErr result (λ e. e ≡ ViewFault.OutOfMemory) }
{
    let reply = reply_with(alloc, 0, b"mini 0.1.0\nhost: mini-unknown-none\n", b"")?;
    Ok(reply)
}

/// Returns the reply to arguments that the small compiler does not know.
fn bad_command_line(alloc: Global) -> Result<Reply, ViewFault>
    ensures reply { IfOk result (λ reply. reply ≡ bad_command_line) }
    ensures err { IfErr result (λ e. e ≡ ViewFault.OutOfMemory) }
{
    let reply = reply_with(alloc, 2, b"", b"mini: bad command line\n")?;
    Ok(reply)
}

/// Returns the reply to a request.
fn reply_to<V: View>(
    alloc: Global,
    request: &Request,
    pairs: Table<Text>,
    view: &V,
) -> Result<Reply, ViewFault>
    ensures reply { IsTrue V.is_modelled →
        IfOk result (λ reply. reply ≡ replied_to request.now pairs (V.shown view.now)) }
    ensures failed { IfErr result (λ e. e ≡ ViewFault.Failed → V.fails view.now) }
{
    match request {
        Request::Version => version(alloc),
        Request::Run(path) => run(alloc, path.as_str(), &pairs, view),
        Request::Compile(line) => compile(alloc, line, pairs, view),
    }
}

/// Returns the reply of the small compiler to the arguments of a command line.
///
/// - `-vV` alone prints the version. The status is 0. Standard output has a line with the
///   compiler's name and number, and a line `host:` with the platform.
/// - `--run PATH` runs an image.
/// - Other arguments are a compile: `--crate-name NAME` and `--out-dir FOLDER` once each,
///   `--crate-type TYPE` at least once, and one source. The first `--crate-type` counts. There may
///   be any number of `-C`, `--cfg`, `--check-cfg`, `--extern`, `-L` and `-l`, each with an
///   argument after it. There may be any number of arguments that begin with `--edition=`,
///   `--error-format=` or `--emit=`.
/// - Anything else has status 2, and `mini: bad command line` on standard error.
///
/// **A compile** with an error has status 1 and no image. Any other compile has status 0 and an
/// image. In both cases there is dep-info, `NAME.d`, and the diagnostics are lines of JSON on
/// standard error. If the source is missing or not UTF-8, the error is `no source` at line 0. The
/// lines of the source mean:
///
/// - A line that is empty or begins with `#` does nothing.
/// - `use NAME` adds the line to the image, and after it each line of the library's file with `> `
///   in front. The first `--extern NAME=PATH` names the file of the library. If there is no such
///   argument, the error is `no library NAME`.
/// - `include PATH` adds each line of the file with `| ` in front. A relative path begins at the
///   source's folder. If the first part of the path is `$VAR`, the variable's value replaces this
///   part. If there is no file, the error is `no file PATH`.
/// - `env NAME` adds `env NAME=VALUE`, or `env NAME` if the variable is not set.
/// - `when COND LINE` does the same as LINE if `--cfg COND` is an argument, and otherwise nothing.
/// - `warn TEXT` reports a warning, and `fail TEXT` reports an error.
/// - A line whose verb is `print`, `show`, `read`, `put` or `exit` is added to the image.
/// - Any other line causes the error `unknown line`.
///
/// The dep-info names all included files and all variables that are read, without repeats. Files
/// that do not exist and variables that are not set are named, too.
///
/// **A run** carries out the lines of the image and ignores unknown lines:
///
/// - `print TEXT` writes the text.
/// - `show NAME` declares a variable, and sets `SHOW_NAME` to the variable's value.
/// - `read PATH` declares a file, and sets `READ` to the file's first line.
/// - `put NAME TEXT` puts the file NAME into the output folder. If NAME is empty, `.` or `..`, or
///   contains a slash or byte 0, the run ends with status 2.
/// - `exit N` ends with a status from 0 to 255, or with 2 for any other text.
///
/// If there is no image, the status is 2, with `mini: no image` on standard error.
///
/// Our own choices: if the path of the source is not absolute, the error is also `no source`. A
/// command line is bad if its output folder is not an absolute path, or if its crate name is not a
/// file name. A library whose path is not absolute has no file. A line of an image is ignored if it
/// is not UTF-8.
///
/// `pairs` are names and values that override the variables of the view. If several pairs have the
/// same name, the last one counts.
///
/// Errors:
///
/// - `Failed`, only if the view fails.
/// - `OutOfMemory`.
///
/// A view of real files does not report what it shows. For such a view, no clause promises what the
/// reply is.
///
/// The arguments are those that Cargo passes to a compiler; the language of the source is our own
/// choice.
pub fn answer<V: View>(
    alloc: Global,
    words: &[Text],
    pairs: &[(Text, Text)],
    view: &V,
) -> Result<Reply, ViewFault>
    ensures reply { IsTrue V.is_modelled →
        IfOk result (λ reply. reply ≡ answered words.now pairs.now (V.shown view.now)) }
    ensures failed { IfErr result (λ e. e ≡ ViewFault.Failed → V.fails view.now) }
{
    let pairs = table_of(alloc, pairs)?;
    match request_of(alloc, words) {
        Ok(request) => {
            let reply = reply_to(alloc, &request, pairs, view);
            drop(request);
            reply
        }
        Err(CommandLineFault::Bad) => {
            drop(pairs);
            bad_command_line(alloc)
        }
        Err(CommandLineFault::OutOfMemory) => {
            drop(pairs);
            Err(ViewFault::OutOfMemory)
        }
    }
}

/// The small compiler as a child. A reply depends only on the arguments, the pairs and what the
/// view shows.
#[derive(Clone, Copy, Debug)]
pub struct Mini;

impl Child for Mini {
    ghost use Rattle.pb_mini.specs.Answer.{answered};

    ghost answers = { λ c w. answered c.words c.pairs w };

    fn reply<V: View>(
        &self,
        alloc: Global,
        command: &Command,
        view: &V,
    ) -> Result<Reply, ViewFault> {
        answer(
            alloc,
            command.words.as_slice(),
            command.pairs.as_slice(),
            view,
        )
    }
}

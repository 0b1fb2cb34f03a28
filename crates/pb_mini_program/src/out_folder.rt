//! The folder in which the files of a reply are put.

ghost use Rattle.std.specs.Prelude.{◌≡◌, Ok, Some, IfOk, IfErr, IsTrue, ℕ, List, None, option_map, option_and_then};
ghost use Rattle.pb_mini.specs.Answer.{request_of};
ghost use Rattle.pb_mini.specs.CommandLine.{takes_value};
ghost use Rattle.pb_mini.specs.Lookups.{path_of};
ghost use Rattle.pb_mini.specs.declared.command_line.CommandLine.{CommandLine};
ghost use Rattle.pb_mini.specs.declared.request.Request.TheVariants.{Run, Compile};
ghost use Rattle.pb_mini_program.specs.OutFolder.{asks_run, out_dir_variable, waiting_after, first_out_dir};

use pb_data::Text;
use pb_place_types::{PathFault, PathText, View, ViewFault};
use std::alloc::{AllocError, Global};

/// An option that waits for its value.
#[derive(Clone, Copy, PartialEq, Eq)]
pub(crate) enum Waiting {
    /// The option for the output folder.
    Folder,
    /// Another option.
    Other,
}

/// Returns whether an argument is an option whose value is the next argument.
fn takes_value(word: &str) -> bool
    ensures { result ≡ takes_value word.now }
{
    word == "--crate-name"
        || word == "--crate-type"
        || word == "--out-dir"
        || word == "-C"
        || word == "--cfg"
        || word == "--check-cfg"
        || word == "--extern"
        || word == "-L"
        || word == "-l"
}

/// Returns the option in an argument, if the next argument is the value of this option.
fn waiting_after(word: &str) -> Option<Waiting>
    ensures { result ≡ waiting_after word.now }
{
    if word == "--out-dir" {
        return Some(Waiting::Folder);
    }
    if takes_value(word) {
        return Some(Waiting::Other);
    }
    None
}

/// Returns the first value of `--out-dir`.
fn out_dir_in(words: &[Text]) -> Option<&Text>
    ensures { option_map (λ text. text.now) result ≡ first_out_dir None words.now }
{
    let mut waiting = None;
    for word in words {
        waiting = match waiting {
            Some(Waiting::Folder) => return Some(word),
            Some(Waiting::Other) => None,
            None => waiting_after(word.as_str()),
        };
    }
    None
}

/// Returns the folder of a text, or none if the text is not an absolute path.
fn path_of(alloc: Global, text: &str) -> Result<Option<PathText>, AllocError>
    ensures { IfOk result (λ path. path ≡ path_of text.now) }
{
    match PathText::parse(alloc, text) {
        Ok(path) => Ok(Some(path)),
        Err(PathFault::OutOfMemory) => Err(AllocError),
        Err(_) => Ok(None),
    }
}

/// Returns the folder in the variable `OUT_DIR`, if the variable contains a folder.
///
/// Errors: those of the view.
fn out_dir_variable<V: View>(alloc: Global, view: &V) -> Result<Option<PathText>, ViewFault>
    ensures folder { IsTrue V.is_modelled
        → IfOk result (λ folder. folder ≡ out_dir_variable (V.shown view.now)) }
    ensures failed { IfErr result (λ e. e ≡ ViewFault.Failed → V.fails view.now) }
{
    match view.variable(alloc, "OUT_DIR")? {
        Some(text) => Ok(path_of(alloc, text.as_str())?),
        None => Ok(None),
    }
}

/// Returns the output folder of a compile: the first value of `--out-dir`.
fn out_dir_of(alloc: Global, words: &[Text]) -> Result<Option<PathText>, AllocError>
    ensures { IfOk result
        (λ folder. folder ≡ option_and_then path_of (first_out_dir None words.now)) }
{
    match out_dir_in(words) {
        Some(text) => path_of(alloc, text.as_str()),
        None => Ok(None),
    }
}

/// Returns whether arguments request the run of an image.
fn asks_run(words: &[Text]) -> bool
    ensures { result ≡ asks_run words.now }
{
    match words {
        [word, _] => word.as_str() == "--run",
        _ => false,
    }
}

/// Returns the folder in which the files of a reply are put, if there is such a folder. A compile's
/// folder is in the arguments. A run's folder is in `OUT_DIR`.
///
/// Errors: those of the view.
pub(crate) fn out_folder<V: View>(
    alloc: Global,
    words: &[Text],
    view: &V,
) -> Result<Option<PathText>, ViewFault>
    ensures compile { IfOk result (λ folder. (line : CommandLine)
        → request_of words.now ≡ Ok (Compile line) → folder ≡ Some line.out_dir) }
    ensures run { IsTrue V.is_modelled
        → IfOk result (λ folder. (path : List ℕ) → request_of words.now ≡ Ok (Run path)
        → folder ≡ out_dir_variable (V.shown view.now)) }
    ensures failed { IfErr result (λ e. e ≡ ViewFault.Failed → V.fails view.now) }
{
    if asks_run(words) {
        return out_dir_variable(alloc, view);
    }
    let folder = out_dir_of(alloc, words)?;
    Ok(folder)
}

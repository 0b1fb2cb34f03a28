//! What a command line requests, and the errors of a command line.

ghost use Rattle.std.specs.Prelude.{◌≡◌, ◌≢◌};
ghost use Rattle.clap.specs.Values.{kind_of};
ghost use Rattle.pb_tool_arguments.specs.Asking.{is_help, path_told, profiles_told, jobs_told, forms_told, command_told};
ghost use Rattle.pb_tool_arguments.specs.Private.{ToldWrong, TellsKind};
ghost use Rattle.pb_tool_arguments.specs.declared.invocation.ArgumentsError.TheVariants as unasked;
ghost use Rattle.pb_place_types.specs.declared.path.PathFault.TheVariants as path_fault;

use crate::unknown::reword;
use clap::Error;
use clap::error::ErrorKind;
use pb_data::Text;
use pb_place_types::{PathFault, PathText};
use pb_workspace_types::Options;
use std::alloc::{AllocError, Global};

/// What a command line requests.
#[derive(Drop)]
pub enum Invocation {
    /// The session of the file at this path.
    Session(PathText),
    /// A build, and what is shown of the build besides its message lines.
    Build { options: Options, shown: Shown },
    /// What a build of these options would start. Nothing is built.
    Preview(Options),
    /// What the name of a result line means.
    Explain(Text),
    /// The plan of a build of these options, in a form. Nothing is built.
    Plan { options: Options, form: PlanForm },
    /// The removal of what builds with these options made. If the options name packages, only what
    /// belongs to these packages is removed. If `one_profile` is true, only the profile of the
    /// options counts, else all profiles.
    Clean { options: Options, one_profile: bool },
}

/// The form in which a plan is printed.
#[derive(Clone, Copy, PartialEq, Eq)]
pub enum PlanForm {
    /// A line for each unit: the unit's key, and the keys of what the unit needs.
    Lines,
    /// One JSON list.
    Json,
    /// A graph for Graphviz.
    Dot,
}

/// What is shown of a build besides its message lines.
#[derive(Clone, Copy)]
pub struct Shown {
    /// Why each child was started.
    pub explain: bool,
    /// Diagnostics, and the warnings of scripts, as text.
    pub render: bool,
    /// The program and the arguments of each child, before the child is started.
    pub verbose: bool,
    /// Which unit begins, on one line; each new text overwrites the old one.
    pub progress: bool,
    /// At the end, how many units were built and kept, and how long the build took.
    pub counts: bool,
    /// Words such as `warning` at the start of a line of standard error, in colours.
    pub colors: bool,
}

/// Why a command line is not carried out: help was requested, the words are wrong, or memory ran
/// out.
#[derive(Drop)]
pub enum ArgumentsError {
    /// Help or the version was requested, or there were no words. The field is the text to print.
    Help(Text),
    /// The words are wrong. The field is the text that says what is wrong.
    Wrong(Text),
    /// Memory ran out.
    OutOfMemory,
}

impl From<AllocError> for ArgumentsError {
    ghost from_gives = { λ _ e. e ≡ unasked.OutOfMemory };

    fn from(_: AllocError) -> Self {
        ArgumentsError::OutOfMemory
    }
}

/// Returns whether `clap` reports a request for help or for the version. Such a request is not a
/// mistake.
fn is_help(kind: ErrorKind) -> bool
    ensures { result ≡ is_help kind }
{
    kind == ErrorKind::DisplayHelp
        || kind == ErrorKind::DisplayVersion
        || kind == ErrorKind::DisplayHelpOnMissingArgumentOrSubcommand
}

/// Returns what `clap` reports about the words of a command line. The text is for the output if
/// help was requested, and otherwise for standard error.
pub(crate) fn unasked_of(alloc: Global, error: &Error) -> ArgumentsError
    ensures { TellsKind (kind_of error.now) result }
{
    let kind = error.kind();
    if kind == ErrorKind::OutOfMemory {
        return ArgumentsError::OutOfMemory;
    }
    let Ok(text) = format!(in alloc; "{error}") else {
        return ArgumentsError::OutOfMemory;
    };
    if is_help(kind) {
        return ArgumentsError::Help(Text::new(text));
    }
    match reword(alloc, text) {
        Ok(text) => ArgumentsError::Wrong(Text::new(text)),
        Err(_) => ArgumentsError::OutOfMemory,
    }
}

/// Returns the text that says why the words are wrong.
fn wrong(alloc: Global, text: &str) -> ArgumentsError
    ensures { ToldWrong (λ told. told ≡ text.now) result }
{
    match Text::from_str(alloc, text) {
        Ok(text) => ArgumentsError::Wrong(text),
        Err(_) => ArgumentsError::OutOfMemory,
    }
}

/// Returns why a text of the command line is not a path.
pub(crate) fn bad_path(alloc: Global, fault: PathFault) -> ArgumentsError
    ensures { ToldWrong (λ told. (fault ≢ path_fault.OutOfMemory) × (told ≡ path_told)) result }
{
    if fault == PathFault::OutOfMemory {
        return ArgumentsError::OutOfMemory;
    }
    wrong(alloc, "error: a path contains byte 0\n")
}

/// Returns the error for words that name no subcommand.
pub(crate) fn no_command(alloc: Global) -> ArgumentsError
    ensures { ToldWrong (λ told. told ≡ command_told) result }
{
    wrong(
        alloc,
        "error: the command must be `build`, `plan`, `clean`, `session` or `explain`\n",
    )
}

/// Returns the error that two forms of a plan are requested.
pub(crate) fn two_forms(alloc: Global) -> ArgumentsError
    ensures { ToldWrong (λ told. told ≡ forms_told) result }
{
    wrong(
        alloc,
        "error: the argument '--json' cannot be used with '--dot'\n",
    )
}

/// Returns the error that two profiles are requested.
pub(crate) fn two_profiles(alloc: Global) -> ArgumentsError
    ensures { ToldWrong (λ told. told ≡ profiles_told) result }
{
    wrong(
        alloc,
        "error: the argument '--release' cannot be used with '--profile <NAME>'\n",
    )
}

/// Returns the error that `--jobs` is not a number.
pub(crate) fn bad_jobs(alloc: Global) -> ArgumentsError
    ensures { ToldWrong (λ told. told ≡ jobs_told) result }
{
    wrong(
        alloc,
        "error: the value of '--jobs <N>' must be `default` or a number of at most 18446744073709551615\n",
    )
}

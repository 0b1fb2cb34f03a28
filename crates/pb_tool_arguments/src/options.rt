//! The options of the commands, in the order of help.

use clap::ArgAction;

/// An option of a command, as the command line has it and help describes it.
pub(crate) struct Described {
    /// What follows two hyphens.
    pub(crate) name: &'static str,
    /// What follows one hyphen, if the option has a letter.
    pub(crate) short: Option<char>,
    /// What each use of the option does, if a use does more than store one value.
    pub(crate) action: Option<ArgAction>,
    /// What help calls the option's value; empty if the option takes no value.
    pub(crate) value: &'static [&'static str],
    /// The texts that the option's value may be, if only some texts are allowed.
    pub(crate) among: Option<&'static [&'static str]>,
    /// What the option is for.
    pub(crate) help: &'static str,
}

/// The options that choose which part of the workspace is built.
pub(crate) static SELECTION: [Described; 5] = [
    Described {
        name: "package",
        short: Some('p'),
        action: Some(ArgAction::Append),
        value: &["NAME"],
        among: None,
        help: "Build this member of the workspace",
    },
    Described {
        name: "workspace",
        short: None,
        action: Some(ArgAction::SetTrue),
        value: &[],
        among: None,
        help: "Build all members of the workspace",
    },
    Described {
        name: "lib",
        short: None,
        action: Some(ArgAction::SetTrue),
        value: &[],
        among: None,
        help: "Build the libraries of the selected packages",
    },
    Described {
        name: "bins",
        short: None,
        action: Some(ArgAction::SetTrue),
        value: &[],
        among: None,
        help: "Build all binaries of the selected packages",
    },
    Described {
        name: "bin",
        short: None,
        action: Some(ArgAction::Append),
        value: &["NAME"],
        among: None,
        help: "Build the binaries of this name in the selected packages",
    },
];

/// The options for which features are on, and how the workspace is compiled.
pub(crate) static FEATURES: [Described; 5] = [
    Described {
        name: "features",
        short: Some('F'),
        action: Some(ArgAction::Append),
        value: &["FEATURES"],
        among: None,
        help: "Features to turn on, with commas or spaces between them",
    },
    Described {
        name: "all-features",
        short: None,
        action: Some(ArgAction::SetTrue),
        value: &[],
        among: None,
        help: "Turn on all features of the selected packages",
    },
    Described {
        name: "no-default-features",
        short: None,
        action: Some(ArgAction::SetTrue),
        value: &[],
        among: None,
        help: "Turn off the feature `default` of the selected packages",
    },
    Described {
        name: "release",
        short: Some('r'),
        action: Some(ArgAction::SetTrue),
        value: &[],
        among: None,
        help: "Build under the profile `release`",
    },
    Described {
        name: "profile",
        short: None,
        action: None,
        value: &["NAME"],
        among: None,
        help: "Build under this profile",
    },
];

/// The options for how many units are in flight at a time, and for what is shown besides the
/// messages.
pub(crate) static TELLING: [Described; 8] = [
    Described {
        name: "jobs",
        short: Some('j'),
        action: None,
        value: &["N"],
        among: None,
        help: "How many units may be built at the same time: a number (default 1), or `default` for the number of processors",
    },
    Described {
        name: "explain",
        short: None,
        action: Some(ArgAction::SetTrue),
        value: &[],
        among: None,
        help: "Say on standard error why each child was started",
    },
    Described {
        name: "dry-run",
        short: None,
        action: Some(ArgAction::SetTrue),
        value: &[],
        among: None,
        help: "Say on standard error which children would be started and why, and build nothing",
    },
    Described {
        name: "render",
        short: None,
        action: Some(ArgAction::SetTrue),
        value: &[],
        among: None,
        help: "Show diagnostics and the warnings of build scripts on standard error, as text",
    },
    Described {
        name: "verbose",
        short: Some('v'),
        action: Some(ArgAction::SetTrue),
        value: &[],
        among: None,
        help: "Say on standard error which children are started: each program and its arguments; with --explain, also show the values of all variables",
    },
    Described {
        name: "progress",
        short: None,
        action: Some(ArgAction::SetTrue),
        value: &[],
        among: None,
        help: "Show on standard error, on one line, which unit begins, even if standard error is not a terminal",
    },
    Described {
        name: "quiet",
        short: Some('q'),
        action: Some(ArgAction::SetTrue),
        value: &[],
        among: None,
        help: "Do not show the progress line, or the number of built units at the end",
    },
    Described {
        name: "color",
        short: None,
        action: None,
        value: &["WHEN"],
        among: Some(&["auto", "always", "never"]),
        help: "Whether words such as `warning` have colours on standard error (default auto)",
    },
];

/// The options for the manifest that a command reads, and for the target folder.
pub(crate) static PLACES: [Described; 2] = [
    Described {
        name: "manifest-path",
        short: None,
        action: None,
        value: &["PATH"],
        among: None,
        help: "The path of the root `Cargo.toml`",
    },
    Described {
        name: "target-dir",
        short: None,
        action: None,
        value: &["FOLDER"],
        among: None,
        help: "The target folder, which contains everything that builds make",
    },
];

/// The options for the form of messages, for children, and the options of cargo that have no effect
/// here.
pub(crate) static CHILDREN: [Described; 6] = [
    Described {
        name: "message-format",
        short: None,
        action: None,
        value: &["FORMAT"],
        among: Some(&["json"]),
        help: "How messages are printed: JSON lines",
    },
    Described {
        name: "runner",
        short: None,
        action: None,
        value: &["WORDS"],
        among: None,
        help: "A program that runs the build scripts, and its first arguments",
    },
    Described {
        name: "tool",
        short: None,
        action: None,
        value: &["TEXT"],
        among: None,
        help: "The value of `CARGO` for children (default: the name by which this program was called)",
    },
    Described {
        name: "locked",
        short: None,
        action: Some(ArgAction::SetTrue),
        value: &[],
        among: None,
        help: "No effect: there is no lock file",
    },
    Described {
        name: "offline",
        short: None,
        action: Some(ArgAction::SetTrue),
        value: &[],
        among: None,
        help: "No effect: nothing is downloaded",
    },
    Described {
        name: "frozen",
        short: None,
        action: Some(ArgAction::SetTrue),
        value: &[],
        among: None,
        help: "No effect: `--locked` and `--offline` together",
    },
];

/// The options for the form of a plan.
pub(crate) static FORMS: [Described; 2] = [
    Described {
        name: "json",
        short: None,
        action: Some(ArgAction::SetTrue),
        value: &[],
        among: None,
        help: "Print one JSON list",
    },
    Described {
        name: "dot",
        short: None,
        action: Some(ArgAction::SetTrue),
        value: &[],
        among: None,
        help: "Print a graph for Graphviz",
    },
];

/// The options that choose what is removed from a target folder.
pub(crate) static REMOVAL: [Described; 3] = [
    Described {
        name: "package",
        short: Some('p'),
        action: Some(ArgAction::Append),
        value: &["NAME"],
        among: None,
        help: "Remove what builds made of this package",
    },
    Described {
        name: "release",
        short: Some('r'),
        action: Some(ArgAction::SetTrue),
        value: &[],
        among: None,
        help: "Remove what builds made under the profile `release`",
    },
    Described {
        name: "profile",
        short: None,
        action: None,
        value: &["NAME"],
        among: None,
        help: "Remove what builds made under this profile",
    },
];

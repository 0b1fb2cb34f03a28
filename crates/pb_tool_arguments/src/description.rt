//! The words that the program accepts, as help describes them.

ghost use Rattle.std.specs.Prelude.{◌≡◌, IfOk, Some, None, false, List, length, map, option_map, IsOkAnd, true};
ghost use Rattle.clap.specs.Walk.{Rule, rule_of};
ghost use Rattle.clap.specs.Simple.{app_of, new_rule, shape_of, with_subcommand};
ghost use Rattle.clap.specs.declared.builder.value_parser.ValueParser.TheVariants.{Names};
ghost use Rattle.pb_tool_arguments.specs.Description.{with_rules, AreChoices, Choices, choosing, build, plan, clean, session, explain, program};
ghost use Rattle.pb_tool_arguments.specs.declared.options.Described.{Described};

use crate::options::{CHILDREN, Described, FEATURES, FORMS, PLACES, REMOVAL, SELECTION, TELLING};
use clap::{Arg, ArgAction, Command};
use pb_data::with_next;
use std::alloc::{AllocError, Global};

/// Returns an argument. If a letter is given, the argument also has this letter.
fn with_short<'a>(arg: Arg<'a>, short: Option<char>) -> Arg<'a>
    ensures rule { (rule_of arg.entry).short ≡ None → rule_of result
        ≡ record (rule_of arg.entry) { short = short } }
    ensures local { result.global ≡ arg.entry.global }
{
    match short {
        Some(short) => arg.short(short),
        None => arg,
    }
}

/// Returns an argument. If an action is given, each use of the argument does this action.
fn with_action<'a>(arg: Arg<'a>, action: Option<ArgAction>) -> Arg<'a>
    ensures rule { (rule_of arg.entry).action ≡ None → rule_of result
        ≡ record (rule_of arg.entry) { action = action } }
    ensures local { result.global ≡ arg.entry.global }
{
    match action {
        Some(action) => arg.action(action),
        None => arg,
    }
}

/// Returns an argument. If texts are given, the value of the argument must be one of them.
fn with_names<'a>(arg: Arg<'a>, among: Option<&'a [&'a str]>) -> Arg<'a>
    ensures rule { (rule_of arg.entry).parser ≡ None → rule_of result
        ≡ record (rule_of arg.entry) { parser = option_map Names among.entry } }
    ensures local { result.global ≡ arg.entry.global }
{
    match among {
        Some(names) => arg.value_parser(names),
        None => arg,
    }
}

/// Returns the argument for an option of a build.
fn arg_of<'a>(alloc: Global, option: &Described) -> Arg<'a>
    ensures rule { rule_of result ≡ record (new_rule option.now.name.now) {
      long = Some option.now.name.now;
      short = option.now.short;
      action = option.now.action;
      value_names = length option.now.value.now;
      parser = option_map Names option.now.among;
    } }
    ensures local { result.global ≡ false }
{
    let arg = Arg::new(alloc, option.name)
        .long(option.name)
        .value_names(option.value)
        .help(option.help);
    let arg = with_short(arg, option.short);
    let arg = with_action(arg, option.action);
    with_names(arg, option.among)
}

/// Returns a command with these options after the options that the command already has.
fn with_options<'a>(
    alloc: Global,
    command: Command<'a>,
    options: &[Described],
) -> Result<Command<'a>, AllocError>
    ensures { IfOk result (λ new. (rules : List Rule)
        × (rules ≡ map (λ (option : Described). record (new_rule option.name.now) {
          long = Some option.name.now;
          short = option.short;
          action = option.action;
          value_names = length option.value.now;
          parser = option_map Names option.among;
        }) options.now) × (app_of new ≡ with_rules rules (app_of command.entry))) }
{
    let mut command = command;
    for option in options {
        command = command.arg(arg_of(alloc, option))?;
    }
    Ok(command)
}

/// Returns the command `pb_tool session FILE`.
fn session_command<'a>(alloc: Global) -> Result<Command<'a>, AllocError>
    ensures { IfOk result (λ command. app_of command ≡ session) }
{
    let file = Arg::new(alloc, "FILE")
        .required(true)
        .help("A session file: a JSON list of steps");
    let command = Command::new(alloc, "session").about(
        "Runs a session in memory and prints its message lines and results",
    );
    command.arg(file)
}

/// Returns the command `pb_tool explain NAME`.
fn explain_command<'a>(alloc: Global) -> Result<Command<'a>, AllocError>
    ensures { IfOk result (λ command. app_of command ≡ explain) }
{
    let name = Arg::new(alloc, "NAME").required(true).help(
        "A name at the end of a line `error: ..`, such as `BadKind`",
    );
    let command = Command::new(alloc, "explain").about(
        "Prints what the name of an error means, and what to do",
    );
    command.arg(name)
}

/// Returns a command with the options that choose what is built, and how.
fn with_choice<'a>(alloc: Global, command: Command<'a>) -> Result<Command<'a>, AllocError>
    ensures { IfOk result (λ new. app_of new ≡ choosing (app_of command.entry)) }
{
    let command = with_options(alloc, command, &SELECTION)?;
    with_options(alloc, command, &FEATURES)
}

/// The text below the options of a build: the variables that a build reads, the statuses, and an
/// example.
const BELOW_THE_OPTIONS: &str = "Variables:
  RUSTC             The compiler (default rustc)
  RUSTFLAGS         Arguments for each call of the compiler, with spaces between them
  CARGO_TARGET_DIR  The target folder, if no option names it

Status:
  0    All units are good
  101  The build failed or was refused: a line on standard error says why
  1    The command line is bad

Example:
  pb_tool build -p almanac --release --jobs 4 --explain";

/// Returns the command `pb_tool build`.
fn build_command<'a>(alloc: Global) -> Result<Command<'a>, AllocError>
    ensures { IfOk result (λ command. (choices : Choices) × AreChoices choices
        × (app_of command ≡ build choices)) }
{
    let command = Command::new(alloc, "build")
        .about("Builds a workspace of path packages and prints message lines in JSON")
        .after_help(BELOW_THE_OPTIONS);
    let command = with_choice(alloc, command)?;
    let command = with_options(alloc, command, &TELLING)?;
    let command = with_options(alloc, command, &PLACES)?;
    with_options(alloc, command, &CHILDREN)
}

/// The text below the options of a plan: the statuses, and an example.
const BELOW_THE_PLAN: &str = "Status:
  0    The plan is printed
  101  There is no plan: a line on standard error says why
  1    The command line is bad

Example:
  pb_tool plan --workspace --dot | dot -Tsvg > plan.svg";

/// Returns the command `pb_tool plan`.
fn plan_command<'a>(alloc: Global) -> Result<Command<'a>, AllocError>
    ensures { IfOk result (λ command. app_of command ≡ plan) }
{
    let command = Command::new(alloc, "plan")
        .about("Prints the units of a build and what each unit needs, and builds nothing")
        .after_help(BELOW_THE_PLAN);
    let command = with_choice(alloc, command)?;
    let command = with_options(alloc, command, &PLACES)?;
    with_options(alloc, command, &FORMS)
}

/// The text below the options of a removal: what is removed, the statuses, and an example.
const BELOW_THE_REMOVAL: &str = "Only records and the folders of units are removed.

Status:
  0    The records and folders are removed
  101  There is nothing to remove, or a removal failed: a line on standard error says why
  1    The command line is bad

Example:
  pb_tool clean -p almanac --release";

/// Returns the command `pb_tool clean`.
fn clean_command<'a>(alloc: Global) -> Result<Command<'a>, AllocError>
    ensures { IfOk result (λ command. app_of command ≡ clean) }
{
    let command = Command::new(alloc, "clean")
        .about("Removes what builds have made in the target folder")
        .after_help(BELOW_THE_REMOVAL);
    let command = with_options(alloc, command, &REMOVAL)?;
    with_options(alloc, command, &PLACES)
}

/// Returns a command with one more subcommand, if there is memory for it.
fn with_subcommand<'a>(
    command: Command<'a>,
    below: Result<Command<'a>, AllocError>,
) -> Result<Command<'a>, AllocError>
    ensures { IfOk result (λ new. IsOkAnd below.entry (λ below.
        (shape_of below).is_plain ≡ true → app_of new
        ≡ with_subcommand (app_of command.entry) (shape_of below))) }
{
    let (command, below) = with_next(command, below)?;
    command.subcommand(below)
}

/// The version of the program.
const VERSION: &str = "0.1.0";

/// Returns the whole command line.
pub(crate) fn program<'a>(alloc: Global) -> Result<Command<'a>, AllocError>
    ensures { IfOk result (λ command. (choices : Choices) × AreChoices choices
        × (app_of command ≡ program choices)) }
{
    let command = Command::new(alloc, "pb_tool")
        .about("Builds workspaces of path packages")
        .version(VERSION)
        .arg_required_else_help(true)
        .subcommand_required(true);
    let command = with_subcommand(command, build_command(alloc))?;
    let command = with_subcommand(command, plan_command(alloc))?;
    let command = with_subcommand(command, clean_command(alloc))?;
    let command = with_subcommand(command, session_command(alloc))?;
    with_subcommand(command, explain_command(alloc))
}

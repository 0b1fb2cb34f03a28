//! Laws of commands, stated independently of the code: what the arguments of a compile say, and the
//! value of each variable (The Cargo Book, cargo build, Build Scripts, Environment Variables).
#![tactic(auto)]

ghost use Rattle.pb_command_laws.specs.Compiles.{CompilesSay};
ghost use Rattle.pb_command_laws.specs.Judged.{AnswersSay};
ghost use Rattle.pb_command_laws.specs.OfPlans.{CompilesOfPlans, RunsOfPlans};
ghost use Rattle.pb_command_laws.specs.Planned.{LibrariesAreWanted, CompilesHearRuns, RunsStartScripts};
ghost use Rattle.pb_command_laws.specs.Reading.{SayingsKeepWords};
ghost use Rattle.pb_command_laws.specs.Starts.{CompilesStart, RunsStart};
ghost use Rattle.pb_command_laws.specs.Texts.{InfosAreRead, LinesAreTrimmed, OutputsAreRead};
ghost use Rattle.pb_command_laws.specs.Variables.{CompilesHave, RunsHave};

/// A law: the arguments of a compile, as the compiler's own option grammar reads them. The
/// arguments list the crate, settings, conditions, folders and libraries of the compile, and then
/// what the user's flags request.
pub fn compiles_say()
    ensures { CompilesSay }
{}

/// A law: if arguments are read by the compiler's option grammar, the same arguments can be made
/// from the result. So no argument is skipped.
pub fn sayings_keep_words()
    ensures { SayingsKeepWords }
{}

/// A law: a compile has the variables that the definition lists. Each variable has the listed
/// value, unless the run of the compile's own package has set the variable. Apart from these
/// variables, a compile has only variables that this run has set.
pub fn compiles_have()
    ensures { CompilesHave }
{}

/// A law: a run has the variables that the definition lists, each with the listed value, and no
/// other variables.
pub fn runs_have()
    ensures { RunsHave }
{}

/// A law: a compile starts the compiler in the workspace's root. A run starts its script in its
/// package's folder, after the runner if there is one. Each child writes into its unit's folder. In
/// the target folder, each child may read the folders of the units that its unit reaches.
pub fn commands_start()
    ensures compiles { CompilesStart }
    ensures runs { RunsStart }
{}

/// A law about a plan. A compile gets the libraries to which its enabled entries lead, and a binary
/// also gets its own library. A library or a binary gets the directives of the run of its package
/// on its side. A run starts the script of its package on its side.
pub fn commands_follow_plans()
    ensures libraries { LibrariesAreWanted }
    ensures heard { CompilesHearRuns }
    ensures scripts { RunsStartScripts }
{}

/// This law applies all other laws to the command of a unit in a plan. The law says what the
/// command starts, which variables, arguments and libraries it has, and from which run it gets
/// directives, if any.
pub fn commands_of_plans()
    ensures compiles { CompilesOfPlans }
    ensures runs { RunsOfPlans }
{}

/// This law says how the answer of a unit's child is judged, case by case, and which inputs the
/// answer reports.
pub fn answers_say()
    ensures { AnswersSay }
{}

/// A law: a whole text, the output of a script or dep-info, is read line by line. The result is
/// what the lines say, in order. If a line cannot be read, the result is the problem of the first
/// such line, with the line's number. The law also defines a line without its blanks.
pub fn texts_are_read()
    ensures outputs { OutputsAreRead }
    ensures infos { InfosAreRead }
    ensures trimmed { LinesAreTrimmed }
{}

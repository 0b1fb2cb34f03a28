//! Laws of the small compiler. As a child, the small compiler is honest on the commands of units.
//! So the headline is true for a build with this child, and nothing is assumed about the child.
#![tactic(auto)]

ghost use Rattle.pb_directive.specs.declared.dep_info.DepInfo.{DepInfo};
ghost use Rattle.pb_mini.specs.declared.dep_info.Names.{Names};
ghost use Rattle.pb_mini_laws.specs.Honest.{SmallCompilerIsHonest};
ghost use Rattle.pb_mini_laws.specs.Laws.{SmallBuildsAreHonest, SmallBuildsGive, SmallSessionsGive, SessionFilesGive};
ghost use Rattle.pb_mini_laws.specs.ReadBack.{ReadsBack};
ghost use Rattle.std.specs.Prelude.{ℕ, List};

use pb_run_flight::Turn;

/// A law: if dep-info of the small compiler is read without a fault, the names include all paths
/// and variables that were written. The law has three conditions. The output is an absolute path of
/// one line. A path or a variable's name is one line and does not end with `\` or a carriage
/// return. A variable's name contains no `=`.
pub fn names_are_read_back()
    ensures { (output : List ℕ) (names : Names) (info : DepInfo) → ReadsBack output names info }
{}

/// A law: the small compiler is honest on the command of each unit of a project, whatever earlier
/// scripts have printed. If a reply is good, the small compiler returns the same reply in every
/// world in which these are the same:
///
/// - the values of the inputs that the builder finds in the reply;
/// - the contents of the folders that the command may read.
///
/// The law has these conditions. The project was read and planned: it is settled, has its plan, and
/// has normalised absolute paths. The user's flags name no libraries, and the small compiler runs
/// the scripts. The dep-info can express the names of what is read. Each name is one line, is not
/// empty, and ends with a byte that is read back as it was written.
pub fn small_compiler_is_honest()
    ensures { SmallCompilerIsHonest }
{}

/// A law: the small compiler is an honest child of each build that satisfies these conditions. The
/// manifest and the files of the sources have normalised absolute paths. `RUSTFLAGS` contains no
/// `--extern`, and the runner is a name and then `--run`. For everything that a unit reads, the
/// small compiler can report the name on one line.
pub fn small_builds_are_honest()
    ensures { SmallBuildsAreHonest }
{}

/// A law about a build over true records whose child is the small compiler. The build satisfies the
/// conditions of `small_builds_are_honest`. Whichever turn the build uses, and however it ends, it
/// produces what a clean build of the present workspace produces. Afterwards the records are true.
pub fn small_builds_give<T: Turn>()
    ensures { SmallBuildsGive T.turns }
{}

/// A law about a build of a session with the small compiler. Suppose that only edits and builds
/// came before this build. The edits were outside of the folder of this build's records, and the
/// earlier builds were as in `small_builds_give`. Then the build produces what a clean build of the
/// present workspace produces. If a fault ends the build, only a prefix of the clean build's lines
/// has been written.
///
/// If a session file begins without files, the same is true of each of its builds under fewer
/// conditions:
///
/// - Any two target folders are the same, or neither is inside the other.
/// - Each edit stays out of these folders, or removes a whole folder.
/// - The name of a profile has the letters of package names.
/// - `RUSTFLAGS` contains no `--extern`, and the small compiler can report what it reads.
///
/// The form of a session file ensures the other conditions.
pub fn small_sessions_give()
    ensures records { SmallSessionsGive }
    ensures files { SessionFilesGive }
{}

//! The command of a unit, and the query of a compiler's version.

ghost use Rattle.std.specs.Prelude.{◌≡◌, ◌++◌, IfOk, OnOk, option_map, Some};
ghost use Rattle.pb_command_types.specs.Targets.{script_source};
ghost use Rattle.pb_command_arguments.specs.Externs.{reads_of};
ghost use Rattle.pb_command_environment.specs.Pairs.{pairs_of};
ghost use Rattle.pb_command.specs.Command.{query_of, crate_part, asked_part, words_of, compile_of, script_path, run_program, run_words, run_of, command_by, nothing_of, command_of};

use pb_command_arguments::{
    push_copies, push_crate, push_features, push_libraries, push_output, push_said, push_settings,
    push_word, reads_of,
};
use pb_command_environment::pairs_of;
use pb_command_types::{Done, Project, Setup, package_of, script_file};
use pb_data::{Bytes, Items, Text, TryCopy, with_next};
use pb_place_types::{Command, PathText};
use pb_unit::{Planned, What};
use pb_workspace_types::{Package, Workspace};
use std::alloc::{AllocError, Global};

/// Returns the query of a compiler's version, `-vV`. The query starts in the workspace's root, sets
/// no variables, and reads and writes nothing in the target folder.
///
/// Errors: out of memory.
pub fn query(alloc: Global, rustc: &Text, workspace: &Workspace) -> Result<Command, AllocError>
    ensures { IfOk result (λ command. command
        ≡ query_of rustc.now workspace.now.root workspace.now.target) }
{
    let mut words = Items::new(alloc);
    push_word(alloc, &mut words, "-vV")?;
    Ok(Command {
        program: rustc.copy(alloc)?,
        words,
        folder: workspace.root.copy(alloc)?,
        pairs: Items::new(alloc),
        out: None,
        target: workspace.target.copy(alloc)?,
        toolchain: Bytes::new(Vec::new(alloc)),
        reads: Items::new(alloc),
    })
}

/// Adds the arguments that say what is compiled and how.
fn push_crate_part(
    alloc: Global,
    words: &mut Items<Text>,
    project: &Project,
    unit: &Planned,
    owner: &Package,
) -> Result<(), AllocError>
    ensures { OnOk result (words.new ≡ words.old ++ crate_part project.now unit.now owner.now) }
{
    push_crate(alloc, words, project, unit, owner)?;
    push_output(alloc, words, unit, owner)?;
    push_settings(alloc, words, &unit.unit.what, &unit.settings)?;
    push_features(alloc, words, project, unit, owner)?;
    Ok(())
}

/// Adds the arguments for what is linked, and for what scripts and the user request.
fn push_asked_part(
    alloc: Global,
    words: &mut Items<Text>,
    setup: &Setup,
    project: &Project,
    unit: &Planned,
    done: Done<'_>,
    owner: &Package,
) -> Result<(), AllocError>
    ensures { OnOk result (words.new ≡ words.old
        ++ asked_part setup.now project.now unit.now done.now owner.now) }
{
    push_libraries(alloc, words, project, unit, owner)?;
    push_said(alloc, words, project, unit, done, owner)?;
    push_copies(alloc, words, setup.flags.as_slice())?;
    Ok(())
}

/// Returns the arguments of a compile.
fn words_of(
    alloc: Global,
    setup: &Setup,
    project: &Project,
    unit: &Planned,
    done: Done<'_>,
    owner: &Package,
) -> Result<Items<Text>, AllocError>
    ensures { IfOk result (λ words. words
        ≡ words_of setup.now project.now unit.now done.now owner.now) }
{
    let mut words = Items::new(alloc);
    push_crate_part(alloc, &mut words, project, unit, owner)?;
    push_asked_part(alloc, &mut words, setup, project, unit, done, owner)?;
    Ok(words)
}

/// The program, arguments, folder and variables with which a unit's child is started.
#[derive(Drop)]
struct Asking {
    program: Text,
    words: Items<Text>,
    folder: PathText,
    pairs: Items<(Text, Text)>,
}

/// The folder into which a unit's child writes, the folders that the child may read, the target
/// folder, and the compiler's version.
#[derive(Drop)]
struct Surroundings {
    out: PathText,
    target: PathText,
    toolchain: Bytes,
    reads: Items<PathText>,
}

/// Returns the folder into which a unit's child writes, the folders that the child may read, the
/// target folder, and the compiler's version.
fn surroundings_of(
    alloc: Global,
    setup: &Setup,
    project: &Project,
    unit: &Planned,
) -> Result<Surroundings, AllocError>
    ensures { IfOk result (λ s. s ≡ record {
      out = unit.now.out;
      target = project.now.workspace.target;
      toolchain = setup.now.toolchain;
      reads = reads_of project.now unit.now;
    }) }
{
    let out = unit.out.copy(alloc)?;
    let target = project.workspace.target.copy(alloc)?;
    let toolchain = setup.toolchain.copy(alloc)?;
    let reads = reads_of(alloc, project, unit)?;
    Ok(Surroundings {
        out,
        target,
        toolchain,
        reads,
    })
}

/// Returns a command, made of its two parts.
fn command_of_parts(asking: Asking, surroundings: Surroundings) -> Command
    ensures { result ≡ record {
      program = asking.program;
      words = asking.words;
      folder = asking.folder;
      pairs = asking.pairs;
      out = Some surroundings.out;
      target = surroundings.target;
      toolchain = surroundings.toolchain;
      reads = surroundings.reads;
    } }
{
    Command {
        program: asking.program,
        words: asking.words,
        folder: asking.folder,
        pairs: asking.pairs,
        out: Some(surroundings.out),
        target: surroundings.target,
        toolchain: surroundings.toolchain,
        reads: surroundings.reads,
    }
}

/// Returns the program, arguments, folder and variables of a compile.
fn compile_asking(
    alloc: Global,
    setup: &Setup,
    project: &Project,
    unit: &Planned,
    done: Done<'_>,
    owner: &Package,
) -> Result<Asking, AllocError>
    ensures { IfOk result (λ asking. asking ≡ record {
      program = setup.now.rustc;
      words = words_of setup.now project.now unit.now done.now owner.now;
      folder = project.now.workspace.root;
      pairs = pairs_of setup.now project.now unit.now done.now owner.now;
    }) }
{
    let program = setup.rustc.copy(alloc)?;
    let folder = project.workspace.root.copy(alloc)?;
    let words = words_of(alloc, setup, project, unit, done, owner)?;
    let pairs = pairs_of(alloc, setup, project, unit, done, owner)?;
    Ok(Asking {
        program,
        words,
        folder,
        pairs,
    })
}

/// Returns the command of a compile.
fn compile_of(
    alloc: Global,
    setup: &Setup,
    project: &Project,
    unit: &Planned,
    done: Done<'_>,
    owner: &Package,
) -> Result<Command, AllocError>
    ensures { IfOk result (λ command. command
        ≡ compile_of setup.now project.now unit.now done.now owner.now) }
{
    let asking = compile_asking(alloc, setup, project, unit, done, owner)?;
    let surroundings = surroundings_of(alloc, setup, project, unit);
    let (asking, surroundings) = with_next(asking, surroundings)?;
    Ok(command_of_parts(asking, surroundings))
}

/// Returns the path of the script that a run starts, or an empty path if there is no script.
fn script_path(alloc: Global, project: &Project, unit: &Planned) -> Result<Text, AllocError>
    ensures { IfOk result (λ path. path ≡ script_path project.now unit.now) }
{
    match script_file(alloc, project, unit)? {
        Some(path) => Ok(path.into_text()),
        None => Text::from_str(alloc, ""),
    }
}

/// Returns the program that starts a script: the runner, or the script itself.
fn run_program(alloc: Global, runner: &[Text], script: &Text) -> Result<Text, AllocError>
    ensures { IfOk result (λ program. program ≡ run_program runner.now script.now) }
{
    match runner {
        [] => script.copy(alloc),
        [program, ..] => program.copy(alloc),
    }
}

/// Returns the arguments of the program that starts a script: the runner's own arguments and the
/// script's path.
fn run_words(alloc: Global, runner: &[Text], script: &Text) -> Result<Items<Text>, AllocError>
    ensures { IfOk result (λ words. words ≡ run_words runner.now script.now) }
{
    let mut words = Items::new(alloc);
    match runner {
        [] => {}
        [_, rest @ ..] => {
            push_copies(alloc, &mut words, rest)?;
            push_word(alloc, &mut words, script.as_str())?;
        }
    }
    Ok(words)
}

/// Returns the program, arguments, folder and variables of a script's run.
fn run_asking(
    alloc: Global,
    setup: &Setup,
    project: &Project,
    unit: &Planned,
    done: Done<'_>,
    owner: &Package,
    script: &Text,
) -> Result<Asking, AllocError>
    ensures { IfOk result (λ asking. asking ≡ record {
      program = run_program setup.now.runner script.now;
      words = run_words setup.now.runner script.now;
      folder = owner.now.folder;
      pairs = pairs_of setup.now project.now unit.now done.now owner.now;
    }) }
{
    let program = run_program(alloc, setup.runner.as_slice(), script)?;
    let words = run_words(alloc, setup.runner.as_slice(), script)?;
    let folder = owner.folder.copy(alloc)?;
    let pairs = pairs_of(alloc, setup, project, unit, done, owner)?;
    Ok(Asking {
        program,
        words,
        folder,
        pairs,
    })
}

/// Returns the command of a script's run.
fn run_of(
    alloc: Global,
    setup: &Setup,
    project: &Project,
    unit: &Planned,
    done: Done<'_>,
    owner: &Package,
) -> Result<Command, AllocError>
    ensures { IfOk result (λ command. command
        ≡ run_of setup.now project.now unit.now done.now owner.now) }
{
    let script = script_path(alloc, project, unit)?;
    let asking = run_asking(alloc, setup, project, unit, done, owner, &script)?;
    let surroundings = surroundings_of(alloc, setup, project, unit);
    let (asking, surroundings) = with_next(asking, surroundings)?;
    Ok(command_of_parts(asking, surroundings))
}

/// Returns the command of a unit of a package. What the unit makes determines the command.
fn command_by(
    alloc: Global,
    setup: &Setup,
    project: &Project,
    unit: &Planned,
    done: Done<'_>,
    owner: &Package,
) -> Result<Command, AllocError>
    ensures { IfOk result (λ command. command
        ≡ command_by unit.now.unit.what setup.now project.now unit.now done.now owner.now) }
{
    match &unit.unit.what {
        What::Run => run_of(alloc, setup, project, unit, done, owner),
        _ => compile_of(alloc, setup, project, unit, done, owner),
    }
}

/// Returns a placeholder for the command of a unit whose package does not exist.
fn nothing_of(alloc: Global, setup: &Setup, project: &Project) -> Result<Command, AllocError>
    ensures { IfOk result (λ command. command ≡ nothing_of setup.now project.now) }
{
    let program = setup.rustc.copy(alloc)?;
    let folder = project.workspace.root.copy(alloc)?;
    let target = project.workspace.target.copy(alloc)?;
    let toolchain = setup.toolchain.copy(alloc)?;
    Ok(Command {
        program,
        words: Items::new(alloc),
        folder,
        pairs: Items::new(alloc),
        out: None,
        target,
        toolchain,
        reads: Items::new(alloc),
    })
}

/// Returns the command of a unit of the plan. `done` contains the directives of earlier runs, by
/// the index of each run in the plan. At the index of a compile, `done` contains no directives. An
/// index past the end of `done` counts as an index without directives.
///
/// A compile starts the compiler in the workspace's root. The arguments of a compile are, in this
/// order:
///
/// - the crate's name, edition and source;
/// - the crate's types and output;
/// - its settings;
/// - the features that are on, and the features that exist;
/// - the folders of the libraries that the unit reaches;
/// - the libraries, under the names that the source uses;
/// - what build scripts have requested, and the user's flags.
///
/// A run starts the build script in its package's folder, after the runner if there is one. The
/// variables are those of The Cargo Book, Environment Variables, and those that the package's
/// script has set. If a variable is in both groups, the script's value counts. The child may read
/// the folders of all units that its unit reaches.
///
/// Errors: out of memory.
pub fn command(
    alloc: Global,
    setup: &Setup,
    project: &Project,
    unit: &Planned,
    done: Done<'_>,
) -> Result<Command, AllocError>
    ensures { IfOk result (λ command. command
        ≡ command_of setup.now project.now unit.now done.now) }
{
    match package_of(project, unit) {
        Some(owner) => command_by(alloc, setup, project, unit, done, owner),
        None => nothing_of(alloc, setup, project),
    }
}

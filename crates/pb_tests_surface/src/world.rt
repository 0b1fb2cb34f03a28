//! Workspaces in memory, and the options of their builds.

ghost use Rattle.std.specs.Prelude.{◌≡◌};

use pb_build::plan_build;
use pb_command::{Project, Setup, command};
use pb_data::{Bytes, Items, Text};
use pb_mini::Mini;
use pb_place::{Command, Memory, PathFault, PathText};
use pb_run::OrderedProject;
use pb_unit::Planned;
use pb_workspace::Options;
use std::alloc::{AllocError, Global};
use std::test::Fail;

/// A library `a`, which warns and uses the library `b`. The script of `b` passes metadata on.
pub const FILES: &str = "@ /w/Cargo.toml
workspace.members = ['a', 'b']
profile.release.package.b.opt-level = 1
@ /w/a/Cargo.toml
package.name = 'a'
dependencies.b = { path = '../b', optional = true }
features = { default = ['b', 'f'], f = [], g = [] }
@ /w/a/src/lib.rs
use b
warn careful
@ /w/b/Cargo.toml
package = { name = 'b', links = 'z-y' }
@ /w/b/src/lib.rs
@ /w/b/build.rs
print cargo::metadata=k=v
";

/// Puts the files of a text, each after a line `@ PATH`.
pub fn put_files(alloc: Global, place: &mut Memory<Mini>, files: &str) -> Result<(), PathFault>
    ensures flying { place.new.flying ≡ place.old.flying }
{
    for file in files.split("@ ") {
        if let Some((path, text)) = file.split_once('\n') {
            let path = PathText::parse(alloc, path)?;
            place.put(alloc, &path, text.as_bytes())?;
        }
    }
    Ok(())
}

/// Returns the words of a text.
pub fn words_of(alloc: Global, text: &str) -> Result<Items<Text>, AllocError> {
    let mut words = Items::new(alloc);
    for word in text.split(' ') {
        words.push(Text::from_str(alloc, word)?)?;
    }
    Ok(words)
}

/// Returns the options of a build of the workspace in `/w` with the small compiler.
pub fn options(alloc: Global, jobs: u64) -> Result<Options, PathFault> {
    let manifest = PathText::parse(alloc, "/w/Cargo.toml")?;
    let profile = Text::from_str(alloc, "dev")?;
    let tool = Text::from_str(alloc, "tool")?;
    let runner = words_of(alloc, "mini --run")?;
    Ok(Options {
        manifest,
        packages: Items::new(alloc),
        workspace: false,
        features: Items::new(alloc),
        all_features: false,
        no_default_features: false,
        profile,
        lib: false,
        bins: false,
        bin: Items::new(alloc),
        target_dir: None,
        runner,
        tool,
        jobs,
    })
}

/// Returns how the units are compiled.
pub fn setup(alloc: Global) -> Result<Setup, AllocError> {
    let tool = Text::from_str(alloc, "tool")?;
    let rustc = Text::from_str(alloc, "rustc")?;
    let runner = words_of(alloc, "mini --run")?;
    let toolchain = Bytes::from_slice(alloc, b"host: h\n")?;
    Ok(Setup {
        tool,
        rustc,
        flags: Items::new(alloc),
        runner,
        toolchain,
    })
}

/// Returns the command of a unit, if no other unit has answered.
pub fn first_command(
    alloc: Global,
    project: &Project,
    unit: &Planned,
) -> Result<Command, AllocError> {
    let setup = setup(alloc)?;
    let command = command(alloc, &setup, project, unit, &[]);
    drop(setup);
    command
}

/// Puts files, and returns the project of the workspace in `/w`.
pub fn project_in(
    alloc: Global,
    place: &mut Memory<Mini>,
    files: &str,
) -> Result<OrderedProject, Fail> {
    put_files(alloc, place, files)?;
    let options = options(alloc, 1)?;
    let plan = plan_build(alloc, place, &options);
    drop(options);
    let plan = plan?;
    Ok(plan.project)
}

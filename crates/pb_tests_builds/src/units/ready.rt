//! What the tests run units with: the project of files in memory, and the store of its records.

ghost use Rattle.std.specs.Prelude.{◌≡◌, IfOk};
ghost use Rattle.pb_run.specs.Invariants.{records_folder};

use pb_build::plan_build;
use pb_command_types::Setup;
use pb_data::{Bytes, Items, Text};
use pb_directive::Directives;
use pb_mini::Mini;
use pb_place::Memory;
use pb_place_types::{PathText, RelativePath};
use pb_profile::folder_of;
use pb_run::OrderedProject;
use pb_store::Store;
use pb_tests_files::{Untold, no_options};
use std::alloc::{AllocError, Global};
use std::test::Fail;

/// What the units of a project have reported.
#[derive(Drop)]
pub struct Told {
    /// The directives of the runs among them, by index.
    pub done: Vec<Option<Directives>>,
    /// The message lines of the unit that answered last.
    pub lines: Text,
}

/// What the units of a project are run with.
#[derive(Drop)]
pub struct Bench {
    /// How things are compiled.
    pub setup: Setup,
    /// The records of the project's folder.
    pub store: Store,
    /// What the units have reported.
    pub told: Told,
}

/// Returns the project at `/w`, whose target folder is `/w/target`, or none if it is refused.
pub fn project_in(alloc: Global, place: &mut Memory<Mini>) -> Result<Option<OrderedProject>, Fail> {
    let options = no_options(alloc)?;
    match plan_build(alloc, place, &options) {
        Ok(plan) => Ok(Some(plan.project)),
        Err(_) => Ok(None),
    }
}

/// Returns the small compiler, as a runner.
fn runner(alloc: Global) -> Result<Items<Text>, AllocError> {
    let mut runner = Items::new(alloc);
    runner.push(Text::from_str(alloc, "mini")?)?;
    runner.push(Text::from_str(alloc, "--run")?)?;
    Ok(runner)
}

/// Returns how things are compiled at first.
fn setup_of(alloc: Global) -> Result<Setup, AllocError> {
    let runner = runner(alloc)?;
    let tool = Text::from_str(alloc, "tool")?;
    let rustc = Text::from_str(alloc, "rustc")?;
    let toolchain = Bytes::from_slice(alloc, b"host: h\n")?;
    Ok(Setup {
        tool,
        rustc,
        flags: Items::new(alloc),
        runner,
        toolchain,
    })
}

/// Opens the store of a project's records.
pub fn store_of(
    alloc: Global,
    place: &mut Untold<Mini>,
    project: &OrderedProject,
) -> Result<Store, Fail>
    ensures folder { IfOk result (λ store. store.folder ≡ records_folder project.now) }
{
    project.is_in_order();
    let project = project.get();
    let name = Text::from_str(alloc, folder_of(project.profile.as_str()))?;
    match RelativePath::of(name) {
        Some(name) => {
            let folder = project.workspace.target.below(alloc, &name)?;
            let store = Store::open(alloc, place, folder)?;
            Ok(store)
        }
        None => unreachable!(),
    }
}

/// Returns what the units of a project have reported at first: nothing.
fn nothing_told(alloc: Global, project: &OrderedProject) -> Result<Told, AllocError> {
    let mut done = Vec::new(alloc);
    for _ in project.units() {
        done.push(None)?;
    }
    Ok(Told {
        done,
        lines: Text::from_str(alloc, "")?,
    })
}

/// Returns what the units of a project are run with at first.
pub fn bench_of(
    alloc: Global,
    place: &mut Untold<Mini>,
    project: &OrderedProject,
) -> Result<Bench, Fail>
    ensures folder { IfOk result (λ bench. bench.store.folder ≡ records_folder project.now) }
{
    let setup = setup_of(alloc)?;
    let told = nothing_told(alloc, project)?;
    match store_of(alloc, place, project) {
        Ok(store) => Ok(Bench { setup, store, told }),
        Err(fault) => Err(fault),
    }
}

/// Puts a text as the file at a path.
pub fn put_file(
    alloc: Global,
    place: &mut Memory<Mini>,
    path: &str,
    text: &str,
) -> Result<(), Fail> {
    let path = PathText::parse(alloc, path)?;
    Ok(place.put(alloc, &path, text.as_bytes())?)
}

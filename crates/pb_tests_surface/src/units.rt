//! One unit: it runs, begins and answers, and a store compares it with its record.

ghost use Rattle.std.specs.Prelude.{◌≡◌, IfOk};
ghost use Rattle.pb_run.specs.Invariants.{records_folder};

use crate::world::{first_command, project_in, setup};
use pb_command::Setup;
use pb_data::{Text, TryCopy};
use pb_mini::Mini;
use pb_place::{Command, Memory, PathText, Place, RelativePath};
use pb_profile::folder_of;
use pb_run::{OrderedProject, Outcome, answer_unit, begin_unit, run_unit};
use pb_store::{Key, Store};
use std::alloc::{AllocError, Global};
use std::test::Fail;

/// A library.
const FILES: &str = "@ /w/Cargo.toml
package.name = 'a'
@ /w/src/lib.rs
env V
";

/// Returns the folder of a project's records.
fn folder(alloc: Global, project: &OrderedProject) -> Result<PathText, Fail>
    ensures { IfOk result (λ folder. folder ≡ records_folder project.now) }
{
    project.is_in_order();
    let project = project.get();
    let name = Text::from_str(alloc, folder_of(project.profile.as_str()))?;
    match RelativePath::of(name) {
        Some(name) => Ok(project.workspace.target.below(alloc, &name)?),
        None => unreachable!(),
    }
}

/// Runs the first unit of a plan, over a store that is opened first.
fn run_at_once<P: Place>(
    alloc: Global,
    place: &mut P,
    setup: &Setup,
    project: &OrderedProject,
) -> Result<Outcome, Fail> {
    let unit = project.units().get(0).ok_or("no unit")?;
    let folder = folder(alloc, project)?;
    let mut store = Store::open(alloc, place, folder)?;
    let outcome = run_unit(alloc, place, &mut store, setup, project, &[], 0, unit);
    drop(store);
    Ok(outcome?)
}

/// Begins the first unit of a plan, and answers it, over a store that is opened first.
fn run_in_steps<P: Place>(
    alloc: Global,
    place: &mut P,
    setup: &Setup,
    project: &OrderedProject,
) -> Result<Outcome, Fail> {
    let unit = project.units().get(0).ok_or("no unit")?;
    let folder = folder(alloc, project)?;
    let mut store = Store::open(alloc, place, folder)?;
    let outcome = match begin_unit(alloc, place, &mut store, setup, project, &[], 0, unit) {
        Ok(begun) => answer_unit(alloc, place, &mut store, project, 0, unit, begun),
        Err(fault) => Err(fault),
    };
    drop(store);
    Ok(outcome?)
}

/// Returns an outcome in words: why the child was started, whether the unit is good, and how many
/// lines it has.
fn outcome_text(alloc: Global, outcome: &Outcome) -> Result<String, AllocError> {
    let lines = outcome.lines.as_str().lines().count();
    let is_good = outcome.fault.is_none();
    match &outcome.difference {
        Some(difference) => format!(in alloc; "{difference}, good {is_good}, lines {lines}"),
        None => format!(in alloc;
            "started {}, good {is_good}, lines {lines}",
            outcome.started
        ),
    }
}

/// Runs the unit, and returns its outcome in words.
fn run_text(
    alloc: Global,
    place: &mut Memory<Mini>,
    project: &OrderedProject,
    is_in_steps: bool,
) -> Result<String, Fail> {
    let setup = setup(alloc)?;
    let outcome = if is_in_steps {
        run_in_steps(alloc, place, &setup, project)
    } else {
        run_at_once(alloc, place, &setup, project)
    };
    drop(setup);
    let outcome = outcome?;
    let text = outcome_text(alloc, &outcome);
    drop(outcome);
    Ok(text?)
}

/// Runs the unit at once, in two steps, and in two steps after a variable has changed. Returns the
/// outcomes in words.
fn run_texts(
    alloc: Global,
    place: &mut Memory<Mini>,
    project: &OrderedProject,
) -> Result<String, Fail> {
    let first = run_text(alloc, place, project, false)?;
    let again = run_text(alloc, place, project, true)?;
    place.set(alloc, "V", "v")?;
    let changed = run_text(alloc, place, project, true)?;
    Ok(format!(in alloc;
        "{}\n{}\n{}\n",
        first.as_str(),
        again.as_str(),
        changed.as_str()
    )?)
}

/// The outcomes of the runs.
const OUTCOMES: &str = "nothing is kept of it, good true, lines 1
started false, good true, lines 1
`V` has changed, good true, lines 1
";

/// Rules: `build.units`, `records.differs`.
#[test]
fn a_unit_runs_if_something_differs(rt: HostRuntime) -> Result<(), Fail> {
    let mut place = Memory::new(rt.alloc(), Mini);
    let project = project_in(rt.alloc(), &mut place, FILES)?;
    let texts = run_texts(rt.alloc(), &mut place, &project);
    drop(project);
    drop(place);
    assert_eq!(rt; texts?.as_str(), OUTCOMES);
    Ok(())
}

/// Returns the status that a unit's record replays, or what differs from the record.
fn status_or_difference<P: Place>(
    alloc: Global,
    place: &mut P,
    folder: PathText,
    key: &Key,
    command: &Command,
) -> Result<String, Fail> {
    let store = Store::open(alloc, place, folder)?;
    match store.differs(alloc, place, key, command)? {
        Some(difference) => Ok(format!(in alloc; "{difference}")?),
        None => {
            let ended = store.replay(alloc, place, key)?;
            Ok(format!(in alloc; "status {}", ended.status)?)
        }
    }
}

/// Drops a unit's record. Returns the run number that was next.
fn drop_record<P: Place>(
    alloc: Global,
    place: &mut P,
    folder: PathText,
    key: &Key,
) -> Result<u64, Fail> {
    let mut store = Store::open(alloc, place, folder)?;
    Ok(store.drop_record(alloc, place, key)?)
}

/// Compares a unit with its record, drops the record, and compares again. Returns what was found.
fn compare_without_record(
    alloc: Global,
    place: &mut Memory<Mini>,
    project: &OrderedProject,
    key: &Key,
    command: &Command,
) -> Result<String, Fail> {
    let before = status_or_difference(alloc, place, folder(alloc, project)?, key, command)?;
    let number = drop_record(alloc, place, folder(alloc, project)?, key)?;
    let after = status_or_difference(alloc, place, folder(alloc, project)?, key, command)?;
    Ok(format!(in alloc; "{}, {number}, {}", before.as_str(), after.as_str())?)
}

/// Runs the unit, and returns what is found as its record is dropped.
fn run_and_drop(
    alloc: Global,
    place: &mut Memory<Mini>,
    project: &OrderedProject,
) -> Result<String, Fail> {
    run_text(alloc, place, project, false)?;
    let unit = project.units().get(0).ok_or("no unit")?;
    let key = Key::parse(unit.key.copy(alloc)?).ok_or("no key")?;
    let command = first_command(alloc, project.get(), unit)?;
    let found = compare_without_record(alloc, place, project, &key, &command);
    drop(command);
    drop(key);
    found
}

/// Rules: `records.differs`, `records.numbers`.
#[test]
fn a_store_drops_a_record(rt: HostRuntime) -> Result<(), Fail> {
    let mut place = Memory::new(rt.alloc(), Mini);
    let project = project_in(rt.alloc(), &mut place, FILES)?;
    let found = run_and_drop(rt.alloc(), &mut place, &project);
    drop(project);
    drop(place);
    assert_eq!(rt; found?.as_str(), "status 0, 2, nothing is kept of it");
    Ok(())
}

//! The run of a unit, the beginning of a unit that is then dropped, and what they report in words.

ghost use Rattle.std.specs.Prelude.{◌≡◌, IfSome, Some, true, slice_get};
ghost use Rattle.pb_place_types.specs.Children.{is_flying};
ghost use Rattle.pb_place.specs.Memory.{counts_in};
ghost use Rattle.pb_run.specs.UnitSteps.{child_of};
ghost use Rattle.pb_run.specs.Invariants.{records_folder};

use crate::units::ready::{Bench, Told};
use pb_build_result::{BuildFault, Summary, result_line};
use pb_command_types::unit_at;
use pb_mini::Mini;
use pb_run::{Awaited, Begun, OrderedProject, Outcome, begin_unit, drop_unit, run_unit};
use pb_store::Difference;
use pb_tests_files::Untold;
use pb_unit::Planned;
use std::alloc::{AllocError, Global};

/// Returns a fault, in words.
fn tell_fault(alloc: Global, fault: BuildFault) -> Result<String, AllocError> {
    let answer: Result<Summary, BuildFault> = Err(fault);
    result_line(alloc, &answer)
}

/// Returns what differed, in words.
fn tell_difference(alloc: Global, difference: &Option<Difference>) -> Result<String, AllocError> {
    match difference {
        Some(difference) => format!(in alloc; "{difference}"),
        None => String::from_str(alloc, "same"),
    }
}

/// Returns what came of a unit, in words: what differed, and why a bad unit is bad.
fn tell_outcome(alloc: Global, outcome: &Outcome) -> Result<String, AllocError> {
    let mut said = tell_difference(alloc, &outcome.difference)?;
    if outcome.started != outcome.difference.is_some() {
        said.push_str(" (wrong)")?;
    }
    if let Some(bad) = &outcome.fault {
        let fault = format!(in alloc; ", but {}", bad.fault)?;
        said.push_str(fault.as_str())?;
    }
    Ok(said)
}

/// Notes what came of a unit, and reports it in words.
fn note(
    alloc: Global,
    told: &mut Told,
    index: usize,
    outcome: Outcome,
) -> Result<String, AllocError> {
    let said = tell_outcome(alloc, &outcome)?;
    told.lines = outcome.lines;
    if index < told.done.len() {
        told.done[index] = outcome.directives;
    }
    Ok(said)
}

/// Runs the unit at a place.
pub fn run(
    alloc: Global,
    place: &mut Untold<Mini>,
    project: &OrderedProject,
    bench: &mut Bench,
    index: usize,
) -> Result<String, AllocError>
    requires folder { bench.old.store.folder ≡ records_folder project.now }
    ensures folder { bench.new.store.folder ≡ records_folder project.now }
{
    let unit = match unit_at(project.get(), index) {
        Some(unit) => unit,
        None => return String::from_str(alloc, "no unit"),
    };
    let done = bench.told.done.as_slice();
    match run_unit(
        alloc,
        place,
        &mut bench.store,
        &bench.setup,
        project,
        done,
        index,
        unit,
    ) {
        Ok(outcome) => note(alloc, &mut bench.told, index, outcome),
        Err(fault) => tell_fault(alloc, fault),
    }
}

/// Returns whether the child of a unit that has begun is in flight, if the unit has a child.
fn is_aloft(place: &Untold<Mini>, begun: &Begun) -> bool
    ensures { result ≡ true → IfSome (child_of begun.now) (λ launched.
        is_flying launched.ticket (counts_in place.now.inside).starts.flying ≡ true) }
{
    match &begun.awaited {
        Awaited::Child(launched) => place.inside.flies(launched.ticket),
        Awaited::Record(_) => true,
    }
}

/// Drops a unit that has begun.
fn drop_begun(alloc: Global, place: &mut Untold<Mini>, begun: &Begun) {
    if is_aloft(place, begun) {
        drop_unit(alloc, place, begun);
    }
}

/// Begins a unit.
fn begin(
    alloc: Global,
    place: &mut Untold<Mini>,
    project: &OrderedProject,
    bench: &mut Bench,
    index: usize,
    unit: &Planned,
) -> Result<Begun, BuildFault>
    requires unit { slice_get project.now.plan.planned index ≡ Some unit.now }
    requires folder { bench.old.store.folder ≡ records_folder project.now }
    ensures folder { bench.new.store.folder ≡ records_folder project.now }
{
    let done = bench.told.done.as_slice();
    begin_unit(
        alloc,
        place,
        &mut bench.store,
        &bench.setup,
        project,
        done,
        index,
        unit,
    )
}

/// Begins the unit at a place, and drops it.
pub fn begin_and_drop(
    alloc: Global,
    place: &mut Untold<Mini>,
    project: &OrderedProject,
    bench: &mut Bench,
    index: usize,
) -> Result<String, AllocError>
    requires folder { bench.old.store.folder ≡ records_folder project.now }
    ensures folder { bench.new.store.folder ≡ records_folder project.now }
{
    let unit = match unit_at(project.get(), index) {
        Some(unit) => unit,
        None => return String::from_str(alloc, "no unit"),
    };
    match begin(alloc, place, project, bench, index, unit) {
        Ok(begun) => {
            drop_begun(alloc, place, &begun);
            tell_difference(alloc, &begun.difference)
        }
        Err(fault) => tell_fault(alloc, fault),
    }
}

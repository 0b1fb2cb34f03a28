//! Runs the units of a project: they begin and answer by the steps that a turn decides.

ghost use Rattle.std.specs.Prelude.{◌≡◌, [], ℕ, List, IfOk, IsTrue, length, map, true, None};
ghost use Rattle.pb_run_flight.specs.Table.{fresh, first_bad};
ghost use Rattle.pb_run.specs.Invariants.{records_folder};
ghost use Rattle.pb_store_soundness.specs.Records.{records};
ghost use Rattle.pb_store.specs.Folder.{HasNumbers};
ghost use Rattle.pb_build_turns.specs.Executor.{needs_of, moment};
ghost use Rattle.pb_build_turns.specs.Ends.{TurnsEnd, nothing_said};
ghost use Rattle.pb_build_turns.specs.Rows.{summary_by};

use crate::dropping::drain;
use crate::executor::UnitExecutor;
use crate::summing::summary_of;
use pb_build_result::{BadUnit, BuildFault, Summary};
use pb_command_types::Setup;
use pb_data::Items;
use pb_directive::Directives;
use pb_place_types::{Out, Place};
use pb_run::OrderedProject;
use pb_run_flight::{Flight, Turn, drive};
use pb_store::Store;
use pb_unit::Planned;
use std::alloc::{AllocError, Global};

/// Returns a copy of these indices.
fn copy_indices(alloc: Global, indices: &[usize]) -> Result<Items<usize>, AllocError>
    ensures { IfOk result (λ items. items ≡ indices.now) }
{
    let mut items = Items::new(alloc);
    for index in indices {
        items.push(*index)?;
    }
    Ok(items)
}

/// Returns what each unit needs.
fn needs_of(alloc: Global, units: &[Planned]) -> Result<Items<Items<usize>>, AllocError>
    ensures { IfOk result (λ needs. needs ≡ map (λ (u : Planned). u.needs) units.now) }
{
    let mut needs = Items::new(alloc);
    for unit in units {
        needs.push(copy_indices(alloc, unit.needs.as_slice())?)?;
    }
    Ok(needs)
}

/// Returns empty notes, one for each unit.
fn nothing_noted<T: Drop>(alloc: Global, units: &[Planned]) -> Result<Vec<Option<T>>, AllocError>
    ensures { IfOk result (λ noted. noted.items ≡ map (λ (u : Planned). None) units.now) }
{
    let mut noted = Vec::new(alloc);
    for _ in units {
        noted.push(None)?;
    }
    Ok(noted)
}

/// Returns a flight of a project's units in which no unit has begun.
fn flight_of(alloc: Global, project: &OrderedProject) -> Result<Flight<BadUnit>, AllocError>
    ensures { IfOk result (λ flight. flight ≡ fresh (needs_of project.now)) }
{
    let needs = needs_of(alloc, project.units())?;
    Flight::new(alloc, needs)
}

/// Returns the summary of an executor's units after they have ended, from the flight.
///
/// Errors: only out of memory.
fn sum_up(
    alloc: Global,
    crew: &UnitExecutor,
    flight: Flight<BadUnit>,
) -> Result<Summary, AllocError>
    requires long { length flight.states ≡ length crew.now.project.plan.planned }
    requires noted { length crew.now.done.items ≡ length crew.now.project.plan.planned }
    requires reasoned { length crew.now.reasons.items ≡ length crew.now.project.plan.planned }
    ensures { IfOk result
        (λ summary.
        summary
        ≡ summary_by crew.now.project.plan.planned flight.states crew.now.done.items
        crew.now.started.items crew.now.reasons.items (first_bad flight.states)) }
{
    let bad = flight.first_bad();
    let states = flight.into_states();
    summary_of(
        alloc,
        crew.project.units(),
        states,
        crew.done.as_slice(),
        crew.started.as_slice(),
        crew.reasons.as_slice(),
        bad,
    )
}

/// Runs the units of a project that is in order, by the steps that a turn decides. The run ends
/// when all units have answered, or when all units up to and including the first bad unit have
/// answered. Then the ends of the children in flight are awaited, in the order in which they began,
/// and their answers are dropped. After a fault the children are awaited, too, and no other call of
/// the place is made.
///
/// Errors:
///
/// - `Child` if a child cannot be spawned or does not answer.
/// - `Device` if a file, a folder or a variable cannot be read. Also `Device` if a record or a file
///   cannot be written or removed, or if no run number is left.
/// - `Sink` if the sink fails.
/// - `OutOfMemory`.
pub fn run_turns<P: Place, O: Out, T: Turn>(
    alloc: Global,
    place: &mut P,
    out: &mut O,
    setup: Setup,
    project: OrderedProject,
    store: Store,
    turn: &mut T,
) -> Result<Summary, BuildFault>
    requires folder { store.folder ≡ records_folder project }
    requires numbers { IsTrue P.is_modelled →
        HasNumbers (records (records_folder project) (P.at place.old).world) store.numbers }
    requires none { (P.at place.old).counts.starts.flying ≡ [] }
    ensures { TurnsEnd P.is_modelled P.child T.turns setup project store.next turn.old turn.new
        result
        (moment (P.at place.old) (O.heard out.old)) (moment (P.at place.new) (O.heard out.new)) }
{
    project.is_in_order();
    let mut flight = match flight_of(alloc, &project) {
        Ok(flight) => flight,
        Err(_) => {
            drop((setup, project, store));
            return Err(BuildFault::OutOfMemory);
        }
    };
    let done = match nothing_noted(alloc, project.units()) {
        Ok(done) => done,
        Err(_) => {
            drop((setup, project, store, flight));
            return Err(BuildFault::OutOfMemory);
        }
    };
    let reasons = match nothing_noted(alloc, project.units()) {
        Ok(reasons) => reasons,
        Err(_) => {
            drop((setup, project, store, flight, done));
            return Err(BuildFault::OutOfMemory);
        }
    };
    let mut crew = UnitExecutor {
        setup,
        project,
        store,
        done,
        running: Vec::new(alloc),
        started: Vec::new(alloc),
        reasons,
    };
    let driven = drive(alloc, &mut crew, place, out, &mut flight, turn);
    // No child may be in flight when the fault is returned.
    drain(alloc, &mut crew, place);
    match driven {
        Ok(()) => match sum_up(alloc, &crew, flight) {
            Ok(summary) => {
                drop(crew);
                Ok(summary)
            }
            Err(_) => {
                drop(crew);
                Err(BuildFault::OutOfMemory)
            }
        },
        Err(fault) => {
            drop((crew, flight));
            Err(fault)
        }
    }
}

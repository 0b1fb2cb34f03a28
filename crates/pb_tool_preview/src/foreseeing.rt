//! Finds the fates of all units of a prepared build, one after another.

ghost use Rattle.std.specs.Prelude.{◌≡◌, ◌++◌, List, [], ◌∷◌, Option, IfErr, IfOk, IsTrue, OnOk, Some, slice_get};
ghost use Rattle.pb_directive.specs.declared.directive.Directive.{Directive};
ghost use Rattle.pb_run.specs.Invariants.{records_folder};
ghost use Rattle.pb_store.specs.Folder.{HasNumbers};
ghost use Rattle.pb_store_soundness.specs.Records.{records};
ghost use Rattle.pb_tool_preview.specs.Foreseeing.{Foresees, IsFate, Looks, LooksAtSome};

use crate::comparing::compare_kept;
use crate::fate::Fate;
use crate::waiting::{first_unkept, waits_for};
use pb_build_result::BuildFault;
use pb_command_types::{Done, Setup};
use pb_data::Items;
use pb_directive::Directives;
use pb_place_types::Place;
use pb_run::OrderedProject;
use pb_store::Store;
use pb_unit::Planned;
use std::alloc::{AllocError, Global};

/// Returns the fate of the unit at an index of the plan, and the unit's directives. Both results
/// follow from the fates and the directives of the units before that unit.
fn fate_of<P: Place>(
    alloc: Global,
    place: &mut P,
    setup: &Setup,
    project: &OrderedProject,
    store: &Store,
    fates: &[Fate],
    done: Done<'_>,
    index: usize,
    unit: &Planned,
) -> Result<(Fate, Option<Directives>), BuildFault>
    requires unit { slice_get project.now.plan.planned index ≡ Some unit.now }
    requires folder { store.now.folder ≡ records_folder project.now }
    requires numbers { IsTrue P.is_modelled →
        HasNumbers (records (records_folder project.now) (P.at place.old).world)
        store.now.numbers }
    ensures fate { IsTrue P.is_modelled → IfOk result (λ seen. IsFate
        setup.now project.now (P.at place.old).world fates.now done.now unit.now
        seen.0 seen.1) }
    ensures quiet { Looks result (P.at place.old) (P.at place.new) }
    ensures fault { IfErr result (LooksAtSome project.now) }
{
    if let Some(first) = first_unkept(fates, unit.reaches.as_slice()) {
        return Ok((waits_for(fates, first), None));
    }
    match compare_kept(alloc, place, setup, project, store, done, index, unit) {
        Ok(seen) => Ok(seen),
        Err(fault) => Err(fault),
    }
}

/// Appends the fate and the directives of one more unit.
///
/// Errors: out of memory.
fn append(
    fates: &mut Vec<Fate>,
    done: &mut Vec<Option<Directives>>,
    seen: (Fate, Option<Directives>),
) -> Result<(), AllocError>
    ensures fates { OnOk result (fates.new.items ≡ fates.old.items ++ seen.0 ∷ []) }
    ensures done { OnOk result (done.new.items ≡ done.old.items ++ seen.1 ∷ []) }
{
    let (fate, said) = seen;
    fates.push(fate)?;
    done.push(said)?;
    Ok(())
}

/// Returns what a build would do with each unit of a prepared build, in plan order.
///
/// If all units that a unit reaches are kept, the unit is compared with its record, as a build
/// compares it. The function reads what this comparison reads. If nothing differs, the function
/// reads the unit's dep-info, too. No child is started, and nothing is changed.
///
/// Errors:
///
/// - `Device` with a unit's key, if a file, a folder or a variable cannot be read.
/// - `OutOfMemory`.
pub fn foresee<P: Place>(
    alloc: Global,
    place: &mut P,
    setup: &Setup,
    project: &OrderedProject,
    store: &Store,
) -> Result<Items<Fate>, BuildFault>
    requires folder { store.now.folder ≡ records_folder project.now }
    requires numbers { IsTrue P.is_modelled →
        HasNumbers (records (records_folder project.now) (P.at place.old).world)
        store.now.numbers }

    // Each fate is the one that the definition requires, for the records of this world.
    ensures fates { IsTrue P.is_modelled → IfOk result (λ fates.
        (done : List (Option (List Directive))) × Foresees setup.now project.now
        (P.at place.old).world project.now.plan.planned fates done) }

    // The function only looks. A call that failed is the last call, and the fault names one of the
    // units.
    ensures quiet { Looks result (P.at place.old) (P.at place.new) }
    ensures fault { IfErr result (LooksAtSome project.now) }
{
    let mut fates = Vec::new(alloc);
    let mut done = Vec::new(alloc);
    let units = project.units();
    for index in 0..units.len() {
        let seen = fate_of(
            alloc,
            place,
            setup,
            project,
            store,
            fates.as_slice(),
            done.as_slice(),
            index,
            &units[index],
        );
        let seen = match seen {
            Ok(seen) => seen,
            Err(fault) => {
                drop((fates, done));
                return Err(fault);
            }
        };
        match append(&mut fates, &mut done, seen) {
            Ok(()) => {}
            Err(_) => {
                drop((fates, done));
                return Err(BuildFault::OutOfMemory);
            }
        }
    }
    drop(done);
    Ok(Items::from_vec(fates))
}

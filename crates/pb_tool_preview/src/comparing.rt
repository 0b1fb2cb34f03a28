//! One unit is compared with its record.

ghost use Rattle.std.specs.Prelude.{◌≡◌, IfErr, IfOk, IsTrue, Some, slice_get};
ghost use Rattle.pb_command.specs.Command.{command_of};
ghost use Rattle.pb_run.specs.Invariants.{records_folder};
ghost use Rattle.pb_run.specs.Steps.{named};
ghost use Rattle.pb_run.specs.declared.faults.StepFault.TheVariants as step;
ghost use Rattle.pb_store.specs.Calls.{MayLook, OnlyLooks};
ghost use Rattle.pb_store.specs.Folder.{HasNumbers};
ghost use Rattle.pb_store_soundness.specs.Records.{records};
ghost use Rattle.pb_tool_preview.specs.Foreseeing.{IsCompared, Looks, LookFails};

use crate::fate::Fate;
use crate::replaying::replay_record;
use pb_build_result::{BuildFault, DeviceFault};
use pb_command::command;
use pb_command_types::{Done, Setup};
use pb_data::{Text, TryCopy};
use pb_directive::Directives;
use pb_place_types::{Command, Place};
use pb_run::OrderedProject;
use pb_store::{Compared, Key, Store, StoreFault};
use pb_unit::Planned;
use std::alloc::Global;

/// Returns a fault of the store as the build's fault, with the unit's key. The fault `OutOfMemory`
/// has no key.
fn unit_fault(unit: Text, fault: StoreFault) -> BuildFault
    ensures { result ≡ named unit (step.Store fault) }
{
    match fault {
        StoreFault::Place(fault) => BuildFault::Device {
            unit,
            fault: DeviceFault::Place(fault),
        },
        StoreFault::NumbersSpent => BuildFault::Device {
            unit,
            fault: DeviceFault::NumbersSpent,
        },
        StoreFault::OutOfMemory => BuildFault::OutOfMemory,
    }
}

/// Returns the fate of a unit, by its record. If the record replays directives, returns them too.
fn compare_record<P: Place>(
    alloc: Global,
    place: &mut P,
    project: &OrderedProject,
    store: &Store,
    unit: &Planned,
    key: &Key,
    command: &Command,
) -> Result<(Fate, Option<Directives>), StoreFault>
    requires folder { store.now.folder ≡ records_folder project.now }
    requires numbers { IsTrue P.is_modelled →
        HasNumbers (records (records_folder project.now) (P.at place.old).world)
        store.now.numbers }
    requires key { key.now ≡ unit.now.key }
    ensures compared { IsTrue P.is_modelled → IfOk result (λ seen. IsCompared
        project.now (P.at place.old).world unit.now command.now seen.0 seen.1) }
    ensures quiet { OnlyLooks MayLook result (P.at place.old) (P.at place.new) }
{
    let compared = match store.compare(alloc, place, key, command) {
        Ok(compared) => compared,
        Err(fault) => return Err(fault),
    };
    match compared {
        Compared::Differs(difference) => Ok((Fate::Starts(difference), None)),
        Compared::Same(again) => replay_record(alloc, place, project, unit, command, &again.ended),
    }
}

/// Returns the fate of a unit that reaches only kept units. If the unit's record replays
/// directives, returns them too. `done` contains the directives of the units before this unit.
///
/// Errors:
///
/// - `Device` with the unit's key, if a file, a folder or a variable cannot be read.
/// - `OutOfMemory`.
pub(crate) fn compare_kept<P: Place>(
    alloc: Global,
    place: &mut P,
    setup: &Setup,
    project: &OrderedProject,
    store: &Store,
    done: Done<'_>,
    index: usize,
    unit: &Planned,
) -> Result<(Fate, Option<Directives>), BuildFault>
    requires unit { slice_get project.now.plan.planned index ≡ Some unit.now }
    requires folder { store.now.folder ≡ records_folder project.now }
    requires numbers { IsTrue P.is_modelled →
        HasNumbers (records (records_folder project.now) (P.at place.old).world)
        store.now.numbers }
    ensures compared { IsTrue P.is_modelled → IfOk result (λ seen. IsCompared
        project.now (P.at place.old).world unit.now
        (command_of setup.now project.now unit.now done.now) seen.0 seen.1) }
    ensures quiet { Looks result (P.at place.old) (P.at place.new) }
    ensures fault { IfErr result (LookFails unit.now.key) }
{
    project.is_in_order();
    let key = match unit.key.copy(alloc) {
        Ok(key) => Key::new(key),
        Err(_) => return Err(BuildFault::OutOfMemory),
    };
    let command = match command(alloc, setup, project.get(), unit, done) {
        Ok(command) => command,
        Err(_) => return Err(BuildFault::OutOfMemory),
    };
    match compare_record(alloc, place, project, store, unit, &key, &command) {
        Ok(seen) => Ok(seen),
        Err(fault) => {
            drop(command);
            Err(unit_fault(key.into_text(), fault))
        }
    }
}

//! What the record of a unit replays, judged as a build judges it.

ghost use Rattle.std.specs.Prelude.{◌≡◌, IfOk, IsTrue};
ghost use Rattle.pb_command.specs.Judge.{file_at};
ghost use Rattle.pb_command_types.specs.Targets.{dep_info_of};
ghost use Rattle.pb_run.specs.Outcome.{ran_of};
ghost use Rattle.pb_store.specs.Calls.{MayLook, OnlyLooks, fault_in_store};
ghost use Rattle.pb_tool_preview.specs.Foreseeing.{Judges};

use crate::fate::Fate;
use pb_command_types::dep_info_path;
use pb_data::Bytes;
use pb_directive::Directives;
use pb_place_types::{Command, Ended, PathText, Place, PlaceFault};
use pb_run::OrderedProject;
use pb_run::ran::{Ran, judge_reply};
use pb_store::StoreFault;
use pb_unit::Planned;
use std::alloc::Global;

/// Returns the fault of a call of the place as a fault of the store.
fn store_fault(fault: PlaceFault) -> StoreFault
    ensures { result ≡ fault_in_store fault }
{
    match fault {
        PlaceFault::OutOfMemory => StoreFault::OutOfMemory,
        fault => StoreFault::Place(fault),
    }
}

/// Returns the content of a file, if there is a path and a file.
#[tactic(auto, using(pb_store::proofs::Looking::stops_once))]
fn read_at<P: Place>(
    alloc: Global,
    place: &mut P,
    path: &Option<PathText>,
) -> Result<Option<Bytes>, StoreFault>
    ensures ok { IsTrue P.is_modelled →
        IfOk result (λ found. found ≡ file_at path.now (P.at place.old).world.files) }
    ensures quiet { OnlyLooks MayLook result (P.at place.old) (P.at place.new) }
{
    let path = match path {
        Some(path) => path,
        None => return Ok(None),
    };
    match place.read(alloc, path) {
        Ok(found) => Ok(found),
        Err(fault) => Err(store_fault(fault)),
    }
}

/// Returns the fate and the directives of a unit, from its result, if nothing differs from its
/// record.
fn fate_of(ran: Ran) -> (Fate, Option<Directives>)
    ensures { Judges ran result.0 result.1 }
{
    match ran.bad {
        Some(_) => (Fate::Bad, ran.directives),
        None => (Fate::Kept, ran.directives),
    }
}

/// Returns the fate and the directives of a unit whose record replays this end of a child. If the
/// unit has a dep-info, the function reads it.
pub(crate) fn replay_record<P: Place>(
    alloc: Global,
    place: &mut P,
    project: &OrderedProject,
    unit: &Planned,
    command: &Command,
    ended: &Ended,
) -> Result<(Fate, Option<Directives>), StoreFault>
    ensures judges { IsTrue P.is_modelled → IfOk result (λ seen. Judges
        (ran_of project.now unit.now command.now ended.now (P.at place.old).world.files)
        seen.0 seen.1) }
    ensures quiet { OnlyLooks MayLook result (P.at place.old) (P.at place.new) }
{
    let path = match dep_info_path(alloc, project.get(), unit) {
        Ok(path) => path,
        Err(_) => return Err(StoreFault::OutOfMemory),
    };
    let dep_info = match read_at(alloc, place, &path) {
        Ok(dep_info) => dep_info,
        Err(fault) => return Err(fault),
    };
    match judge_reply(alloc, place, project.get(), unit, command, ended, &dep_info) {
        Ok(judgement) => Ok(fate_of(judgement.ran)),
        Err(_) => Err(StoreFault::OutOfMemory),
    }
}

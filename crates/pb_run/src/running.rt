//! Single calls of the place, with the faults of a step.

ghost use Rattle.std.specs.Prelude.{◌≡◌, IsTrue, IfOk, OnOk};
ghost use Rattle.pb_command.specs.Judge.{file_at};
ghost use Rattle.pb_place_types.specs.Paths.{is_at_or_below};
ghost use Rattle.pb_place_types.specs.World.{removed};
ghost use Rattle.pb_run.specs.Running.{dep_info_looked, Calls, OneCall, RemovalEnds};
ghost use Rattle.pb_run.specs.Steps.{MayFollow, MayRemove, StepChanges, StepLooks, StepMakes};

use crate::faults::{StepFault, store_fault};
use pb_data::Bytes;
use pb_place_types::{PathText, Place};
use std::alloc::Global;

/// Empties the output folder of a unit, by one call.
#[tactic(auto, using(crate::proofs::Causing::remove_laws))]
pub(crate) fn empty<P: Place>(
    alloc: Global,
    place: &mut P,
    folder: &PathText,
) -> Result<(), StepFault>
    ensures ok { IsTrue P.is_modelled →
        OnOk result ((P.at place.new).world ≡ removed folder.now (P.at place.old).world) }
    ensures changes { StepChanges (is_at_or_below folder.now) MayRemove result
        (P.at place.old) (P.at place.new) }
    ensures calls { Calls OneCall (RemovalEnds folder.now) result (P.at place.old).counts
        (P.at place.new).counts }
{
    match place.remove_tree(alloc, folder) {
        Ok(()) => Ok(()),
        Err(fault) => Err(store_fault(fault)),
    }
}

/// Reads a file of a unit by one call. Without a path, no call is made.
#[tactic(auto, using(crate::proofs::Causing::read_laws, crate::proofs::Calling::call_laws))]
pub(crate) fn read_at<P: Place>(
    alloc: Global,
    place: &mut P,
    path: &Option<PathText>,
) -> Result<Option<Bytes>, StepFault>
    ensures ok { IsTrue P.is_modelled →
        IfOk result (λ found. found ≡ file_at path.now (P.at place.old).world.files) }
    ensures quiet { StepLooks MayFollow result (P.at place.old) (P.at place.new) }
    ensures calls { StepMakes result (dep_info_looked path.now) (P.at place.old).counts
        (P.at place.new).counts }
{
    let path = match path {
        Some(path) => path,
        None => return Ok(None),
    };
    match place.read(alloc, path) {
        Ok(found) => Ok(found),
        Err(fault) => Err(store_fault(fault)),
    }
}

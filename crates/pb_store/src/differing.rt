//! Finds the first difference between a unit and its record.

ghost use Rattle.std.specs.Prelude.{◌≡◌, ◌∷◌, [], true, false, IsTrue, IfOk, MatchOption, Decides};
ghost use Rattle.pb_place_types.specs.declared.call.Call.TheVariants as call;
ghost use Rattle.pb_record.specs.Commands.{command_of};
ghost use Rattle.pb_record.specs.declared.record.Record.{Record};
ghost use Rattle.pb_place_types.specs.Paths.{is_relative};
ghost use Rattle.pb_store_soundness.specs.Grounded.{RecordMap};
ghost use Rattle.pb_store_soundness.specs.Inputs.{name_of};
ghost use Rattle.pb_store_soundness.specs.Records.{out_of, record_path, records};
ghost use Rattle.pb_store.specs.Calls.{OnlyLooks, MayLook, MayRead};
ghost use Rattle.pb_store.specs.Folder.{Compares, HasNumbers};
ghost use Rattle.pb_store.specs.Differences.{FirstOrAll, FirstInput, IsPresent, HasFiles, AreNeeded, FirstDifference, FirstNeed, FirstFrom, NothingDiffers, IsAnswered};
ghost use Rattle.pb_store.specs.Looking.{Looks, name_looked, inputs_looked, out_looked, copies_looked, needed_looked, around_looked, from_looked, unit_looked};

use crate::asking::{first_part, first_variable};
use crate::comparing::{are_files, is_present};
use crate::difference::Difference;
use crate::fault::StoreFault;
use crate::keys::Key;
use crate::numbers::first_number;
use crate::replaying::{Compared, Replayed, again};
use crate::store::{Store, record_at};
use pb_data::{Bytes, Items, Table, Text, TryCopy};
use pb_place_types::{Command, Ended, PathText, Place, PlaceFault, RelativePath};
use pb_record::{Input, InputName, Needed, Record};
use std::alloc::{AllocError, Global};

/// Returns the name of an input.
fn name_of(alloc: Global, input: &Input) -> Result<InputName, AllocError>
    ensures { IfOk result (λ name. name ≡ name_of input.now) }
{
    match input {
        Input::File(path, _) => Ok(InputName::Path(path.copy(alloc)?)),
        Input::Tree(path, _) => Ok(InputName::Path(path.copy(alloc)?)),
        Input::Value(name, _) => Ok(InputName::Variable(name.copy(alloc)?)),
    }
}

/// Returns the name of the first input whose recorded value is not the present value.
fn first_input<P: Place>(
    alloc: Global,
    place: &mut P,
    target: &PathText,
    inputs: &[Input],
) -> Result<Option<InputName>, StoreFault>
    ensures ok { IsTrue P.is_modelled →
        IfOk result (FirstInput target.now inputs.now (P.at place.old).world) }
    ensures quiet { OnlyLooks MayLook result (P.at place.old) (P.at place.new) }
    ensures looks { IsTrue P.is_modelled →
        Looks result (inputs_looked target.now (P.at place.old).world inputs.now)
        (P.at place.old).counts (P.at place.new).counts }
{
    for input in inputs {
        match is_present(alloc, place, target, input) {
            Ok(true) => {}
            Ok(false) => {
                return match name_of(alloc, input) {
                    Ok(name) => Ok(Some(name)),
                    Err(_) => Err(StoreFault::OutOfMemory),
                };
            }
            Err(fault) => return Err(fault),
        }
    }
    Ok(None)
}

/// Returns the path of a unit's output folder, or none if the unit's key is not a relative path.
fn out_path(alloc: Global, folder: &PathText, key: &Text) -> Result<Option<PathText>, AllocError>
    ensures { IfOk result (λ found. MatchOption found (is_relative key.now ≡ false)
        (λ path. (is_relative key.now ≡ true) × (path ≡ out_of folder.now key.now))) }
{
    match RelativePath::of(key.copy(alloc)?) {
        None => Ok(None),
        Some(relative) => Ok(Some(folder.below(alloc, &relative)?)),
    }
}

/// Returns whether the folder of a needed unit contains exactly the recorded files.
fn has_files<P: Place>(
    alloc: Global,
    place: &mut P,
    folder: &PathText,
    need: &(Text, Items<(RelativePath, Bytes)>),
) -> Result<bool, StoreFault>
    ensures ok { IsTrue P.is_modelled →
        IfOk result
        (λ same. Decides same (HasFiles folder.now (P.at place.old).world.files need.now)) }
    ensures quiet { OnlyLooks MayLook result (P.at place.old) (P.at place.new) }
    ensures looks { IsTrue P.is_modelled →
        Looks result (out_looked folder.now (P.at place.old).world need.now.0)
        (P.at place.old).counts (P.at place.new).counts }
{
    let out = match out_path(alloc, folder, &need.0) {
        Ok(Some(out)) => out,
        Ok(None) => return Ok(false),
        Err(_) => return Err(StoreFault::OutOfMemory),
    };
    are_files(alloc, place, &out, need.1.as_slice())
}

/// Returns the key of the first needed unit whose folder does not contain exactly the recorded
/// files.
fn first_copy<P: Place>(
    alloc: Global,
    place: &mut P,
    folder: &PathText,
    copies: &[(Text, Items<(RelativePath, Bytes)>)],
) -> Result<Option<Text>, StoreFault>
    ensures ok { IsTrue P.is_modelled →
        IfOk result (λ found. FirstOrAll (HasFiles folder.now (P.at place.old).world.files)
        copies.now found) }
    ensures quiet { OnlyLooks MayLook result (P.at place.old) (P.at place.new) }
    ensures looks { IsTrue P.is_modelled →
        Looks result (copies_looked folder.now (P.at place.old).world copies.now)
        (P.at place.old).counts (P.at place.new).counts }
{
    for need in copies {
        match has_files(alloc, place, folder, need) {
            Ok(true) => {}
            Ok(false) => {
                return match need.0.copy(alloc) {
                    Ok(key) => Ok(Some(key)),
                    Err(_) => Err(StoreFault::OutOfMemory),
                };
            }
            Err(fault) => return Err(fault),
        }
    }
    Ok(None)
}

/// Returns the key of the first needed unit that does not agree with the record. The record's
/// format determines what is compared. If the record names units by number, the store has the
/// present numbers, so the records of these units are not read.
#[tactic(auto, using(crate::proofs::Held::first_by_number))]
fn first_need<P: Place>(
    alloc: Global,
    place: &mut P,
    folder: &PathText,
    numbers: &Table<Option<u64>>,
    needed: &Needed,
) -> Result<Option<Text>, StoreFault>
    ensures ok { (at : RecordMap) → IsTrue P.is_modelled → HasNumbers at numbers.now →
        IfOk result
        (λ found. MatchOption found (AreNeeded folder.now at (P.at place.old).world.files
        needed.now) (FirstNeed folder.now at (P.at place.old).world.files needed.now)) }
    ensures quiet { OnlyLooks MayLook result (P.at place.old) (P.at place.new) }
    ensures looks { IsTrue P.is_modelled →
        Looks result (needed_looked folder.now (P.at place.old).world needed.now)
        (P.at place.old).counts (P.at place.new).counts }
{
    match needed {
        Needed::Copies(copies) => first_copy(alloc, place, folder, copies.as_slice()),
        Needed::Numbers(_, needs) => match first_number(alloc, numbers, needs.as_slice()) {
            Ok(found) => Ok(found),
            Err(_) => Err(StoreFault::OutOfMemory),
        },
    }
}

/// Returns the first difference of an input or of a needed unit. The command is not compared.
fn first_around<P: Place>(
    alloc: Global,
    place: &mut P,
    folder: &PathText,
    numbers: &Table<Option<u64>>,
    command: &Command,
    kept: &Record,
) -> Result<Option<Difference>, StoreFault>
    ensures ok { (at : RecordMap) → IsTrue P.is_modelled → HasNumbers at numbers.now →
        command_of kept.now.asked ≡ command.now →
        IfOk result (FirstFrom folder.now at command.now (P.at place.old).world kept.now) }
    ensures quiet { OnlyLooks MayLook result (P.at place.old) (P.at place.new) }
    ensures looks { IsTrue P.is_modelled →
        Looks result (around_looked folder.now command.now.target (P.at place.old).world kept.now)
        (P.at place.old).counts (P.at place.new).counts }
{
    match first_input(alloc, place, &command.target, kept.inputs.as_slice()) {
        Ok(Some(name)) => return Ok(Some(Difference::Input(name))),
        Ok(None) => {}
        Err(fault) => return Err(fault),
    }
    match first_need(alloc, place, folder, numbers, &kept.needed) {
        Ok(Some(key)) => Ok(Some(Difference::Dependency(key))),
        Ok(None) => Ok(None),
        Err(fault) => Err(fault),
    }
}

/// Returns the first difference from a record.
fn first_from<P: Place>(
    alloc: Global,
    place: &mut P,
    folder: &PathText,
    numbers: &Table<Option<u64>>,
    command: &Command,
    kept: &Record,
) -> Result<Option<Difference>, StoreFault>
    ensures ok { (at : RecordMap) → IsTrue P.is_modelled → HasNumbers at numbers.now →
        IfOk result (FirstFrom folder.now at command.now (P.at place.old).world kept.now) }
    ensures quiet { OnlyLooks MayLook result (P.at place.old) (P.at place.new) }
    ensures looks { IsTrue P.is_modelled →
        Looks result (from_looked folder.now command.now (P.at place.old).world kept.now)
        (P.at place.old).counts (P.at place.new).counts }
{
    if let Some(part) = first_part(&kept.asked, command) {
        return Ok(Some(Difference::Command(part)));
    }
    match first_variable(alloc, kept.asked.pairs.as_slice(), command.pairs.as_slice()) {
        Ok(Some(name)) => return Ok(Some(Difference::Pair(name))),
        Ok(None) => {}
        Err(_) => return Err(StoreFault::OutOfMemory),
    }
    first_around(alloc, place, folder, numbers, command, kept)
}

impl Store {
    /// Returns the first difference between a unit and its record. `command` is the command with
    /// which the unit would be built now. If nothing differs, the recorded answer is returned. The
    /// inputs are read and compared one after another, up to and including the first input that
    /// differs. The records of needed units are not read, because the store has their run numbers.
    /// The rule for when a unit is built again is our own choice.
    ///
    /// Errors:
    ///
    /// - `Place` if a file or a variable cannot be read, or a folder cannot be listed.
    /// - `OutOfMemory`.
    pub fn compare<P: Place>(
        &self,
        alloc: Global,
        place: &mut P,
        key: &Key,
        command: &Command,
    ) -> Result<Compared, StoreFault>
        requires numbers { IsTrue P.is_modelled →
            HasNumbers (records self.now.folder (P.at place.old).world) self.now.numbers }
        ensures compares { IsTrue P.is_modelled →
            IfOk result (Compares self.now.folder key.now command.now (P.at place.old).world) }

        // The call changes only counters, and looks no further than the first difference.
        ensures quiet { OnlyLooks MayLook result (P.at place.old) (P.at place.new) }
        ensures looks { IsTrue P.is_modelled →
            Looks result (unit_looked self.now.folder key.now command.now (P.at place.old).world)
            (P.at place.old).counts (P.at place.new).counts }
    {
        let kept = match record_at(alloc, place, &self.folder, key) {
            Ok(Some(kept)) => kept,
            Ok(None) => return Ok(Compared::Differs(Difference::NoRecord)),
            Err(fault) => return Err(fault),
        };
        // The record is first borrowed and then consumed, so its streams are passed on and not read
        // again.
        match first_from(alloc, place, &self.folder, &self.numbers, command, &kept) {
            Ok(Some(difference)) => {
                drop(kept);
                Ok(Compared::Differs(difference))
            }
            Ok(None) => Ok(Compared::Same(again(kept))),
            Err(fault) => {
                drop(kept);
                Err(fault)
            }
        }
    }

    /// Returns the first difference between a unit and its record, or none. The function makes the
    /// same calls as `compare`.
    ///
    /// Errors: those of `compare`.
    pub fn differs<P: Place>(
        &self,
        alloc: Global,
        place: &mut P,
        key: &Key,
        command: &Command,
    ) -> Result<Option<Difference>, StoreFault>
        requires numbers { IsTrue P.is_modelled →
            HasNumbers (records self.now.folder (P.at place.old).world) self.now.numbers }
        ensures first { IsTrue P.is_modelled →
            IfOk result
            (FirstDifference self.now.folder key.now command.now (P.at place.old).world) }

        // The call changes only counters, and looks no further than the first difference.
        ensures quiet { OnlyLooks MayLook result (P.at place.old) (P.at place.new) }
        ensures looks { IsTrue P.is_modelled →
            Looks result (unit_looked self.now.folder key.now command.now (P.at place.old).world)
            (P.at place.old).counts (P.at place.new).counts }
    {
        match self.compare(alloc, place, key, command) {
            Ok(Compared::Differs(difference)) => Ok(Some(difference)),
            Ok(Compared::Same(again)) => {
                drop(again);
                Ok(None)
            }
            Err(fault) => Err(fault),
        }
    }

    /// Returns the recorded answer of a unit, if `differs` returned none.
    ///
    /// Errors:
    ///
    /// - `Place` if the record cannot be read, or if it was removed after the call of `differs`.
    /// - `OutOfMemory`.
    pub fn replay<P: Place>(
        &self,
        alloc: Global,
        place: &mut P,
        key: &Key,
    ) -> Result<Ended, StoreFault>
        requires same { IsTrue P.is_modelled →
            NothingDiffers self.now.folder key.now (P.at place.old).world }
        ensures ended { IsTrue P.is_modelled →
            IfOk result (IsAnswered (records self.now.folder (P.at place.old).world key.now)) }

        // The call only reads the record. At a place that is not modelled, the record may be gone.
        ensures quiet { IsTrue P.is_modelled →
            OnlyLooks MayRead result (P.at place.old) (P.at place.new) }
        ensures looks { IsTrue P.is_modelled →
            Looks result (call.Read (record_path self.now.folder key.now) ∷ [])
            (P.at place.old).counts (P.at place.new).counts }
    {
        match record_at(alloc, place, &self.folder, key) {
            Ok(Some(kept)) => {
                let Replayed { ended, numbered: _ } = again(kept);
                Ok(ended)
            }
            Ok(None) => Err(StoreFault::Place(PlaceFault::Read)),
            Err(fault) => Err(fault),
        }
    }
}

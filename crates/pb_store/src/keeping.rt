//! Keeps the record of a unit that was built, with the run number that was taken for this record.

ghost use Rattle.std.specs.Prelude.{◌≡◌, true, IsTrue, IfOk, OnOk, OnErr, Some, map};
ghost use Rattle.std.specs.List.{concat};
ghost use Rattle.pb_place_types.specs.declared.call.Call.TheVariants as call;
ghost use Rattle.pb_place_types.specs.At.{IsUnchanged};
ghost use Rattle.pb_place_types.specs.Paths.{is_at_or_below};
ghost use Rattle.pb_place_types.specs.World.{Torn, written};
ghost use Rattle.pb_store_soundness.specs.Grounded.{RecordMap};
ghost use Rattle.pb_store_soundness.specs.Inputs.{input_in};
ghost use Rattle.pb_store_soundness.specs.Records.{number_of, out_of, record_path, records};
ghost use Rattle.pb_store.specs.Calls.{CallsOnce, FailsToWrite, OnlyLooks, ChangesOnlyAt, MayLook, MayWrite, MayKeep};
ghost use Rattle.pb_store.specs.Folder.{KeepsRecord, PutsRecord, HasNumbers, kept_of, numbered};
ghost use Rattle.pb_store.specs.Looking.{Looks, kept_called, names_looked};
ghost use Rattle.pb_record.specs.Commands.{of_parts};
ghost use Rattle.pb_record.specs.Sorted.{are_sorted};

use crate::fault::{StoreFault, store_error};
use crate::inputs::present;
use crate::keys::Key;
use crate::numbers::{note, with_numbers};
use crate::store::{Store, record_path};
use pb_data::{Bytes, Items, Table, Text, TryCopy, with_next};
use pb_place_types::{Command, Ended, PathText, Place};
use pb_record::{Input, InputName, Needed, Record, RecordedCommand, write_record_pieces};
use std::alloc::{AllocError, Global};

/// Returns the number of a record.
pub(crate) fn number_of(kept: &Record) -> Option<u64>
    ensures { result ≡ number_of kept.now }
{
    match &kept.needed {
        Needed::Copies(_) => None,
        Needed::Numbers(number, _) => Some(*number),
    }
}

/// Writes a file whose bytes come in pieces.
fn write<P: Place>(
    alloc: Global,
    place: &mut P,
    path: &PathText,
    pieces: &[Bytes],
) -> Result<(), StoreFault>
    ensures ok { IsTrue P.is_modelled → OnOk result
        ((P.at place.new).world ≡ written path.now (concat pieces.now) (P.at place.old).world) }
    ensures err { IsTrue P.is_modelled → OnErr result
        (Torn path.now (concat pieces.now) (P.at place.old).world (P.at place.new).world) }
    ensures only { ChangesOnlyAt (is_at_or_below path.now) MayWrite result (P.at place.old)
        (P.at place.new) }
    ensures calls { CallsOnce (call.Write path.now) result (P.at place.old).counts
        (P.at place.new).counts }
{
    match place.write_pieces(alloc, path, pieces) {
        Ok(()) => Ok(()),
        Err(fault) => Err(store_error(fault)),
    }
}

/// Writes a record, without a second copy of the record's large values.
pub(crate) fn put_record<P: Place>(
    alloc: Global,
    place: &mut P,
    folder: &PathText,
    key: &Key,
    kept: Record,
) -> Result<(), StoreFault>
    ensures record { IsTrue P.is_modelled → kept.key ≡ key.now →
        PutsRecord P.child folder.now key.now kept result (P.at place.old).world
        (P.at place.new).world }
    ensures only { ChangesOnlyAt (is_at_or_below (record_path folder.now key.now)) MayWrite result
        (P.at place.old) (P.at place.new) }
    ensures calls { CallsOnce (call.Write (record_path folder.now key.now)) result
        (P.at place.old).counts (P.at place.new).counts }
{
    let _ = folder.as_str();
    let _ = key.as_text();
    let path = match record_path(alloc, folder, key) {
        Ok(path) => path,
        Err(_) => return Err(StoreFault::OutOfMemory),
    };
    let pieces = match write_record_pieces(alloc, kept) {
        Ok(pieces) => pieces,
        Err(_) => return Err(StoreFault::OutOfMemory),
    };
    match write(alloc, place, &path, pieces.as_slice()) {
        Ok(()) => Ok(()),
        Err(fault) => Err(fault),
    }
}

/// Returns a command as a record contains it. The command must write into the unit's folder, and
/// its variables must be sorted.
#[tactic(auto, using(crate::proofs::Earned::asked_laws))]
fn asked_of(
    alloc: Global,
    folder: &PathText,
    key: &Key,
    command: &Command,
) -> Result<RecordedCommand, AllocError>
    requires out { command.now.out ≡ Some (out_of folder.now key.now) }
    requires sorted { are_sorted command.now.pairs ≡ true }
    ensures { IfOk result (λ asked. asked ≡ of_parts command.now (out_of folder.now key.now)) }
{
    match RecordedCommand::of_command(command.copy(alloc)?) {
        Some(asked) => Ok(asked),
        None => unreachable!(),
    }
}

/// Returns copies of the parts of a record: the unit's key, its command, and its child's streams.
fn copied_of(
    alloc: Global,
    folder: &PathText,
    key: &Key,
    command: &Command,
    ended: &Ended,
) -> Result<(Text, RecordedCommand, Bytes, Bytes), AllocError>
    requires out { command.now.out ≡ Some (out_of folder.now key.now) }
    requires sorted { are_sorted command.now.pairs ≡ true }
    ensures { IfOk result
        (λ parts. parts ≡ (
          key.now,
          of_parts command.now (out_of folder.now key.now),
          ended.now.stdout,
          ended.now.stderr,
        )) }
{
    let copied = key.as_text().copy(alloc)?;
    let stdout = ended.stdout.copy(alloc)?;
    let stderr = ended.stderr.copy(alloc)?;
    let asked = asked_of(alloc, folder, key, command)?;
    Ok((copied, asked, stdout, stderr))
}

/// Returns the record of a unit, made of copies of its key, its command and its child's streams.
fn kept_of(
    alloc: Global,
    folder: &PathText,
    key: &Key,
    command: &Command,
    inputs: Items<Input>,
    number: u64,
    numbers: Items<(Text, u64)>,
    ended: &Ended,
) -> Result<Record, AllocError>
    requires out { command.now.out ≡ Some (out_of folder.now key.now) }
    requires sorted { are_sorted command.now.pairs ≡ true }
    ensures { IfOk result (λ kept. kept ≡ kept_of folder.now key.now command.now inputs number
        numbers ended.now) }
{
    let parts = copied_of(alloc, folder, key, command, ended);
    let ((inputs, numbers), parts) = with_next((inputs, numbers), parts)?;
    let (key, asked, stdout, stderr) = parts;
    Ok(Record {
        key,
        asked,
        inputs,
        needed: Needed::Numbers(number, numbers),
        stdout,
        stderr,
    })
}

/// Returns the record of a unit: the inputs with their present values, and the needed units with
/// the numbers of their records.
#[tactic(auto, using(crate::proofs::Held::numbered_held))]
fn kept_now<P: Place>(
    alloc: Global,
    place: &mut P,
    folder: &PathText,
    numbers: &Table<Option<u64>>,
    key: &Key,
    number: u64,
    command: &Command,
    needs: &[Text],
    names: &[InputName],
    ended: &Ended,
) -> Result<Record, StoreFault>
    requires out { command.now.out ≡ Some (out_of folder.now key.now) }
    requires sorted { are_sorted command.now.pairs ≡ true }
    ensures ok { (at : RecordMap) → IsTrue P.is_modelled → HasNumbers at numbers.now →
        IfOk result (λ kept. kept ≡ kept_of folder.now key.now command.now
        (map (input_in command.now.target (P.at place.old).world) names.now) number
        (numbered at needs.now) ended.now) }
    ensures quiet { OnlyLooks MayLook result (P.at place.old) (P.at place.new) }
    ensures looks { IsTrue P.is_modelled →
        Looks result (names_looked command.now.target (P.at place.old).world names.now)
        (P.at place.old).counts (P.at place.new).counts }
{
    // The values are read before the write, so that the record contains the present values.
    let inputs = present(alloc, place, &command.target, names)?;
    let numbers = match with_numbers(alloc, numbers, needs) {
        Ok(numbers) => numbers,
        Err(_) => return Err(StoreFault::OutOfMemory),
    };
    match kept_of(alloc, folder, key, command, inputs, number, numbers, ended) {
        Ok(kept) => Ok(kept),
        Err(_) => Err(StoreFault::OutOfMemory),
    }
}

/// Lets the place check whether an input has moved since the child of a command was spawned.
/// Variables never move.
fn watch<P: Place>(
    alloc: Global,
    place: &mut P,
    command: &Command,
    name: &InputName,
) -> Result<(), AllocError>
    ensures { IsUnchanged (P.at place.old) (P.at place.new) }
{
    match name {
        InputName::Path(path) => place.watch(alloc, command, path),
        InputName::Variable(_) => Ok(()),
    }
}

/// Returns whether everything that the child of a command read has stayed unchanged since the child
/// was spawned. The child read these inputs, and what units wrote into the folders that the command
/// reads.
fn stood_still<P: Place>(
    alloc: Global,
    place: &mut P,
    command: &Command,
    names: &[InputName],
) -> Result<bool, AllocError>
    ensures still { IsTrue P.is_modelled → IfOk result (λ still. still ≡ true) }
    ensures unchanged { IsUnchanged (P.at place.old) (P.at place.new) }
{
    for name in names {
        watch(alloc, place, command, name)?;
    }
    Ok(place.stood_still(command))
}

/// Writes a record, unless the child of this command read something that has moved. The check comes
/// after the recorded values are read. So a value that changes after the check differs from the
/// recorded value.
fn put_still<P: Place>(
    alloc: Global,
    place: &mut P,
    folder: &PathText,
    key: &Key,
    command: &Command,
    names: &[InputName],
    kept: Record,
) -> Result<(), StoreFault>
    ensures record { IsTrue P.is_modelled → kept.key ≡ key.now →
        PutsRecord P.child folder.now key.now kept result (P.at place.old).world
        (P.at place.new).world }
    ensures only { ChangesOnlyAt (is_at_or_below (record_path folder.now key.now)) MayWrite result
        (P.at place.old) (P.at place.new) }
    ensures calls { IsTrue P.is_modelled →
        CallsOnce (call.Write (record_path folder.now key.now)) result (P.at place.old).counts
        (P.at place.new).counts }
    ensures written { FailsToWrite (record_path folder.now key.now) result
        (P.at place.new).counts }
{
    match stood_still(alloc, place, command, names) {
        Ok(true) => put_record(alloc, place, folder, key, kept),
        Ok(false) => Ok(()),
        Err(_) => Err(StoreFault::OutOfMemory),
    }
}

impl Store {
    /// Keeps the record of a unit whose answer is good, with the number that `drop_record`
    /// returned.
    ///
    /// `needs` are the keys of the units that the unit needs, in plan order. `names` are the inputs
    /// found in the unit's answer. The function reads and records the present values of these
    /// inputs. After an error the unit has no record, its old record, or the new record. After an
    /// error the contract promises nothing about the run numbers in the store.
    ///
    /// Errors: `Place` if an input cannot be read or the record cannot be written; `OutOfMemory`.
    ///
    /// Requires: the command writes into the unit's folder, and its variables are sorted by name,
    /// each name once.
    ///
    /// If the child read something that has moved (`Place::watch`), no record is written, because
    /// the child may not have read the present values. At a modelled place nothing moves.
    pub fn keep<P: Place>(
        &mut self,
        alloc: Global,
        place: &mut P,
        key: &Key,
        number: u64,
        command: &Command,
        needs: &[Text],
        names: &[InputName],
        ended: &Ended,
    ) -> Result<(), StoreFault>
        requires out { command.now.out ≡ Some (out_of self.old.folder key.now) }
        requires sorted { are_sorted command.now.pairs ≡ true }
        requires numbers { IsTrue P.is_modelled →
            HasNumbers (records self.old.folder (P.at place.old).world) self.old.numbers }

        // The unit has the new record. After an error the unit has the new record, its old record,
        // or no record.
        ensures record { IsTrue P.is_modelled →
            KeepsRecord P.child key.now command.now needs.now names.now ended.now number result
            self.old self.new (P.at place.old).world (P.at place.new).world }
        ensures folder { self.new.folder ≡ self.old.folder }
        ensures next { self.new.next ≡ self.old.next }

        // Only the record's file changes, and only by the last call of the place.
        ensures only { ChangesOnlyAt (is_at_or_below (record_path self.old.folder key.now)) MayKeep
            result (P.at place.old) (P.at place.new) }
        ensures calls { IsTrue P.is_modelled →
            Looks result (kept_called self.old.folder key.now command.now.target
            (P.at place.old).world names.now) (P.at place.old).counts (P.at place.new).counts }
        ensures written { FailsToWrite (record_path self.old.folder key.now) result
            (P.at place.new).counts }
    {
        let _ = self.folder.as_str();
        let text = key.as_text();
        let kept = match kept_now(
            alloc,
            place,
            &self.folder,
            &self.numbers,
            key,
            number,
            command,
            needs,
            names,
            ended,
        ) {
            Ok(kept) => kept,
            Err(fault) => return Err(fault),
        };
        // The number is noted before the write, so that no call comes after the write.
        match note(alloc, &mut self.numbers, text, Some(number)) {
            Ok(()) => {}
            Err(fault) => {
                drop(kept);
                return Err(fault);
            }
        }
        match put_still(alloc, place, &self.folder, key, command, names, kept) {
            Ok(()) => Ok(()),
            Err(fault) => Err(fault),
        }
    }
}

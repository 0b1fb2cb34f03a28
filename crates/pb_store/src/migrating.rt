//! A record of format 1 is rewritten in format 2.

ghost use Rattle.std.specs.Prelude.{◌≡◌, ◌∷◌, [], Some, false, is_some, IsTrue};
ghost use Rattle.pb_place_types.specs.declared.call.Call.TheVariants as call;
ghost use Rattle.pb_place_types.specs.Paths.{is_at_or_below};
ghost use Rattle.pb_store_soundness.specs.Records.{number_of, record_path, records};
ghost use Rattle.pb_store.specs.Calls.{FailsToWrite, MayMigrate, ChangesOnlyAt};
ghost use Rattle.pb_store.specs.Folder.{MigratesRecord, HasNumbers, MigratesNext, numbered_record};
ghost use Rattle.pb_store.specs.Looking.{LooksOrSpent, migrated_called};

use crate::dropping::number_after;
use crate::fault::StoreFault;
use crate::keeping::{number_of, put_record};
use crate::keys::Key;
use crate::numbers::{note, with_numbers};
use crate::store::{Store, record_at};
use pb_data::{Items, Text};
use pb_place_types::Place;
use pb_record::{Needed, Record};
use std::alloc::Global;

/// Returns a record that contains a number and the numbers of the needed units, instead of copies
/// of their files.
fn numbered_record(kept: Record, number: u64, numbers: Items<(Text, u64)>) -> Record
    ensures { result ≡ numbered_record kept number numbers }
{
    Record {
        key: kept.key,
        asked: kept.asked,
        inputs: kept.inputs,
        needed: Needed::Numbers(number, numbers),
        stdout: kept.stdout,
        stderr: kept.stderr,
    }
}

impl Store {
    /// Rewrites the record of a unit with the next number. The record has no number yet.
    fn renumber<P: Place>(
        &mut self,
        alloc: Global,
        place: &mut P,
        key: &Key,
        needs: &[Text],
        kept: Record,
    ) -> Result<(), StoreFault>
        requires numbers { IsTrue P.is_modelled →
            HasNumbers (records self.old.folder (P.at place.old).world) self.old.numbers }
        requires found { IsTrue P.is_modelled →
            records self.old.folder (P.at place.old).world key.now ≡ Some kept }
        requires lacks { is_some (number_of kept) ≡ false }
        ensures record { IsTrue P.is_modelled →
            MigratesRecord P.child key.now needs.now result self.old self.new
            (P.at place.old).world (P.at place.new).world }
        ensures next { MigratesNext result self.old.next self.new.next }
        ensures folder { self.new.folder ≡ self.old.folder }
        ensures only { ChangesOnlyAt (is_at_or_below (record_path self.old.folder key.now))
            (MayMigrate self.old.next) result (P.at place.old) (P.at place.new) }
        ensures calls { LooksOrSpent result [] (call.Write (record_path self.old.folder key.now) ∷ [])
            (P.at place.old).counts (P.at place.new).counts }
        ensures written { FailsToWrite (record_path self.old.folder key.now) result
            (P.at place.new).counts }
    {
        let _ = self.folder.as_str();
        let text = key.as_text();
        let number = match self.next {
            None => {
                drop(kept);
                return Err(StoreFault::NumbersSpent);
            }
            Some(number) => number,
        };
        let numbers = match with_numbers(alloc, &self.numbers, needs) {
            Ok(numbers) => numbers,
            Err(_) => {
                drop(kept);
                return Err(StoreFault::OutOfMemory);
            }
        };
        let kept = numbered_record(kept, number, numbers);
        match note(alloc, &mut self.numbers, text, Some(number)) {
            Ok(()) => {}
            Err(fault) => {
                drop(kept);
                return Err(fault);
            }
        }
        // The number is taken before the write. An incomplete write may have used the number,
        // whether the record exists or not.
        self.next = number_after(number);
        match put_record(alloc, place, &self.folder, key, kept) {
            Ok(()) => Ok(()),
            Err(fault) => Err(fault),
        }
    }

    /// Rewrites a unit's record of format 1 in format 2. The record gets the next run number, and
    /// names the needed units by their numbers. If the record is of format 2, or no record counts,
    /// the function changes nothing. `needs` are the keys of the units that the unit needs, in plan
    /// order. After an error the unit has its old record, no record, or the new record. If the
    /// write failed, the number is taken; after any other error it may be taken. After an error the
    /// contract promises nothing about the run numbers in the store.
    ///
    /// Errors:
    ///
    /// - `NumbersSpent` only if the record is of format 1 and no number is left. Then nothing
    ///   changes.
    /// - `Place` if the record cannot be read or written.
    /// - `OutOfMemory`.
    pub fn migrate<P: Place>(
        &mut self,
        alloc: Global,
        place: &mut P,
        key: &Key,
        needs: &[Text],
    ) -> Result<(), StoreFault>
        requires numbers { IsTrue P.is_modelled →
            HasNumbers (records self.old.folder (P.at place.old).world) self.old.numbers }

        // A record without a number gets the next number. After an error the record has the number,
        // is unchanged, or is gone.
        ensures record { IsTrue P.is_modelled →
            MigratesRecord P.child key.now needs.now result self.old self.new
            (P.at place.old).world (P.at place.new).world }
        ensures next { MigratesNext result self.old.next self.new.next }
        ensures folder { self.new.folder ≡ self.old.folder }

        // Only the record's file changes, and only by the last call of the place.
        ensures only { ChangesOnlyAt (is_at_or_below (record_path self.old.folder key.now))
            (MayMigrate self.old.next) result (P.at place.old) (P.at place.new) }
        ensures calls { IsTrue P.is_modelled →
            LooksOrSpent result (call.Read (record_path self.old.folder key.now) ∷ [])
            (migrated_called self.old.folder key.now (P.at place.old).world)
            (P.at place.old).counts (P.at place.new).counts }
        ensures written { FailsToWrite (record_path self.old.folder key.now) result
            (P.at place.new).counts }
    {
        let found = record_at(alloc, place, &self.folder, key)?;
        let kept = match found {
            Some(kept) => kept,
            None => return Ok(()),
        };
        if number_of(&kept).is_some() {
            drop(kept);
            return Ok(());
        }
        match self.renumber(alloc, place, key, needs, kept) {
            Ok(()) => Ok(()),
            Err(fault) => Err(fault),
        }
    }
}

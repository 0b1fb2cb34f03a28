//! A record is dropped, and the run number of the next record is taken.

ghost use Rattle.std.specs.Prelude.{◌≡◌, IsTrue, MatchResult, OnOk, OnErr};
ghost use Rattle.pb_place_types.specs.declared.call.Call.TheVariants as call;
ghost use Rattle.pb_place_types.specs.Paths.{is_at_or_below};
ghost use Rattle.pb_place_types.specs.World.{PartlyRemoved, removed};
ghost use Rattle.pb_store_soundness.specs.Numbers.{after};
ghost use Rattle.pb_store_soundness.specs.Records.{record_path, records};
ghost use Rattle.pb_store.specs.Calls.{CallsOnce, ChangesOnlyAt, MayRemove, MayDrop};
ghost use Rattle.pb_store.specs.Folder.{DropsRecord, IsGiven, RemovesRecord, HasNumbers};

use crate::fault::{StoreFault, store_error};
use crate::keys::Key;
use crate::numbers::note;
use crate::store::{Store, record_path};
use pb_place_types::{PathText, Place};
use std::alloc::Global;

/// Returns the number after this number, or none if no number is left.
pub(crate) fn number_after(number: u64) -> Option<u64>
    ensures { result ≡ after number }
{
    if number == u64::MAX {
        None
    } else {
        Some(number + 1)
    }
}

/// Removes everything at or below a path.
fn remove<P: Place>(alloc: Global, place: &mut P, path: &PathText) -> Result<(), StoreFault>
    ensures ok { IsTrue P.is_modelled →
        OnOk result ((P.at place.new).world ≡ removed path.now (P.at place.old).world) }
    ensures err { IsTrue P.is_modelled →
        OnErr result (PartlyRemoved path.now (P.at place.old).world (P.at place.new).world) }
    ensures only { ChangesOnlyAt (is_at_or_below path.now) MayRemove result (P.at place.old)
        (P.at place.new) }
    ensures calls { CallsOnce (call.Remove path.now) result (P.at place.old).counts
        (P.at place.new).counts }
{
    match place.remove_tree(alloc, path) {
        Ok(()) => Ok(()),
        Err(fault) => Err(store_error(fault)),
    }
}

/// Removes a unit's record.
fn remove_record<P: Place>(
    alloc: Global,
    place: &mut P,
    folder: &PathText,
    key: &Key,
) -> Result<(), StoreFault>
    ensures record { IsTrue P.is_modelled →
        RemovesRecord P.child folder.now key.now result (P.at place.old).world
        (P.at place.new).world }
    ensures only { ChangesOnlyAt (is_at_or_below (record_path folder.now key.now)) MayRemove result
        (P.at place.old) (P.at place.new) }
    ensures calls { CallsOnce (call.Remove (record_path folder.now key.now)) result
        (P.at place.old).counts (P.at place.new).counts }
{
    let _ = folder.as_str();
    let _ = key.as_text();
    let path = match record_path(alloc, folder, key) {
        Ok(path) => path,
        Err(_) => return Err(StoreFault::OutOfMemory),
    };
    match remove(alloc, place, &path) {
        Ok(()) => Ok(()),
        Err(fault) => Err(fault),
    }
}

impl Store {
    /// Removes the record of a unit, and returns the run number of the unit's next record. If no
    /// number is left, the function removes nothing. After an error no number is taken, and the
    /// record may still exist. After an error the contract promises nothing about the run numbers
    /// in the store.
    ///
    /// Errors:
    ///
    /// - `NumbersSpent` if and only if no number is left.
    /// - `Place` if the record cannot be removed.
    /// - `OutOfMemory`.
    pub fn drop_record<P: Place>(
        &mut self,
        alloc: Global,
        place: &mut P,
        key: &Key,
    ) -> Result<u64, StoreFault>
        requires numbers { IsTrue P.is_modelled →
            HasNumbers (records self.old.folder (P.at place.old).world) self.old.numbers }

        // The returned number was the next number before the call. After an error the next number
        // is the same as before the call.
        ensures number { MatchResult result (λ number. IsGiven number self.old.next self.new.next)
            (λ e. self.new.next ≡ self.old.next) }
        ensures folder { self.new.folder ≡ self.old.folder }

        // The record is gone. After an error it is gone or unchanged.
        ensures record { IsTrue P.is_modelled →
            DropsRecord P.child key.now result self.old self.new (P.at place.old).world
            (P.at place.new).world }

        // Only the record's file changes, by one call. If no number is left, nothing changes.
        ensures only { ChangesOnlyAt (is_at_or_below (record_path self.old.folder key.now))
            (MayDrop self.old.next) result (P.at place.old) (P.at place.new) }
        ensures calls { CallsOnce (call.Remove (record_path self.old.folder key.now)) result
            (P.at place.old).counts (P.at place.new).counts }
    {
        // The number is checked before the removal: if no number is left, nothing is removed.
        let number = match self.next {
            None => return Err(StoreFault::NumbersSpent),
            Some(number) => number,
        };
        note(alloc, &mut self.numbers, key.as_text(), None)?;
        remove_record(alloc, place, &self.folder, key)?;
        // The number is taken only after the record is gone.
        self.next = number_after(number);
        Ok(number)
    }
}

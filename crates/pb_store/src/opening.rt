//! A store is opened: the records of a folder are read for their run numbers.

ghost use Rattle.std.specs.Prelude.{◌≡◌, ◌∷◌, [], if◌then◌else◌, max, true, IsTrue, IfErr, IfOk, OnOk, option_map};
ghost use Rattle.std.specs.List.{fold};
ghost use Rattle.std.specs.FinMap as map;
ghost use Rattle.pb_place_types.specs.declared.call.Call.TheVariants as call;
ghost use Rattle.pb_record.specs.Numbers.{numbers_of};
ghost use Rattle.pb_store_soundness.specs.Records.{ends_as_record, read_text, reading};
ghost use Rattle.pb_store.specs.Calls.{OpensBy, ReadsOneOf, OnlyOpens};
ghost use Rattle.pb_store.specs.Looking.{OpensLooking, opened_looked, records_looked};
ghost use Rattle.pb_store.specs.Folder.{OpensStore, greatest_if, greatest_at, greatest_of};
ghost use Rattle.pb_store.specs.Presence.{greatest_said, greatest_told, noted, noted_at};

use crate::dropping::number_after;
use crate::fault::{OpenFault, open_error};
use crate::keys::ends_as_record;
use crate::numbers::note_read;
use crate::store::Store;
use pb_data::{Bytes, Items, Table, Text};
use pb_place_types::{PathText, Place};
use pb_record::{Numbers, read_numbers};
use std::alloc::{AllocError, Global};

/// Returns the greater of two numbers.
fn greater(number: u64, other: u64) -> u64
    ensures { result ≡ max number other }
{
    number.max(other)
}

/// Returns the greatest of the numbers by which units are named, or 0 if there is no number.
#[tactic(auto, using(crate::proofs::Ahead::most_step))]
fn greatest_among(needs: &[(Text, u64)]) -> u64
    ensures { result ≡ fold (λ g pair. max g pair.1) 0 needs.now }
{
    let mut greatest = 0;
    for need in needs {
        greatest = greatest.max(need.1);
    }
    greatest
}

/// Returns the greatest of a record's own number and the numbers by which the record names units.
/// Returns 0 if the record has no number.
fn greatest_said(numbered: &Option<(u64, Items<(Text, u64)>)>) -> u64
    ensures { result ≡ greatest_said numbered.now }
{
    match numbered {
        None => 0,
        Some((own, needs)) => {
            let named = greatest_among(needs.as_slice());
            greater(*own, named)
        }
    }
}

/// Returns the greatest number that a record has or names, or 0 if there is no record, or if the
/// record has no number.
fn greatest_told(found: &Option<Numbers>) -> u64
    ensures { result ≡ greatest_told found.now }
{
    match found {
        None => 0,
        Some(numbers) => greatest_said(&numbers.numbered),
    }
}

/// Returns the numbers of the record that a text contains, or none if the text is not a record.
fn numbers_in(alloc: Global, text: &Option<Bytes>) -> Result<Option<Numbers>, AllocError>
    ensures { IfOk result (λ found. found ≡ option_map numbers_of (read_text reading text.now)) }
{
    match text {
        None => Ok(None),
        Some(text) => {
            let found = read_numbers(alloc, text.as_slice())?;
            Ok(found)
        }
    }
}

/// Returns the greatest number that the record at a path has or names. If the record counts, the
/// function notes the record's number.
#[tactic(auto, using(crate::proofs::Numbered::number_laws))]
fn read_greatest<P: Place>(
    alloc: Global,
    place: &mut P,
    folder: &PathText,
    numbers: &mut Table<Option<u64>>,
    path: PathText,
) -> Result<u64, OpenFault>
    requires named { ends_as_record path ≡ true }
    ensures held { IsTrue P.is_modelled →
        OnOk result (numbers.new ≡ noted folder.now path
        (read_text reading (map.get (P.at place.old).world.files path)) numbers.old) }
    ensures ok { IsTrue P.is_modelled →
        IfOk result (λ n. n ≡ greatest_if
        (read_text reading (map.get (P.at place.old).world.files path))) }
    ensures quiet { OnlyOpens result (P.at place.old) (P.at place.new) }
    ensures told { IfErr result (ReadsOneOf (path ∷ [])) }
    ensures looks { OpensLooking result (call.Read path ∷ []) (P.at place.old).counts
        (P.at place.new).counts }
{
    let text = match place.read(alloc, &path) {
        Ok(text) => text,
        Err(fault) => return Err(open_error(path, fault)),
    };
    let found = match numbers_in(alloc, &text) {
        Ok(found) => found,
        Err(_) => return Err(OpenFault::OutOfMemory),
    };
    let greatest = greatest_told(&found);
    match note_read(alloc, numbers, folder, &path, &found) {
        Ok(()) => {
            drop(found);
            Ok(greatest)
        }
        Err(_) => {
            drop(found);
            Err(OpenFault::OutOfMemory)
        }
    }
}

/// If a file has the name of a record, returns the greatest number that the record has or names.
/// For any other file, returns 0. If the record counts, the function notes the record's number.
fn greatest_at<P: Place>(
    alloc: Global,
    place: &mut P,
    folder: &PathText,
    numbers: &mut Table<Option<u64>>,
    path: PathText,
) -> Result<u64, OpenFault>
    ensures held { IsTrue P.is_modelled →
        OnOk result
        (numbers.new ≡ noted_at folder.now (P.at place.old).world.files numbers.old path) }
    ensures ok { IsTrue P.is_modelled →
        IfOk result (λ n. n ≡ greatest_at (P.at place.old).world.files path) }
    ensures quiet { OnlyOpens result (P.at place.old) (P.at place.new) }
    ensures told { IfErr result (ReadsOneOf (path ∷ [])) }
    ensures looks { OpensLooking result
        (if ends_as_record path then call.Read path ∷ [] else [])
        (P.at place.old).counts (P.at place.new).counts }
{
    if !ends_as_record(path.as_str().as_bytes()) {
        return Ok(0);
    }
    read_greatest(alloc, place, folder, numbers, path)
}

/// Returns the greatest number that the records among these files have or name. The numbers of the
/// records that count are noted.
fn greatest_of<P: Place>(
    alloc: Global,
    place: &mut P,
    folder: &PathText,
    numbers: &mut Table<Option<u64>>,
    paths: Items<PathText>,
) -> Result<u64, OpenFault>
    ensures held { IsTrue P.is_modelled →
        OnOk result (numbers.new ≡ fold (noted_at folder.now (P.at place.old).world.files)
        numbers.old paths) }
    ensures ok { IsTrue P.is_modelled →
        IfOk result (λ n. n ≡ greatest_of (P.at place.old).world.files paths) }
    ensures quiet { OnlyOpens result (P.at place.old) (P.at place.new) }
    ensures told { IfErr result (ReadsOneOf paths) }
    ensures looks { OpensLooking result (records_looked paths) (P.at place.old).counts
        (P.at place.new).counts }
{
    let mut greatest = 0;
    for path in paths.into_vec() {
        // Any record may name the greatest number, even a record at another key's path.
        let number = greatest_at(alloc, place, folder, numbers, path)?;
        greatest = greater(greatest, number);
    }
    Ok(greatest)
}

impl Store {
    /// Returns the store of a profile folder. Each record directly in the folder is read once. A
    /// text that is not a record does not count. The next run number is one above the greatest
    /// number that a record contains, even a record at the path of another key. If no record
    /// contains a number, the next run number is 1.
    ///
    /// Errors:
    ///
    /// - `Place` with the path, if the folder cannot be listed or a record cannot be read.
    /// - `OutOfMemory`.
    pub fn open<P: Place>(
        alloc: Global,
        place: &mut P,
        folder: PathText,
    ) -> Result<Store, OpenFault>
        ensures folder { IfOk result (λ store. store.folder ≡ folder) }
        ensures opens { IsTrue P.is_modelled →
            IfOk result (OpensStore folder (P.at place.old).world) }

        // The call only lists the folder and reads each record. An error contains the path.
        ensures quiet { OnlyOpens result (P.at place.old) (P.at place.new) }
        ensures told { IfErr result (OpensBy P.is_modelled folder (P.at place.old).world) }
        ensures looks { IsTrue P.is_modelled →
            OpensLooking result (opened_looked folder (P.at place.old).world)
            (P.at place.old).counts (P.at place.new).counts }
    {
        let paths = match place.list_directly(alloc, &folder) {
            Ok(paths) => paths,
            Err(fault) => return Err(open_error(folder, fault)),
        };
        let mut numbers = Table::new(alloc);
        match greatest_of(alloc, place, &folder, &mut numbers, paths) {
            Ok(greatest) => Ok(Store {
                folder,
                next: number_after(greatest),
                numbers,
            }),
            Err(fault) => {
                drop((folder, numbers));
                Err(fault)
            }
        }
    }
}

//! The records of a profile folder.

ghost use Rattle.std.specs.Prelude.{◌≡◌, ◌∷◌, IsTrue, IfOk, []};
ghost use Rattle.std.specs.FinMap as map;
ghost use Rattle.pb_place_types.specs.declared.call.Call.TheVariants as call;
ghost use Rattle.pb_store_soundness.specs.Records.{record_path, read_text, if_of_key, reading, records};
ghost use Rattle.pb_store.specs.Calls.{OnlyLooks, MayRead};
ghost use Rattle.pb_store.specs.Looking.{Looks};

use crate::fault::{StoreFault, store_error};
use crate::keys::Key;
use pb_data::{Bytes, Table};
use pb_place_types::{PathText, Place, RelativePath};
use pb_record::{Record, read_record};
use std::alloc::{AllocError, Global};

/// The run numbers of the records of a profile folder, and the next number. The store contains no
/// record.
#[derive(Debug, Drop)]
pub struct Store {
    /// The profile folder.
    pub folder: PathText,
    /// The next run number, or `None` if no number is left. This number is above each number that a
    /// record of the folder has or names. This number is also above each number that was taken
    /// since the store was opened.
    pub next: Option<u64>,
    /// The run numbers of the records that count in the folder, by the units' keys. After a failed
    /// removal or write of a record, contracts promise nothing about these numbers.
    pub numbers: Table<Option<u64>>,
}

/// Returns the path of a unit's record.
#[tactic(auto, using(crate::proofs::Writing::record_relative))]
pub(crate) fn record_path(
    alloc: Global,
    folder: &PathText,
    key: &Key,
) -> Result<PathText, AllocError>
    ensures { IfOk result (λ path. path ≡ record_path folder.now key.now) }
{
    let mut name = String::from_str(alloc, key.as_text().as_str())?;
    name.push_str(".record")?;
    let name = RelativePath::name(alloc, name.as_str())?;
    let path = folder.below(alloc, &name)?;
    Ok(path)
}

/// Returns the bytes of a file.
#[tactic(auto, using(crate::proofs::Looking::stops_once))]
pub(crate) fn text_of<P: Place>(
    alloc: Global,
    place: &mut P,
    path: &PathText,
) -> Result<Option<Bytes>, StoreFault>
    ensures ok { IsTrue P.is_modelled →
        IfOk result (λ found. found ≡ map.get (P.at place.old).world.files path.now) }
    ensures quiet { OnlyLooks MayRead result (P.at place.old) (P.at place.new) }
    ensures looks { Looks result (call.Read path.now ∷ []) (P.at place.old).counts
        (P.at place.new).counts }
{
    match place.read(alloc, path) {
        Ok(found) => Ok(found),
        Err(fault) => Err(store_error(fault)),
    }
}

/// Returns the text of a unit's record file.
fn text_at<P: Place>(
    alloc: Global,
    place: &mut P,
    folder: &PathText,
    key: &Key,
) -> Result<Option<Bytes>, StoreFault>
    ensures ok { IsTrue P.is_modelled →
        IfOk result (λ found. found ≡ map.get (P.at place.old).world.files
        (record_path folder.now key.now)) }
    ensures quiet { OnlyLooks MayRead result (P.at place.old) (P.at place.new) }
    ensures looks { Looks result (call.Read (record_path folder.now key.now) ∷ [])
        (P.at place.old).counts (P.at place.new).counts }
{
    let path = match record_path(alloc, folder, key) {
        Ok(path) => path,
        Err(_) => return Err(StoreFault::OutOfMemory),
    };
    text_of(alloc, place, &path)
}

/// Returns the record that a text contains, or none if the text is not a record.
fn read_text(alloc: Global, text: &Option<Bytes>) -> Result<Option<Record>, AllocError>
    ensures { IfOk result (λ found. found ≡ read_text reading text.now) }
{
    match text {
        None => Ok(None),
        Some(text) => {
            let found = read_record(alloc, text.as_slice())?;
            Ok(found)
        }
    }
}

/// Returns a record if the record has this key.
fn if_of_key(found: Option<Record>, key: &Key) -> Option<Record>
    ensures { result ≡ if_of_key key.now found }
{
    match found {
        None => None,
        Some(kept) => {
            if kept.key.as_bytes() == key.as_text().as_bytes() {
                Some(kept)
            } else {
                drop(kept);
                None
            }
        }
    }
}

/// Returns the record that counts for a unit: the record at the unit's path, if it has the unit's
/// key.
#[tactic(auto, unfolding(pb_store_soundness::specs::Records::record_at))]
pub(crate) fn record_at<P: Place>(
    alloc: Global,
    place: &mut P,
    folder: &PathText,
    key: &Key,
) -> Result<Option<Record>, StoreFault>
    ensures ok { IsTrue P.is_modelled →
        IfOk result (λ found. found ≡ records folder.now (P.at place.old).world key.now) }
    ensures quiet { OnlyLooks MayRead result (P.at place.old) (P.at place.new) }
    ensures looks { Looks result (call.Read (record_path folder.now key.now) ∷ [])
        (P.at place.old).counts (P.at place.new).counts }
{
    let _ = key.as_text();
    let text = text_at(alloc, place, folder, key)?;
    match read_text(alloc, &text) {
        Ok(found) => Ok(if_of_key(found, key)),
        Err(_) => Err(StoreFault::OutOfMemory),
    }
}

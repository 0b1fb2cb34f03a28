//! The run numbers in a store, so that no record is read again for its number.

ghost use Rattle.std.specs.Prelude.{◌≡◌, ◌&&◌, Decides, IfErr, IfOk, OnErr, OnOk, Some};
ghost use Rattle.std.specs.Str.{bytes_eq};
ghost use Rattle.pb_data.specs.Table.{with_entry};
ghost use Rattle.pb_store.specs.Differences.{FirstOrAll};
ghost use Rattle.pb_store.specs.Folder.{IsHeld, number_in, or_zero};
ghost use Rattle.pb_store_soundness.specs.Records.{is_key, record_path};
ghost use Rattle.pb_store.specs.Presence.{noted_told, numbered_by, own_said};
ghost use Rattle.pb_store.specs.declared.fault.StoreFault.TheVariants as store_fault;

use crate::fault::StoreFault;
use crate::keys::Key;
use crate::store::record_path;
use pb_data::{Items, Table, Text, TryCopy};
use pb_place_types::PathText;
use pb_record::Numbers;
use std::alloc::{AllocError, Global};

/// Returns the run number of a unit in a table, or none.
fn number_in(numbers: &Table<Option<u64>>, key: &Text) -> Option<u64>
    ensures { result ≡ number_in numbers.now key.now }
{
    match numbers.get(key) {
        None => None,
        Some(number) => *number,
    }
}

/// Returns whether a number was found and is equal to this number.
fn is_number(found: Option<u64>, number: u64) -> bool
    ensures { Decides result (found ≡ Some number) }
{
    match found {
        None => false,
        Some(own) => own == number,
    }
}

/// Returns whether a needed unit has the number by which it is named.
fn is_held(numbers: &Table<Option<u64>>, need: &(Text, u64)) -> bool
    ensures { Decides result (IsHeld numbers.now need.now) }
{
    is_number(number_in(numbers, &need.0), need.1)
}

/// Returns the key of the first needed unit that does not have the number by which it is named.
pub fn first_number(
    alloc: Global,
    numbers: &Table<Option<u64>>,
    needs: &[(Text, u64)],
) -> Result<Option<Text>, AllocError>
    ensures { IfOk result (λ found. FirstOrAll (IsHeld numbers.now) needs.now found) }
{
    for need in needs {
        if !is_held(numbers, need) {
            return match need.0.copy(alloc) {
                Ok(key) => Ok(Some(key)),
                Err(fault) => Err(fault),
            };
        }
    }
    Ok(None)
}

/// Returns a number, or 0 if there is no number.
fn or_zero(found: Option<u64>) -> u64
    ensures { result ≡ or_zero found }
{
    match found {
        None => 0,
        Some(number) => number,
    }
}

/// Returns a needed unit with its number from a table.
fn numbered_one(
    alloc: Global,
    numbers: &Table<Option<u64>>,
    key: &Text,
) -> Result<(Text, u64), AllocError>
    ensures { IfOk result (λ pair. pair ≡ (key.now, or_zero (number_in numbers.now key.now))) }
{
    let name = key.copy(alloc)?;
    Ok((name, or_zero(number_in(numbers, key))))
}

/// Returns the needed units with their numbers from a table.
pub(crate) fn with_numbers(
    alloc: Global,
    numbers: &Table<Option<u64>>,
    needs: &[Text],
) -> Result<Items<(Text, u64)>, AllocError>
    ensures { IfOk result (λ pairs. pairs ≡ numbered_by numbers.now needs.now) }
{
    let mut pairs = Items::new(alloc);
    for need in needs {
        pairs.push(numbered_one(alloc, numbers, need)?)?;
    }
    Ok(pairs)
}

/// Notes the number of a unit's record, or that there is no number.
///
/// Errors: only `OutOfMemory`.
pub(crate) fn note(
    alloc: Global,
    numbers: &mut Table<Option<u64>>,
    key: &Text,
    number: Option<u64>,
) -> Result<(), StoreFault>
    ensures ok { OnOk result (numbers.new ≡ with_entry numbers.old key.now number) }
    ensures err { OnErr result (numbers.new ≡ numbers.old) }
    ensures fault { IfErr result (λ e. e ≡ store_fault.OutOfMemory) }
{
    let name = match key.copy(alloc) {
        Ok(name) => name,
        Err(_) => return Err(StoreFault::OutOfMemory),
    };
    match numbers.insert(name, number) {
        Ok(()) => Ok(()),
        Err(_) => Err(StoreFault::OutOfMemory),
    }
}

/// Returns whether a path is the path of a unit's record.
fn is_record_path(
    alloc: Global,
    folder: &PathText,
    key: &Text,
    path: &PathText,
) -> Result<bool, AllocError>
    ensures { IfOk result
        (λ is. is ≡ is_key key.now && bytes_eq (record_path folder.now key.now) path.now) }
{
    let key = match Key::parse(key.copy(alloc)?) {
        Some(key) => key,
        None => return Ok(false),
    };
    let wanted = record_path(alloc, folder, &key)?;
    Ok(wanted.as_str().as_bytes() == path.as_str().as_bytes())
}

/// Returns a record's own run number, or none.
fn own_number(said: &Numbers) -> Option<u64>
    ensures { result ≡ own_said said.now.numbered }
{
    match &said.numbered {
        Some((own, _)) => Some(*own),
        None => None,
    }
}

/// Notes the number of a record that was read at a path, if the path belongs to the record's key.
///
/// Errors: only `OutOfMemory`.
pub(crate) fn note_read(
    alloc: Global,
    numbers: &mut Table<Option<u64>>,
    folder: &PathText,
    path: &PathText,
    found: &Option<Numbers>,
) -> Result<(), StoreFault>
    ensures ok { OnOk result
        (numbers.new ≡ noted_told folder.now path.now found.now numbers.old) }
    ensures fault { IfErr result (λ e. e ≡ store_fault.OutOfMemory) }
{
    let said = match found {
        None => return Ok(()),
        Some(said) => said,
    };
    match is_record_path(alloc, folder, &said.key, path) {
        Ok(true) => note(alloc, numbers, &said.key, own_number(said)),
        Ok(false) => Ok(()),
        Err(_) => Err(StoreFault::OutOfMemory),
    }
}

//! The run numbers of a record, read from its text. The rest of the text is checked, but no values
//! are made from the rest.

ghost use Rattle.std.specs.Prelude.{◌++◌, codes, Decides, IfOk, MatchOption};
ghost use Rattle.pb_record.specs.Grammar.{line};
ghost use Rattle.pb_record.specs.Numbers.{AreNumbersOf, SaysNumbers};
ghost use Rattle.pb_record.specs.Parts.{Says};
ghost use Rattle.pb_record.specs.Whole.{EndsInNeeds, IsEnd, IsRest, RestParts};
ghost use Rattle.pb_record.specs.declared.record.Record.{Record};

use crate::front::after;
use crate::part::Part;
use crate::record::Input;
use crate::recorded_command::RecordedCommand;
use pb_data::{Bytes, Items, Text};
use pb_place_types::RelativePath;
use std::alloc::{AllocError, Global};

/// The run numbers in a record.
#[derive(Drop)]
pub struct Numbers {
    /// The key of the record's unit.
    pub key: Text,
    /// The record's own run number, and the run numbers of the needed units. `None` if the record
    /// has format 1.
    pub numbered: Option<(u64, Items<(Text, u64)>)>,
}

/// The parts of a record of format 1 after its key.
type CopiedRest = (
    RecordedCommand,
    (
        Items<Input>,
        (Items<(Text, Items<(RelativePath, Bytes)>)>, (Bytes, Bytes)),
    ),
);

/// Returns whether a text consists of two streams and the line `end`.
fn is_end(alloc: Global, text: &[u8]) -> Result<bool, AllocError>
    ensures { IfOk result (λ is. Decides is (IsEnd text.now)) }
{
    match <(Bytes, Bytes) as Part>::skip(alloc, text) {
        Ok(Some(rest)) => Ok(rest == b"end\n".as_slice()),
        Ok(None) => Ok(false),
        Err(fault) => Err(fault),
    }
}

/// Returns the needed units of a record of format 2, from its text after the key. The result is
/// `None` if the text does not have this form.
fn needs_at(alloc: Global, text: &[u8]) -> Result<Option<Items<(Text, u64)>>, AllocError>
    ensures { IfOk result (λ found. MatchOption found
        ((p : RestParts) → IsRest text.now p → ⊥) (λ needs. EndsInNeeds text.now needs)) }
{
    let Some(behind) = <(RecordedCommand, Items<Input>) as Part>::skip(alloc, text)? else {
        return Ok(None);
    };
    let found: Option<(Items<(Text, u64)>, &[u8])> = Part::read(alloc, behind)?;
    match found {
        Some((needs, rest)) => {
            if is_end(alloc, rest)? {
                Ok(Some(needs))
            } else {
                Ok(None)
            }
        }
        None => Ok(None),
    }
}

/// Returns the numbers of a record of format 2, from its text after the first line.
fn numbers_numbered(alloc: Global, text: &[u8]) -> Result<Option<Numbers>, AllocError>
    ensures { IfOk result (λ found. MatchOption found
        ((r : Record) → Says (line (codes "record 2") ++ text.now) r → ⊥)
        (λ numbers. SaysNumbers (line (codes "record 2") ++ text.now) numbers)) }
{
    let found: Option<((u64, Text), &[u8])> = Part::read(alloc, text)?;
    let Some((head, rest)) = found else {
        return Ok(None);
    };
    match needs_at(alloc, rest)? {
        Some(needs) => {
            let (own, key) = head;
            Ok(Some(Numbers {
                key,
                numbered: Some((own, needs)),
            }))
        }
        None => Ok(None),
    }
}

/// Returns the `Numbers` of a record of format 1, from its text after the first line. The result
/// contains only the key of the record's unit, since such a record has no run numbers.
fn numbers_copied(alloc: Global, text: &[u8]) -> Result<Option<Numbers>, AllocError>
    ensures { IfOk result (λ found. MatchOption found
        ((r : Record) → Says (line (codes "record 1") ++ text.now) r → ⊥)
        (λ numbers. SaysNumbers (line (codes "record 1") ++ text.now) numbers)) }
{
    let found: Option<(Text, &[u8])> = Part::read(alloc, text)?;
    let Some((key, behind)) = found else {
        return Ok(None);
    };
    match CopiedRest::skip(alloc, behind)? {
        Some(rest) => {
            if rest == b"end\n".as_slice() {
                Ok(Some(Numbers {
                    key,
                    numbered: None,
                }))
            } else {
                Ok(None)
            }
        }
        None => Ok(None),
    }
}

/// Returns the numbers of a text's record. The first line of the text names the format.
fn numbers_by_format(alloc: Global, text: &[u8]) -> Result<Option<Numbers>, AllocError>
    ensures { IfOk result (λ found. MatchOption found ((r : Record) → Says text.now r → ⊥)
        (λ numbers. SaysNumbers text.now numbers)) }
{
    if let Some(rest) = after(b"record 2\n", text) {
        return numbers_numbered(alloc, rest);
    }
    if let Some(rest) = after(b"record 1\n", text) {
        return numbers_copied(alloc, rest);
    }
    Ok(None)
}

/// Returns the run numbers of the record of a text, or `None` if the text is not a record. The
/// result is `None` if and only if `read_record` returns `None`.
///
/// Errors: only out of memory.
pub fn read_numbers(alloc: Global, text: &[u8]) -> Result<Option<Numbers>, AllocError>
    ensures { IfOk result (AreNumbersOf text.now) }
{
    let found = numbers_by_format(alloc, text)?;
    Ok(found)
}

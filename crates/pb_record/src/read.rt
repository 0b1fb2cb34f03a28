//! Reads a record from its text.

ghost use Rattle.std.specs.Prelude.{◌≡◌, ◌++◌, codes, ℕ, List, Option, IfOk, MatchOption};
ghost use Rattle.pb_record.specs.Grammar.{line};
ghost use Rattle.pb_record.specs.Parts.{Says, ReadsAs, FindsAsReading};
ghost use Rattle.pb_record.specs.Whole.{numbered_of, copied_of};
ghost use Rattle.pb_record.specs.declared.record.Record.{Record};

use crate::front::after;
use crate::part::Part;
use crate::record::{Input, Needed, Record};
use crate::recorded_command::RecordedCommand;
use pb_data::{Bytes, Items, Text};
use pb_place_types::RelativePath;
use std::alloc::{AllocError, Global};

/// The parts of a record of format 2, in the order of its text.
type NumberedParts = (
    u64,
    (
        Text,
        (
            RecordedCommand,
            (Items<Input>, (Items<(Text, u64)>, (Bytes, Bytes))),
        ),
    ),
);

/// The files of a folder.
type Files = Items<(RelativePath, Bytes)>;

/// The parts of a record of format 1, in the order of its text.
type CopiedParts = (
    Text,
    (
        RecordedCommand,
        (Items<Input>, (Items<(Text, Files)>, (Bytes, Bytes))),
    ),
);

/// Returns the part with which a text begins, if the rest of the text is the line `end`.
fn whole<T: Part>(alloc: Global, text: &[u8]) -> Result<Option<T>, AllocError>
    ensures { IfOk result (λ found.
        MatchOption found ((x : T) → T.is_part x → text.now ≡ T.spelled x ++ line (codes "end") →
        ⊥) (λ x. T.is_part x × (text.now ≡ T.spelled x ++ line (codes "end")))) }
{
    T::spells();
    match T::read(alloc, text) {
        Ok(Some((part, rest))) => {
            if rest == b"end\n".as_slice() {
                Ok(Some(part))
            } else {
                Ok(None)
            }
        }
        Ok(None) => Ok(None),
        Err(fault) => Err(fault),
    }
}

/// Returns the record of format 2 that has these parts.
fn numbered_of(parts: NumberedParts) -> Record
    ensures { result ≡ numbered_of parts }
{
    let (own, (key, (asked, (inputs, (needs, (stdout, stderr)))))) = parts;
    Record {
        key,
        asked,
        inputs,
        needed: Needed::Numbers(own, needs),
        stdout,
        stderr,
    }
}

/// Returns the record of format 1 that has these parts.
fn copied_of(parts: CopiedParts) -> Record
    ensures { result ≡ copied_of parts }
{
    let (key, (asked, (inputs, (copies, (stdout, stderr))))) = parts;
    Record {
        key,
        asked,
        inputs,
        needed: Needed::Copies(copies),
        stdout,
        stderr,
    }
}

/// Returns the record of format 2 that has this text after its first line, if there is such a
/// record.
fn read_numbered(alloc: Global, text: &[u8]) -> Result<Option<Record>, AllocError>
    ensures { IfOk result (λ found.
        MatchOption found ((r : Record) → Says (line (codes "record 2") ++ text.now) r →
        ⊥) (λ r. Says (line (codes "record 2") ++ text.now) r)) }
{
    match whole::<NumberedParts>(alloc, text) {
        Ok(Some(parts)) => Ok(Some(numbered_of(parts))),
        Ok(None) => Ok(None),
        Err(fault) => Err(fault),
    }
}

/// Returns the record of format 1 that has this text after its first line, if there is such a
/// record.
fn read_copied(alloc: Global, text: &[u8]) -> Result<Option<Record>, AllocError>
    ensures { IfOk result (λ found.
        MatchOption found ((r : Record) → Says (line (codes "record 1") ++ text.now) r →
        ⊥) (λ r. Says (line (codes "record 1") ++ text.now) r)) }
{
    match whole::<CopiedParts>(alloc, text) {
        Ok(Some(parts)) => Ok(Some(copied_of(parts))),
        Ok(None) => Ok(None),
        Err(fault) => Err(fault),
    }
}

/// Returns the record of a text. The first line of the text names the format.
fn read_by_format(alloc: Global, text: &[u8]) -> Result<Option<Record>, AllocError>
    ensures { IfOk result (λ found.
        MatchOption found ((r : Record) → Says text.now r → ⊥) (λ r. Says text.now r)) }
{
    if let Some(rest) = after(b"record 2\n", text) {
        return read_numbered(alloc, rest);
    }
    if let Some(rest) = after(b"record 1\n", text) {
        return read_copied(alloc, rest);
    }
    Ok(None)
}

/// Returns the record of a text, or `None` if the text is not exactly what `write_record` writes
/// for some record. The format is our own, in two versions. The first line names the version.
///
/// Errors: only out of memory.
pub fn read_record(alloc: Global, text: &[u8]) -> Result<Option<Record>, AllocError>
    ensures reads { IfOk result (λ found. ReadsAs text.now found) }
    ensures found { IfOk result (λ found.
        (read : List ℕ → Option Record) → FindsAsReading read → found ≡ read text.now) }
{
    let found = read_by_format(alloc, text)?;
    Ok(found)
}

//! Writes a record as its text.

ghost use Rattle.std.specs.Prelude.{◌≡◌, ◌++◌, ◌<◌, codes, ℕ, List, length, take, Option, Some, None, IfOk, OnOk};
ghost use Rattle.std.specs.List.{AllByRecursion, concat};
ghost use Rattle.std.specs.Str.{IsUtf8};
ghost use Rattle.pb_record.specs.Grammar.{◌⨾◌, line, block, listed, asked_bytes, input_bytes, bytes_by, record_bytes};
ghost use Rattle.pb_record.specs.Parts.{Says, FindsAsReading, IsAsked, IsInput, AreNeeded, IsRecord};
ghost use Rattle.pb_record.specs.declared.record.Needed.TheVariants.{Copies, Numbers};
ghost use Rattle.pb_record.specs.declared.record.Record.{Record};

use crate::part::Part;
use crate::pieces::Pieces;
use crate::put::Put;
use crate::record::{Needed, Record};
use crate::room::room_for;
use pb_data::{Bytes, Items, Text};
use pb_place_types::RelativePath;
use std::alloc::{AllocError, Global};

/// Adds the parts of a record that come before the needed units.
fn push_front(out: &mut Vec<u8>, kept: &Record) -> Result<(), AllocError>
    ensures written { OnOk result (out.new.items ≡ out.old.items
        ++ (block kept.now.key ⨾ asked_bytes kept.now.asked ⨾ listed input_bytes kept.now.inputs)) }
    ensures is { OnOk result (IsUtf8 kept.now.key × IsAsked kept.now.asked
        × AllByRecursion IsInput kept.now.inputs) }
{
    kept.key.write(out)?;
    kept.asked.write(out)?;
    kept.inputs.write(out)?;
    Ok(())
}

/// Adds the parts of a record that come after the needed units.
fn push_end(out: &mut Vec<u8>, kept: &Record) -> Result<(), AllocError>
    ensures { OnOk result (out.new.items ≡ out.old.items
        ++ (block kept.now.stdout ⨾ block kept.now.stderr ⨾ line (codes "end"))) }
{
    kept.stdout.write(out)?;
    kept.stderr.write(out)?;
    out.extend_from_slice(b"end\n")?;
    Ok(())
}

/// Adds a record of format 2 with this number and these needed units.
fn push_numbered(
    out: &mut Vec<u8>,
    kept: &Record,
    own: &u64,
    needs: &Items<(Text, u64)>,
) -> Result<(), AllocError>
    ensures written { OnOk result (out.new.items ≡ out.old.items
        ++ bytes_by kept.now (Numbers own.now needs.now)) }
    ensures is { OnOk result (IsUtf8 kept.now.key × IsAsked kept.now.asked
        × AllByRecursion IsInput kept.now.inputs) }
    ensures are { OnOk result (AreNeeded (Numbers own.now needs.now)) }
{
    out.extend_from_slice(b"record 2\n")?;
    own.write(out)?;
    push_front(out, kept)?;
    needs.write(out)?;
    push_end(out, kept)?;
    Ok(())
}

/// Adds a record of format 1 with these copies.
fn push_copied(
    out: &mut Vec<u8>,
    kept: &Record,
    copies: &Items<(Text, Items<(RelativePath, Bytes)>)>,
) -> Result<(), AllocError>
    ensures written { OnOk result (out.new.items ≡ out.old.items
        ++ bytes_by kept.now (Copies copies.now)) }
    ensures is { OnOk result (IsUtf8 kept.now.key × IsAsked kept.now.asked
        × AllByRecursion IsInput kept.now.inputs) }
    ensures are { OnOk result (AreNeeded (Copies copies.now)) }
{
    out.extend_from_slice(b"record 1\n")?;
    push_front(out, kept)?;
    copies.write(out)?;
    push_end(out, kept)?;
    Ok(())
}

/// Adds a record.
fn push_record(out: &mut Vec<u8>, kept: &Record) -> Result<(), AllocError>
    ensures written { OnOk result (out.new.items ≡ out.old.items ++ record_bytes kept.now) }
    ensures is { OnOk result (IsRecord kept.now) }
{
    match &kept.needed {
        Needed::Numbers(own, needs) => {
            push_numbered(out, kept, own, needs)?;
            Ok(())
        }
        Needed::Copies(copies) => {
            push_copied(out, kept, copies)?;
            Ok(())
        }
    }
}

/// Returns the text of a record, and takes memory for it once.
fn text_of(alloc: Global, kept: &Record) -> Result<Bytes, AllocError>
    ensures { IfOk result (λ text. Says text kept.now) }
{
    let mut out = Vec::with_capacity(alloc, room_for(kept))?;
    push_record(&mut out, kept)?;
    Ok(Bytes::new(out))
}

/// Returns the text of a record, from which `read_record` reads the same record again. The format
/// is our own, in two versions: with the numbers of the needed units, or with copies of their
/// files. A torn write leaves only a prefix of the text, which `read_record` does not accept as a
/// record.
///
/// Errors: only out of memory.
pub fn write_record(alloc: Global, kept: &Record) -> Result<Bytes, AllocError>
    ensures says { IfOk result (λ text. Says text kept.now) }
    ensures read { IfOk result (λ text.
        (read : List ℕ → Option Record) → FindsAsReading read → read text ≡ Some kept.now) }
    ensures torn { IfOk result (λ text.
        (read : List ℕ → Option Record) → FindsAsReading read →
        (n : ℕ) → n < length text → read (take n text) ≡ None) }
{
    let text = text_of(alloc, kept)?;
    Ok(text)
}

/// Returns a text in pieces. The text consists of a first line, a part, and the line `end`.
fn pieces_of<T: Put>(alloc: Global, first: &[u8], part: T) -> Result<Items<Bytes>, AllocError>
    ensures { IfOk result (λ pieces. T.is_part part
        × (concat pieces ≡ first.now ++ (T.spelled part ++ line (codes "end")))) }
{
    let mut out = Pieces::new(alloc);
    out.push(first)?;
    part.put(&mut out)?;
    out.push(b"end\n")?;
    out.into_items()
}

/// Returns the text of a record in pieces. If the pieces are joined in order, the result is what
/// `write_record` returns. A value of many bytes is moved, so no memory is taken for a copy of the
/// value.
///
/// Errors: only out of memory.
pub fn write_record_pieces(alloc: Global, kept: Record) -> Result<Items<Bytes>, AllocError>
    ensures { IfOk result (λ pieces. Says (concat pieces) kept) }
{
    let Record {
        key,
        asked,
        inputs,
        needed,
        stdout,
        stderr,
    } = kept;
    match needed {
        Needed::Numbers(own, needs) => {
            let parts = (own, (key, (asked, (inputs, (needs, (stdout, stderr))))));
            pieces_of(alloc, b"record 2\n", parts)
        }
        Needed::Copies(copies) => {
            let parts = (key, (asked, (inputs, (copies, (stdout, stderr)))));
            pieces_of(alloc, b"record 1\n", parts)
        }
    }
}

//! Blocks of bytes: texts, paths and bytes in a record.

ghost use Rattle.std.specs.Prelude.{◌≡◌, ◌++◌, ◌∷◌, List, ℕ, length, OnOk, MatchOption};
ghost use Rattle.std.specs.Str.{IsUtf8};
ghost use Rattle.pb_record.specs.Grammar.{block};
ghost use Rattle.pb_record.specs.Parts.{IsAny, IsUtf8Path, IsInside};
ghost use Rattle.pb_record.specs.Reading.{BeginsWith, StandsNone};

use crate::number::{number_at, push_number};
use std::alloc::AllocError;

/// Returns n bytes that are followed by a line feed, and what comes after the line feed.
fn cut_block(text: &[u8], count: u64) -> Option<(&[u8], &[u8])>
    ensures { MatchOption result ((bytes rest : List ℕ) → length bytes ≡ count → text.now ≡ bytes
        ++ 10 ∷ rest → ⊥) (λ p. (length p.0.now ≡ count) × (text.now ≡ p.0.now ++ 10 ∷ p.1.now)) }
{
    if count >= text.len() as u64 {
        return None;
    }
    let (bytes, after) = text.split_at(count as usize);
    match after {
        [b'\n', rest @ ..] => Some((bytes, rest)),
        _ => None,
    }
}

/// Returns the block with which a text begins, and what comes after the block.
pub(crate) fn block_at(text: &[u8]) -> Option<(&[u8], &[u8])>
    ensures { MatchOption result (StandsNone IsAny block text.now) (λ p.
        BeginsWith IsAny block text.now p.0.now p.1.now) }
{
    let (count, after) = number_at(text)?;
    cut_block(after, count)
}

/// Returns the block with which a text begins, if the block is UTF-8, and what comes after the
/// block.
pub(crate) fn text_at(text: &[u8]) -> Option<(&str, &[u8])>
    ensures { MatchOption result (StandsNone IsUtf8 block text.now) (λ p.
        BeginsWith IsUtf8 block text.now p.0.now p.1.now) }
{
    let (bytes, rest) = block_at(text)?;
    match std::str::from_utf8(bytes) {
        Ok(inside) => Some((inside, rest)),
        Err(_) => None,
    }
}

/// Adds a block at the end of a text.
pub(crate) fn push_block(out: &mut Vec<u8>, bytes: &[u8]) -> Result<(), AllocError>
    ensures { OnOk result (out.new.items ≡ out.old.items ++ block bytes.now) }
{
    push_number(out, bytes.len() as u64)?;
    out.extend_from_slice(bytes)?;
    out.extend_from_slice(b"\n")?;
    Ok(())
}

//! Numbers as parts of a record: how they are read and written.

ghost use Rattle.std.specs.Prelude.{◌≡◌, ◌++◌, ◌∷◌, ◌<◌, ◌^◌, ℕ, List, OnOk, MatchOption};
ghost use Rattle.pb_record.specs.Grammar.{number, decimals};
ghost use Rattle.pb_record.specs.Parts.{IsNumber};
ghost use Rattle.pb_record.specs.Reading.{BeginsWith, StandsNone, HasNoFeed, begins_well};

use itoa::Buffer;
use std::alloc::AllocError;

/// Returns the text before the first line feed, and the text after this line feed.
fn split_line(text: &[u8]) -> Option<(&[u8], &[u8])>
    ensures { MatchOption result ((line rest : List ℕ) → text.now ≡ line ++ 10 ∷ rest →
        ⊥) (λ p. (text.now ≡ p.0.now ++ 10 ∷ p.1.now) × HasNoFeed p.0.now) }
{
    for i in 0..text.len() {
        if text[i] == b'\n' {
            return Some((&text[..i], &text[i + 1..]));
        }
    }
    None
}

/// Returns whether bytes begin as a number does. The first byte exists and is not `+`. The first
/// byte is `0` only if no other byte follows.
fn begins_well(digits: &[u8]) -> bool
    ensures { result ≡ begins_well digits.now }
{
    match digits {
        [] => false,
        [first] => *first != b'+',
        [first, _, ..] => *first != b'+' && *first != b'0',
    }
}

/// Returns the number that these digits spell, or `None` if no number below 2 ^ 64 has these
/// digits.
fn number_of(digits: &[u8]) -> Option<u64>
    ensures { MatchOption result ((n : ℕ) → n < 2 ^ 64 → digits.now ≡ decimals n →
        ⊥) (λ n. (n < 2 ^ 64) × (digits.now ≡ decimals n)) }
{
    if !begins_well(digits) {
        return None;
    }
    match std::str::from_utf8(digits) {
        Ok(text) => text.parse::<u64>().ok(),
        Err(_) => None,
    }
}

/// Returns the number with which a text begins, and what follows the number. Returns `None` if the
/// text does not begin with a number below 2 ^ 64.
pub(crate) fn number_at(text: &[u8]) -> Option<(u64, &[u8])>
    ensures { MatchOption result (StandsNone IsNumber number text.now) (λ p.
        BeginsWith IsNumber number text.now p.0 p.1.now) }
{
    let (digits, rest) = split_line(text)?;
    let n = number_of(digits)?;
    Some((n, rest))
}

/// Adds a number at the end of a text.
pub(crate) fn push_number(out: &mut Vec<u8>, n: u64) -> Result<(), AllocError>
    ensures { OnOk result (out.new.items ≡ out.old.items ++ number n) }
{
    let mut buffer = Buffer::new();
    out.extend_from_slice(buffer.format(n).as_bytes())?;
    out.extend_from_slice(b"\n")?;
    Ok(())
}

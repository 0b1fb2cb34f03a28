//! A part of a record, which is read from the beginning of a text and written at the end of a text.

ghost use Rattle.std.specs.Prelude.{◌≡◌, ◌++◌, List, ℕ, IfOk, OnOk, MatchOption};
ghost use Rattle.pb_record.specs.Reading.{BeginsWith, StandsNone, StandsSome, IsSpelling};

use std::alloc::{AllocError, Global};

/// A part of a record.
pub trait Part: Drop {
    /// The condition that a part of this kind satisfies.
    ghost is_part: { Self → Type 0 };

    /// The bytes of the part.
    ghost spelled: { Self → List ℕ };

    /// Returns the part with which a text begins, and what follows the part. Returns `None` if the
    /// text does not begin with a part of this kind.
    ///
    /// Errors: only out of memory.
    fn read(alloc: Global, text: &[u8]) -> Result<Option<(Self, &[u8])>, AllocError>
        ensures { IfOk result (λ found.
            MatchOption found (StandsNone is_part spelled text.now) (λ p.
            BeginsWith is_part spelled text.now p.0 p.1.now)) };

    /// Returns what follows the part with which a text begins, or `None` if the text does not begin
    /// with a part of this kind. The result is the rest that `read` returns, but the part need not
    /// be made.
    ///
    /// Errors: only out of memory.
    fn skip(alloc: Global, text: &[u8]) -> Result<Option<&[u8]>, AllocError>
        ensures { IfOk result (λ found. MatchOption found (StandsNone is_part spelled text.now)
            (λ rest. StandsSome is_part spelled text.now rest.now)) }
    {
        match Self::read(alloc, text) {
            Ok(Some((part, rest))) => {
                drop(part);
                Ok(Some(rest))
            }
            Ok(None) => Ok(None),
            Err(fault) => Err(fault),
        }
    }

    /// Adds the bytes at the end of a text.
    ///
    /// Errors: only out of memory. Then the text ends with a prefix of the bytes.
    fn write(&self, out: &mut Vec<u8>) -> Result<(), AllocError>
        ensures written { OnOk result (out.new.items ≡ out.old.items ++ spelled self.now) }
        ensures is { OnOk result (is_part self.now) };

    /// Does nothing; its contract states that the bytes of a part determine where the part ends.
    fn spells()
        ensures { IsSpelling spelled };
}

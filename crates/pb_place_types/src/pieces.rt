//! The bytes of a file in pieces.

ghost use Rattle.std.specs.Prelude.{◌≡◌, IfOk, length, min};
ghost use Rattle.std.specs.List.{concat};

use pb_data::Bytes;
use std::alloc::{AllocError, Global};

/// Returns how many bytes some pieces have together, at most `u64::MAX`. The call takes no memory.
pub fn length_of(pieces: &[Bytes]) -> u64
    ensures { result ≡ min (length (concat pieces.now)) 0xffff_ffff_ffff_ffff }
{
    let mut length = 0u64;
    for piece in pieces {
        length = length.saturating_add(piece.as_slice().len() as u64);
    }
    length
}

/// Returns the bytes of some pieces, joined in order. Memory for the result is taken once.
///
/// Errors: out of memory only.
pub fn join_pieces(alloc: Global, pieces: &[Bytes]) -> Result<Bytes, AllocError>
    ensures { IfOk result (λ whole. whole ≡ concat pieces.now) }
{
    let mut whole = Vec::with_capacity(alloc, length_of(pieces) as usize)?;
    for piece in pieces {
        whole.extend_from_slice(piece.as_slice())?;
    }
    Ok(Bytes::new(whole))
}

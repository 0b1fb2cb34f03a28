//! Bytes that grow at their end.

ghost use Rattle.std.specs.Prelude.{◌≡◌, [], ◌++◌, OnOk};

use pb_data::Bytes;
use std::alloc::{AllocError, Global};
use std::marker::Model;

/// Bytes that grow at their end. Contracts see the bytes as a list.
#[derive(Drop)]
pub struct Buffer {
    inside: Vec<u8>,
}

impl Model for Buffer {
    ghost use Rattle.std.specs.Prelude.{ℕ, List};

    ghost Value = { List ℕ };

    ghost view = { λ a. a.inside.items };
}

impl Buffer {
    /// Returns an empty buffer. No memory is used.
    pub(crate) fn new(alloc: Global) -> Buffer
        ensures { result ≡ [] }
    {
        Buffer {
            inside: Vec::new(alloc),
        }
    }

    /// Appends bytes.
    pub(crate) fn push(&mut self, bytes: &[u8]) -> Result<(), AllocError>
        ensures { OnOk result (self.new ≡ self.old ++ bytes.now) }
    {
        self.inside.extend_from_slice(bytes)?;
        Ok(())
    }

    /// Returns the bytes as a slice.
    pub(crate) fn as_slice(&self) -> &[u8]
        ensures { result.now ≡ self.now }
    {
        self.inside.as_slice()
    }

    /// Returns the bytes. No memory is used.
    pub(crate) fn into_bytes(self) -> Bytes
        ensures { result ≡ self }
    {
        Bytes::new(self.inside)
    }
}

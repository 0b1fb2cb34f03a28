//! Paths as manifests write them.

ghost use Rattle.std.specs.Prelude.{◌≡◌, false, if◌then◌else◌, Some, None};
ghost use Rattle.pb_manifest_types.specs.Letters.{has_zero};

use crate::letters::has_zero;
use pb_data::{Text, TryCopy};
use std::alloc::{AllocError, Global};
use std::marker::Model;

/// A path as a manifest writes it: any text without byte 0, even the empty text. Contracts see the
/// text.
#[derive(Drop)]
pub struct WrittenPath {
    text: Text,
}

impl Model for WrittenPath {
    ghost use Rattle.std.specs.Prelude.{ℕ, List, ◌≡◌, false};
    ghost use Rattle.pb_manifest_types.specs.Letters.{has_zero};

    ghost Value = { List ℕ };

    ghost view = { λ p. p.text };

    ghost invariant = { λ p. has_zero p.text ≡ false };
}

impl WrittenPath {
    /// Returns the path of a text, or `None` if and only if the text contains byte 0. The call
    /// takes no memory.
    pub fn new(text: Text) -> Option<WrittenPath>
        ensures { result ≡ (if has_zero text then None else Some text) }
    {
        if has_zero(text.as_str()) {
            None
        } else {
            Some(WrittenPath { text })
        }
    }

    /// Returns the path as the manifest writes it.
    pub fn as_str(&self) -> &str
        ensures text { result.now ≡ self.now }
        ensures whole { has_zero self.now ≡ false }
    {
        self.text.as_str()
    }
}

impl TryCopy for WrittenPath {
    fn copy(&self, alloc: Global) -> Result<WrittenPath, AllocError> {
        let text = self.text.copy(alloc)?;
        Ok(WrittenPath { text })
    }
}

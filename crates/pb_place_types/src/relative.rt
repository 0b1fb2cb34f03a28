//! Paths inside a folder.

ghost use Rattle.std.specs.Prelude.{◌≡◌, true, IfOk, if◌then◌else◌, Some, None};
ghost use Rattle.pb_place_types.specs.Paths.{is_name, is_relative};

use crate::path::{has_byte_0, stays};
use pb_data::{Text, TryCopy};
use std::alloc::{AllocError, Global};
use std::marker::Model;

/// A path inside some folder: names with a slash between them. No name is empty, `.` or `..`, and
/// no name contains byte 0. Therefore the path cannot name anything outside that folder. Contracts
/// see the UTF-8 bytes of the path.
#[derive(Debug, Drop)]
pub struct RelativePath {
    inside: Text,
}

impl Model for RelativePath {
    ghost use Rattle.std.specs.Prelude.{ℕ, List, ◌≡◌, true};

    ghost Value = { List ℕ };

    ghost use Rattle.pb_place_types.specs.Paths.{is_relative};

    ghost view = { λ a. a.inside };

    ghost invariant = { λ a. is_relative a.inside ≡ true };
}

/// Returns whether a part is the name of a file or folder.
fn is_name(part: &str) -> bool
    ensures { result ≡ is_name part.now }
{
    !(stays(part) || part == ".." || has_byte_0(part))
}

/// Returns whether the parts of a text are all names. The call takes no memory.
pub(crate) fn is_relative(text: &str) -> bool
    ensures { result ≡ is_relative text.now }
{
    for part in text.split('/') {
        if !is_name(part) {
            return false;
        }
    }
    true
}

impl RelativePath {
    /// Returns a name as a relative path.
    ///
    /// Errors: out of memory only.
    ///
    /// Requires: the name is a relative path.
    pub fn name(alloc: Global, name: &str) -> Result<RelativePath, AllocError>
        requires { is_relative name.now ≡ true }
        ensures { IfOk result (λ relative. relative ≡ name.now) }
    {
        Ok(RelativePath {
            inside: Text::from_str(alloc, name)?,
        })
    }

    /// Returns a text as a relative path, or `None` if the text is not a relative path. No memory
    /// is used.
    pub fn of(text: Text) -> Option<RelativePath>
        ensures { result ≡ (if is_relative text then Some text else None) }
    {
        if !is_relative(text.as_str()) {
            return None;
        }
        Some(RelativePath { inside: text })
    }

    /// Returns the same as `of`, for callers that have an allocator. No memory is used, and no
    /// error is returned.
    pub fn new(_alloc: Global, text: Text) -> Result<Option<RelativePath>, AllocError>
        ensures { IfOk result (λ found. found ≡ (if is_relative text then Some text else None)) }
    {
        Ok(RelativePath::of(text))
    }

    /// Returns the path as an owned text.
    pub fn into_text(self) -> Text
        ensures path { result ≡ self }
        ensures relative { is_relative self ≡ true }
    {
        self.inside
    }

    /// Returns the path as a text.
    pub fn as_str(&self) -> &str
        ensures path { result.now ≡ self.now }
        ensures relative { is_relative self.now ≡ true }
    {
        self.inside.as_str()
    }
}

impl TryCopy for RelativePath {
    fn copy(&self, alloc: Global) -> Result<RelativePath, AllocError> {
        Ok(RelativePath {
            inside: self.inside.copy(alloc)?,
        })
    }
}

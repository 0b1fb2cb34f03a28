//! Parts of paths: the path inside a folder, the last part, and which texts are already paths.

ghost use Rattle.std.specs.Prelude.{◌≡◌, ◌+◌, true, length, drop, IfOk, MatchOption, if◌then◌else◌, Some, None};
ghost use Rattle.std.specs.Option.{option_copied};
ghost use Rattle.pb_place_types.specs.Paths.{is_path, leads_below, inside, last_part};
ghost use Rattle.pb_place_types.specs.Private.{after_slash};

use crate::path::{PathText, stem};
use crate::relative::{RelativePath, is_relative};
use pb_data::Text;
use std::alloc::{AllocError, Global};

impl PathText {
    /// Returns a text as a path, or `None` if the text is not a normalised absolute path. The call
    /// takes no memory.
    pub fn of(text: Text) -> Option<PathText>
        ensures { result ≡ (if is_path text then Some text else None) }
    {
        if !is_path(text.as_str()) {
            return None;
        }
        Some(PathText::of_text(text))
    }

    /// Returns the part of this path after a folder, or `None` if this path is not strictly below
    /// the folder. If this part is joined to the folder, the result is this path again.
    ///
    /// Errors: out of memory only.
    #[tactic(auto, using(crate::proofs::TakenApart::inside_laws), unfolding(crate::specs::Paths::is_below))]
    pub fn inside(
        &self,
        alloc: Global,
        folder: &PathText,
    ) -> Result<Option<RelativePath>, AllocError>
        ensures { IfOk result (λ found. found ≡ inside folder.now self.now) }
    {
        if !self.is_below(folder) {
            return Ok(None);
        }
        let rest = rest_below(stem(folder.as_str()), self.as_str());
        let relative = RelativePath::name(alloc, rest)?;
        Ok(Some(relative))
    }

    /// Returns the last part of this path: the name of its file or folder. For the root, the last
    /// part is empty. The call takes no memory.
    pub fn last_part(&self) -> &str
        ensures { result.now ≡ last_part self.now }
    {
        last_part(self.as_str())
    }
}

/// Returns the rest of a text after a slash at the front, if the text begins with a slash.
fn after_slash(text: &str) -> Option<&str>
    ensures { option_copied result ≡ after_slash text.now }
{
    text.strip_prefix('/')
}

/// Returns whether a text is a normalised absolute path.
#[tactic(auto, using(crate::proofs::TakenApart::cut_laws))]
fn is_path(text: &str) -> bool
    ensures { result ≡ is_path text.now }
{
    match after_slash(text) {
        Some(rest) => rest == "" || is_relative(rest),
        None => false,
    }
}

/// Returns the rest of a path after a stem and a slash.
///
/// Requires: the path is the stem, a slash and something more.
fn rest_below<'a>(stem: &str, path: &'a str) -> &'a str
    requires { leads_below stem.now path.now ≡ true }
    ensures { result.now ≡ drop (length stem.now + 1) path.now }
{
    let start = stem.len() + 1;
    &path[start..]
}

/// Returns the texts before and after the last slash, if there is a slash.
fn split_at_last_slash(text: &str) -> Option<(&str, &str)>
    ensures { MatchOption result (last_part text.now ≡ text.now)
        (λ split. last_part text.now ≡ split.1.now) }
{
    text.rsplit_once('/')
}

/// Returns the text after the last slash, or the whole text if there is no slash.
fn last_part(text: &str) -> &str
    ensures { result.now ≡ last_part text.now }
{
    match split_at_last_slash(text) {
        Some((_, last)) => last,
        None => text,
    }
}

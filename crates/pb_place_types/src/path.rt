//! Normalised absolute paths.

ghost use Rattle.std.specs.Prelude.{◌≡◌, true, ◌∷◌, ◌++◌, map, IfOk, OnOk, string_bytes};
ghost use Rattle.std.specs.List.{list_any, list_all};
ghost use Rattle.std.specs.Str.{bytes_eq};
ghost use Rattle.pb_data.specs.UnlessOom.{UnlessOom};
ghost use Rattle.pb_place_types.specs.declared.path.PathFault.TheVariants as path_fault;
ghost use Rattle.pb_place_types.specs.Paths.{parts_of, stays, leads_up, walked, names_of, slashed, path_of, is_absolute, has_byte_0, parsed, joined, folder_of, is_path, stem, below, leads_below, is_below, is_at_or_below};

use crate::relative::RelativePath;
use pb_data::{Text, TryCopy};
use std::alloc::{AllocError, AllocFailed, Global};
use std::cmp::Ordering;
use std::marker::Model;
use thiserror::Error;

/// Why a text is not a path.
#[derive(Clone, Copy, Debug, PartialEq, Eq, Error)]
pub enum PathFault {
    /// The text does not begin with `/`.
    #[error("the path is not absolute")]
    NotAbsolute,
    /// The text contains byte 0, which no file system allows in a name.
    #[error("the path contains byte 0")]
    BadByte,
    /// Out of memory.
    #[error("out of memory")]
    OutOfMemory,
}

impl From<AllocError> for PathFault {
    ghost from_gives = { λ _ e. e ≡ path_fault.OutOfMemory };

    fn from(_: AllocError) -> Self {
        PathFault::OutOfMemory
    }
}

impl<T: Drop> From<AllocFailed<T>> for PathFault {
    ghost from_gives = { λ _ e. e ≡ path_fault.OutOfMemory };

    fn from(_: AllocFailed<T>) -> Self {
        PathFault::OutOfMemory
    }
}

/// A normalised absolute path: `/`, or names with a slash before each name. No name is empty, `.`
/// or `..`, and no name contains byte 0. Contracts see the UTF-8 bytes of the path. Links are not
/// followed (our own choice).
#[derive(Debug, Drop)]
pub struct PathText {
    inside: Text,
}

impl Model for PathText {
    ghost use Rattle.std.specs.Prelude.{ℕ, List, ◌≡◌, true};

    ghost Value = { List ℕ };

    ghost use Rattle.pb_place_types.specs.Paths.{is_path};

    ghost view = { λ a. a.inside };

    ghost invariant = { λ a. is_path a.inside ≡ true };
}

/// Returns whether a text begins with `/`.
fn is_absolute(text: &str) -> bool
    ensures { result ≡ is_absolute text.now }
{
    match text.as_bytes() {
        [first, ..] => *first == b'/',
        [] => false,
    }
}

/// Returns whether a text has byte 0.
pub(crate) fn has_byte_0(text: &str) -> bool
    ensures { result ≡ has_byte_0 text.now }
{
    text.as_bytes().iter().any(|byte| *byte == 0)
}

/// Returns the parts of a text, between its slashes.
pub(crate) fn parts_of(alloc: Global, text: &str) -> Result<Vec<&str>, AllocError>
    ensures { IfOk result (λ parts. map (λ part. part.now) parts.items ≡ parts_of text.now) }
{
    text.split('/').collect(alloc)
}

/// Returns whether a part is empty or `.`.
pub(crate) fn stays(part: &str) -> bool
    ensures { result ≡ stays part.now }
{
    part == "" || part == "."
}

/// Follows one more part of a path.
fn walk<'a>(names: &mut Vec<&'a str>, part: &'a str) -> Result<(), AllocError>
    ensures { OnOk result
        (map (λ name. name.now) names.new.items
        ≡ walked (map (λ name. name.now) names.old.items) part.now) }
{
    if stays(part) {
        return Ok(());
    }
    if part == ".." {
        names.pop();
        return Ok(());
    }
    names.push(part)?;
    Ok(())
}

/// Returns the names to which a text leads from the root.
fn names_of(alloc: Global, text: &str) -> Result<Vec<&str>, AllocError>
    ensures { IfOk result (λ names. map (λ name. name.now) names.items ≡ names_of text.now) }
{
    let parts = parts_of(alloc, text)?;
    let mut names = Vec::new(alloc);
    for part in parts.as_slice() {
        walk(&mut names, *part)?;
    }
    Ok(names)
}

/// Returns the names, joined, with a slash before each name.
fn with_slashes(alloc: Global, names: &[&str]) -> Result<String, AllocError>
    ensures { IfOk result (λ text. string_bytes text ≡ slashed (map (λ name. name.now) names.now)) }
{
    let mut text = String::new(alloc);
    for name in names {
        text.push_str("/")?;
        text.push_str(*name)?;
    }
    Ok(text)
}

/// Returns the path of these names.
fn path_of(alloc: Global, names: &[&str]) -> Result<String, AllocError>
    ensures { IfOk result (λ text. string_bytes text ≡ path_of (map (λ name. name.now) names.now)) }
{
    if names.is_empty() {
        return String::from_str(alloc, "/");
    }
    with_slashes(alloc, names)
}

/// Returns the stem of a folder. Each path below the folder is the stem, a slash and more text.
pub(crate) fn stem(folder: &str) -> &str
    ensures { result.now ≡ stem folder.now }
{
    if folder == "/" { "" } else { folder }
}

impl PathText {
    /// Returns the path that an absolute text spells. Empty parts, `.` and `..` are removed. Each
    /// `..` also removes the name before it, if there is such a name.
    ///
    /// Errors: the first of these that occurs, or `OutOfMemory` at any time.
    ///
    /// - `NotAbsolute`, if the text does not begin with `/`.
    /// - `BadByte`, if the text contains byte 0.
    ///
    /// This is our own choice, since The Cargo Book leaves paths to the system.
    #[tactic(auto, using(crate::proofs::PathLemmas::path_laws))]
    pub fn parse(alloc: Global, text: &str) -> Result<PathText, PathFault>
        ensures { UnlessOom path_fault.OutOfMemory (λ path. path) result (parsed text.now) }
    {
        if !is_absolute(text) {
            return Err(PathFault::NotAbsolute);
        }
        if has_byte_0(text) {
            return Err(PathFault::BadByte);
        }
        let names = names_of(alloc, text)?;
        let path = path_of(alloc, names.as_slice())?;
        Ok(PathText {
            inside: Text::new(path),
        })
    }

    /// Returns the path that a text spells inside this folder. A relative text starts at this
    /// folder. An absolute text spells its own path.
    ///
    /// Errors: `BadByte`, if the text contains byte 0; `OutOfMemory`.
    ///
    /// This is our own choice, as for `parse`.
    pub fn join(&self, alloc: Global, text: &str) -> Result<PathText, PathFault>
        ensures { UnlessOom path_fault.OutOfMemory (λ path. path) result
            (joined self.now text.now) }
    {
        if is_absolute(text) {
            let path = PathText::parse(alloc, text)?;
            return Ok(path);
        }
        let whole = with_slash(alloc, self.as_str(), text)?;
        let path = PathText::parse(alloc, whole.as_str())?;
        Ok(path)
    }

    /// Returns the path of a relative path inside this folder.
    ///
    /// Errors: out of memory only.
    #[tactic(auto, using(crate::proofs::PathLemmas::path_laws))]
    pub fn below(&self, alloc: Global, relative: &RelativePath) -> Result<PathText, AllocError>
        ensures path { IfOk result (λ path. path ≡ below self.now relative.now) }
        ensures inside { IfOk result (λ path. is_below self.now path ≡ true) }
    {
        let path = with_slash(alloc, stem(self.as_str()), relative.as_str())?;
        Ok(PathText {
            inside: Text::new(path),
        })
    }

    /// Returns the folder that contains this path. The folder of the root is the root itself.
    ///
    /// Errors: out of memory only.
    #[tactic(auto, using(crate::proofs::PathLemmas::folder_laws))]
    pub fn folder(&self, alloc: Global) -> Result<PathText, AllocError>
        ensures { IfOk result (λ path. path ≡ folder_of self.now) }
    {
        let mut names = names_of(alloc, self.as_str())?;
        walk(&mut names, "..")?;
        let path = path_of(alloc, names.as_slice())?;
        Ok(PathText {
            inside: Text::new(path),
        })
    }

    /// Returns whether this path is the folder or is below it, by whole parts: `/a/b` is below
    /// `/a`, and `/ab` is not. The call takes no memory.
    pub fn starts_with(&self, folder: &PathText) -> bool
        ensures { result ≡ is_at_or_below folder.now self.now }
    {
        is_at_or_below(folder.as_str(), self.as_str())
    }

    /// Returns whether this path is strictly below the folder. The call takes no memory.
    pub fn is_below(&self, folder: &PathText) -> bool
        ensures { result ≡ is_below folder.now self.now }
    {
        is_below(folder.as_str(), self.as_str())
    }

    /// Returns the path as a text.
    pub fn as_str(&self) -> &str
        ensures text { result.now ≡ self.now }
        ensures normal { is_path self.now ≡ true }
    {
        self.inside.as_str()
    }
}

impl PathText {
    /// Returns the path as an owned text. The call takes no memory.
    pub fn into_text(self) -> Text
        ensures text { result ≡ self }
        ensures normal { is_path self ≡ true }
    {
        self.inside
    }

    /// Returns the inner text.
    pub(crate) fn as_text(&self) -> &Text
        ensures { result.now ≡ self.now }
    {
        &self.inside
    }

    /// Returns a text as a path.
    ///
    /// Requires: the text is a path.
    pub(crate) fn of_text(inside: Text) -> PathText
        requires { is_path inside ≡ true }
        ensures { result ≡ inside }
    {
        PathText { inside }
    }
}

/// Returns a folder's text, a slash and a text, joined.
fn with_slash(alloc: Global, folder: &str, text: &str) -> Result<String, AllocError>
    ensures { IfOk result (λ whole. string_bytes whole ≡ folder.now ++ 47 ∷ text.now) }
{
    let mut whole = String::from_str(alloc, folder)?;
    whole.push_str("/")?;
    whole.push_str(text)?;
    Ok(whole)
}

/// Returns whether a path is a stem, a slash and something more.
#[tactic(auto, using(crate::proofs::PathLemmas::leads_laws))]
fn leads_below(stem: &str, path: &str) -> bool
    ensures { result ≡ leads_below stem.now path.now }
{
    match path.as_bytes().strip_prefix(stem.as_bytes()) {
        Some([slash, _, ..]) => *slash == b'/',
        _ => false,
    }
}

/// Returns whether a path is strictly below a folder.
#[tactic(auto, unfolding(crate::specs::Paths::is_below))]
fn is_below(folder: &str, path: &str) -> bool
    ensures { result ≡ is_below folder.now path.now }
{
    leads_below(stem(folder), path)
}

/// Returns whether a path is a folder or is below it.
#[tactic(auto, unfolding(crate::specs::Paths::is_at_or_below))]
pub(crate) fn is_at_or_below(folder: &str, path: &str) -> bool
    ensures { result ≡ is_at_or_below folder.now path.now }
{
    folder == path || is_below(folder, path)
}

impl TryCopy for PathText {
    fn copy(&self, alloc: Global) -> Result<PathText, AllocError> {
        Ok(PathText {
            inside: self.inside.copy(alloc)?,
        })
    }
}

impl PartialEq for PathText {
    ghost use Rattle.std.specs.Prelude.{◌==◌};
    ghost use Rattle.std.specs.Cmp.Lexicographic.{pointwise};
    ghost use Rattle.std.proofs.Common.{rules};
    ghost use Rattle.std.specs.Cmp.Rules.{comparing};

    ghost eq = { pointwise ◌==◌ };

    ghost laws = { Prim.search (comparing, rules) };

    fn eq(&self, other: &PathText) -> bool {
        self.inside == other.inside
    }
}

impl Eq for PathText {
    ghost use Rattle.std.proofs.Common.{rules};
    ghost use Rattle.std.specs.Cmp.Rules.{comparing};

    ghost laws = { Prim.search (comparing, rules) };
}

impl PartialOrd for PathText {
    ghost use Rattle.std.proofs.Common.{rules};
    ghost use Rattle.std.specs.Ordering.{nat_cmp, as_partial_cmp};
    ghost use Rattle.std.specs.Cmp.{partial_order_from_own_ties};
    ghost use Rattle.std.specs.Cmp.Lexicographic.{slice_cmp};
    ghost use Rattle.std.specs.Cmp.Rules.{comparing};

    ghost partial_cmp = { as_partial_cmp (slice_cmp nat_cmp) };

    ghost laws = { partial_order_from_own_ties (Prim.search (comparing, rules)) (Prim.search (comparing, rules)) };

    fn partial_cmp(&self, other: &PathText) -> Option<Ordering> {
        Some(self.cmp(other))
    }
}

impl Ord for PathText {
    ghost use Rattle.std.proofs.Common.{rules};
    ghost use Rattle.std.specs.Ordering.{nat_cmp};
    ghost use Rattle.std.specs.Cmp.Lexicographic.{slice_cmp};
    ghost use Rattle.std.specs.Cmp.Rules.{comparing};

    ghost cmp = { slice_cmp nat_cmp };

    ghost total = { Prim.search (comparing, rules) };

    ghost matches_partial_cmp = { Prim.search (comparing, rules) };

    ghost matches_eq = { Prim.search (comparing, rules) };

    /// Compares paths in byte order.
    fn cmp(&self, other: &PathText) -> Ordering {
        self.inside.cmp(&other.inside)
    }
}

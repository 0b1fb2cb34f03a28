//! The folders that the texts of `members`, `default-members` and `exclude` mean.

ghost use Rattle.std.specs.Prelude.{◌≡◌, ◌++◌, ◌||◌, IfOk, OnOk, map, true};
ghost use Rattle.std.specs.List.{fold, list_all, list_any};
ghost use Rattle.pb_place_types.specs.Paths.{is_absolute, is_at_or_below, is_relative, leads_up, parts_of, stays};
ghost use Rattle.pb_workspace_package.specs.Between.{names_in};
ghost use Rattle.pb_workspace.specs.Members.{is_excluded, plain_parts, further, start_of, parts_meant, part_matches, parts_match, means};
ghost use Rattle.pb_workspace_package.specs.Sources.{resolved};

use crate::glob::matches;
use pb_manifest_types::WrittenPath;
use pb_place_types::{PathText, RelativePath};
use pb_workspace_package::source::resolve_path;
use pb_workspace_package::{cut_at_slashes, names_in};
use std::alloc::{AllocError, Global};

/// A part of a text. If the text means a folder, a name in the folder's path matches this part.
#[derive(Drop)]
pub struct Part {
    /// A name, or a pattern for a name.
    pub text: RelativePath,
    /// Whether `*` and `?` in the text match other characters.
    pub is_pattern: bool,
}

/// Returns whether a folder is at or below a folder that `exclude` lists. The listed paths are
/// relative to the workspace's root (The Cargo Book, Workspaces).
///
/// Errors: out of memory only.
pub fn is_excluded(
    alloc: Global,
    root: &PathText,
    exclude: &[WrittenPath],
    folder: &PathText,
) -> Result<bool, AllocError>
    ensures { IfOk result (λ answer. answer ≡ is_excluded root.now exclude.now folder.now) }
{
    for text in exclude {
        let path = resolve_path(alloc, root, text)?;
        if folder.starts_with(&path) {
            return Ok(true);
        }
    }
    Ok(false)
}

/// Returns the names of a folder as parts that match only themselves.
///
/// Errors: out of memory only.
///
/// Requires: each name is a path inside a folder. The names in a path satisfy this condition.
fn plain_parts(alloc: Global, names: &[&str]) -> Result<Vec<Part>, AllocError>
    requires { list_all is_relative (map (λ name. name.now) names.now) ≡ true }
    ensures { IfOk result (λ parts. parts.items ≡ plain_parts (map (λ name. name.now) names.now)) }
{
    let mut parts = Vec::new(alloc);
    for name in names {
        let text = RelativePath::name(alloc, *name)?;
        parts.push(Part {
            text,
            is_pattern: false,
        })?;
    }
    Ok(parts)
}

/// Returns whether a text begins with `/`.
fn is_absolute(text: &str) -> bool
    ensures { result ≡ is_absolute text.now }
{
    match text.as_bytes() {
        [first, ..] => *first == b'/',
        [] => false,
    }
}

/// Returns the parts that come before the parts of a text: the parts of the root folder, or no
/// parts if the text is absolute.
fn start_of(alloc: Global, root: &PathText, text: &str) -> Result<Vec<Part>, AllocError>
    ensures { IfOk result (λ parts. parts.items ≡ start_of root.now text.now) }
{
    if is_absolute(text) {
        return Ok(Vec::new(alloc));
    }
    let names = names_in(alloc, root.as_str())?;
    plain_parts(alloc, names.as_slice())
}

/// Appends a part. An empty part or `.` changes nothing, and `..` removes the last part.
///
/// Errors: out of memory only.
///
/// Requires: the part stays in the folder, leads up, or is a path inside a folder. The parts of a
/// text without byte 0 satisfy this condition.
fn go_further(alloc: Global, parts: &mut Vec<Part>, part: &str) -> Result<(), AllocError>
    requires { stays part.now || (leads_up part.now || is_relative part.now) ≡ true }
    ensures { OnOk result (parts.new.items ≡ further parts.old.items part.now) }
{
    if part == "" || part == "." {
        return Ok(());
    }
    if part == ".." {
        parts.pop();
        return Ok(());
    }
    let text = RelativePath::name(alloc, part)?;
    parts.push(Part {
        text,
        is_pattern: true,
    })?;
    Ok(())
}

/// Returns the parts of a text of `members` or `default-members`. The text means a folder if the
/// folder's names match these parts. The parts of the root folder come first, and each matches only
/// its own name. The parts of the text follow. In these parts `.` and `..` have the same meaning as
/// in a path.
///
/// Errors: out of memory only.
pub fn parts_meant(
    alloc: Global,
    root: &PathText,
    text: &WrittenPath,
) -> Result<Vec<Part>, AllocError>
    ensures { IfOk result (λ parts. parts.items ≡ parts_meant root.now text.now) }
{
    let mut parts = start_of(alloc, root, text.as_str())?;
    let written = cut_at_slashes(alloc, text.as_str())?;
    for part in written.as_slice() {
        go_further(alloc, &mut parts, *part)?;
    }
    Ok(parts)
}

/// Returns whether a part is equal to a name, or is a pattern that matches the name.
fn part_matches(alloc: Global, part: &Part, name: &str) -> Result<bool, AllocError>
    ensures { IfOk result (λ answer. answer ≡ part_matches part.now name.now) }
{
    if part.is_pattern {
        return matches(alloc, part.text.as_str(), name);
    }
    Ok(part.text.as_str() == name)
}

/// Returns whether names match parts, one by one.
fn parts_match(alloc: Global, parts: &[Part], names: &[&str]) -> Result<bool, AllocError>
    ensures { IfOk result
        (λ answer. answer ≡ parts_match parts.now (map (λ name. name.now) names.now)) }
{
    let mut left = parts;
    let mut to_match = names;
    while let [part, parts_left @ ..] = left {
        match to_match {
            [name, names_left @ ..] => {
                if !part_matches(alloc, part, *name)? {
                    return Ok(false);
                }
                left = parts_left;
                to_match = names_left;
            }
            [] => return Ok(false),
        }
    }
    Ok(to_match.is_empty())
}

/// Returns whether a folder is meant: whether its names match these parts one by one. Therefore no
/// `*` matches across a slash (The Cargo Book, Workspaces).
///
/// Errors: out of memory only.
pub fn is_meant(alloc: Global, parts: &[Part], folder: &PathText) -> Result<bool, AllocError>
    ensures { IfOk result (λ answer. answer ≡ parts_match parts.now (names_in folder.now)) }
{
    let names = names_in(alloc, folder.as_str())?;
    parts_match(alloc, parts, names.as_slice())
}

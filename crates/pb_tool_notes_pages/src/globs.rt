//! The folders that `members` matches.

ghost use Rattle.pb_tool_notes_pages.specs.Looks.{LooksAgain};

use crate::looks::recall_or_list;
use crate::page::Page;
use crate::remembering::Remembering;
use pb_data::TryCopy;
use pb_place_types::{PathText, Place, PlaceFault};
use std::alloc::{AllocError, Global};
use toml::Value;

/// Returns the next row of the match table, after one more byte of a pattern. Entry n of a row says
/// whether the pattern so far matches the first n bytes of a name.
fn next_row(alloc: Global, row: &[bool], byte: u8, name: &str) -> Result<Vec<bool>, AllocError> {
    let mut next = Vec::new(alloc);
    let mut corner = row.first().copied().unwrap_or(false);
    let mut left = corner && byte == b'*';
    next.push(left)?;
    for (index, one) in name.as_bytes().iter().enumerate() {
        let above = row.get(index.saturating_add(1)).copied().unwrap_or(false);
        left = match byte {
            b'*' => above || left,
            b'?' => corner,
            _ => corner && *one == byte,
        };
        corner = above;
        next.push(left)?;
    }
    Ok(next)
}

/// Returns whether a name matches a part of a pattern: `*` matches any bytes, and `?` matches one
/// byte.
pub fn matches_part(alloc: Global, part: &str, name: &str) -> Result<bool, AllocError> {
    let mut row = Vec::new(alloc);
    row.push(true)?;
    for _byte in name.as_bytes() {
        row.push(false)?;
    }
    for byte in part.as_bytes() {
        row = next_row(alloc, row.as_slice(), *byte, name)?;
    }
    Ok(row.last().copied().unwrap_or(false))
}

/// Returns whether a part of a pattern may match more than one name.
pub fn is_glob(part: &str) -> bool {
    part.contains('*') || part.contains('?')
}

/// Adds the folders whose names match a part of a pattern.
fn push_matching(
    alloc: Global,
    folders: &mut Vec<PathText>,
    part: &str,
    found: &[PathText],
) -> Result<(), AllocError> {
    for folder in found {
        if matches_part(alloc, part, folder.last_part())? {
            folders.push(folder.copy(alloc)?)?;
        }
    }
    Ok(())
}

/// Returns the folders inside some folders, if their names match a part of a pattern.
fn folders_by<P: Place + Remembering>(
    alloc: Global,
    place: &mut P,
    target: &PathText,
    folders: &[PathText],
    part: &str,
) -> Result<Vec<PathText>, PlaceFault>
    ensures { LooksAgain (P.at place.old) (P.at place.new) }
{
    let mut next = Vec::new(alloc);
    for folder in folders {
        if is_glob(part) {
            let found = recall_or_list(alloc, place, folder, target)?;
            push_matching(alloc, &mut next, part, found.as_slice())?;
        } else if let Ok(below) = folder.join(alloc, part) {
            next.push(below)?;
        }
    }
    Ok(next)
}

/// Returns the folders that match a pattern.
fn folders_of<P: Place + Remembering>(
    alloc: Global,
    place: &mut P,
    root: &PathText,
    pattern: &str,
) -> Result<Vec<PathText>, PlaceFault>
    ensures { LooksAgain (P.at place.old) (P.at place.new) }
{
    let mut folders = Vec::new(alloc);
    let Ok(target) = root.join(alloc, "target") else {
        return Ok(folders);
    };
    folders.push(root.copy(alloc)?)?;
    if !is_glob(pattern) {
        return folders_by(alloc, place, &target, folders.as_slice(), pattern);
    }
    for part in pattern.split('/') {
        folders = folders_by(alloc, place, &target, folders.as_slice(), part)?;
    }
    Ok(folders)
}

/// The greatest number of texts of a list that are examined.
const MOST_TEXTS: usize = 256;

/// Returns the first texts of a list of `[workspace]` in a root manifest.
pub fn texts_of<'a>(alloc: Global, page: &'a Page, key: &str) -> Result<Vec<&'a str>, AllocError> {
    let mut texts = Vec::new(alloc);
    if let Some(workspace) = page.table_at("workspace") {
        if let Some(values) = workspace.get(key).and_then(Value::as_array) {
            for value in values.iter().take(MOST_TEXTS) {
                if let Some(text) = value.as_str() {
                    texts.push(text)?;
                }
            }
        }
    }
    Ok(texts)
}

/// Returns whether a folder is one of the excluded folders, or is below one of them.
fn is_excluded(
    alloc: Global,
    root: &PathText,
    exclude: &[&str],
    folder: &PathText,
) -> Result<bool, AllocError> {
    for text in exclude {
        if let Ok(path) = root.join(alloc, *text) {
            if folder.starts_with(&path) {
                return Ok(true);
            }
        }
    }
    Ok(false)
}

/// Adds the folders that match a pattern, except the folders that `exclude` excludes.
fn push_kept(
    alloc: Global,
    all: &mut Vec<PathText>,
    root: &PathText,
    exclude: &[&str],
    pattern: &str,
    folders: Vec<PathText>,
) -> Result<(), AllocError> {
    for folder in folders {
        if !is_glob(pattern) || !is_excluded(alloc, root, exclude, &folder)? {
            all.push(folder)?;
        }
    }
    Ok(())
}

/// Returns the folders that `members` of a root manifest matches.
pub(crate) fn member_folders<P: Place + Remembering>(
    alloc: Global,
    place: &mut P,
    page: &Page,
) -> Result<Vec<PathText>, PlaceFault>
    ensures { LooksAgain (P.at place.old) (P.at place.new) }
{
    let root = page.path.folder(alloc)?;
    let patterns = texts_of(alloc, page, "members")?;
    let exclude = texts_of(alloc, page, "exclude")?;
    let mut all = Vec::new(alloc);
    for pattern in patterns.as_slice() {
        let folders = folders_of(alloc, place, &root, *pattern)?;
        push_kept(
            alloc,
            &mut all,
            &root,
            exclude.as_slice(),
            *pattern,
            folders,
        )?;
    }
    Ok(all)
}

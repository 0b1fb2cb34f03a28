//! Which path a text means from a folder of a real machine.

use pb_place_types::{PathFault, PathText, RelativePath};
use std::alloc::{AllocError, Global};
use std::fs;
use std::rt::Files;

/// Returns whether a link is at a path.
fn is_link<R: Files>(runtime: &R, path: &PathText) -> bool {
    match fs::symlink_metadata(runtime, path.as_str()) {
        Ok(metadata) => metadata.is_symlink(),
        Err(_) => false,
    }
}

/// Returns the path to which the system leads from a path, after following links. Returns `None` if
/// the system leads nowhere, or to a path that `PathText` does not allow.
pub(crate) fn led_to<R: Files + AllocGlobal>(
    runtime: &R,
    alloc: Global,
    path: &PathText,
) -> Result<Option<PathText>, AllocError> {
    let whole = match fs::canonicalize(runtime, path.as_str()) {
        Ok(whole) => whole,
        Err(_) => return Ok(None),
    };
    match PathText::parse(alloc, whole.as_str()) {
        Ok(path) => Ok(Some(path)),
        Err(PathFault::OutOfMemory) => Err(AllocError),
        Err(_) => Ok(None),
    }
}

/// Returns the folder to which `..` leads from a path. From a link, this is the folder that
/// contains the link's goal.
fn above<R: Files + AllocGlobal>(
    runtime: &R,
    alloc: Global,
    path: &PathText,
) -> Result<PathText, AllocError> {
    if is_link(runtime, path) {
        if let Some(goal) = led_to(runtime, alloc, path)? {
            return goal.folder(alloc);
        }
    }
    path.folder(alloc)
}

/// Follows one more part from a path.
fn step<R: Files + AllocGlobal>(
    runtime: &R,
    alloc: Global,
    path: &PathText,
    part: &str,
) -> Result<PathText, PathFault> {
    if part == ".." {
        return Ok(above(runtime, alloc, path)?);
    }
    path.join(alloc, part)
}

/// Returns whether a text leads up: whether a part of the text is `..`.
fn leads_up(text: &str) -> bool {
    text.split('/').any(|part| part == "..")
}

/// Returns the path that a text means from a folder. The result is the normalised path
/// (`PathText::join`), unless a `..` comes after a link. Such a `..` leads to the folder that
/// contains the link's goal, as in the system. A link that leads nowhere is treated as a folder.
///
/// Errors: the errors of `PathText::join`.
pub(crate) fn path_from<R: Files + AllocGlobal>(
    runtime: &R,
    alloc: Global,
    folder: &PathText,
    text: &str,
) -> Result<PathText, PathFault> {
    let whole = folder.join(alloc, text)?;
    if !leads_up(text) {
        return Ok(whole);
    }
    let mut path = if text.starts_with('/') {
        PathText::parse(alloc, "/")?
    } else {
        folder.join(alloc, "")?
    };
    let parts: Vec<&str> = text.split('/').collect(alloc)?;
    for part in parts {
        path = step(runtime, alloc, &path, part)?;
    }
    Ok(path)
}

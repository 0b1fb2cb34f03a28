//! What is at an entry of a real folder.

use crate::reading::{Standing, says_absent, standing_of};
use crate::tag::leads_into_target;
use pb_place_types::PathText;
use std::alloc::Global;
use std::rt::Files;
use std::{fs, io};

/// Returns what is at an entry for which the system gave up following links. If the entry's own
/// link leads in a circle, nothing is there. Otherwise the entry is too deep: some link leads to a
/// folder above the link, so that the system follows this link again and again.
fn standing_in_circle<R: Files + AllocGlobal>(
    runtime: &R,
    alloc: Global,
    folder: &PathText,
    name: &str,
) -> io::Result<Standing> {
    let whole = fs::canonicalize(runtime, folder.as_str())?;
    let path = format!(in alloc; "{}/{name}", whole.as_str())?;
    match fs::metadata(runtime, path.as_str()) {
        Err(error) if error.kind() == io::ErrorKind::FilesystemLoop => Ok(Standing::Nothing),
        Err(error) => Err(error),
        Ok(_) => Err(io::Error::from(io::ErrorKind::FilesystemLoop)),
    }
}

/// Returns the metadata of an entry of a folder, after following links. Returns `None` if the entry
/// is a link into a target folder.
fn metadata_of<R: Files + AllocGlobal>(
    runtime: &R,
    alloc: Global,
    folder: &PathText,
    path: &PathText,
) -> io::Result<Option<fs::Metadata>> {
    let metadata = fs::symlink_metadata(runtime, path.as_str())?;
    if !metadata.is_symlink() {
        return Ok(Some(metadata));
    }
    match leads_into_target(runtime, alloc, folder, path) {
        Ok(true) => Ok(None),
        Ok(false) => Ok(Some(fs::metadata(runtime, path.as_str())?)),
        Err(_) => Err(io::Error::from(io::ErrorKind::OutOfMemory)),
    }
}

/// Returns what is at an entry of a folder, after following links. A link that leads nowhere, in a
/// circle, or into a target folder counts as nothing.
pub(crate) fn standing_in<R: Files + AllocGlobal>(
    runtime: &R,
    alloc: Global,
    folder: &PathText,
    path: &PathText,
    name: &str,
) -> io::Result<Standing> {
    match metadata_of(runtime, alloc, folder, path) {
        Ok(Some(metadata)) => Ok(standing_of(&metadata)),
        Ok(None) => Ok(Standing::Nothing),
        Err(error) if error.kind() == io::ErrorKind::FilesystemLoop => {
            standing_in_circle(runtime, alloc, folder, name)
        }
        Err(error) if says_absent(&error) => Ok(Standing::Nothing),
        Err(error) => Err(error),
    }
}

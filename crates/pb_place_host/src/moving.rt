//! Whether a path moved while a child was running. A path has moved if it has changed.

use crate::listing::found_here;
use crate::reading::says_absent;
use crate::tag::is_tagged;
use pb_data::TryCopy;
use pb_place_types::PathText;
use std::alloc::{AllocError, Global};
use std::fs;
use std::os::unix::fs::MetadataExt;
use std::rt::Files;

/// A moment, by the clock of a file system. Two file systems may have different clocks.
#[derive(Clone, Copy, Debug, PartialEq, Eq, PartialOrd, Ord)]
pub(crate) struct Moment {
    seconds: i64,
    nanoseconds: i64,
}

/// What a look at a path shows.
#[derive(Clone, Copy, Debug, PartialEq, Eq)]
enum Sight {
    /// Something that has changed since the given moment.
    Moved,
    /// A folder, which has not changed itself.
    Folder,
    /// Something else that has not changed.
    Still,
    /// Nothing is there.
    Absent,
}

/// Returns when the bytes, the name or the attributes of a file or folder were last changed
/// (`ctime`, which no program can set). A folder also changes when a name in the folder appears or
/// disappears.
fn changed_at(metadata: &fs::Metadata) -> Moment {
    Moment {
        seconds: metadata.ctime(),
        nanoseconds: metadata.ctime_nsec(),
    }
}

/// Returns when a folder was last changed, or `None` if the time is unknown.
pub(crate) fn moment_of<R: Files>(runtime: &R, folder: &PathText) -> Option<Moment> {
    match fs::metadata(runtime, folder.as_str()) {
        Ok(metadata) => Some(changed_at(&metadata)),
        Err(_) => None,
    }
}

/// Looks at the file or folder to which a link leads, if the link itself has not changed. A link
/// that leads nowhere has not moved.
fn look_behind<R: Files>(runtime: &R, since: Moment, path: &str) -> Sight {
    match fs::metadata(runtime, path) {
        Ok(metadata) => look_of(&metadata, since),
        Err(error) if says_absent(&error) => Sight::Still,
        Err(_) => Sight::Moved,
    }
}

/// Returns what metadata shows.
fn look_of(metadata: &fs::Metadata, since: Moment) -> Sight {
    if changed_at(metadata) > since {
        return Sight::Moved;
    }
    if metadata.is_dir() {
        return Sight::Folder;
    }
    Sight::Still
}

/// Looks at a path. A link has moved if the link itself has changed, or if the file or folder to
/// which the link leads has changed. If this cannot be found out, the path counts as moved.
fn look<R: Files>(runtime: &R, since: Moment, path: &str) -> Sight {
    let metadata = match fs::symlink_metadata(runtime, path) {
        Ok(metadata) => metadata,
        Err(error) if says_absent(&error) => return Sight::Absent,
        Err(_) => return Sight::Moved,
    };
    match look_of(&metadata, since) {
        Sight::Still if metadata.is_symlink() => look_behind(runtime, since, path),
        sight => sight,
    }
}

/// Returns whether there may have been something at a path that is absent now. The answer is yes if
/// the nearest existing folder above the path has changed since the given moment.
fn is_gone<R: Files>(
    runtime: &R,
    alloc: Global,
    since: Moment,
    path: &PathText,
) -> Result<bool, AllocError> {
    let mut here = path.folder(alloc)?;
    for _ in 0..u64::MAX {
        match look(runtime, since, here.as_str()) {
            Sight::Absent => here = here.folder(alloc)?,
            Sight::Moved => return Ok(true),
            Sight::Folder | Sight::Still => return Ok(false),
        }
    }
    Ok(true)
}

/// Adds the files and folders of a folder to the waiting paths, except the path that is left out.
/// Returns whether the folder could be listed.
fn add_entries<R: Files + AllocGlobal>(
    runtime: &R,
    alloc: Global,
    left_out: &PathText,
    folder: &PathText,
    waiting: &mut Vec<PathText>,
) -> Result<bool, AllocError> {
    let found = match found_here(runtime, alloc, Some(left_out), folder) {
        Ok(found) => found,
        Err(failed) if failed.is_memory() => return Err(AllocError),
        Err(_) => return Ok(false),
    };
    for file in found.files {
        waiting.push(file)?;
    }
    for here in found.waiting {
        waiting.push(here.folder)?;
    }
    Ok(true)
}

/// Returns whether a path itself has moved. The contents of a folder are added to the waiting
/// paths.
fn has_moved<R: Files + AllocGlobal>(
    runtime: &R,
    alloc: Global,
    since: Moment,
    left_out: &PathText,
    path: &PathText,
    waiting: &mut Vec<PathText>,
) -> Result<bool, AllocError> {
    match look(runtime, since, path.as_str()) {
        Sight::Moved => Ok(true),
        Sight::Still => Ok(false),
        Sight::Absent => is_gone(runtime, alloc, since, path),
        Sight::Folder => Ok(!add_entries(runtime, alloc, left_out, path, waiting)?),
    }
}

/// Returns whether a path is skipped: it is below the watched path, and its tag marks it as a
/// target folder.
fn is_passed_over<R: Files + AllocGlobal>(
    runtime: &R,
    alloc: Global,
    watched: &PathText,
    path: &PathText,
) -> Result<bool, AllocError> {
    if path == watched {
        return Ok(false);
    }
    is_tagged(runtime, alloc, path)
}

/// Looks at the paths at or below a path, and returns the first found path that has changed after a
/// moment. Returns `None` if nothing moved. Paths at or below the path that is left out are
/// skipped, and so are paths below other target folders. A path counts as moved if its change is
/// unknown.
///
/// Errors: out of memory.
pub(crate) fn first_moved<R: Files + AllocGlobal>(
    runtime: &R,
    alloc: Global,
    since: Moment,
    left_out: &PathText,
    path: &PathText,
) -> Result<Option<PathText>, AllocError> {
    if path.starts_with(left_out) {
        return Ok(None);
    }
    let mut waiting = Vec::new(alloc);
    waiting.push(path.copy(alloc)?)?;
    for _ in 0..u64::MAX {
        let Some(here) = waiting.pop() else {
            return Ok(None);
        };
        if !is_passed_over(runtime, alloc, path, &here)?
            && has_moved(runtime, alloc, since, left_out, &here, &mut waiting)?
        {
            return Ok(Some(here));
        }
    }
    Ok(Some(path.copy(alloc)?))
}

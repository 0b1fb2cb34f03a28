//! Writing and removing real files.

use crate::failed::Failed;
use crate::reading::{MOST_BYTES, says_absent};
use pb_data::Bytes;
use pb_place_types::{PathText, length_of};
use std::alloc::{AllocError, Global};
use std::fs::Permissions;
use std::io::{ErrorKind, Write};
use std::os::unix::fs::PermissionsExt;
use std::rt::Files;
use std::{fs, io};

/// The mode of a folder that its owner may read, write and enter.
const OWNED: u32 = 0o700;

/// Returns an empty file for n bytes, and makes the folders above the file. If n is more than a
/// file may have, nothing is done.
fn create_file<R: Files>(
    runtime: &R,
    alloc: Global,
    path: &PathText,
    length: u64,
) -> Result<R::File, Failed> {
    if length > MOST_BYTES {
        return Err(Failed::from(io::Error::from(ErrorKind::FileTooLarge)));
    }
    let folder = path.folder(alloc)?;
    fs::create_dir_all(runtime, folder.as_str())?;
    Ok(fs::create(runtime, path.as_str())?)
}

/// Writes a file, and makes the folders above the file. If there are more bytes than a file may
/// have, nothing is done.
pub(crate) fn write_file<R: Files>(
    runtime: &R,
    alloc: Global,
    path: &PathText,
    bytes: &[u8],
) -> Result<(), Failed> {
    let mut file = create_file(runtime, alloc, path, bytes.len() as u64)?;
    file.write_all(bytes)?;
    Ok(())
}

/// Writes a file whose bytes come in pieces, as `write_file` does. No memory is used for the
/// pieces.
pub(crate) fn write_file_pieces<R: Files>(
    runtime: &R,
    alloc: Global,
    path: &PathText,
    pieces: &[Bytes],
) -> Result<(), Failed> {
    let mut file = create_file(runtime, alloc, path, length_of(pieces))?;
    for piece in pieces {
        file.write_all(piece.as_slice())?;
    }
    Ok(())
}

/// Removes what is at a path. A folder is removed with its contents. If the path is a link, only
/// the link is removed.
fn remove_standing<R: Files + AllocGlobal>(
    runtime: &R,
    path: &str,
    is_folder: bool,
) -> io::Result<()> {
    if is_folder {
        return fs::remove_dir_all(runtime, path);
    }
    fs::remove_file(runtime, path)
}

/// Adds the folders directly in a folder to the waiting folders. A link does not count as a folder.
/// If the folder cannot be read, no folders are added.
fn add_folders<R: Files + AllocGlobal>(
    runtime: &R,
    folder: &str,
    waiting: &mut Vec<String>,
) -> Result<(), AllocError> {
    let Ok(entries) = fs::read_dir(&runtime, folder) else {
        return Ok(());
    };
    for entry in entries {
        if let Ok(entry) = entry {
            let path = format!(in runtime.alloc(); "{folder}/{}", entry.file_name())?;
            match fs::symlink_metadata(runtime, path.as_str()) {
                Ok(metadata) if metadata.is_dir() => waiting.push(path)?,
                _ => {}
            }
        }
    }
    Ok(())
}

/// Lets the owner read, write and enter a folder and all folders below it, so that their contents
/// can be removed. Links are not followed. A folder that cannot be changed stays as it is.
fn open_folders<R: Files + AllocGlobal>(runtime: &R, path: &str) -> Result<(), AllocError> {
    let alloc = runtime.alloc();
    let mut waiting = Vec::new(alloc);
    waiting.push(String::from_str(alloc, path)?)?;
    for _ in 0..u64::MAX {
        let Some(folder) = waiting.pop() else {
            return Ok(());
        };
        let _ = fs::set_permissions(runtime, folder.as_str(), Permissions::from_mode(OWNED));
        add_folders(runtime, folder.as_str(), &mut waiting)?;
    }
    Ok(())
}

/// Removes what is at a path. If the removal of a folder is refused, the folders there are made
/// writable and the removal is tried again. A child may have left folders that are not writable.
fn remove_whole<R: Files + AllocGlobal>(
    runtime: &R,
    path: &str,
    is_folder: bool,
) -> io::Result<()> {
    match remove_standing(runtime, path, is_folder) {
        Err(error) if is_folder && error.kind() == ErrorKind::PermissionDenied => {
            if open_folders(runtime, path).is_err() {
                return Err(io::Error::from(ErrorKind::OutOfMemory));
            }
            remove_standing(runtime, path, is_folder)
        }
        answer => answer,
    }
}

/// Removes an entry of a folder, unless the entry is itself a folder. Returns whether the entry is
/// a folder.
fn remove_entry<R: Files>(runtime: &R, path: &str) -> io::Result<bool> {
    let metadata = fs::symlink_metadata(runtime, path)?;
    if metadata.is_dir() {
        return Ok(true);
    }
    fs::remove_file(runtime, path)?;
    Ok(false)
}

/// Removes the files of a folder, and adds its folders to the waiting folders. Names that are not
/// UTF-8 are left out.
///
/// Errors:
///
/// - The first file that cannot be removed.
/// - The folder, if it cannot be listed.
/// - Out of memory.
fn clear_folder<R: Files + AllocGlobal>(
    runtime: &R,
    folder: &str,
    waiting: &mut Vec<String>,
) -> Result<(), Failed> {
    let alloc = runtime.alloc();
    let entries = match fs::read_dir(&runtime, folder) {
        Ok(entries) => entries,
        Err(error) => return Err(Failed::from(error).at(alloc, folder)),
    };
    for entry in entries {
        if let Ok(entry) = entry {
            let path = format!(in alloc; "{folder}/{}", entry.file_name())?;
            match remove_entry(runtime, path.as_str()) {
                Ok(true) => waiting.push(path)?,
                Ok(false) => {}
                Err(error) => return Err(Failed::from(error).at(alloc, path.as_str())),
            }
        }
    }
    Ok(())
}

/// Removes all files below a folder. Returns the folders, each after the folder that contains it.
///
/// Errors: the errors of `clear_folder`.
fn clear_folders<R: Files + AllocGlobal>(runtime: &R, path: &str) -> Result<Vec<String>, Failed> {
    let alloc = runtime.alloc();
    let mut waiting = Vec::new(alloc);
    let mut cleared = Vec::new(alloc);
    waiting.push(String::from_str(alloc, path)?)?;
    for _ in 0..u64::MAX {
        let Some(folder) = waiting.pop() else {
            return Ok(cleared);
        };
        clear_folder(runtime, folder.as_str(), &mut waiting)?;
        cleared.push(folder)?;
    }
    Ok(cleared)
}

/// Removes a folder and the files and folders below it, one after another. So if a removal fails,
/// the path that cannot be removed is known.
///
/// Errors: the first file or folder that cannot be removed; out of memory.
fn remove_singly<R: Files + AllocGlobal>(runtime: &R, path: &str) -> Result<(), Failed> {
    let mut folders = clear_folders(runtime, path)?;
    for _ in 0..u64::MAX {
        let Some(folder) = folders.pop() else {
            return Ok(());
        };
        if let Err(error) = fs::remove_dir(runtime, folder.as_str()) {
            return Err(Failed::from(error).at(runtime.alloc(), folder.as_str()));
        }
    }
    Ok(())
}

/// Removes the file or folder at a path, with everything below the path, and returns whether
/// something was there. A link itself is removed, but not the file or folder to which the link
/// leads.
///
/// Errors: the first file or folder that cannot be removed; out of memory.
pub(crate) fn remove_tree<R: Files + AllocGlobal>(runtime: &R, path: &str) -> Result<bool, Failed> {
    let metadata = match fs::symlink_metadata(runtime, path) {
        Ok(metadata) => metadata,
        Err(error) if says_absent(&error) => return Ok(false),
        Err(error) => return Err(Failed::from(error)),
    };
    match remove_whole(runtime, path, metadata.is_dir()) {
        Ok(()) => Ok(true),
        Err(error) if metadata.is_dir() && error.kind() != ErrorKind::OutOfMemory => {
            remove_singly(runtime, path)?;
            Ok(true)
        }
        Err(error) => Err(Failed::from(error)),
    }
}

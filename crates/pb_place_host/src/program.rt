//! Which program a name means.

use pb_data::Text;
use std::alloc::{AllocError, Global};
use std::env::VarError;
use std::io::ErrorKind;
use std::os::unix::fs::MetadataExt;
use std::rt::{Env, Files};
use std::{env, fs, io};

/// The folders in which the system, and therefore this crate, looks for programs if `PATH` is not
/// set.
const WITHOUT_PATH: &str = "/bin:/usr/bin";

/// The bits of a file's mode that let somebody run it.
const MAY_RUN: u32 = 0o111;

/// Returns whether there is a file that somebody may run at a path, after following links.
fn is_program<R: Files>(runtime: &R, path: &str) -> bool {
    match fs::metadata(runtime, path) {
        Ok(metadata) => metadata.is_file() && metadata.mode() & MAY_RUN != 0,
        Err(_) => false,
    }
}

/// Returns the path of a name in a folder. A relative path of a folder starts at the current
/// folder.
fn path_in<R: Files + Env + AllocGlobal>(
    runtime: &R,
    alloc: Global,
    folder: &str,
    name: &str,
) -> Result<String, AllocError> {
    if folder.starts_with('/') {
        return format!(in alloc; "{folder}/{name}");
    }
    match env::current_dir(runtime) {
        Ok(current) => format!(in alloc; "{}/{folder}/{name}", current.as_str()),
        Err(_) => format!(in alloc; "{folder}/{name}"),
    }
}

/// Returns the first program with a name in some folders, which are separated by colons.
fn first_program<R: Files + Env + AllocGlobal>(
    runtime: &R,
    alloc: Global,
    folders: &str,
    name: &str,
) -> Result<Option<String>, AllocError> {
    for folder in folders.split(':') {
        let path = path_in(runtime, alloc, folder, name)?;
        if is_program(runtime, path.as_str()) {
            return Ok(Some(path));
        }
    }
    Ok(None)
}

/// Returns the error for a program that no folder has.
fn not_found() -> io::Error {
    io::Error::new(ErrorKind::NotFound, "no folder of PATH has it")
}

/// Looks for a program in some folders.
fn found_in<R: Files + Env + AllocGlobal>(
    runtime: &R,
    alloc: Global,
    folders: &str,
    name: &str,
) -> io::Result<Text> {
    match first_program(runtime, alloc, folders, name)? {
        Some(path) => Ok(Text::new(path)),
        None => Err(not_found()),
    }
}

/// Returns the path of a program. A name with a slash is a path. Any other name is looked for in
/// the folders of this program's own `PATH`. So a `PATH` that a command sets for its child does not
/// choose which program the child is.
///
/// Errors: `CannotStart`, if no folder has the program; `OutOfMemory`.
pub(crate) fn program_of<R: Files + Env + AllocGlobal>(
    runtime: &R,
    alloc: Global,
    name: &str,
) -> io::Result<Text> {
    if name.contains('/') {
        return Ok(Text::from_str(alloc, name)?);
    }
    match env::var(runtime, "PATH") {
        Ok(folders) => found_in(runtime, alloc, folders.as_str(), name),
        Err(VarError::NotPresent) => found_in(runtime, alloc, WITHOUT_PATH, name),
        Err(VarError::OutOfMemory) => Err(io::Error::from(ErrorKind::OutOfMemory)),
        // `PATH` is not UTF-8. The error `not_found` contains no path from this builder.
        Err(VarError::NotUnicode) => Err(not_found()),
    }
}

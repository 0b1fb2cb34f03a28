//! Reading real files and variables.

ghost use Rattle.std.specs.Prelude.{◌≡◌, ◌≢◌, ◌⊎◌, ◌↔◌, IsTrue, None, Ok, Err};
ghost use Rattle.std.specs.IoError.{error_kind};
ghost use Rattle.pb_place_types.specs.declared.child.ViewFault.TheVariants as view_fault;

use crate::failed::Failed;
use pb_data::{Bytes, Text};
use pb_place_types::ViewFault;
use std::env::VarError;
use std::io::{ErrorKind, Read};
use std::rt::{Env, Files};
use std::{env, fs, io};

/// The greatest number of bytes that a file may have.
pub(crate) const MOST_BYTES: u64 = 4_294_967_296;

/// What is at a path, after following links.
#[derive(Clone, Copy, Debug, PartialEq, Eq)]
pub(crate) enum Standing {
    /// A file, with its number of bytes.
    File(u64),
    /// A folder.
    Folder,
    /// Nothing, or something other than a file or a folder.
    Nothing,
}

/// Returns why reading failed: out of memory, or a failure of the outside world.
pub(crate) fn fault_of(failed: Failed) -> ViewFault
    ensures memory { error_kind failed.error ≡ ErrorKind.OutOfMemory
        → result ≡ view_fault.OutOfMemory }
    ensures failed { error_kind failed.error ≢ ErrorKind.OutOfMemory → result ≡ view_fault.Failed }
{
    if failed.is_memory() {
        return ViewFault::OutOfMemory;
    }
    ViewFault::Failed
}

/// Returns whether an error means that nothing is at a path. Then there is no such name, or a file
/// is in the position of a folder, or the links lead in a circle.
pub(crate) fn says_absent(error: &io::Error) -> bool
    ensures { IsTrue result
        ↔ ((error_kind error.now ≡ ErrorKind.NotFound)
        ⊎ (error_kind error.now ≡ ErrorKind.NotADirectory)
        ⊎ (error_kind error.now ≡ ErrorKind.FilesystemLoop)) }
{
    matches!(
        error.kind(),
        ErrorKind::NotFound | ErrorKind::NotADirectory | ErrorKind::FilesystemLoop
    )
}

/// Returns what is at a path, according to the metadata of the path.
pub(crate) fn standing_of(metadata: &fs::Metadata) -> Standing {
    if metadata.is_file() {
        return Standing::File(metadata.len());
    }
    if metadata.is_dir() {
        return Standing::Folder;
    }
    Standing::Nothing
}

/// Returns what is at a path, after following links. A link that leads nowhere, or in a circle,
/// counts as nothing.
///
/// Errors: the system's error, if the system cannot find out.
fn standing_at<R: Files>(runtime: &R, path: &str) -> io::Result<Standing> {
    match fs::metadata(runtime, path) {
        Ok(metadata) => Ok(standing_of(&metadata)),
        Err(error) if says_absent(&error) => Ok(Standing::Nothing),
        Err(error) => Err(error),
    }
}

/// Returns whether a file is at a path, after following links.
///
/// Errors: the system's error, if the system cannot find out.
pub(crate) fn is_file<R: Files>(runtime: &R, path: &str) -> Result<bool, Failed> {
    match standing_at(runtime, path)? {
        Standing::File(_) => Ok(true),
        Standing::Folder | Standing::Nothing => Ok(false),
    }
}

/// Reads the first bytes of a file, and returns how many. If the call was interrupted, no bytes are
/// read.
fn read_first<F: Read>(file: &mut F, bytes: &mut [u8]) -> io::Result<usize> {
    match file.read(bytes) {
        Err(error) if error.kind() == ErrorKind::Interrupted => Ok(0),
        answer => answer,
    }
}

/// Returns the bytes of a file that had n bytes a moment ago. One call requests n + 1 bytes. If the
/// call returns exactly n bytes, the file ends there. Otherwise the rest is read until a call
/// returns nothing.
pub(crate) fn bytes_at<R: Files + AllocGlobal>(
    runtime: &R,
    path: &str,
    length: u64,
) -> io::Result<Vec<u8>> {
    let mut file = fs::open(runtime, path)?;
    let mut bytes = Vec::new(runtime.alloc());
    bytes.resize((length as usize).saturating_add(1), 0)?;
    let count = read_first(&mut file, bytes.as_mut_slice())?;
    bytes.truncate(count);
    if count as u64 != length {
        file.read_to_end(&mut bytes)?;
    }
    Ok(bytes)
}

/// Returns the bytes of a file, or `None` if no file is at the path.
///
/// Errors: `Failed`, if the file cannot be read, or is too long.
pub(crate) fn file_at<R: Files + AllocGlobal>(
    runtime: &R,
    path: &str,
) -> Result<Option<Bytes>, Failed> {
    match standing_at(runtime, path)? {
        Standing::File(length) if length > MOST_BYTES => {
            Err(Failed::from(io::Error::from(ErrorKind::FileTooLarge)))
        }
        Standing::File(length) => Ok(Some(Bytes::new(bytes_at(runtime, path, length)?))),
        _ => Ok(None),
    }
}

/// Reads at most the first `most` bytes of a file.
fn first_bytes_at<R: Files + AllocGlobal>(
    runtime: &R,
    path: &str,
    most: usize,
) -> io::Result<Vec<u8>> {
    let file = fs::open(runtime, path)?;
    let mut bytes = Vec::new(runtime.alloc());
    file.take(most as u64).read_to_end(&mut bytes)?;
    Ok(bytes)
}

/// Returns at most the first `most` bytes of a file, or `None` if no file is at the path.
///
/// Errors: `Failed`, if the file cannot be read.
pub(crate) fn first_of<R: Files + AllocGlobal>(
    runtime: &R,
    path: &str,
    most: usize,
) -> Result<Option<Bytes>, Failed> {
    match standing_at(runtime, path)? {
        Standing::File(length) if length < most as u64 => file_at(runtime, path),
        Standing::File(_) => Ok(Some(Bytes::new(first_bytes_at(runtime, path, most)?))),
        _ => Ok(None),
    }
}

/// Returns the answer for a variable without a value: `None` if the variable is not set, otherwise
/// the fault.
fn variable_error(error: VarError) -> Result<Option<Text>, ViewFault>
    ensures absent { error ≡ VarError.NotPresent → result ≡ Ok None }
    ensures failed { error ≡ VarError.NotUnicode → result ≡ Err view_fault.Failed }
    ensures memory { error ≡ VarError.OutOfMemory → result ≡ Err view_fault.OutOfMemory }
{
    match error {
        VarError::NotPresent => Ok(None),
        VarError::NotUnicode => Err(ViewFault::Failed),
        VarError::OutOfMemory => Err(ViewFault::OutOfMemory),
    }
}

/// Returns the value of a variable, or `None` if the variable is not set.
///
/// Errors: `Failed`, if the value is not UTF-8.
pub(crate) fn variable_of<R: Env + AllocGlobal>(
    runtime: &R,
    name: &str,
) -> Result<Option<Text>, ViewFault> {
    match env::var(runtime, name) {
        Ok(value) => Ok(Some(Text::new(value))),
        Err(error) => variable_error(error),
    }
}

//! The note on the long record of a script that names no input.

use pb_data::{Bytes, Items, Text};
use pb_place_types::{PathText, RelativePath};
use pb_record::{Input, Record, read_record};
use std::alloc::{AllocError, Global};

/// The greatest number of bytes of a record that gets no note.
const LONGEST: usize = 16_777_216;

/// How the name of the record of a script's run ends.
const RUN_RECORD: &str = ".run.record";

/// How many files the note names.
const NAMED: usize = 3;

/// A file that a record contains.
#[derive(Drop)]
struct KeptFile {
    /// Its path.
    path: Text,
    /// How many bytes it has.
    length: usize,
}

/// Returns whether a line of a script's output names an input.
fn is_input_line(line: &[u8]) -> bool {
    line.starts_with(b"cargo::rerun-if-".as_slice())
        || line.starts_with(b"cargo:rerun-if-".as_slice())
}

/// Returns whether a script's output names an input.
fn names_input(stdout: &[u8]) -> bool {
    stdout
        .split(|byte| *byte == b'\n')
        .any(|line| is_input_line(line))
}

/// Adds the files of a folder.
fn add_folder(
    alloc: Global,
    found: &mut Vec<KeptFile>,
    folder: &PathText,
    files: &[(RelativePath, Bytes)],
) -> Result<(), AllocError> {
    for (relative, bytes) in files {
        let path = folder.below(alloc, relative)?.into_text();
        found.push(KeptFile {
            path,
            length: bytes.as_slice().len(),
        })?;
    }
    Ok(())
}

/// Returns the files that some inputs contain.
fn files_of(alloc: Global, inputs: &[Input]) -> Result<Vec<KeptFile>, AllocError> {
    let mut found = Vec::new(alloc);
    for input in inputs {
        match input {
            Input::Tree(folder, files) => add_folder(alloc, &mut found, folder, files.as_slice())?,
            _ => {}
        }
    }
    Ok(found)
}

/// Adds the largest files, each with its size: `PATH (N bytes)`, with `, ` between two files.
fn push_largest(
    alloc: Global,
    text: &mut String,
    mut files: Vec<KeptFile>,
) -> Result<(), AllocError> {
    files.sort_by_key(|file| file.length)?;
    for number in 0..NAMED {
        if let Some(file) = files.pop() {
            let before = if number == 0 { " " } else { ", " };
            let length = file.length;
            let path = file.path.as_str();
            text.push_str(format!(in alloc; "{before}{path} ({length} bytes)")?.as_str())?;
        }
    }
    Ok(())
}

/// Returns the note on a script's long record, as a line.
///
/// Errors: out of memory.
fn text_of(alloc: Global, length: usize, record: &Record) -> Result<String, AllocError> {
    let key = record.key.as_str();
    let mut text = format!(in alloc;
        "note: the record of {key} has {length} bytes: its script names no input, so all files of its package are inputs. The largest:"
    )?;
    push_largest(alloc, &mut text, files_of(alloc, record.inputs.as_slice())?)?;
    text.push_str(". A script names its inputs with lines cargo::rerun-if-changed=PATH\n")?;
    Ok(text)
}

/// Returns whether a file may be the long record of a script, by its path and its length.
pub(crate) fn may_be_long(path: &PathText, length: u64) -> bool {
    length > LONGEST as u64 && path.as_str().ends_with(RUN_RECORD)
}

/// Returns the note on a file that was written, as a line. The file must be the record of a script
/// that names no input, and must have more than 16,777,216 bytes. For any other file the result is
/// `None`.
///
/// Errors: out of memory.
pub(crate) fn long_record_line(
    alloc: Global,
    path: &PathText,
    bytes: &[u8],
) -> Result<Option<String>, AllocError> {
    if !may_be_long(path, bytes.len() as u64) {
        return Ok(None);
    }
    let Some(record) = read_record(alloc, bytes)? else {
        return Ok(None);
    };
    if names_input(record.stdout.as_slice()) {
        return Ok(None);
    }
    Ok(Some(text_of(alloc, bytes.len(), &record)?))
}

//! An upper bound for the length of a record's text, so that memory for the text is taken once. No
//! proof depends on the bound. If the bound were too small, the text would grow.

use crate::record::{Input, Needed, Record};
use crate::recorded_command::RecordedCommand;
use pb_data::{Bytes, Items, Text};
use pb_place_types::{PathText, RelativePath};

/// The space for a number and the line feeds around it: at most 20 digits.
const LINE: usize = 22;

/// Returns the space for a block with n bytes.
fn block(length: usize) -> usize {
    length.saturating_add(LINE)
}

/// Returns the space for texts.
fn texts(texts: &[Text]) -> usize {
    let mut room = LINE;
    for text in texts {
        room = room.saturating_add(block(text.as_bytes().len()));
    }
    room
}

/// Returns the space for paths.
fn paths(paths: &[PathText]) -> usize {
    let mut room = LINE;
    for path in paths {
        room = room.saturating_add(block(path.as_str().len()));
    }
    room
}

/// Returns the space for names with their values.
fn pairs(pairs: &[(Text, Text)]) -> usize {
    let mut room = LINE;
    for pair in pairs {
        room = room.saturating_add(block(pair.0.as_bytes().len()));
        room = room.saturating_add(block(pair.1.as_bytes().len()));
    }
    room
}

/// Returns the space for files.
fn files(files: &[(RelativePath, Bytes)]) -> usize {
    let mut room = LINE;
    for file in files {
        room = room.saturating_add(block(file.0.as_str().len()));
        room = room.saturating_add(block(file.1.as_slice().len()));
    }
    room
}

/// Returns the space for an input's value.
fn value(input: &Input) -> usize {
    match input {
        Input::File(path, bytes) => {
            block(path.as_str().len()).saturating_add(block(bytes.as_slice().len()))
        }
        Input::Tree(path, inside) => {
            block(path.as_str().len()).saturating_add(files(inside.as_slice()))
        }
        Input::Value(name, Some(text)) => {
            block(name.as_bytes().len()).saturating_add(block(text.as_bytes().len()))
        }
        Input::Value(name, None) => block(name.as_bytes().len()),
    }
}

/// Returns the space for inputs. Each input has a line for its kind, and a line that says whether
/// its text is present.
fn inputs(inputs: &[Input]) -> usize {
    let mut room = LINE;
    for input in inputs {
        room = room.saturating_add(value(input)).saturating_add(LINE);
    }
    room
}

/// Returns the space for needed units with their files.
fn copies(copies: &[(Text, Items<(RelativePath, Bytes)>)]) -> usize {
    let mut room = LINE;
    for copy in copies {
        room = room.saturating_add(block(copy.0.as_bytes().len()));
        room = room.saturating_add(files(copy.1.as_slice()));
    }
    room
}

/// Returns the space for needed units with their numbers, and for the record's own number.
fn numbers(needs: &[(Text, u64)]) -> usize {
    let mut room = LINE + LINE;
    for need in needs {
        room = room
            .saturating_add(block(need.0.as_bytes().len()))
            .saturating_add(LINE);
    }
    room
}

/// Returns the space for a request.
fn room_for_request(asked: &RecordedCommand) -> usize {
    block(asked.program.as_bytes().len())
        .saturating_add(texts(asked.words.as_slice()))
        .saturating_add(block(asked.folder.as_str().len()))
        .saturating_add(pairs(asked.pairs.as_slice()))
        .saturating_add(block(asked.out.as_str().len()))
        .saturating_add(block(asked.target.as_str().len()))
        .saturating_add(block(asked.toolchain.as_slice().len()))
        .saturating_add(paths(asked.reads.as_slice()))
}

/// Returns the space for the needed units.
fn room_for_needed(needed: &Needed) -> usize {
    match needed {
        Needed::Copies(those) => copies(those.as_slice()),
        Needed::Numbers(_, needs) => numbers(needs.as_slice()),
    }
}

/// Returns the space for a record, with its first and its last line.
pub(crate) fn room_for(kept: &Record) -> usize {
    block(kept.key.as_bytes().len())
        .saturating_add(room_for_request(&kept.asked))
        .saturating_add(inputs(kept.inputs.as_slice()))
        .saturating_add(room_for_needed(&kept.needed))
        .saturating_add(block(kept.stdout.as_slice().len()))
        .saturating_add(block(kept.stderr.as_slice().len()))
        .saturating_add(LINE)
}

//! What is recorded of a unit that was built.

use crate::recorded_command::RecordedCommand;
use pb_data::{Bytes, Items, Text, TryCopy};
use pb_place_types::{PathText, RelativePath};
use std::alloc::{AllocError, Global};

/// The name of an input of a unit. A unit's answer depends on its command, on the units that it
/// reaches, and on its inputs.
#[derive(Debug, Drop)]
pub enum InputName {
    /// A file, or all files below a folder.
    Path(PathText),
    /// A variable of the environment.
    Variable(Text),
}

/// An input of a unit, with its value. A unit's answer depends on its command, on the units that it
/// reaches, and on its inputs.
#[derive(Drop)]
pub enum Input {
    /// A file, and the bytes of the file.
    File(PathText, Bytes),
    /// A path without a file, and the files below this path. Each file has its path relative to
    /// this path.
    Tree(PathText, Items<(RelativePath, Bytes)>),
    /// A variable of the environment, and its text, if it is set.
    Value(Text, Option<Text>),
}

/// The units that a unit needs, as they were when the unit was built. The format of the record
/// determines which of the two cases is used.
#[derive(Drop)]
pub enum Needed {
    /// Format 1: the keys of all units that the unit reaches, each with the files of its output
    /// folder.
    Copies(Items<(Text, Items<(RelativePath, Bytes)>)>),
    /// Format 2: the record's own run number, and the keys of the needed units, each with the run
    /// number of its record.
    Numbers(u64, Items<(Text, u64)>),
}

/// What is recorded of a unit that was built.
#[derive(Drop)]
pub struct Record {
    /// The unit's key.
    pub key: Text,
    /// What was requested of the child.
    pub asked: RecordedCommand,
    /// The inputs with their values.
    pub inputs: Items<Input>,
    /// The needed units.
    pub needed: Needed,
    /// What the child wrote to standard output.
    pub stdout: Bytes,
    /// What the child wrote to standard error.
    pub stderr: Bytes,
}

impl TryCopy for InputName {
    fn copy(&self, alloc: Global) -> Result<InputName, AllocError> {
        Ok(match self {
            InputName::Path(path) => InputName::Path(path.copy(alloc)?),
            InputName::Variable(name) => InputName::Variable(name.copy(alloc)?),
        })
    }
}

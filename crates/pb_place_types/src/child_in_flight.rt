//! A child that was spawned and has not been waited for.

use crate::command::{Command, Ended};
use crate::files::FileMap;
use crate::relative::RelativePath;
use pb_data::{Bytes, Items};

/// A child in flight: its ticket, its command, how it will end, the files that it will leave in the
/// command's folder, and the folder's files at the spawn.
#[derive(Drop)]
pub struct ChildInFlight {
    /// The number with which `finish` waits for the child's end. No two children in flight have the
    /// same number.
    pub ticket: u64,
    /// The command that was spawned.
    pub command: Command,
    /// How the child ends, if it replies.
    pub ended: Ended,
    /// The files that the child leaves in the command's folder if it replies.
    pub files: Items<(RelativePath, Bytes)>,
    /// The files inside the command's folder when the command was spawned.
    pub before: FileMap,
}

//! What changed while a child was running.

use crate::path::PathText;

/// A path that a child read, and that changed after the child was spawned.
#[derive(Debug, Drop)]
pub struct Moved {
    /// The path that changed. For a folder, the first changed path that was found in the folder.
    pub path: PathText,
    /// The output folder of the child.
    pub out: PathText,
}

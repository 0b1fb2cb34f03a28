//! Places that can remember what they returned.

use pb_data::{Bytes, Items};
use pb_place_types::PathText;

/// A place that can remember what its calls returned. A second look asks the place first, and makes
/// a call only for what the place does not remember.
///
/// Contracts promise nothing about what a place remembers: only notes are made from what is
/// remembered, and notes are for people. The functions of this trait use no memory, and are not
/// counted as calls.
pub trait Remembering {
    /// Returns the whole text of a file, if the place has read the file and remembers its text.
    fn remembered_text(&self, path: &PathText) -> Option<&Bytes>;

    /// Returns the folders that the place has found directly in a folder, if the place has listed
    /// this folder and remembers the list. Folders that the list left out are not returned.
    fn remembered_folders(&self, folder: &PathText) -> Option<&Items<PathText>>;
}

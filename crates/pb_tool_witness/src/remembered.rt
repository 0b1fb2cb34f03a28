//! What a place remembers of a planning: the manifests that were read, and the folders that were
//! listed.
//!
//! The second look asks for the same manifests and folders, so it makes no call for them. Nothing
//! that a build does depends on what is remembered.

use pb_data::{Bytes, Items, TryCopy};
use pb_place_types::PathText;
use std::alloc::{AllocError, Global};
use std::collections::BTreeMap;

/// The greatest number of bytes of texts and paths that are remembered. The second look makes calls
/// for what is not remembered.
const MOST_BYTES: usize = 4_194_304;

/// What a place remembers of a planning.
#[derive(Drop)]
pub(crate) struct Remembered {
    /// The whole texts of files.
    texts: BTreeMap<PathText, Bytes>,
    /// The folders that were found in each listed folder.
    listed: BTreeMap<PathText, Items<PathText>>,
    /// How many more bytes may be remembered.
    left: usize,
}

/// Returns how many bytes the paths of folders have.
fn length_of(folders: &[PathText]) -> usize {
    let mut length = 0usize;
    for folder in folders {
        length = length.saturating_add(folder.as_str().len());
    }
    length
}

impl Remembered {
    /// Returns what a place remembers at first, which is nothing. This takes no memory.
    pub(crate) fn new(alloc: Global) -> Remembered {
        Remembered {
            texts: BTreeMap::new(alloc),
            listed: BTreeMap::new(alloc),
            left: MOST_BYTES,
        }
    }

    /// Returns whether this many more bytes may be remembered, and counts them if so.
    fn has_left(&mut self, length: usize) -> bool {
        match self.left.checked_sub(length) {
            Some(left) => {
                self.left = left;
                true
            }
            None => false,
        }
    }

    /// Adds the text of a file.
    fn add_text(&mut self, alloc: Global, path: &PathText, text: &Bytes) -> Result<(), AllocError> {
        let path = path.copy(alloc)?;
        let text = text.copy(alloc)?;
        let _old = self.texts.insert(path, text)?;
        Ok(())
    }

    /// Adds the folders in a folder.
    fn add_folders(
        &mut self,
        alloc: Global,
        folder: &PathText,
        folders: &Items<PathText>,
    ) -> Result<(), AllocError> {
        let folder = folder.copy(alloc)?;
        let folders = folders.copy(alloc)?;
        let _old = self.listed.insert(folder, folders)?;
        Ok(())
    }

    /// Remembers the first bytes of a file, at most `most`, if these are all bytes of the file.
    /// What was remembered of the file before is dropped. If memory runs out, the text is not
    /// remembered.
    pub(crate) fn note_text(
        &mut self,
        alloc: Global,
        path: &PathText,
        most: usize,
        text: Option<&Bytes>,
    ) {
        self.texts.remove(path);
        if let Some(text) = text {
            let length = text.as_slice().len();
            if length < most && self.has_left(length) {
                let _ = self.add_text(alloc, path, text);
            }
        }
    }

    /// Remembers the folders that were found in a folder. What was remembered of the folder before
    /// is dropped. If memory runs out, the folders are not remembered.
    pub(crate) fn note_folders(
        &mut self,
        alloc: Global,
        folder: &PathText,
        folders: &Items<PathText>,
    ) {
        self.listed.remove(folder);
        if self.has_left(length_of(folders.as_slice())) {
            let _ = self.add_folders(alloc, folder, folders);
        }
    }

    /// Returns the text of a file, if it is remembered.
    pub(crate) fn text(&self, path: &PathText) -> Option<&Bytes> {
        self.texts.get(path)
    }

    /// Returns the folders that were found in a folder, if they are remembered.
    pub(crate) fn folders(&self, folder: &PathText) -> Option<&Items<PathText>> {
        self.listed.get(folder)
    }
}

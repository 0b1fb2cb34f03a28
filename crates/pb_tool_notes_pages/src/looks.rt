//! The calls that a second look makes of a place.

ghost use Rattle.pb_tool_notes_pages.specs.Looks.{LooksAgain};

use crate::remembering::Remembering;
use pb_data::{Bytes, Items, MAX_MANIFEST_BYTES, TryCopy};
use pb_place_types::{PathText, Place, PlaceFault};
use std::alloc::{AllocError, Global};

/// Returns the first bytes of a file: at most one byte more than a manifest may have. Returns none
/// if no file is there.
fn read<P: Place>(
    alloc: Global,
    place: &mut P,
    path: &PathText,
) -> Result<Option<Bytes>, PlaceFault>
    ensures { LooksAgain (P.at place.old) (P.at place.new) }
{
    place.read_first(alloc, path, MAX_MANIFEST_BYTES + 1)
}

/// Returns the bytes of a manifest, as `read` does. If the place remembers the manifest, returns
/// what the place remembers and makes no call.
pub(crate) fn recall_or_read<P: Place + Remembering>(
    alloc: Global,
    place: &mut P,
    path: &PathText,
) -> Result<Option<Bytes>, PlaceFault>
    ensures { LooksAgain (P.at place.old) (P.at place.new) }
{
    if let Some(text) = place.remembered_text(path) {
        return Ok(Some(text.copy(alloc)?));
    }
    read(alloc, place, path)
}

/// Returns whether a file is at a path.
pub fn is_file<P: Place>(alloc: Global, place: &mut P, path: &PathText) -> Result<bool, PlaceFault>
    ensures { LooksAgain (P.at place.old) (P.at place.new) }
{
    place.is_file(alloc, path)
}

/// Returns the paths of the files directly in a folder.
pub fn files_in<P: Place>(
    alloc: Global,
    place: &mut P,
    folder: &PathText,
) -> Result<Items<PathText>, PlaceFault>
    ensures { LooksAgain (P.at place.old) (P.at place.new) }
{
    place.list_directly(alloc, folder)
}

/// Returns the paths of the folders directly in a folder, except the folder `left_out`.
pub fn folders_in<P: Place>(
    alloc: Global,
    place: &mut P,
    folder: &PathText,
    left_out: &PathText,
) -> Result<Items<PathText>, PlaceFault>
    ensures { LooksAgain (P.at place.old) (P.at place.new) }
{
    place.list_folders(alloc, folder, left_out)
}

/// Returns copies of those folders that are not at or below the folder `left_out`.
fn outside(
    alloc: Global,
    folders: &[PathText],
    left_out: &PathText,
) -> Result<Items<PathText>, AllocError> {
    let mut others = Items::new(alloc);
    for folder in folders {
        if !folder.starts_with(left_out) {
            others.push(folder.copy(alloc)?)?;
        }
    }
    Ok(others)
}

/// Returns the folders directly in a folder, as `folders_in` does. If the place remembers these
/// folders, returns what the place remembers, and makes no call.
pub(crate) fn recall_or_list<P: Place + Remembering>(
    alloc: Global,
    place: &mut P,
    folder: &PathText,
    left_out: &PathText,
) -> Result<Items<PathText>, PlaceFault>
    ensures { LooksAgain (P.at place.old) (P.at place.new) }
{
    if let Some(folders) = place.remembered_folders(folder) {
        return Ok(outside(alloc, folders.as_slice(), left_out)?);
    }
    folders_in(alloc, place, folder, left_out)
}

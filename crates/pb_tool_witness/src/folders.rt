//! How the files below a folder differ from the recorded files.

use crate::values::{words_and_name, words_only};
use pb_data::Bytes;
use pb_place_types::{PathText, RelativePath};
use pb_tool_reasons::Detail;
use std::alloc::{AllocError, Global};

/// Returns how the paths below a folder differ from the recorded paths, if they do. Either the
/// folder is gone, or the detail names the first file, in byte order, that is new or gone.
pub(crate) fn paths_differ(
    alloc: Global,
    folder: &PathText,
    files: &[(RelativePath, Bytes)],
    paths: &[PathText],
) -> Result<Option<Detail>, AllocError> {
    if paths.is_empty() && !files.is_empty() {
        return Ok(Some(words_only(alloc, "is gone")?));
    }
    let mut left = files;
    for path in paths {
        let Some(relative) = path.inside(alloc, folder)? else {
            continue;
        };
        let relative = relative.as_str();
        match left {
            [(name, _), after @ ..] if name.as_str() == relative => left = after,
            [(name, _), ..] if name.as_str().as_bytes() < relative.as_bytes() => {
                return Ok(Some(words_and_name(alloc, "no longer has the file ", name.as_str())?));
            }
            _ => return Ok(Some(words_and_name(alloc, "has the new file ", relative)?)),
        }
    }
    match left {
        [(name, _), ..] => Ok(Some(words_and_name(
            alloc,
            "no longer has the file ",
            name.as_str(),
        )?)),
        [] => Ok(None),
    }
}

/// Returns the detail of a file below a folder, if the file differs from the recorded file.
pub(crate) fn file_differs(
    alloc: Global,
    file: &(RelativePath, Bytes),
    found: Option<&Bytes>,
) -> Result<Option<Detail>, AllocError> {
    let same = match found {
        Some(found) => found.as_slice() == file.1.as_slice(),
        None => false,
    };
    if same {
        return Ok(None);
    }
    Ok(Some(words_and_name(alloc, "has changed: ", file.0.as_str())?))
}

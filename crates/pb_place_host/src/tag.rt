//! The tag of a target folder.

use crate::meaning::led_to;
use crate::reading::bytes_at;
use pb_place_types::PathText;
use std::alloc::{AllocError, Global};
use std::fs;
use std::rt::Files;

/// The name of the file that marks a folder whose contents can be made again (Cache Directory
/// Tagging Specification).
pub const TAG_NAME: &str = "CACHEDIR.TAG";

/// The line by which a tag file marks a target folder of this builder.
pub const TAG_LINE: &str = "# This is a target folder of pb_tool.";

/// The content of the tag file that this builder writes. The Cache Directory Tagging Specification
/// requires the first line.
pub const TAG_TEXT: &str = "Signature: 8a477f597d28d172789f06886806bc55
# This is a target folder of pb_tool.
# For information about cache directory tags see https://bford.info/cachedir/
";

/// The greatest number of bytes that a tag may have. A longer file does not count as a tag.
const MOST_BYTES: u64 = 4096;

/// Returns whether a line of a text is the line of this builder.
pub fn has_tag_line(text: &[u8]) -> bool {
    text.split(|byte| *byte == b'\n')
        .any(|line| line == TAG_LINE.as_bytes())
}

/// Returns whether the file at a path marks a target folder of this builder. A file that cannot be
/// read does not mark a target folder.
fn is_tag<R: Files + AllocGlobal>(runtime: &R, path: &str) -> bool {
    let length = match fs::metadata(runtime, path) {
        Ok(metadata) if metadata.is_file() => metadata.len(),
        _ => return false,
    };
    if length > MOST_BYTES {
        return false;
    }
    match bytes_at(runtime, path, length) {
        Ok(bytes) => has_tag_line(bytes.as_slice()),
        Err(_) => false,
    }
}

/// Returns whether a folder is a target folder of this builder, by its tag.
///
/// Errors: out of memory.
pub(crate) fn is_tagged<R: Files + AllocGlobal>(
    runtime: &R,
    alloc: Global,
    folder: &PathText,
) -> Result<bool, AllocError> {
    let path = format!(in alloc; "{}/{TAG_NAME}", folder.as_str())?;
    Ok(is_tag(runtime, path.as_str()))
}

/// Returns whether a link leads into a target folder of this builder that does not contain the link
/// itself. Two things must be true:
///
/// - The link's goal, or a folder above the goal, is a target folder of this builder.
/// - `folder`, which contains the link, is not at or below that target folder.
///
/// Errors: out of memory.
pub(crate) fn leads_into_target<R: Files + AllocGlobal>(
    runtime: &R,
    alloc: Global,
    folder: &PathText,
    link: &PathText,
) -> Result<bool, AllocError> {
    let Some(own) = led_to(runtime, alloc, folder)? else {
        return Ok(false);
    };
    let Some(mut here) = led_to(runtime, alloc, link)? else {
        return Ok(false);
    };
    for _ in 0..u64::MAX {
        // A folder that is also above the link ends the walk. `/` is above all links.
        if own.starts_with(&here) {
            return Ok(false);
        }
        if is_tagged(runtime, alloc, &here)? {
            return Ok(true);
        }
        here = here.folder(alloc)?;
    }
    Ok(false)
}

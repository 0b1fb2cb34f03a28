//! A note on a package that is built alone although a workspace in a folder above lists it.

ghost use Rattle.pb_tool_notes_pages.specs.Looks.{LooksAgain};

use pb_place_types::{PathText, Place, PlaceFault};
use pb_tool_notes_pages::{Notes, Page, Remembering, matches_part, page_at, tell_key, texts_of};
use std::alloc::{AllocError, Global};

/// The greatest number of folders above a package that are examined.
const MOST_FOLDERS: usize = 16;

/// Returns whether `members` of a root manifest matches a folder. In this function a `*` matches
/// slashes, too.
fn lists(alloc: Global, page: &Page, folder: &PathText) -> Result<bool, AllocError> {
    let root = page.path.folder(alloc)?;
    for pattern in texts_of(alloc, page, "members")?.as_slice() {
        if let Ok(path) = root.join(alloc, *pattern) {
            if matches_part(alloc, path.as_str(), folder.as_str())? {
                return Ok(true);
            }
        }
    }
    Ok(false)
}

/// If a manifest above lists a package, adds a note that says so.
fn tell_if_listed(
    alloc: Global,
    notes: &mut Notes,
    page: &Page,
    own: &PathText,
) -> Result<(), AllocError> {
    if lists(alloc, page, own)? {
        let text = format!(in alloc;
            "it lists {}: call pb_tool in the folder of this manifest, or give --manifest-path {}",
            own.as_str(),
            page.path.as_str()
        )?;
        tell_key(alloc, notes, page, "workspace", "members", text.as_str())?;
    }
    Ok(())
}

/// Returns the manifest in a folder, if there is one.
fn manifest_in<P: Place + Remembering>(
    alloc: Global,
    place: &mut P,
    folder: &PathText,
) -> Result<Option<Page>, PlaceFault>
    ensures { LooksAgain (P.at place.old) (P.at place.new) }
{
    match folder.join(alloc, "Cargo.toml") {
        Ok(path) => page_at(alloc, place, &path),
        Err(_) => Ok(None),
    }
}

/// If the root manifest has no `[workspace]`, adds a note for each workspace that is in a folder
/// above and lists the root package.
pub fn tell_above<P: Place + Remembering>(
    alloc: Global,
    place: &mut P,
    notes: &mut Notes,
    root: &Page,
) -> Result<(), PlaceFault>
    ensures { LooksAgain (P.at place.old) (P.at place.new) }
{
    if root.table_at("workspace").is_some() {
        return Ok(());
    }
    let own = root.path.folder(alloc)?;
    let mut folder = own.folder(alloc)?;
    for step in 0..MOST_FOLDERS {
        if let Some(page) = manifest_in(alloc, place, &folder)? {
            tell_if_listed(alloc, notes, &page, &own)?;
        }
        let above = folder.folder(alloc)?;
        if above.as_str() == folder.as_str() {
            break;
        }
        folder = above;
    }
    Ok(())
}

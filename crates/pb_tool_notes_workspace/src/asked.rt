//! Notes on a missing manifest: what names the manifest.

ghost use Rattle.pb_tool_notes_pages.specs.Looks.{LooksAgain};

use pb_data::Items;
use pb_place_types::{PathText, Place, PlaceFault};
use pb_tool_notes_pages::{Ask, Notes, Pages, Role, folders_in, is_file, near, tell_key};
use std::alloc::{AllocError, Global};

/// Adds a note on what names a manifest.
fn tell_ask(
    alloc: Global,
    notes: &mut Notes,
    pages: &Pages,
    ask: &Ask,
    near: &str,
) -> Result<(), AllocError> {
    let Some(page) = pages.at(ask.by.as_str()) else {
        return notes.say(
            alloc,
            "this path comes from --manifest-path or from the current folder",
        );
    };
    match ask.role {
        Role::Root => Ok(()),
        Role::Member => {
            let text = format!(in alloc; "it names the folder of {}{near}", ask.path.as_str())?;
            tell_key(alloc, notes, page, "workspace", "members", text.as_str())
        }
        Role::Entry => {
            let text = format!(in alloc; "it leads to {}{near}", ask.path.as_str())?;
            tell_key(
                alloc,
                notes,
                page,
                ask.table.as_str(),
                ask.key.as_str(),
                text.as_str(),
            )
        }
    }
}

/// Returns ` (near: NAME)` for one of these folders.
fn near_among(alloc: Global, name: &str, folders: &[PathText]) -> Result<String, AllocError> {
    let mut names = Vec::new(alloc);
    for one in folders {
        names.push(one.last_part())?;
    }
    near(alloc, name, names.as_slice())
}

/// Returns the folders beside a folder: all folders in its parent folder, except the folder itself.
fn folders_beside<P: Place>(
    alloc: Global,
    place: &mut P,
    folder: &PathText,
) -> Result<Items<PathText>, PlaceFault>
    ensures { LooksAgain (P.at place.old) (P.at place.new) }
{
    let above = folder.folder(alloc)?;
    folders_in(alloc, place, &above, folder)
}

/// Returns ` (near: NAME)` for a folder beside a missing folder.
fn near_folder<P: Place>(
    alloc: Global,
    place: &mut P,
    manifest: &PathText,
) -> Result<String, PlaceFault>
    ensures { LooksAgain (P.at place.old) (P.at place.new) }
{
    let folder = manifest.folder(alloc)?;
    let found = folders_beside(alloc, place, &folder)?;
    match near_among(alloc, folder.last_part(), found.as_slice()) {
        Ok(near) => Ok(near),
        Err(_) => Err(PlaceFault::OutOfMemory),
    }
}

/// If a path is a folder with a manifest in it, adds a note that says so.
fn tell_folder<P: Place>(
    alloc: Global,
    place: &mut P,
    notes: &mut Notes,
    path: &PathText,
) -> Result<(), PlaceFault>
    ensures { LooksAgain (P.at place.old) (P.at place.new) }
{
    let Ok(below) = path.join(alloc, "Cargo.toml") else {
        return Ok(());
    };
    if is_file(alloc, place, &below)? {
        let text = format!(in alloc; "this path is a folder, which contains {}", below.as_str())?;
        notes.say(alloc, text.as_str())?;
    }
    Ok(())
}

/// Adds notes on what names a missing manifest.
pub fn tell_missing<P: Place>(
    alloc: Global,
    place: &mut P,
    notes: &mut Notes,
    pages: &Pages,
    path: &PathText,
) -> Result<(), PlaceFault>
    ensures { LooksAgain (P.at place.old) (P.at place.new) }
{
    tell_folder(alloc, place, notes, path)?;
    let near = near_folder(alloc, place, path)?;
    for ask in pages.asks.as_slice() {
        if ask.path.as_str() == path.as_str() {
            tell_ask(alloc, notes, pages, ask, near.as_str())?;
        }
    }
    Ok(())
}

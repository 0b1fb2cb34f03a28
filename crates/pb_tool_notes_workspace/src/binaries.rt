//! The names of a package's binaries, for notes.

ghost use Rattle.pb_tool_notes_pages.specs.Looks.{LooksAgain};

use pb_data::Text;
use pb_place_types::{PathText, Place, PlaceFault};
use pb_tool_notes_pages::{Page, Pages, files_in, folders_in, is_file, text_at};
use std::alloc::{AllocError, Global};
use toml::Value;

/// Adds the name of the binary of a file in `src/bin`.
fn push_file(names: &mut Vec<Text>, alloc: Global, path: &PathText) -> Result<(), AllocError> {
    if let Some(name) = path.last_part().strip_suffix(".rs") {
        names.push(Text::from_str(alloc, name)?)?;
    }
    Ok(())
}

/// Adds the name of a package if its `src/main.rs` exists.
fn push_main<P: Place>(
    alloc: Global,
    place: &mut P,
    names: &mut Vec<Text>,
    page: &Page,
    folder: &PathText,
) -> Result<(), PlaceFault>
    ensures { LooksAgain (P.at place.old) (P.at place.new) }
{
    let Ok(source) = folder.join(alloc, "src/main.rs") else {
        return Ok(());
    };
    let exists = is_file(alloc, place, &source);
    drop(source);
    if exists? {
        names.push(Text::from_str(alloc, page.package_text("name"))?)?;
    }
    Ok(())
}

/// Adds the names of binaries whose sources are these files.
fn push_files(alloc: Global, names: &mut Vec<Text>, files: &[PathText]) -> Result<(), AllocError> {
    for path in files {
        push_file(names, alloc, path)?;
    }
    Ok(())
}

/// Adds the names of binaries whose sources are in these folders.
fn push_folders(
    alloc: Global,
    names: &mut Vec<Text>,
    folders: &[PathText],
) -> Result<(), AllocError> {
    for path in folders {
        names.push(Text::from_str(alloc, path.last_part())?)?;
    }
    Ok(())
}

/// Adds the names of the binaries whose sources are files directly in a folder.
fn push_files_in<P: Place>(
    alloc: Global,
    place: &mut P,
    names: &mut Vec<Text>,
    folder: &PathText,
) -> Result<(), PlaceFault>
    ensures { LooksAgain (P.at place.old) (P.at place.new) }
{
    let files = files_in(alloc, place, folder)?;
    match push_files(alloc, names, files.as_slice()) {
        Ok(()) => Ok(()),
        Err(_) => Err(PlaceFault::OutOfMemory),
    }
}

/// Adds the names of the binaries whose sources are in folders directly in a folder.
fn push_folders_in<P: Place>(
    alloc: Global,
    place: &mut P,
    names: &mut Vec<Text>,
    folder: &PathText,
    left_out: &PathText,
) -> Result<(), PlaceFault>
    ensures { LooksAgain (P.at place.old) (P.at place.new) }
{
    let folders = folders_in(alloc, place, folder, left_out)?;
    match push_folders(alloc, names, folders.as_slice()) {
        Ok(()) => Ok(()),
        Err(_) => Err(PlaceFault::OutOfMemory),
    }
}

/// Adds the names of the binaries whose sources are in `src/bin` of a package's folder.
fn push_others<P: Place>(
    alloc: Global,
    place: &mut P,
    names: &mut Vec<Text>,
    page: &Page,
    folder: &PathText,
) -> Result<(), PlaceFault>
    ensures { LooksAgain (P.at place.old) (P.at place.new) }
{
    let Ok(binaries) = folder.join(alloc, "src/bin") else {
        return Ok(());
    };
    push_files_in(alloc, place, names, &binaries)?;
    push_folders_in(alloc, place, names, &binaries, &page.path)
}

/// Adds the names of the binaries that are found in the folder of a package.
fn push_found<P: Place>(
    alloc: Global,
    place: &mut P,
    names: &mut Vec<Text>,
    page: &Page,
) -> Result<(), PlaceFault>
    ensures { LooksAgain (P.at place.old) (P.at place.new) }
{
    let folder = page.path.folder(alloc)?;
    push_main(alloc, place, names, page, &folder)?;
    push_others(alloc, place, names, page, &folder)
}

/// Adds the names of the `[[bin]]` of a package.
fn push_written(alloc: Global, names: &mut Vec<Text>, page: &Page) -> Result<(), AllocError> {
    let Some(table) = &page.table else {
        return Ok(());
    };
    if let Some(binaries) = table.get("bin").and_then(Value::as_array) {
        for one in binaries {
            if let Some(one) = one.as_table() {
                names.push(Text::from_str(alloc, text_at(one, "name"))?)?;
            }
        }
    }
    Ok(())
}

/// Adds the names of the binaries of a package: those that its manifest writes, then those that are
/// found in its folder. A binary may be in both groups.
pub(crate) fn push_binaries<P: Place>(
    alloc: Global,
    place: &mut P,
    names: &mut Vec<Text>,
    page: &Page,
) -> Result<(), PlaceFault>
    ensures { LooksAgain (P.at place.old) (P.at place.new) }
{
    push_written(alloc, names, page)?;
    push_found(alloc, place, names, page)
}

/// Returns the names of the binaries of all packages.
pub(crate) fn binaries_of<P: Place>(
    alloc: Global,
    place: &mut P,
    pages: &Pages,
) -> Result<Vec<Text>, PlaceFault>
    ensures { LooksAgain (P.at place.old) (P.at place.new) }
{
    let mut names = Vec::new(alloc);
    for page in pages.pages.as_slice() {
        push_binaries(alloc, place, &mut names, page)?;
    }
    Ok(names)
}

//! Listing real folders.

ghost use Rattle.std.specs.Prelude.{◌≡◌, ◌+◌, ◌++◌, ◌∷◌, [], true, Some, All, map, IfOk, OnOk};
ghost use Rattle.pb_place_types.specs.Paths.{is_below, is_at_or_below};
ghost use Rattle.std.specs.Option.{option_copied};
ghost use Rattle.pb_place_host.specs.Listing.{AreBelow, AreOutside, AreOrdered, KeepsBelow, KeepsOutside, StaysBelow, is_left_out};

use crate::entry::standing_in;
use crate::failed::Failed;
use crate::reading::{Standing, says_absent};
use crate::tag::is_tagged;
use pb_data::{Items, Text, TryCopy};
use pb_place_types::{PathText, RelativePath};
use std::alloc::{AllocError, Global};
use std::rt::Files;
use std::{fs, io};

/// The greatest number of levels that a folder may be below the listed folder.
const DEEPEST: u8 = 128;

/// Returns whether a path is at or below the path that is left out.
fn is_left_out(left_out: Option<&PathText>, path: &PathText) -> bool
    ensures { result ≡ is_left_out (option_copied left_out.entry) path.now }
{
    match left_out {
        Some(folder) => path.starts_with(folder),
        None => false,
    }
}

/// A folder that has not been listed yet.
#[derive(Drop)]
pub(crate) struct Waiting {
    /// The path of the folder.
    pub(crate) folder: PathText,
    /// How many levels the folder is below the listed folder.
    depth: u8,
}

/// What has been found so far.
#[derive(Drop)]
pub(crate) struct Found {
    /// The files.
    pub(crate) files: Vec<PathText>,
    /// The folders that have not been listed yet.
    pub(crate) waiting: Vec<Waiting>,
}

/// Returns the path of an entry of a folder.
///
/// Errors: the entry's name is not a name of a path; out of memory.
fn path_of(alloc: Global, folder: &PathText, name: &str) -> Result<PathText, Failed>
    ensures below { IfOk result (λ path. is_below folder.now path ≡ true) }
{
    match RelativePath::of(Text::from_str(alloc, name)?) {
        Some(relative) => Ok(folder.below(alloc, &relative)?),
        None => Err(Failed::from(io::Error::from(io::ErrorKind::InvalidFilename))),
    }
}

/// Adds a file to the found files.
fn add_file(found: &mut Found, path: PathText) -> Result<(), Failed>
    ensures files { OnOk result (found.new.files.items ≡ found.old.files.items ++ path ∷ []) }
    ensures waiting { found.new.waiting ≡ found.old.waiting }
{
    found.files.push(path)?;
    Ok(())
}

/// Adds a folder to the waiting folders.
///
/// Errors: the folder is too deep; out of memory.
fn add_folder(found: &mut Found, path: PathText, above: u8) -> Result<(), Failed>
    ensures waiting { OnOk result (found.new.waiting.items ≡ found.old.waiting.items
        ++ record { folder = path; depth = above + 1 } ∷ []) }
    ensures files { found.new.files ≡ found.old.files }
{
    if above >= DEEPEST {
        return Err(Failed::from(io::Error::other("more than 128 folders lie in one another")));
    }
    found.waiting.push(Waiting {
        folder: path,
        depth: above + 1,
    })?;
    Ok(())
}

/// Adds an entry of a folder: a file to the found files, a folder to the waiting folders.
///
/// Errors:
///
/// - `List`, if the entry's name is not a name of a path, if the kind of the entry is unknown, or
///   if the entry is a folder that is too deep.
/// - `OutOfMemory`.
fn take_entry<R: Files + AllocGlobal>(
    runtime: &R,
    alloc: Global,
    left_out: Option<&PathText>,
    found: &mut Found,
    here: &Waiting,
    name: &str,
) -> Result<(), Failed>
    ensures below { OnOk result (KeepsBelow here.now.folder found.old found.new) }
    ensures outside { OnOk result
        (KeepsOutside (option_copied left_out.entry) found.old found.new) }
{
    let path = path_of(alloc, &here.folder, name)?;
    if is_left_out(left_out, &path) {
        return Ok(());
    }
    match standing_in(runtime, alloc, &here.folder, &path, name) {
        Ok(Standing::File(_)) => {
            add_file(found, path)?;
            Ok(())
        }
        Ok(Standing::Folder) => {
            add_folder(found, path, here.depth)?;
            Ok(())
        }
        Ok(Standing::Nothing) => Ok(()),
        Err(error) => Err(Failed::from(error)),
    }
}

/// Returns whether an error means only that the listed folder itself does not exist. The listed
/// folder need not exist.
fn may_be_absent(here: &Waiting, error: &io::Error) -> bool {
    here.depth == 0 && says_absent(error)
}

/// Returns whether a folder is skipped. A folder is skipped if it is below the listed folder and
/// has the tag of a target folder.
fn is_passed_over<R: Files + AllocGlobal>(
    runtime: &R,
    alloc: Global,
    here: &Waiting,
) -> Result<bool, AllocError> {
    if here.depth == 0 {
        return Ok(false);
    }
    is_tagged(runtime, alloc, &here.folder)
}

/// Returns the entries of a folder. There are no entries if the folder is skipped, or if the folder
/// is the listed folder and does not exist.
fn entries_of<'a, R: Files + AllocGlobal>(
    runtime: &'a R,
    alloc: Global,
    here: &Waiting,
) -> Result<Option<fs::ReadDir<&'a R>>, Failed> {
    if is_passed_over(runtime, alloc, here)? {
        return Ok(None);
    }
    match fs::read_dir(&runtime, here.folder.as_str()) {
        Ok(entries) => Ok(Some(entries)),
        Err(error) if may_be_absent(here, &error) => Ok(None),
        Err(error) => Err(Failed::from(error)),
    }
}

/// Returns the failure of a folder that did not report an entry.
fn listing_error(error: io::Error) -> Failed {
    if error.kind() == io::ErrorKind::InvalidFilename {
        let kind = io::ErrorKind::InvalidFilename;
        return Failed::from(io::Error::new(kind, "a name in it is not UTF-8"));
    }
    Failed::from(error)
}

/// Adds an entry that a folder reports.
///
/// Errors: a failure that the folder reports, and the errors of `take_entry`.
fn take_told<R: Files + AllocGlobal>(
    runtime: &R,
    alloc: Global,
    left_out: Option<&PathText>,
    found: &mut Found,
    here: &Waiting,
    entry: io::Result<fs::DirEntry<&R>>,
) -> Result<(), Failed>
    ensures below { OnOk result (KeepsBelow here.now.folder found.old found.new) }
    ensures outside { OnOk result
        (KeepsOutside (option_copied left_out.entry) found.old found.new) }
{
    match entry {
        Ok(entry) => take_entry(runtime, alloc, left_out, found, here, entry.file_name()),
        Err(error) => Err(listing_error(error)),
    }
}

/// Adds the entries of a folder. If the listed folder itself does not exist, there are no entries.
fn take_entries<R: Files + AllocGlobal>(
    runtime: &R,
    alloc: Global,
    left_out: Option<&PathText>,
    found: &mut Found,
    here: &Waiting,
) -> Result<(), Failed>
    ensures below { OnOk result (KeepsBelow here.now.folder found.old found.new) }
    ensures outside { OnOk result
        (KeepsOutside (option_copied left_out.entry) found.old found.new) }
{
    let Some(entries) = entries_of(runtime, alloc, here)? else {
        return Ok(());
    };
    for entry in entries {
        take_told(runtime, alloc, left_out, found, here, entry)?;
    }
    Ok(())
}

/// Adds the entries of a folder as `take_entries` does. A failure has the folder's path.
fn take_folder<R: Files + AllocGlobal>(
    runtime: &R,
    alloc: Global,
    left_out: Option<&PathText>,
    found: &mut Found,
    here: &Waiting,
) -> Result<(), Failed>
    ensures below { OnOk result (KeepsBelow here.now.folder found.old found.new) }
    ensures outside { OnOk result
        (KeepsOutside (option_copied left_out.entry) found.old found.new) }
{
    match take_entries(runtime, alloc, left_out, found, here) {
        Ok(()) => Ok(()),
        Err(failed) => Err(failed.at(alloc, here.folder.as_str())),
    }
}

/// Returns the files below a folder, except files that are left out, in the order in which they are
/// found. Folders are listed one after another. The folder that was found last is listed first.
fn files_found<R: Files + AllocGlobal>(
    runtime: &R,
    alloc: Global,
    left_out: Option<&PathText>,
    folder: &PathText,
) -> Result<Vec<PathText>, Failed>
    ensures below { IfOk result (λ files. AreBelow folder.now files.items) }
    ensures outside { IfOk result (λ files. AreOutside (option_copied left_out.entry) files.items) }
{
    let mut found = Found {
        files: Vec::new(alloc),
        waiting: Vec::new(alloc),
    };
    found.waiting.push(Waiting {
        folder: folder.copy(alloc)?,
        depth: 0,
    })?;
    for _ in 0..u64::MAX {
        match found.waiting.pop() {
            Some(here) => take_folder(runtime, alloc, left_out, &mut found, &here)?,
            None => return Ok(found.files),
        }
    }
    Err(Failed::from(io::Error::other("there are too many folders")))
}

/// Returns whether an entry's name is not UTF-8.
fn has_no_text<R: Files + AllocGlobal>(entry: &io::Result<fs::DirEntry<&R>>) -> bool {
    match entry {
        Ok(_) => false,
        Err(error) => error.kind() == io::ErrorKind::InvalidFilename,
    }
}

/// Adds those entries of a folder that are not left out and have names in UTF-8. If the folder is
/// the listed folder and does not exist, there are no entries.
fn take_named<R: Files + AllocGlobal>(
    runtime: &R,
    alloc: Global,
    left_out: Option<&PathText>,
    found: &mut Found,
    here: &Waiting,
) -> Result<(), Failed>
    ensures below { OnOk result (KeepsBelow here.now.folder found.old found.new) }
{
    let Some(entries) = entries_of(runtime, alloc, here)? else {
        return Ok(());
    };
    for entry in entries {
        if !has_no_text(&entry) {
            take_told(runtime, alloc, left_out, found, here, entry)?;
        }
    }
    Ok(())
}

/// Returns what is directly in a folder and is not left out, in the order of the system. The call
/// does not look into the folders there.
pub(crate) fn found_here<R: Files + AllocGlobal>(
    runtime: &R,
    alloc: Global,
    left_out: Option<&PathText>,
    folder: &PathText,
) -> Result<Found, Failed>
    ensures below { IfOk result (λ found. StaysBelow folder.now found) }
{
    let here = Waiting {
        folder: folder.copy(alloc)?,
        depth: 0,
    };
    let mut found = Found {
        files: Vec::new(alloc),
        waiting: Vec::new(alloc),
    };
    take_named(runtime, alloc, left_out, &mut found, &here)?;
    Ok(found)
}

/// Returns the paths of the files below a folder, in byte order, except files that are left out.
/// Returns no paths if no folder is at the path.
fn files_listed<R: Files + AllocGlobal>(
    runtime: &R,
    alloc: Global,
    left_out: Option<&PathText>,
    folder: &PathText,
) -> Result<Items<PathText>, Failed>
    ensures below { IfOk result (λ paths. AreBelow folder.now paths) }
    ensures outside { IfOk result (λ paths. AreOutside (option_copied left_out.entry) paths) }
    ensures ordered { IfOk result AreOrdered }
{
    let mut files = files_found(runtime, alloc, left_out, folder)?;
    files.sort()?;
    Ok(Items::from_vec(files))
}

/// Returns the paths of all files below a folder, in byte order. Returns no paths if no folder is
/// at the path. Links are followed. A link that leads nowhere is skipped. Anything other than a
/// file or a folder is skipped, too.
///
/// Errors: `List`, if a folder cannot be read, if a name is not UTF-8, or if a folder is more than
/// 128 levels below the listed folder. A link to a folder above the link is followed again and
/// again, until the path is too deep.
pub(crate) fn files_below<R: Files + AllocGlobal>(
    runtime: &R,
    alloc: Global,
    folder: &PathText,
) -> Result<Items<PathText>, Failed>
    ensures below { IfOk result (λ paths. AreBelow folder.now paths) }
    ensures ordered { IfOk result AreOrdered }
{
    files_listed(runtime, alloc, None, folder)
}

/// Returns the same as `files_below`, without the files at or below the path `left_out`. The call
/// does not look at anything there, so nothing there can make the call fail.
pub(crate) fn files_outside<R: Files + AllocGlobal>(
    runtime: &R,
    alloc: Global,
    folder: &PathText,
    left_out: &PathText,
) -> Result<Items<PathText>, Failed>
    ensures below { IfOk result (λ paths. AreBelow folder.now paths) }
    ensures outside { IfOk result (λ paths. AreOutside (Some left_out.now) paths) }
    ensures ordered { IfOk result AreOrdered }
{
    if folder.starts_with(left_out) {
        return Ok(Items::new(alloc));
    }
    files_listed(runtime, alloc, Some(left_out), folder)
}

/// Returns the paths of the files directly in a folder, in byte order. Returns no paths if no
/// folder is at the path. The call does not look into the folders there, so nothing in them can
/// make the call fail. A name that is not UTF-8 is skipped, since nothing requests such a name.
pub(crate) fn files_directly<R: Files + AllocGlobal>(
    runtime: &R,
    alloc: Global,
    folder: &PathText,
) -> Result<Items<PathText>, Failed>
    ensures below { IfOk result (λ paths. AreBelow folder.now paths) }
    ensures ordered { IfOk result AreOrdered }
{
    let mut found = found_here(runtime, alloc, None, folder)?;
    found.files.sort()?;
    Ok(Items::from_vec(found.files))
}

/// Returns the paths of some waiting folders.
fn folders_of(alloc: Global, waiting: Vec<Waiting>) -> Result<Vec<PathText>, Failed>
    ensures folders { IfOk result
        (λ folders. folders.items ≡ map (λ here. here.folder) waiting.items) }
{
    let mut folders = Vec::new(alloc);
    for here in waiting {
        folders.push(here.folder)?;
    }
    Ok(folders)
}

/// Returns the paths of the folders directly in a folder, in byte order, except folders that are
/// left out. Returns no paths if no folder is at the path. The call does not look into these
/// folders, so nothing in them can make the call fail. A name that is not UTF-8 is skipped.
pub(crate) fn folders_directly<R: Files + AllocGlobal>(
    runtime: &R,
    alloc: Global,
    folder: &PathText,
    left_out: &PathText,
) -> Result<Items<PathText>, Failed>
    ensures below { IfOk result (All (λ path. is_at_or_below folder.now path ≡ true)) }
    ensures ordered { IfOk result AreOrdered }
{
    if folder.starts_with(left_out) {
        return Ok(Items::new(alloc));
    }
    let found = found_here(runtime, alloc, Some(left_out), folder)?;
    drop(found.files);
    let mut folders = folders_of(alloc, found.waiting)?;
    folders.sort()?;
    Ok(Items::from_vec(folders))
}

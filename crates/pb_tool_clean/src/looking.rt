//! What the profiles' folders in a target folder contain.

ghost use Rattle.std.specs.Prelude.{◌≡◌, ◌++◌, IfOk, OnOk, IsTrue, codes};
ghost use Rattle.pb_place_types.specs.World.{listed, listed_directly, listed_folders, removed};
ghost use Rattle.pb_tool_clean.specs.Calls.{Looks, moment_of, tag_in, files_of, folders_of, profiles_of};
ghost use Rattle.pb_tool_clean.specs.Cleaning.{listed_in};

use crate::fault::{CleanFault, fault_of};
use pb_data::{Items, TryCopy};
use pb_place_types::{PathText, Place, RelativePath};
use std::alloc::{AllocError, Global};

/// What the profiles' folders in a target folder contain.
#[derive(Drop)]
pub struct Listed {
    /// The files directly in one of these folders.
    pub files: Items<PathText>,
    /// The folders directly in one of these folders.
    pub folders: Items<PathText>,
}

/// Returns the path of the tag in a folder.
pub(crate) fn tag_in(alloc: Global, folder: &PathText) -> Result<PathText, AllocError>
    ensures { IfOk result (λ tag. tag ≡ tag_in folder.now) }
{
    let name = RelativePath::name(alloc, "CACHEDIR.TAG")?;
    folder.below(alloc, &name)
}

/// Returns the files directly in a folder, by one call.
fn list_files<P: Place>(
    alloc: Global,
    place: &mut P,
    folder: &PathText,
) -> Result<Items<PathText>, CleanFault>
    ensures ok { IsTrue P.is_modelled → IfOk result
        (λ files. files ≡ listed_directly folder.now (P.at place.old).world) }
    ensures looks { Looks result (moment_of (P.at place.old)) (moment_of (P.at place.new)) }
{
    let name = match folder.copy(alloc) {
        Ok(name) => name,
        Err(_) => return Err(CleanFault::OutOfMemory),
    };
    match place.list_directly(alloc, folder) {
        Ok(files) => Ok(files),
        Err(fault) => Err(fault_of(name.into_text(), fault)),
    }
}

/// Returns the folders directly in a folder, by one call.
fn list_folders<P: Place>(
    alloc: Global,
    place: &mut P,
    folder: &PathText,
) -> Result<Items<PathText>, CleanFault>
    ensures ok { IsTrue P.is_modelled → IfOk result (λ folders. folders
        ≡ listed_folders folder.now (removed (tag_in folder.now) (P.at place.old).world)) }
    ensures looks { Looks result (moment_of (P.at place.old)) (moment_of (P.at place.new)) }
{
    let name = match folder.copy(alloc) {
        Ok(name) => name,
        Err(_) => return Err(CleanFault::OutOfMemory),
    };
    let tag = match tag_in(alloc, folder) {
        Ok(tag) => tag,
        Err(_) => return Err(CleanFault::OutOfMemory),
    };
    match place.list_folders(alloc, folder, &tag) {
        Ok(folders) => Ok(folders),
        Err(fault) => Err(fault_of(name.into_text(), fault)),
    }
}

/// Adds copies of paths.
fn push_all(alloc: Global, paths: &mut Items<PathText>, more: &[PathText]) -> Result<(), AllocError>
    ensures { OnOk result (paths.new ≡ paths.old ++ more.now) }
{
    for path in more {
        paths.push(path.copy(alloc)?)?;
    }
    Ok(())
}

/// Adds the files directly in a folder.
fn add_files<P: Place>(
    alloc: Global,
    place: &mut P,
    files: &mut Items<PathText>,
    folder: &PathText,
) -> Result<(), CleanFault>
    ensures ok { IsTrue P.is_modelled → OnOk result
        (files.new ≡ files.old ++ listed_directly folder.now (P.at place.old).world) }
    ensures looks { Looks result (moment_of (P.at place.old)) (moment_of (P.at place.new)) }
{
    let more = match list_files(alloc, place, folder) {
        Ok(more) => more,
        Err(fault) => return Err(fault),
    };
    match push_all(alloc, files, more.as_slice()) {
        Ok(()) => Ok(()),
        Err(_) => Err(CleanFault::OutOfMemory),
    }
}

/// Adds the folders directly in a folder.
fn add_folders<P: Place>(
    alloc: Global,
    place: &mut P,
    folders: &mut Items<PathText>,
    folder: &PathText,
) -> Result<(), CleanFault>
    ensures ok { IsTrue P.is_modelled → OnOk result (folders.new
        ≡ folders.old
        ++ listed_folders folder.now (removed (tag_in folder.now) (P.at place.old).world)) }
    ensures looks { Looks result (moment_of (P.at place.old)) (moment_of (P.at place.new)) }
{
    let more = match list_folders(alloc, place, folder) {
        Ok(more) => more,
        Err(fault) => return Err(fault),
    };
    match push_all(alloc, folders, more.as_slice()) {
        Ok(()) => Ok(()),
        Err(_) => Err(CleanFault::OutOfMemory),
    }
}

/// Returns the files directly in some folders.
fn files_of<P: Place>(
    alloc: Global,
    place: &mut P,
    folders: &[PathText],
) -> Result<Items<PathText>, CleanFault>
    ensures ok { IsTrue P.is_modelled → IfOk result
        (λ files. files ≡ files_of folders.now (P.at place.old).world) }
    ensures looks { Looks result (moment_of (P.at place.old)) (moment_of (P.at place.new)) }
{
    let mut files = Items::new(alloc);
    for folder in folders {
        match add_files(alloc, place, &mut files, folder) {
            Ok(()) => {}
            Err(fault) => return Err(fault),
        }
    }
    Ok(files)
}

/// Returns the folders directly in some folders.
fn folders_of<P: Place>(
    alloc: Global,
    place: &mut P,
    folders: &[PathText],
) -> Result<Items<PathText>, CleanFault>
    ensures ok { IsTrue P.is_modelled → IfOk result
        (λ found. found ≡ folders_of folders.now (P.at place.old).world) }
    ensures looks { Looks result (moment_of (P.at place.old)) (moment_of (P.at place.new)) }
{
    let mut found = Items::new(alloc);
    for folder in folders {
        match add_folders(alloc, place, &mut found, folder) {
            Ok(()) => {}
            Err(fault) => return Err(fault),
        }
    }
    Ok(found)
}

/// Returns what the profiles' folders in a target folder contain.
///
/// Errors: `Call`, with the path of the folder that could not be listed; `OutOfMemory`.
pub fn look<P: Place>(alloc: Global, place: &mut P, target: &PathText) -> Result<Listed, CleanFault>
    ensures ok { IsTrue P.is_modelled → IfOk result
        (λ listed. listed ≡ listed_in target.now (P.at place.old).world) }
    ensures looks { Looks result (moment_of (P.at place.old)) (moment_of (P.at place.new)) }
{
    let profiles = match list_folders(alloc, place, target) {
        Ok(profiles) => profiles,
        Err(fault) => return Err(fault),
    };
    let files = match files_of(alloc, place, profiles.as_slice()) {
        Ok(files) => files,
        Err(fault) => return Err(fault),
    };
    match folders_of(alloc, place, profiles.as_slice()) {
        Ok(folders) => Ok(Listed { files, folders }),
        Err(fault) => {
            drop(files);
            Err(fault)
        }
    }
}

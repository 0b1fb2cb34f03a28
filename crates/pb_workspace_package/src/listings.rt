//! The files that are looked up in a package's folder.

ghost use Rattle.std.specs.Prelude.{◌≡◌, ◌++◌, ℕ, List, IfOk, IfErr, IsTrue, true, codes, filter};
ghost use Rattle.std.specs.List.{flat_map, list_any};
ghost use Rattle.std.specs.Str.{bytes_eq};
ghost use Rattle.pb_place_types.specs.Paths.{below, is_relative};
ghost use Rattle.pb_place_types.specs.World.{World, from_nothing};
ghost use Rattle.pb_workspace_package.specs.Looks.{Looks, listings_at, own_asked};
ghost use Rattle.pb_workspace_package.specs.Causes.{is_outside, OnlyLooks};
ghost use Rattle.pb_workspace_package.specs.FoundBinaries.{bin_folder};
ghost use Rattle.pb_workspace_package.specs.Listings.{AreListingsOf, is_there};
ghost use Rattle.pb_workspace_package.specs.OwnFile.{name_of, own_files};
ghost use Rattle.pb_workspace_package.specs.Sources.{has_own_file, own_source};

use crate::own_file::{OWN_FILES, OwnFile};
use crate::source::{is_source, listed_sources, own_path};
use pb_data::Items;
use pb_place_types::{PathText, Place};
use pb_workspace_types::LoadFault;
use std::alloc::{AllocError, Global};

/// The files of a package's folder. Only these two lists decide what is found in the folder.
#[derive(Drop)]
pub struct Listings {
    /// The files at fixed paths, in the order in which they are looked up.
    pub own: Items<OwnFile>,
    /// The files below the package's `src/bin`, in byte order.
    pub in_bin: Items<PathText>,
}

/// Returns the path of the folder `src/bin` of a package.
///
/// Errors: out of memory.
pub fn bin_folder(alloc: Global, folder: &PathText) -> Result<PathText, AllocError>
    ensures { IfOk result (λ path. path ≡ bin_folder folder.now) }
{
    own_path(alloc, folder, "src/bin")
}

/// Returns whether a package's folder has a file at a fixed path. A file at or below the target
/// folder is not looked up.
///
/// Errors: `Place` with the call's path, if the call failed; `OutOfMemory`.
fn is_there<P: Place>(
    alloc: Global,
    place: &mut P,
    target: &PathText,
    folder: &PathText,
    file: OwnFile,
) -> Result<bool, LoadFault>
    ensures ok { IsTrue P.is_modelled → IfOk result (λ answer. answer
        ≡ is_there folder.now (from_nothing target.now (P.at place.old).world) file) }
    ensures outside { IfErr result (λ e. is_outside e ≡ true) }
    ensures quiet { OnlyLooks result (P.at place.old) (P.at place.new) }
    ensures looks { Looks result (own_asked target.now folder.now file)
        (P.at place.old).counts (P.at place.new).counts }
{
    let path = file.path(alloc, folder)?;
    is_source(alloc, place, target, &path)
}

/// Returns the files at fixed paths that a package's folder has. These files are looked up one
/// after another. A file at or below the target folder is not looked up.
///
/// Errors: `Place` with the call's path, if a call failed; `OutOfMemory`.
fn files_there<P: Place>(
    alloc: Global,
    place: &mut P,
    target: &PathText,
    folder: &PathText,
) -> Result<Items<OwnFile>, LoadFault>
    ensures ok { IsTrue P.is_modelled → IfOk result (λ own. own
        ≡ filter (is_there folder.now (from_nothing target.now (P.at place.old).world)) own_files) }
    ensures outside { IfErr result (λ e. is_outside e ≡ true) }
    ensures quiet { OnlyLooks result (P.at place.old) (P.at place.new) }
    ensures looks { Looks result (flat_map (own_asked target.now folder.now) own_files)
        (P.at place.old).counts (P.at place.new).counts }
{
    let mut own = Items::new(alloc);
    for file in OWN_FILES {
        if is_there(alloc, place, target, folder, file)? {
            own.push(file)?;
        }
    }
    Ok(own)
}

/// Returns the files of a package's folder. Each file at a fixed path is looked up, and then
/// `src/bin` is listed. Nothing at or below the target folder is looked at.
///
/// Errors: `Place` with the call's path, if a call failed; `OutOfMemory`.
pub fn listings_of<P: Place>(
    alloc: Global,
    place: &mut P,
    target: &PathText,
    folder: &PathText,
) -> Result<Listings, LoadFault>
    ensures ok { IsTrue P.is_modelled → IfOk result
        (AreListingsOf folder.now (from_nothing target.now (P.at place.old).world)) }
    ensures outside { IfErr result (λ e. is_outside e ≡ true) }
    ensures quiet { OnlyLooks result (P.at place.old) (P.at place.new) }
    ensures looks { Looks result (listings_at target.now folder.now)
        (P.at place.old).counts (P.at place.new).counts }
{
    let bin = bin_folder(alloc, folder)?;
    let own = files_there(alloc, place, target, folder)?;
    let in_bin = listed_sources(alloc, place, target, &bin);
    drop(bin);
    match in_bin {
        Ok(in_bin) => Ok(Listings { own, in_bin }),
        Err(fault) => {
            drop(own);
            Err(fault)
        }
    }
}

/// Returns whether a file at a fixed path is one of the sources.
pub fn has_own_file(listings: &Listings, file: OwnFile) -> bool
    ensures { (folder : List ℕ) (sources : World) → AreListingsOf folder sources listings.now
        → result ≡ has_own_file folder sources (name_of file) }
{
    listings.own.as_slice().contains(&file)
}

/// Returns the path of a file at a fixed path, if the file is one of the sources.
///
/// Errors: out of memory.
pub fn own_source(
    alloc: Global,
    listings: &Listings,
    folder: &PathText,
    file: OwnFile,
) -> Result<Option<PathText>, AllocError>
    ensures { (sources : World) → AreListingsOf folder.now sources listings.now
        → IfOk result (λ path. path ≡ own_source folder.now sources (name_of file)) }
{
    if !has_own_file(listings, file) {
        return Ok(None);
    }
    let path = file.path(alloc, folder)?;
    Ok(Some(path))
}

/// Returns the path of a file in the folder `src/bin` of a package, whether the file exists or not.
///
/// Errors: out of memory.
#[tactic(auto, using(crate::proofs::Listed::bin_laws))]
pub fn bin_path(alloc: Global, folder: &PathText, rest: &str) -> Result<PathText, AllocError>
    requires { is_relative rest.now ≡ true }
    ensures { IfOk result (λ path. path ≡ below folder.now (codes "src/bin/" ++ rest.now)) }
{
    let bin = bin_folder(alloc, folder)?;
    own_path(alloc, &bin, rest)
}

/// Returns whether a path was listed in `src/bin`.
fn is_in_bin(listings: &Listings, path: &PathText) -> bool
    ensures { result ≡ list_any (bytes_eq path.now) listings.now.in_bin }
{
    listings
        .in_bin
        .as_slice()
        .iter()
        .any(|other| *path == *other)
}

/// Returns the path of a file in the folder `src/bin` of a package, if the file is one of the
/// sources.
///
/// Errors: out of memory.
pub fn bin_source(
    alloc: Global,
    listings: &Listings,
    folder: &PathText,
    rest: &str,
) -> Result<Option<PathText>, AllocError>
    requires { is_relative rest.now ≡ true }
    ensures { (sources : World) → AreListingsOf folder.now sources listings.now → IfOk result
        (λ path. path ≡ own_source folder.now sources (codes "src/bin/" ++ rest.now)) }
{
    let path = bin_path(alloc, folder, rest)?;
    if !is_in_bin(listings, &path) {
        return Ok(None);
    }
    Ok(Some(path))
}

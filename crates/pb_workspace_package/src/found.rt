//! What is found in the folder of a package: its README, its library and its build script.

ghost use Rattle.std.specs.Prelude.{◌≡◌, IfOk, true, [], IfSome};
ghost use Rattle.pb_place_types.specs.World.{World};
ghost use Rattle.pb_workspace_package.specs.Listings.{AreListingsOf};
ghost use Rattle.pb_workspace_package.specs.Sources.{found_readme, script_of, library_source, served_types, written_library, found_library, library_of};
ghost use Rattle.pb_manifest_types.specs.Letters.{is_crate_name, is_name};
ghost use Rattle.pb_workspace_package.specs.Drafted.{IsWrittenLibrary, IsLibraryNamed};

use crate::listings::{Listings, has_own_file, own_source};
use crate::own_file::OwnFile;
use crate::source::resolve_path;
use pb_data::{Items, Text, with_next};
use pb_manifest_types::{Build, CrateType, WrittenPath, library_name};
use pb_place_types::PathText;
use pb_workspace_types::Library;
use std::alloc::{AllocError, Global};

/// Returns the README of a package whose manifest names no README. The result is the first of
/// `README.md`, `README.txt` and `README` that is a file of the package's folder (The Cargo Book,
/// Manifest Format). If the folder has none of these files, the result is the empty text.
///
/// Errors: out of memory.
pub fn found_readme(
    alloc: Global,
    listings: &Listings,
    folder: &PathText,
) -> Result<Text, AllocError>
    ensures ok { (sources : World) → AreListingsOf folder.now sources listings.now
        → IfOk result (λ text. text ≡ found_readme folder.now sources) }
{
    if has_own_file(listings, OwnFile::ReadmeMd) {
        return Text::from_str(alloc, "README.md");
    }
    if has_own_file(listings, OwnFile::ReadmeTxt) {
        return Text::from_str(alloc, "README.txt");
    }
    if has_own_file(listings, OwnFile::Readme) {
        return Text::from_str(alloc, "README");
    }
    Text::from_str(alloc, "")
}

/// Returns the source of a package's build script, if the package has a build script (The Cargo
/// Book, Build Scripts). The value of `build` decides:
///
/// - `Discovered`: `build.rs`, if the package's folder has this file;
/// - `Standard`: `build.rs`, whether the file exists or not;
/// - `Never`: no source;
/// - `At`: the written path.
///
/// Errors: out of memory.
pub fn script_of(
    alloc: Global,
    listings: &Listings,
    folder: &PathText,
    build: &Build,
) -> Result<Option<PathText>, AllocError>
    ensures ok { (sources : World) → AreListingsOf folder.now sources listings.now
        → IfOk result (λ script. script ≡ script_of folder.now sources build.now) }
{
    match build {
        Build::Discovered => own_source(alloc, listings, folder, OwnFile::BuildScript),
        Build::Standard => {
            let script = OwnFile::BuildScript.path(alloc, folder)?;
            Ok(Some(script))
        }
        Build::Never => Ok(None),
        Build::At(path) => {
            let script = resolve_path(alloc, folder, path)?;
            Ok(Some(script))
        }
    }
}

/// Returns the source of a library: the path that `[lib]` writes, or `src/lib.rs`.
fn library_source(
    alloc: Global,
    folder: &PathText,
    path: &Option<WrittenPath>,
) -> Result<PathText, AllocError>
    ensures { IfOk result (λ source. source ≡ library_source folder.now path.now) }
{
    match path {
        Some(path) => resolve_path(alloc, folder, path),
        None => OwnFile::Library.path(alloc, folder),
    }
}

/// Returns `lib` alone.
fn standard_types(alloc: Global) -> Result<Items<CrateType>, AllocError>
    ensures { IfOk result (λ types. types ≡ served_types []) }
{
    let mut types = Items::new(alloc);
    types.push(CrateType::Lib)?;
    Ok(types)
}

/// Returns the crate types of a library: `lib` alone if no type is written.
fn served_types(alloc: Global, types: Items<CrateType>) -> Result<Items<CrateType>, AllocError>
    ensures { IfOk result (λ served. served ≡ served_types types) }
{
    if types.is_empty() {
        return standard_types(alloc);
    }
    Ok(types)
}

/// Returns the library of a `[lib]` table.
fn written_library(
    alloc: Global,
    folder: &PathText,
    name: Text,
    written: pb_manifest_types::Library,
) -> Result<Library, AllocError>
    ensures { IfOk result (λ library. library ≡ written_library folder.now name written) }
{
    let source = library_source(alloc, folder, &written.path);
    let crate_types = served_types(alloc, written.crate_types);
    drop((written.name, written.path));
    let (name, source) = with_next(name, source)?;
    let ((name, source), crate_types) = with_next((name, source), crate_types)?;
    Ok(Library {
        name,
        crate_types,
        source,
    })
}

/// Returns the library of a package without a `[lib]` table: `src/lib.rs`, if the folder has this
/// file.
fn found_library(
    alloc: Global,
    listings: &Listings,
    folder: &PathText,
    name: Text,
) -> Result<Option<Library>, AllocError>
    requires { is_crate_name name ≡ true }
    ensures ok { (sources : World) → AreListingsOf folder.now sources listings.now
        → IfOk result (λ library. library ≡ found_library folder.now sources name) }
    ensures named { IfOk result (λ library. IfSome library IsLibraryNamed) }
{
    let source = match own_source(alloc, listings, folder, OwnFile::Library)? {
        Some(source) => source,
        None => return Ok(None),
    };
    let crate_types = standard_types(alloc)?;
    Ok(Some(Library {
        name,
        crate_types,
        source,
    }))
}

/// Returns the library of a package of this name, if the package has a library (The Cargo Book,
/// Cargo Targets). The result is the library of `[lib]`. Without `[lib]`, the result is
/// `src/lib.rs`, if the package's folder has this file.
///
/// Errors: out of memory.
#[tactic(auto, using(crate::proofs::Naming::library_laws))]
pub fn library_of(
    alloc: Global,
    listings: &Listings,
    folder: &PathText,
    package_name: &str,
    written: Option<pb_manifest_types::Library>,
) -> Result<Option<Library>, AllocError>
    requires name { is_name package_name.now ≡ true }
    requires library { IfSome written IsWrittenLibrary }
    ensures ok { (sources : World) → AreListingsOf folder.now sources listings.now → IfOk result
        (λ library. library ≡ library_of folder.now sources package_name.now written) }
    ensures named { IfOk result (λ library. IfSome library IsLibraryNamed) }
{
    let name = library_name(alloc, package_name, &written)?;
    match written {
        Some(written) => {
            let library = written_library(alloc, folder, name, written)?;
            Ok(Some(library))
        }
        None => found_library(alloc, listings, folder, name),
    }
}

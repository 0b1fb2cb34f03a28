//! What a unit produces and where.

ghost use Rattle.std.specs.Prelude.{◌≡◌, IfOk, OnOk, ◌++◌, option_map, slice_get, string_bytes, codes};
ghost use Rattle.pb_command_types.specs.Targets.{package_of, folder_of, library_in, library_name, crate_name_of, library_source, binary_source, binary_named, source_by, file_in, file_by, made_file_of, dep_info_by, dep_info_of};

use crate::project::Project;
use pb_data::{Text, TryCopy};
use pb_manifest_types::crate_name;
use pb_place_types::{PathText, RelativePath};
use pb_unit::{Planned, What};
use pb_workspace_types::Package;
use std::alloc::{AllocError, Global};

/// Returns the package of a unit.
pub fn package_of<'a>(project: &'a Project, unit: &Planned) -> Option<&'a Package>
    ensures { option_map (λ owner. owner.now) result ≡ package_of project.now unit.now }
{
    project.workspace.packages.as_slice().get(unit.unit.package)
}

/// Returns the folder of a unit's package.
pub fn folder_of<'a>(project: &'a Project, unit: &Planned) -> &'a PathText
    ensures { result.now ≡ folder_of project.now unit.now }
{
    match package_of(project, unit) {
        Some(owner) => &owner.folder,
        None => &project.workspace.root,
    }
}

/// Returns the crate name of the library of the package at an index, or an empty name if the
/// package has no library.
pub fn library_name(project: &Project, index: usize) -> &str
    ensures { result.now ≡ library_name
        (library_in (slice_get project.now.workspace.packages index)) }
{
    match project.workspace.packages.as_slice().get(index) {
        Some(owner) => match &owner.library {
            Some(library) => library.name.as_str(),
            None => "",
        },
        None => "",
    }
}

/// Returns the name of the crate that a unit compiles (The Cargo Book, Cargo Targets). A library
/// has its own name, and a binary has its name with `_` for each `-`. Each script has the name
/// `build_script_build` (our own choice). A run compiles no crate, and the name is empty.
///
/// Errors: only out of memory.
pub fn crate_name_of(alloc: Global, project: &Project, unit: &Planned) -> Result<Text, AllocError>
    ensures { IfOk result (λ name. name ≡ crate_name_of project.now unit.now) }
{
    match &unit.unit.what {
        What::Lib => Text::from_str(alloc, library_name(project, unit.unit.package)),
        What::Bin(name) => crate_name(alloc, name.as_str()),
        What::Script => Text::from_str(alloc, "build_script_build"),
        What::Run => Text::from_str(alloc, ""),
    }
}

/// Returns the path of the source of a package's library, or an empty path if the package has no
/// library.
fn library_source(owner: &Package) -> &str
    ensures { result.now ≡ library_source owner.now.library }
{
    match &owner.library {
        Some(library) => library.source.as_str(),
        None => "",
    }
}

/// Returns the path of the source of a package's binary, or an empty path if the package has no
/// binary of this name.
fn source_of_binary<'a>(owner: &'a Package, name: &Text) -> &'a str
    ensures { result.now ≡ binary_source (binary_named name.now owner.now.binaries) }
{
    match owner.binaries.get_named(name) {
        Some(binary) => binary.source.as_str(),
        None => "",
    }
}

/// Returns the path of the source that a unit compiles, or an empty path if there is no source.
pub fn source_by<'a>(owner: &'a Package, what: &What) -> &'a str
    ensures { result.now ≡ source_by owner.now what.now }
{
    match what {
        What::Lib => library_source(owner),
        What::Bin(name) => source_of_binary(owner, name),
        What::Script => match &owner.script {
            Some(source) => source.as_str(),
            None => "",
        },
        What::Run => "",
    }
}

/// Returns the file of this name in a folder, if the name is a file name.
fn file_in(alloc: Global, folder: &PathText, name: String) -> Result<Option<PathText>, AllocError>
    ensures { IfOk result (λ file. file ≡ file_in folder.now (string_bytes name)) }
{
    match RelativePath::of(Text::new(name)) {
        Some(name) => {
            let path = folder.below(alloc, &name)?;
            Ok(Some(path))
        }
        None => Ok(None),
    }
}

/// Returns the concatenation of three texts.
fn between(alloc: Global, first: &str, text: &str, last: &str) -> Result<String, AllocError>
    ensures { IfOk result (λ made. string_bytes made ≡ first.now ++ text.now ++ last.now) }
{
    let mut made = String::from_str(alloc, first)?;
    made.push_str(text)?;
    made.push_str(last)?;
    Ok(made)
}

/// Returns the file that the compile of a crate makes in a folder.
fn file_by(
    alloc: Global,
    what: &What,
    folder: &PathText,
    name: &str,
) -> Result<Option<PathText>, AllocError>
    ensures { IfOk result (λ file. file ≡ file_by what.now folder.now name.now) }
{
    match what {
        What::Lib => file_in(alloc, folder, between(alloc, "lib", name, ".rlib")?),
        What::Bin(_) => file_in(alloc, folder, String::from_str(alloc, name)?),
        What::Script => file_in(alloc, folder, String::from_str(alloc, name)?),
        What::Run => Ok(None),
    }
}

/// Returns the file that a compile produces in its output folder: `libC.rlib` for a library, and
/// `C` for a binary or a script. C is the crate's name (our own choice). A run produces no such
/// file.
///
/// Errors: only out of memory.
pub fn made_file(
    alloc: Global,
    project: &Project,
    unit: &Planned,
) -> Result<Option<PathText>, AllocError>
    ensures { IfOk result (λ file. file ≡ made_file_of project.now unit.now) }
{
    let name = crate_name_of(alloc, project, unit)?;
    file_by(alloc, &unit.unit.what, &unit.out, name.as_str())
}

/// Returns the dep-info file of a crate in a folder.
fn dep_info_by(
    alloc: Global,
    what: &What,
    folder: &PathText,
    name: &str,
) -> Result<Option<PathText>, AllocError>
    ensures { IfOk result (λ file. file ≡ dep_info_by what.now folder.now name.now) }
{
    match what {
        What::Run => Ok(None),
        _ => {
            let mut text = String::from_str(alloc, name)?;
            text.push_str(".d")?;
            file_in(alloc, folder, text)
        }
    }
}

/// Returns the file in which a compile reports what it has read: `C.d` in its output folder. C is
/// the crate's name (our own choice). A run has no such file.
///
/// Errors: only out of memory.
pub fn dep_info_path(
    alloc: Global,
    project: &Project,
    unit: &Planned,
) -> Result<Option<PathText>, AllocError>
    ensures { IfOk result (λ path. path ≡ dep_info_of project.now unit.now) }
{
    let name = crate_name_of(alloc, project, unit)?;
    dep_info_by(alloc, &unit.unit.what, &unit.out, name.as_str())
}

//! The binaries that a package's folder has.

ghost use Rattle.std.specs.Prelude.{◌≡◌, ◌++◌, IfOk, OnOk, true, false, map, option_map};
ghost use Rattle.std.specs.List.{AllByRecursion, filter_map};
ghost use Rattle.pb_place_types.specs.Paths.{inside};
ghost use Rattle.pb_place_types.specs.World.{World};
ghost use Rattle.pb_manifest_types.specs.Features.{parted};
ghost use Rattle.pb_workspace_package.specs.Between.{names_in};
ghost use Rattle.pb_workspace_package.specs.FoundBinaries.{stem_in, flat_name, nested_name, name_by, name_inside, binary_at, main_binary, found_binaries};
ghost use Rattle.pb_workspace_package.specs.Listings.{AreListingsOf};
ghost use Rattle.pb_manifest_types.specs.Letters.{is_name};
ghost use Rattle.pb_workspace_package.specs.Drafted.{IsBinaryNamed};

use crate::between::names_in;
use crate::listings::{Listings, bin_folder, own_source};
use crate::own_file::OwnFile;
use pb_data::{Items, Text, TryCopy};
use pb_manifest_types::letters::is_name;
use pb_place_types::PathText;
use pb_workspace_types::Binary;
use std::alloc::{AllocError, Global};

/// Returns what comes before and after the first `.`.
#[tactic(auto, unfolding(pb_manifest_types::specs::Features::parted))]
fn parted_at_dot(text: &str) -> Option<(&str, &str)>
    ensures { option_map (λ x. (x.0.now, x.1.now)) result ≡ parted 46 text.now }
{
    text.split_once('.')
}

/// Returns NAME of `NAME.rs`, if NAME may be the name of a package.
fn stem_of(alloc: Global, file: &str) -> Result<Option<Text>, AllocError>
    ensures { IfOk result (λ name. name ≡ stem_in (parted 46 file.now)) }
{
    match parted_at_dot(file) {
        None => Ok(None),
        Some((name, end)) => {
            if !(is_name(name) && end == "rs") {
                return Ok(None);
            }
            let name = Text::from_str(alloc, name)?;
            Ok(Some(name))
        }
    }
}

/// Returns NAME of the path `NAME.rs`, if NAME may be the name of a package.
fn flat_name(alloc: Global, names: &[&str]) -> Result<Option<Text>, AllocError>
    ensures { IfOk result (λ name. name ≡ flat_name (map (λ x. x.now) names.now)) }
{
    match names {
        [file] => stem_of(alloc, *file),
        _ => Ok(None),
    }
}

/// Returns NAME of the path `NAME/main.rs`, if NAME may be the name of a package.
fn nested_name(alloc: Global, names: &[&str]) -> Result<Option<Text>, AllocError>
    ensures { IfOk result (λ name. name ≡ nested_name (map (λ x. x.now) names.now)) }
{
    match names {
        [name, file] => {
            if !(is_name(*name) && *file == "main.rs") {
                return Ok(None);
            }
            let name = Text::from_str(alloc, *name)?;
            Ok(Some(name))
        }
        _ => Ok(None),
    }
}

/// Returns the name of the binary at a path, if the path has the form of a binary's source.
fn name_by(alloc: Global, nested: bool, path: &str) -> Result<Option<Text>, AllocError>
    ensures { IfOk result (λ name. name ≡ name_by nested (names_in path.now)) }
{
    let names = names_in(alloc, path)?;
    if nested {
        nested_name(alloc, names.as_slice())
    } else {
        flat_name(alloc, names.as_slice())
    }
}

/// Returns the name of the binary at a path in `src/bin`, if the path has the form of a binary's
/// source.
fn name_inside(
    alloc: Global,
    nested: bool,
    bin: &PathText,
    path: &PathText,
) -> Result<Option<Text>, AllocError>
    ensures { IfOk result (λ name. name ≡ name_inside nested (inside bin.now path.now)) }
{
    match path.inside(alloc, bin)? {
        None => Ok(None),
        Some(relative) => name_by(alloc, nested, relative.as_str()),
    }
}

/// Returns the binary at a path in `src/bin`, if the path has the form of a binary's source.
fn binary_at(
    alloc: Global,
    nested: bool,
    bin: &PathText,
    path: &PathText,
) -> Result<Option<Binary>, AllocError>
    ensures { IfOk result (λ binary. binary ≡ binary_at nested bin.now path.now) }
{
    let name = match name_inside(alloc, nested, bin, path)? {
        Some(name) => name,
        None => return Ok(None),
    };
    let source = path.copy(alloc)?;
    Ok(Some(Binary {
        name,
        source,
        required_features: Items::new(alloc),
    }))
}

/// Adds the binaries at paths in `src/bin`.
fn add_binaries(
    alloc: Global,
    nested: bool,
    bin: &PathText,
    paths: &[PathText],
    binaries: &mut Items<Binary>,
) -> Result<(), AllocError>
    ensures { OnOk result
        (binaries.new ≡ binaries.old ++ filter_map (binary_at nested bin.now) paths.now) }
{
    for path in paths {
        if let Some(binary) = binary_at(alloc, nested, bin, path)? {
            binaries.push(binary)?;
        }
    }
    Ok(())
}

/// Adds the binary of `src/main.rs`, if this file exists. The binary has the package's name.
fn add_main(
    alloc: Global,
    name: &Text,
    path: Option<PathText>,
    binaries: &mut Items<Binary>,
) -> Result<(), AllocError>
    ensures { OnOk result (binaries.new ≡ binaries.old ++ main_binary name.now path) }
{
    if let Some(source) = path {
        binaries.push(Binary {
            name: name.copy(alloc)?,
            source,
            required_features: Items::new(alloc),
        })?;
    }
    Ok(())
}

/// Returns the binaries of these files in `src/bin` and of `src/main.rs`.
fn binaries_from(
    alloc: Global,
    name: &Text,
    bin: &PathText,
    paths: &[PathText],
    main: Option<PathText>,
) -> Result<Items<Binary>, AllocError>
    ensures { IfOk result (λ binaries. binaries ≡ filter_map (binary_at true bin.now) paths.now
        ++ (filter_map (binary_at false bin.now) paths.now ++ main_binary name.now main)) }
{
    let mut binaries = Items::new(alloc);
    add_binaries(alloc, true, bin, paths, &mut binaries)?;
    add_binaries(alloc, false, bin, paths, &mut binaries)?;
    add_main(alloc, name, main, &mut binaries)?;
    Ok(binaries)
}

/// Returns the binaries that a package's folder has (The Cargo Book, Cargo Targets). The binaries
/// of `src/bin/NAME/main.rs` come first, and then the binaries of `src/bin/NAME.rs`. The binary of
/// `src/main.rs` comes last, and has the package's name.
///
/// If two binaries have the same name, the later one counts. NAME must be a valid name of a
/// package. Files at or below the target folder are left out.
///
/// Errors: out of memory.
pub fn found_binaries(
    alloc: Global,
    listings: &Listings,
    folder: &PathText,
    name: &Text,
) -> Result<Items<Binary>, AllocError>
    requires { is_name name.now ≡ true }
    ensures ok { (sources : World) → AreListingsOf folder.now sources listings.now
        → IfOk result (λ binaries. binaries ≡ found_binaries folder.now sources name.now) }
    ensures named { IfOk result (AllByRecursion IsBinaryNamed) }
{
    let bin = bin_folder(alloc, folder)?;
    let main = own_source(alloc, listings, folder, OwnFile::Main)?;
    let binaries = binaries_from(alloc, name, &bin, listings.in_bin.as_slice(), main)?;
    Ok(binaries)
}

//! The binaries of a package.

ghost use Rattle.std.specs.Prelude.{◌≡◌, ◌++◌, All, IfOk, OnOk, true, false, map};
ghost use Rattle.pb_place_types.specs.Paths.{below};
ghost use Rattle.pb_place_types.specs.World.{World};
ghost use Rattle.pb_manifest_types.specs.Letters.{is_name};
ghost use Rattle.pb_workspace_package.specs.Binaries.{main_source, flat_source, nested_source, looked_in_bin, looked_for, binary_source, written_binary, with_binaries, binary_of, binaries_of};
ghost use Rattle.pb_workspace_package.specs.Listings.{AreListingsOf};
ghost use Rattle.std.specs.List.{AllByRecursion};
ghost use Rattle.pb_workspace_package.specs.Drafted.{IsBinaryNamed, AreBinaries};

use crate::listings::{Listings, bin_path, bin_source, own_source};
use crate::own_file::OwnFile;
use crate::sorted::Sorted;
use crate::source::resolve_path;
use pb_data::{Items, Text, TryCopy};
use pb_manifest_types::WrittenPath;
use pb_place_types::PathText;
use pb_workspace_types::{BinariesByName, Binary};
use std::alloc::{AllocError, Global};

/// Returns a name with an end appended.
fn with_end(alloc: Global, name: &str, end: &str) -> Result<Text, AllocError>
    ensures { IfOk result (λ text. text ≡ name.now ++ end.now) }
{
    let mut text = String::from_str(alloc, name)?;
    text.push_str(end)?;
    Ok(Text::new(text))
}

/// Returns the first of `src/bin/NAME.rs` and `src/bin/NAME/main.rs` that is a file of the sources,
/// or none if neither path is such a file.
#[tactic(auto, using(crate::proofs::BinPaths::bin_laws))]
fn looked_in_bin(
    alloc: Global,
    listings: &Listings,
    folder: &PathText,
    name: &str,
) -> Result<Option<PathText>, AllocError>
    requires { is_name name.now ≡ true }
    ensures ok { (sources : World) → AreListingsOf folder.now sources listings.now
        → IfOk result (λ path. path ≡ looked_in_bin folder.now sources name.now) }
{
    let flat = with_end(alloc, name, ".rs")?;
    if let Some(path) = bin_source(alloc, listings, folder, flat.as_str())? {
        return Ok(Some(path));
    }
    let nested = with_end(alloc, name, "/main.rs")?;
    bin_source(alloc, listings, folder, nested.as_str())
}

/// Returns `src/bin/NAME.rs`, whether it exists or not.
#[tactic(auto, using(crate::proofs::BinPaths::bin_laws))]
fn flat_path(alloc: Global, folder: &PathText, name: &str) -> Result<PathText, AllocError>
    requires { is_name name.now ≡ true }
    ensures { IfOk result (λ path. path ≡ below folder.now (flat_source name.now)) }
{
    let flat = with_end(alloc, name, ".rs")?;
    bin_path(alloc, folder, flat.as_str())
}

/// Returns the source of a `[[bin]]` that has no path and does not have its package's name.
fn looked_for_other(
    alloc: Global,
    listings: &Listings,
    folder: &PathText,
    name: &str,
) -> Result<PathText, AllocError>
    requires { is_name name.now ≡ true }
    ensures ok { (sources : World) → AreListingsOf folder.now sources listings.now
        → IfOk result (λ path. path ≡ looked_for folder.now sources false name.now) }
{
    if let Some(path) = looked_in_bin(alloc, listings, folder, name)? {
        return Ok(path);
    }
    flat_path(alloc, folder, name)
}

/// Returns the source of a `[[bin]]` that has no path and has its package's name.
fn looked_for_main(
    alloc: Global,
    listings: &Listings,
    folder: &PathText,
    name: &str,
) -> Result<PathText, AllocError>
    requires { is_name name.now ≡ true }
    ensures ok { (sources : World) → AreListingsOf folder.now sources listings.now
        → IfOk result (λ path. path ≡ looked_for folder.now sources true name.now) }
{
    if let Some(path) = own_source(alloc, listings, folder, OwnFile::Main)? {
        return Ok(path);
    }
    if let Some(path) = looked_in_bin(alloc, listings, folder, name)? {
        return Ok(path);
    }
    OwnFile::Main.path(alloc, folder)
}

/// Returns the source of a `[[bin]]` of a package (The Cargo Book, Cargo Targets). If the `[[bin]]`
/// writes a path, the source is this path, unchanged.
///
/// If no path is written, the source is the first of these paths that is a file. The paths are
/// `src/main.rs` (only if the binary has its package's name), `src/bin/NAME.rs` and
/// `src/bin/NAME/main.rs`. If no file exists at these paths, the source is the first of these
/// paths.
///
/// Errors: out of memory.
pub fn binary_source(
    alloc: Global,
    listings: &Listings,
    folder: &PathText,
    package_name: &Text,
    name: &Text,
    path: &Option<WrittenPath>,
) -> Result<PathText, AllocError>
    requires { is_name name.now ≡ true }
    ensures ok { (sources : World) → AreListingsOf folder.now sources listings.now → IfOk result
        (λ source. source ≡ binary_source folder.now sources package_name.now name.now path.now) }
{
    if let Some(path) = path {
        return resolve_path(alloc, folder, path);
    }
    if *name == *package_name {
        return looked_for_main(alloc, listings, folder, name.as_str());
    }
    looked_for_other(alloc, listings, folder, name.as_str())
}

/// Returns the binary of a `[[bin]]`.
pub fn written_binary(
    alloc: Global,
    listings: &Listings,
    folder: &PathText,
    package_name: &Text,
    written: pb_manifest_types::Binary,
) -> Result<Binary, AllocError>
    requires { is_name written.name ≡ true }
    ensures ok { (sources : World) → AreListingsOf folder.now sources listings.now → IfOk result
        (λ binary. binary ≡ written_binary folder.now sources package_name.now written) }
    ensures named { IfOk result IsBinaryNamed }
{
    let source = binary_source(
        alloc,
        listings,
        folder,
        package_name,
        &written.name,
        &written.path,
    )?;
    Ok(Binary {
        name: written.name,
        source,
        required_features: written.required_features,
    })
}

/// Returns the binaries of a package's `[[bin]]`s, in the manifest's order.
pub fn written_binaries(
    alloc: Global,
    listings: &Listings,
    folder: &PathText,
    package_name: &Text,
    written: Items<pb_manifest_types::Binary>,
) -> Result<Items<Binary>, AllocError>
    requires { All (λ b. is_name b.name ≡ true) written }
    ensures ok { (sources : World) → AreListingsOf folder.now sources listings.now → IfOk result
        (λ binaries. binaries ≡ map (written_binary folder.now sources package_name.now) written) }
    ensures named { IfOk result (AllByRecursion IsBinaryNamed) }
{
    let mut binaries = Items::new(alloc);
    for binary in written.into_vec() {
        let made = written_binary(alloc, listings, folder, package_name, binary)?;
        binaries.push(made)?;
    }
    Ok(binaries)
}

/// Adds binaries, one after another. Each binary replaces an earlier binary of the same name.
fn put_binaries(
    alloc: Global,
    entries: &mut Sorted<Binary>,
    binaries: Items<Binary>,
) -> Result<(), AllocError>
    ensures { OnOk result (entries.new ≡ with_binaries entries.old binaries) }
{
    for binary in binaries.into_vec() {
        let name = binary.name.copy(alloc)?;
        entries.insert(name, binary)?;
    }
    Ok(())
}

/// Returns the values of entries.
fn values_of(alloc: Global, entries: Items<(Text, Binary)>) -> Result<Items<Binary>, AllocError>
    ensures { IfOk result (λ binaries. binaries ≡ map binary_of entries) }
{
    let mut binaries = Items::new(alloc);
    for (name, binary) in entries.into_vec() {
        binaries.push(Binary {
            name,
            source: binary.source,
            required_features: binary.required_features,
        })?;
    }
    Ok(binaries)
}

/// Returns the binaries of a package, found or written, in byte order of their names, each once. If
/// two found binaries have the same name, the later one counts. A written binary replaces a found
/// binary of the same name.
///
/// Errors: out of memory.
pub fn binaries_of(
    alloc: Global,
    found: Items<Binary>,
    written: Items<Binary>,
) -> Result<BinariesByName, AllocError>
    requires found { AllByRecursion IsBinaryNamed found }
    requires written { AllByRecursion IsBinaryNamed written }
    ensures binaries { IfOk result (λ binaries. binaries ≡ binaries_of found written) }
    ensures kept { IfOk result AreBinaries }
{
    let mut entries = Sorted::new(alloc);
    put_binaries(alloc, &mut entries, found)?;
    put_binaries(alloc, &mut entries, written)?;
    let items = entries.into_items(alloc)?;
    let made = values_of(alloc, items)?;
    Ok(BinariesByName::from_items(made))
}

//! A package, determined by its manifest, its folder and what its workspace offers.

ghost use Rattle.std.specs.Prelude.{◌≡◌, ◌++◌, All, IfOk, IfErr, true, false, map, IfSome};
ghost use Rattle.pb_data.specs.UnlessOom.{UnlessOom};
ghost use Rattle.pb_place_types.specs.World.{World};
ghost use Rattle.pb_manifest_types.specs.Letters.{is_name};
ghost use Rattle.pb_workspace_package.specs.Causes.{is_failure};
ghost use Rattle.pb_workspace_package.specs.Listings.{AreListingsOf};
ghost use Rattle.pb_workspace_package.specs.Settling.{readme_found, wanted_in, discovered, targets_of, comes_again, has_same_binaries};
ghost use Rattle.pb_workspace_types.specs.declared.fault.LoadFault.TheVariants as load_fault;
ghost use Rattle.std.specs.List.{AllByRecursion};
ghost use Rattle.pb_workspace_package.specs.Drafted.{IsBinaryNamed, IsKeyed, IsWantedKeyed, IsWrittenLibrary, AreTargets};
ghost use Rattle.pb_workspace_types.specs.Settled.{IsAscending};

use crate::again::was_mentioned;
use crate::binaries::{binaries_of, written_binaries};
use crate::by_key::{SharedByKey, WantedByKey};
use crate::found::{found_readme, library_of, script_of};
use crate::found_binaries::found_binaries;
use crate::keys::Keys;
use crate::listings::Listings;
use crate::wanted::{PackageLocation, Wanted, each_wanted};
use pb_data::{Items, OrderedSet, Text, with_next};
use pb_manifest_types::{Dependency, Inheritable, Readme, WorkspacePackage};
use pb_place_types::PathText;
use pb_workspace_types::{BinariesByName, Binary, DependencyKind, Library, LoadFault};
use std::alloc::{AllocError, Global};

/// What a package may take from its workspace. For a package that may take nothing, the table has
/// no values and the list has no entries.
#[derive(Drop)]
pub struct Given {
    /// `[workspace.package]`.
    pub package: WorkspacePackage,
    /// `[workspace.dependencies]`.
    pub dependencies: SharedByKey,
}

/// What a package is built into.
#[derive(Drop)]
pub struct Targets {
    /// The package's library, if it has one.
    pub library: Option<Library>,
    /// The package's binaries, in byte order of their names.
    pub binaries: BinariesByName,
    /// The source of the package's build script, if it has one.
    pub script: Option<PathText>,
}

/// Returns the README that is found in a package's folder. If the manifest has a key `readme`,
/// returns the empty text.
///
/// Errors: out of memory.
pub fn readme_found(
    alloc: Global,
    listings: &Listings,
    folder: &PathText,
    readme: &Inheritable<Readme>,
) -> Result<Text, AllocError>
    ensures ok { (sources : World) → AreListingsOf folder.now sources listings.now
        → IfOk result (λ text. text ≡ readme_found folder.now sources readme.now) }
{
    match readme {
        Inheritable::Written(_) => Text::from_str(alloc, ""),
        Inheritable::Workspace => Text::from_str(alloc, ""),
        Inheritable::Absent => found_readme(alloc, listings, folder),
    }
}

/// Returns the entries of both lists, one after the other.
fn join_entries(first: Items<Wanted>, second: Items<Wanted>) -> Result<Items<Wanted>, AllocError>
    ensures { IfOk result (λ made. made ≡ first ++ second) }
{
    let mut made = first;
    for wanted in second.into_vec() {
        made.push(wanted)?;
    }
    Ok(made)
}

/// Returns what the entries of `[dependencies]` and then of `[build-dependencies]` request, up to
/// the first fault.
///
/// Errors:
///
/// - `NoInherited`, if an entry is taken from a workspace that does not have it.
/// - `Manifest` with `UnsupportedSource`, if the workspace's entry has no path, or has `git` or
///   `registry`.
/// - `OutOfMemory`.
pub fn wanted_in(
    alloc: Global,
    at: &PackageLocation,
    given: &Given,
    dependencies: &[Dependency],
    build: &[Dependency],
) -> Result<WantedByKey, LoadFault>
    requires normal { IsAscending (map (λ d. d.key) dependencies.now) }
    requires build { IsAscending (map (λ d. d.key) build.now) }
    requires normal_keys { AllByRecursion IsKeyed dependencies.now }
    requires build_keys { AllByRecursion IsKeyed build.now }
    ensures told { UnlessOom load_fault.OutOfMemory (λ wanted. wanted) result
        (wanted_in at.now given.now dependencies.now build.now) }
    ensures keys { IfOk result (AllByRecursion IsWantedKeyed) }
    ensures here { IfErr result (λ e. is_failure e ≡ false) }
{
    let shared = &given.dependencies;
    let normal = each_wanted(alloc, at, shared, DependencyKind::Normal, dependencies)?;
    let for_script = each_wanted(alloc, at, shared, DependencyKind::Build, build)?;
    let wanted = join_entries(normal, for_script)?;
    Ok(WantedByKey::from_items(wanted))
}

/// Returns the binaries that are found, unless `autobins` is false.
fn discover_binaries(
    alloc: Global,
    listings: &Listings,
    folder: &PathText,
    name: &Text,
    autobins: bool,
) -> Result<Items<Binary>, AllocError>
    requires { is_name name.now ≡ true }
    ensures ok { (sources : World) → AreListingsOf folder.now sources listings.now
        → IfOk result (λ binaries. binaries ≡ discovered folder.now sources name.now autobins) }
    ensures named { IfOk result (AllByRecursion IsBinaryNamed) }
{
    if !autobins {
        return Ok(Items::new(alloc));
    }
    found_binaries(alloc, listings, folder, name)
}

/// Returns what a package with these keys is built into: its library, its binaries and its build
/// script. A part that is neither written nor found is absent (The Cargo Book, Cargo Targets and
/// Build Scripts).
///
/// Errors: out of memory.
pub fn targets_of(
    alloc: Global,
    listings: &Listings,
    folder: &PathText,
    keys: &Keys,
    library: Option<pb_manifest_types::Library>,
    binaries: Items<pb_manifest_types::Binary>,
) -> Result<Targets, AllocError>
    requires binaries { All (λ b. is_name b.name ≡ true) binaries }
    requires name { is_name keys.now.name ≡ true }
    requires library { IfSome library IsWrittenLibrary }
    ensures ok { (sources : World) → AreListingsOf folder.now sources listings.now → IfOk result
        (λ targets. targets ≡ targets_of folder.now sources keys.now.name keys.now.autobins
        keys.now.build library binaries) }
    ensures targets { IfOk result AreTargets }
{
    let name = &keys.name;
    let written = written_binaries(alloc, listings, folder, name, binaries);
    let (library, written) = with_next(library, written)?;
    let found = discover_binaries(alloc, listings, folder, name, keys.autobins);
    let ((library, written), found) = with_next((library, written), found)?;
    let (library, binaries) = with_next(library, binaries_of(alloc, found, written))?;
    let library = library_of(alloc, listings, folder, name.as_str(), library);
    let (binaries, library) = with_next(binaries, library)?;
    let script = script_of(alloc, listings, folder, &keys.build);
    let ((binaries, library), script) = with_next((binaries, library), script)?;
    Ok(Targets {
        library,
        binaries,
        script,
    })
}

/// Returns whether two of these `[[bin]]` have the same name, or whether one has a name that was
/// seen before.
fn binaries_come_again(
    alloc: Global,
    seen: &mut OrderedSet,
    binaries: &[pb_manifest_types::Binary],
) -> Result<bool, AllocError>
    ensures { IfOk result
        (λ answer. answer ≡ comes_again seen.old (map (λ b. b.name) binaries.now)) }
{
    for binary in binaries {
        if was_mentioned(alloc, seen, &binary.name)? {
            return Ok(true);
        }
    }
    Ok(false)
}

/// Returns whether two `[[bin]]` have the same name.
///
/// Errors: out of memory.
pub fn has_same_binaries(
    alloc: Global,
    binaries: &[pb_manifest_types::Binary],
) -> Result<bool, AllocError>
    ensures { IfOk result (λ answer. answer ≡ has_same_binaries binaries.now) }
{
    let mut seen = OrderedSet::new(alloc);
    let again = binaries_come_again(alloc, &mut seen, binaries);
    drop(seen);
    again
}

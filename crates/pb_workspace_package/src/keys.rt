//! The keys of a package, after the package has inherited from its workspace.

ghost use Rattle.std.specs.Prelude.{◌≡◌, IfErr, false, IfOk};
ghost use Rattle.pb_data.specs.UnlessOom.{UnlessOom};
ghost use Rattle.pb_place_types.specs.World.{World};
ghost use Rattle.pb_workspace_package.specs.Causes.{is_failure};
ghost use Rattle.pb_workspace_package.specs.Listings.{AreListingsOf};
ghost use Rattle.pb_workspace_package.specs.Keys.{keys_from, keys_of};
ghost use Rattle.pb_workspace_types.specs.declared.fault.LoadFault.TheVariants as load_fault;

use crate::listings::Listings;
use crate::settling::readme_found;
use crate::taken::{about_of, edition_of, version_of};
use crate::wanted::PackageLocation;
use pb_data::{Text, TryCopy, with_next};
use pb_manifest_types::{Build, Edition, Package, Version, WorkspacePackage};
use pb_workspace_types::{About, LoadFault};
use std::alloc::{AllocError, Global};

/// The keys of a package, with nothing left to inherit.
#[derive(Drop)]
pub struct Keys {
    /// Its name.
    pub name: Text,
    /// Its version.
    pub version: Version,
    /// Its edition.
    pub edition: Edition,
    /// What the package says about itself to people.
    pub about: About,
    /// The native library that the package links.
    pub links: Option<Text>,
    /// Whether binaries are discovered.
    pub autobins: bool,
    /// The value of `build`.
    pub build: Build,
}

/// Returns a copy of the value of `build`.
fn build_of(alloc: Global, build: &Build) -> Result<Build, AllocError>
    ensures { IfOk result (λ made. made ≡ build.now) }
{
    match build {
        Build::Discovered => Ok(Build::Discovered),
        Build::Standard => Ok(Build::Standard),
        Build::Never => Ok(Build::Never),
        Build::At(path) => {
            let path = path.copy(alloc)?;
            Ok(Build::At(path))
        }
    }
}

/// The keys that a package cannot inherit.
#[derive(Drop)]
pub struct Own {
    /// Its name.
    pub name: Text,
    /// The native library that the package links.
    pub links: Option<Text>,
    /// The value of `build`.
    pub build: Build,
}

/// Returns copies of the keys that a package cannot inherit.
fn own_keys(alloc: Global, found: &Package) -> Result<Own, AllocError>
    ensures name { IfOk result (λ own. own.name ≡ found.now.name) }
    ensures links { IfOk result (λ own. own.links ≡ found.now.links) }
    ensures build { IfOk result (λ own. own.build ≡ found.now.build) }
{
    let name = found.name.copy(alloc)?;
    let links = found.links.copy(alloc)?;
    let build = build_of(alloc, &found.build)?;
    Ok(Own { name, links, build })
}

/// Returns the keys of a package. `readme` is the README that was found in the package's folder, or
/// the empty text.
fn keys_from(
    alloc: Global,
    at: &PackageLocation,
    given: &WorkspacePackage,
    readme: &Text,
    found: &Package,
) -> Result<Keys, LoadFault>
    ensures told { UnlessOom load_fault.OutOfMemory (λ keys. keys) result
        (keys_from at.now given.now readme.now found.now) }
    ensures name { IfOk result (λ keys. keys.name ≡ found.now.name) }
    ensures here { IfErr result (λ e. is_failure e ≡ false) }
{
    let own = own_keys(alloc, found)?;
    let version = version_of(alloc, &found.version, &given.version);
    let (own, version) = with_next(own, version)?;
    let edition = edition_of(&found.edition, given.edition);
    let (kept, edition) = with_next((own, version), edition)?;
    let about = about_of(alloc, &at.root, &at.folder, readme, found, given);
    let ((own, version), about) = with_next(kept, about)?;
    Ok(Keys {
        name: own.name,
        version,
        edition,
        about,
        links: own.links,
        autobins: found.autobins,
        build: own.build,
    })
}

/// Returns the keys of a package. Each key is written in the manifest, taken from the workspace, or
/// found in the package's folder (The Cargo Book, Manifest Format and Workspaces).
///
/// Errors: `NoInherited`, if a key is taken from a workspace that does not have it; `OutOfMemory`.
pub fn keys_of(
    alloc: Global,
    listings: &Listings,
    at: &PackageLocation,
    given: &WorkspacePackage,
    found: &Package,
) -> Result<Keys, LoadFault>
    ensures told { (sources : World) → AreListingsOf at.now.folder sources listings.now
        → UnlessOom load_fault.OutOfMemory (λ keys. keys) result
        (keys_of sources at.now given.now found.now) }
    ensures name { IfOk result (λ keys. keys.name ≡ found.now.name) }
    ensures here { IfErr result (λ e. is_failure e ≡ false) }
{
    let readme = readme_found(alloc, listings, &at.folder, &found.readme)?;
    keys_from(alloc, at, given, &readme, found)
}

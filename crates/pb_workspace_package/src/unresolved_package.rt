//! A whole package. The packages of its entries have not been looked for yet.

ghost use Rattle.std.specs.Prelude.{◌≡◌, All, IfErr, IsTrue, false, true, IfOk, map};
ghost use Rattle.pb_data.specs.UnlessOom.{UnlessOom};
ghost use Rattle.pb_place_types.specs.World.{World, from_nothing};
ghost use Rattle.pb_manifest_types.specs.Letters.{is_name};
ghost use Rattle.pb_workspace_package.specs.Looks.{Looks, listings_at};
ghost use Rattle.pb_workspace_package.specs.Causes.{is_failure, UnlessFailed, OnlyLooks};
ghost use Rattle.pb_workspace_package.specs.Listings.{AreListingsOf};
ghost use Rattle.pb_workspace_package.specs.Drafts.{lists_of, draft_from, draft_with, draft_of};
ghost use Rattle.pb_workspace_types.specs.declared.fault.LoadFault.TheVariants as load_fault;
ghost use Rattle.std.specs.List.{AllByRecursion};
ghost use Rattle.pb_workspace_package.specs.Drafted.{AreFeatures, ArePromised, IsDraft, IsKeyed, IsWantedKeyed, IsWrittenFeature};
ghost use Rattle.pb_workspace_types.specs.Settled.{IsAscending};

use crate::by_key::WantedByKey;
use crate::features::features_of;
use crate::keys::{Keys, keys_of};
use crate::listings::{Listings, listings_of};
use crate::settling::{Given, Targets, has_same_binaries, targets_of, wanted_in};
use crate::wanted::PackageLocation;
use pb_data::{Items, Text, with_next};
use pb_manifest_types::{Dependency, Edition, Feature, Package, Version};
use pb_place_types::{PathText, Place};
use pb_workspace_types::{About, BinariesByName, FeaturesByName, Library, LoadFault};
use std::alloc::Global;

/// The tables of a manifest, besides `[package]`, that describe its package.
#[derive(Drop)]
pub struct Tables {
    /// `[lib]`.
    pub library: Option<pb_manifest_types::Library>,
    /// `[[bin]]`, in the manifest's order.
    pub binaries: Items<pb_manifest_types::Binary>,
    /// `[dependencies]`.
    pub dependencies: Items<Dependency>,
    /// `[build-dependencies]`.
    pub build_dependencies: Items<Dependency>,
    /// The keys of `[dev-dependencies]`.
    pub dev_dependencies: Items<Text>,
    /// `[features]`.
    pub features: Items<Feature>,
}

/// A whole package. The packages of its entries have not been looked for yet.
#[derive(Drop)]
pub struct UnresolvedPackage {
    /// The folder that contains the package's manifest.
    pub folder: PathText,
    /// The path of its manifest.
    pub manifest: PathText,
    /// Whether the package is a member of the workspace.
    pub is_member: bool,
    /// Its name.
    pub name: Text,
    /// Its version.
    pub version: Version,
    /// Its edition.
    pub edition: Edition,
    /// What the package says about itself to people.
    pub about: About,
    /// The native library that the package links.
    pub links: Option<Text>,
    /// The package's library, if it has one.
    pub library: Option<Library>,
    /// The package's binaries, in byte order of their names.
    pub binaries: BinariesByName,
    /// The source of the package's build script, if it has one.
    pub script: Option<PathText>,
    /// What its entries request.
    pub wanted: WantedByKey,
    /// The package's features, including those that its optional entries make.
    pub features: FeaturesByName,
    /// The keys of `[dev-dependencies]`.
    pub development: Items<Text>,
    /// Whether two `[[bin]]` of the package have the same name.
    pub has_same_binaries: bool,
}

/// What the lists of a manifest yield.
#[derive(Drop)]
pub struct Lists {
    /// What its entries request.
    pub wanted: WantedByKey,
    /// The package's features, including those that its optional entries make.
    pub features: FeaturesByName,
    /// Whether two `[[bin]]` of the package have the same name.
    pub has_same_binaries: bool,
}

/// Returns what the lists of a manifest yield: what the entries request, the features, and whether
/// two `[[bin]]` have the same name.
fn lists_of(
    alloc: Global,
    at: &PackageLocation,
    given: &Given,
    dependencies: &[Dependency],
    build: &[Dependency],
    features: Items<Feature>,
    binaries: &[pb_manifest_types::Binary],
) -> Result<Lists, LoadFault>
    requires features { AllByRecursion IsWrittenFeature features }
    requires normal { AllByRecursion IsKeyed dependencies.now }
    requires build { AllByRecursion IsKeyed build.now }
    requires normal_order { IsAscending (map (λ d. d.key) dependencies.now) }
    requires build_order { IsAscending (map (λ d. d.key) build.now) }
    ensures told { UnlessOom load_fault.OutOfMemory (λ lists. lists) result
        (lists_of at.now given.now dependencies.now build.now features binaries.now) }
    ensures kept { IfOk result (λ lists. AreFeatures lists.features) }
    ensures keys { IfOk result (λ lists. AllByRecursion IsWantedKeyed lists.wanted) }
    ensures here { IfErr result (λ e. is_failure e ≡ false) }
{
    let wanted = wanted_in(alloc, at, given, dependencies, build)?;
    let features = features_of(alloc, features, dependencies, build)?;
    let has_same_binaries = has_same_binaries(alloc, binaries)?;
    Ok(Lists {
        wanted,
        features,
        has_same_binaries,
    })
}

/// Returns the package with these parts.
fn draft_from(
    at: PackageLocation,
    is_member: bool,
    keys: Keys,
    lists: Lists,
    development: Items<Text>,
    targets: Targets,
) -> UnresolvedPackage
    ensures { result ≡ draft_from at is_member keys lists development targets }
{
    UnresolvedPackage {
        folder: at.folder,
        manifest: at.manifest,
        is_member,
        name: keys.name,
        version: keys.version,
        edition: keys.edition,
        about: keys.about,
        links: keys.links,
        library: targets.library,
        binaries: targets.binaries,
        script: targets.script,
        wanted: lists.wanted,
        features: lists.features,
        development,
        has_same_binaries: lists.has_same_binaries,
    }
}

/// Returns the package with these keys.
#[tactic(auto, unfolding(crate::specs::Drafts::draft_with))]
fn draft_with(
    alloc: Global,
    listings: &Listings,
    at: PackageLocation,
    is_member: bool,
    given: &Given,
    tables: Tables,
    keys: Keys,
) -> Result<UnresolvedPackage, LoadFault>
    requires binaries { All (λ b. is_name b.name ≡ true) tables.binaries }
    requires name { is_name keys.name ≡ true }
    requires promised { ArePromised tables }
    ensures told { (sources : World) → AreListingsOf at.folder sources listings.now
        → UnlessOom load_fault.OutOfMemory (λ draft. draft) result
        (draft_with sources at is_member given.now tables keys) }
    ensures draft { IfOk result IsDraft }
    ensures folder { IfOk result (λ draft. draft.folder ≡ at.folder) }
    ensures here { IfErr result (λ e. is_failure e ≡ false) }
{
    let Tables {
        library,
        binaries,
        dependencies,
        build_dependencies,
        dev_dependencies,
        features,
    } = tables;
    let lists = lists_of(
        alloc,
        &at,
        given,
        dependencies.as_slice(),
        build_dependencies.as_slice(),
        features,
        binaries.as_slice(),
    );
    drop(dependencies);
    drop(build_dependencies);
    let own = (at, keys, library, binaries, dev_dependencies);
    let ((at, keys, library, binaries, development), lists) = with_next(own, lists)?;
    let targets = targets_of(alloc, listings, &at.folder, &keys, library, binaries);
    let own = (at, keys, lists, development);
    let ((at, keys, lists, development), targets) = with_next(own, targets)?;
    Ok(draft_from(at, is_member, keys, lists, development, targets))
}

/// Returns the package of a manifest, given the listings of its folder.
#[tactic(auto, unfolding(crate::specs::Drafts::draft_of))]
fn draft_seen(
    alloc: Global,
    listings: &Listings,
    at: PackageLocation,
    is_member: bool,
    given: &Given,
    found: &Package,
    tables: Tables,
) -> Result<UnresolvedPackage, LoadFault>
    requires binaries { All (λ b. is_name b.name ≡ true) tables.binaries }
    requires name { is_name found.now.name ≡ true }
    requires promised { ArePromised tables }
    ensures told { (sources : World) → AreListingsOf at.folder sources listings.now
        → UnlessOom load_fault.OutOfMemory (λ draft. draft) result
        (draft_of sources at is_member given.now found.now tables) }
    ensures draft { IfOk result IsDraft }
    ensures folder { IfOk result (λ draft. draft.folder ≡ at.folder) }
    ensures here { IfErr result (λ e. is_failure e ≡ false) }
{
    let keys = keys_of(alloc, listings, &at, &given.package, found);
    let ((at, tables), keys) = with_next((at, tables), keys)?;
    draft_with(alloc, listings, at, is_member, given, tables, keys)
}

/// Returns the package of a manifest. The manifest, its folder, and what the package inherits from
/// its workspace describe the package (The Cargo Book, Manifest Format and Workspaces). The folder
/// is looked at once.
///
/// Errors: the first that occurs. The keys are checked first, then `[dependencies]`, and then
/// `[build-dependencies]`:
/// - `Place`: a call failed. The error contains the path of that call.
/// - `NoInherited`: a key or an entry is taken from a workspace that does not have it.
/// - `Manifest` with `UnsupportedSource`: the entry that is taken has no path, or has `git` or
///   `registry`.
/// - `OutOfMemory`, at any time.
pub fn draft_of<P: Place>(
    alloc: Global,
    place: &mut P,
    target: &PathText,
    at: PackageLocation,
    is_member: bool,
    given: &Given,
    found: &Package,
    tables: Tables,
) -> Result<UnresolvedPackage, LoadFault>
    requires binaries { All (λ b. is_name b.name ≡ true) tables.binaries }
    requires name { is_name found.now.name ≡ true }
    requires promised { ArePromised tables }
    ensures ok { IsTrue P.is_modelled → UnlessFailed result
        (draft_of (from_nothing target.now (P.at place.old).world) at is_member given.now
        found.now tables) }
    ensures draft { IfOk result IsDraft }
    ensures folder { IfOk result (λ draft. draft.folder ≡ at.folder) }
    ensures quiet { OnlyLooks result (P.at place.old) (P.at place.new) }
    ensures looks { Looks result (listings_at target.now at.folder)
        (P.at place.old).counts (P.at place.new).counts }
{
    match listings_of(alloc, place, target, &at.folder) {
        Ok(listings) => draft_seen(alloc, &listings, at, is_member, given, found, tables),
        Err(fault) => {
            drop(tables);
            Err(fault)
        }
    }
}

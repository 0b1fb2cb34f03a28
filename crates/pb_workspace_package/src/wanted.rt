//! What the entries of a package request, with what they take from the workspace.

ghost use Rattle.std.specs.Prelude.{◌≡◌, ◌++◌, IfOk, IfErr, OnOk, false, unwrap_or};
ghost use Rattle.pb_data.specs.UnlessOom.{UnlessOom};
ghost use Rattle.pb_workspace_package.specs.Causes.{is_failure};
ghost use Rattle.pb_workspace_package.specs.Wanted.{is_renamed, wanted_at, taken_from, wanted_by, wanted_of, each_wanted};
ghost use Rattle.pb_workspace_types.specs.declared.fault.LoadFault.TheVariants as load_fault;

use crate::by_key::SharedByKey;
use crate::source::resolve_path;
use pb_data::{Items, Text, TryCopy};
use pb_manifest_types::{
    Dependency, ManifestFault, PathSource, Requirement, Source, WorkspaceDependency,
    WorkspaceSource,
};
use pb_place_types::PathText;
use pb_workspace_types::{DependencyKind, LoadFault};
use std::alloc::{AllocError, Global};

/// An entry of `[dependencies]` or `[build-dependencies]` whose package has not been looked for
/// yet.
#[derive(Drop)]
pub struct Wanted {
    /// The name of the entry in the manifest.
    pub key: Text,
    /// The table that contains the entry.
    pub kind: DependencyKind,
    /// The folder of the entry's package.
    pub folder: PathText,
    /// The name that the entry's package must have.
    pub name: Text,
    /// The requirement that the version of the entry's package must match.
    pub version: Option<Requirement>,
    /// Whether the name at `package` differs from `key`. False if `package` is not written.
    pub renamed: bool,
    /// Whether the entry is left out unless something enables it.
    pub optional: bool,
    /// Whether the entry turns on the feature `default` of its package, if the package has this
    /// feature.
    pub default_features: bool,
    /// The features that the entry turns on.
    pub features: Items<Text>,
}

/// The paths of a package whose entries are read.
#[derive(Drop)]
pub struct PackageLocation {
    /// The workspace's root.
    pub root: PathText,
    /// The package's folder.
    pub folder: PathText,
    /// The package's manifest.
    pub manifest: PathText,
}

/// Returns whether the name at `package` differs from the key. Returns false if there is no such
/// name.
fn is_renamed(key: &Text, name: &Option<Text>) -> bool
    ensures { result ≡ is_renamed key.now name.now }
{
    match name {
        Some(name) => *name != *key,
        None => false,
    }
}

/// Returns the name that an entry's package must have.
fn name_of(alloc: Global, key: &Text, name: &Option<Text>) -> Result<Text, AllocError>
    ensures { IfOk result (λ made. made ≡ unwrap_or name.now key.now) }
{
    match name {
        Some(name) => name.copy(alloc),
        None => key.copy(alloc),
    }
}

/// Returns what an entry requests. Its path starts at `base`.
fn wanted_at(
    alloc: Global,
    base: &PathText,
    kind: DependencyKind,
    entry: &Dependency,
    default_features: bool,
    features: Items<Text>,
    source: &PathSource,
) -> Result<Wanted, AllocError>
    ensures { IfOk result (λ wanted. wanted
        ≡ wanted_at base.now kind entry.now.key entry.now.optional
        default_features features source.now) }
{
    let key = entry.key.copy(alloc)?;
    let folder = resolve_path(alloc, base, &source.path)?;
    let name = name_of(alloc, &entry.key, &source.package)?;
    let version = source.version.copy(alloc)?;
    Ok(Wanted {
        key,
        kind,
        folder,
        name,
        version,
        renamed: is_renamed(&entry.key, &source.package),
        optional: entry.optional,
        default_features,
        features,
    })
}

/// Adds copies of some texts.
fn add_texts(alloc: Global, texts: &[Text], made: &mut Items<Text>) -> Result<(), AllocError>
    ensures { OnOk result (made.new ≡ made.old ++ texts.now) }
{
    for text in texts {
        made.push(text.copy(alloc)?)?;
    }
    Ok(())
}

/// Returns the features of the workspace's entry, and then those of the member's entry.
fn joined_features(
    alloc: Global,
    first: &[Text],
    second: &[Text],
) -> Result<Items<Text>, AllocError>
    ensures { IfOk result (λ made. made ≡ first.now ++ second.now) }
{
    let mut made = Items::new(alloc);
    add_texts(alloc, first, &mut made)?;
    add_texts(alloc, second, &mut made)?;
    Ok(made)
}

/// Returns the fault of an entry that is taken from the workspace and has an unsupported source.
fn unsupported_source(alloc: Global, manifest: &PathText) -> Result<LoadFault, AllocError>
    ensures { IfOk result
        (λ fault. fault ≡ load_fault.Manifest manifest.now ManifestFault.UnsupportedSource) }
{
    let manifest = manifest.copy(alloc)?;
    Ok(LoadFault::Manifest(manifest, ManifestFault::UnsupportedSource))
}

/// Returns what an entry requests if it takes an entry of the workspace.
fn taken_from(
    alloc: Global,
    at: &PackageLocation,
    kind: DependencyKind,
    entry: &Dependency,
    default_features: bool,
    shared: &WorkspaceDependency,
) -> Result<Wanted, LoadFault>
    ensures told { UnlessOom load_fault.OutOfMemory (λ wanted. wanted) result
        (taken_from at.now.root at.now.manifest kind entry.now default_features
        shared.now shared.now.source) }
    ensures here { IfErr result (λ e. is_failure e ≡ false) }
{
    let source = match &shared.source {
        WorkspaceSource::Path(source) => source,
        WorkspaceSource::Unsupported => return Err(unsupported_source(alloc, &at.manifest)?),
    };
    let features = joined_features(alloc, shared.features.as_slice(), entry.features.as_slice())?;
    let default_features = source.default_features || default_features;
    let wanted = wanted_at(
        alloc,
        &at.root,
        kind,
        entry,
        default_features,
        features,
        source,
    )?;
    Ok(wanted)
}

/// Returns what an entry requests (The Cargo Book, Specifying Dependencies and Workspaces).
///
/// Errors:
///
/// - `NoInherited`, if the entry takes an entry that the workspace does not have.
/// - `Manifest` with `UnsupportedSource`, if that entry has no path, or has `git` or `registry`.
fn wanted_of(
    alloc: Global,
    at: &PackageLocation,
    given: &SharedByKey,
    kind: DependencyKind,
    entry: &Dependency,
) -> Result<Wanted, LoadFault>
    ensures told { UnlessOom load_fault.OutOfMemory (λ wanted. wanted) result
        (wanted_of at.now.root at.now.folder at.now.manifest given.now kind entry.now) }
    ensures here { IfErr result (λ e. is_failure e ≡ false) }
{
    match &entry.source {
        Source::Path(source) => {
            let features = entry.features.copy(alloc)?;
            let default_features = source.default_features;
            let wanted = wanted_at(
                alloc,
                &at.folder,
                kind,
                entry,
                default_features,
                features,
                source,
            )?;
            Ok(wanted)
        }
        Source::Workspace { default_features } => match given.entry_of(&entry.key) {
            None => Err(LoadFault::NoInherited),
            Some(shared) => { taken_from(alloc, at, kind, entry, *default_features, shared) }
        },
    }
}

/// Returns what the entries of one table request, in order, up to the first fault.
///
/// Errors:
///
/// - `NoInherited`.
/// - `Manifest` with `UnsupportedSource`.
/// - `OutOfMemory`.
pub fn each_wanted(
    alloc: Global,
    at: &PackageLocation,
    given: &SharedByKey,
    kind: DependencyKind,
    entries: &[Dependency],
) -> Result<Items<Wanted>, LoadFault>
    ensures told { UnlessOom load_fault.OutOfMemory (λ wanted. wanted) result
        (each_wanted (wanted_of at.now.root at.now.folder at.now.manifest given.now kind)
        entries.now) }
    ensures here { IfErr result (λ e. is_failure e ≡ false) }
{
    let mut made = Items::new(alloc);
    for entry in entries {
        made.push(wanted_of(alloc, at, given, kind, entry)?)?;
    }
    Ok(made)
}

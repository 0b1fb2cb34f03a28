//! Reads the bytes of a manifest.

ghost use Rattle.std.specs.Prelude.{◌≡◌, Ok, Err, IfOk, IfErr, nat_lt, length};
ghost use Rattle.toml.specs.View.{table_view};
ghost use Rattle.pb_manifest_types.specs.Values.{UnlessOom};
ghost use Rattle.pb_manifest.specs.Values.{GivesAs};
ghost use Rattle.pb_manifest.specs.Document.{supported, asks_old_resolver, not_old, package_at, library_at, workspace_at, targets_of, tables_of, document_of, document_in, manifest_of};

use crate::dependency::dependencies_at;
use crate::feature::features_at;
use crate::package::package_of;
use crate::profile::profiles_at;
use crate::target::{binaries_at, library_of};
use crate::values::{has, keys_at, table_at, value_at};
use crate::workspace::workspace_of;
use pb_data::{Items, MAX_MANIFEST_BYTES, Text, with_next};
use pb_manifest_types::{
    Binary, Dependency, Feature, Key, Library, Manifest, ManifestFault, Package, Profile,
    WorkspaceTable,
};
use std::alloc::Global;
use toml::Table;

/// The package and its targets.
#[derive(Drop)]
struct Targets {
    package: Option<Package>,
    library: Option<Library>,
    binaries: Items<Binary>,
}

/// The tables that come after the tables of the targets.
#[derive(Drop)]
struct Tables {
    dependencies: Items<Dependency>,
    build_dependencies: Items<Dependency>,
    dev_dependencies: Items<Text>,
    features: Items<Feature>,
    profiles: Items<Profile>,
    workspace: Option<WorkspaceTable>,
}

/// Refuses unsupported tables.
fn check_tables(table: &Table) -> Result<(), ManifestFault>
    ensures { result ≡ supported (table_view table.now) }
{
    if has(table, Key::Patch) || has(table, Key::Replace) || has(table, Key::Target) {
        Err(ManifestFault::UnsupportedTable)
    } else {
        Ok(())
    }
}

/// Returns whether a table requests resolver 1.
fn asks_old_resolver(table: &Table, key: Key) -> bool
    ensures { result ≡ asks_old_resolver key (table_view table.now) }
{
    let inner = match value_at(table, key) {
        None => return false,
        Some(value) => match value.as_table() {
            None => return false,
            Some(inner) => inner,
        },
    };
    match value_at(inner, Key::Resolver) {
        None => false,
        Some(value) => match value.as_str() {
            None => false,
            Some(text) => text == "1",
        },
    }
}

/// Refuses resolver 1.
fn not_old(table: &Table) -> Result<(), ManifestFault>
    ensures { result ≡ not_old (table_view table.now) }
{
    if asks_old_resolver(table, Key::Package) || asks_old_resolver(table, Key::Workspace) {
        Err(ManifestFault::OldResolver)
    } else {
        Ok(())
    }
}

/// Returns the table `[package]`, which is required if there is no `[workspace]`.
fn package_at(alloc: Global, table: &Table) -> Result<Option<Package>, ManifestFault>
    ensures { UnlessOom result (package_at (table_view table.now)) }
{
    match table_at(table, Key::Package)? {
        None => {
            if has(table, Key::Workspace) {
                Ok(None)
            } else {
                Err(ManifestFault::BadKind(Key::Package))
            }
        }
        Some(inner) => {
            let package = package_of(alloc, inner)?;
            Ok(Some(package))
        }
    }
}

/// Returns the table `[lib]`, if it is written.
fn library_at(alloc: Global, table: &Table) -> Result<Option<Library>, ManifestFault>
    ensures { UnlessOom result (library_at (table_view table.now)) }
{
    match table_at(table, Key::Lib)? {
        None => Ok(None),
        Some(inner) => {
            let library = library_of(alloc, inner)?;
            Ok(Some(library))
        }
    }
}

/// Returns the table `[workspace]`, if it is written.
fn workspace_at(alloc: Global, table: &Table) -> Result<Option<WorkspaceTable>, ManifestFault>
    ensures { UnlessOom result (workspace_at (table_view table.now)) }
{
    match table_at(table, Key::Workspace)? {
        None => Ok(None),
        Some(inner) => {
            let workspace = workspace_of(alloc, inner)?;
            Ok(Some(workspace))
        }
    }
}

/// Returns the package and its targets.
#[tactic(auto, unfolding(crate::specs::Document::targets_of))]
fn targets_of(alloc: Global, table: &Table) -> Result<Targets, ManifestFault>
    ensures { UnlessOom result (targets_of (table_view table.now)) }
{
    let package = package_at(alloc, table)?;
    let found = with_next(package, library_at(alloc, table))?;
    let ((package, library), binaries) = with_next(found, binaries_at(alloc, table))?;
    Ok(Targets {
        package,
        library,
        binaries,
    })
}

/// Returns the tables that come after the tables of the targets.
#[tactic(auto, unfolding(crate::specs::Document::tables_of))]
fn tables_of(alloc: Global, table: &Table) -> Result<Tables, ManifestFault>
    ensures { UnlessOom result (tables_of (table_view table.now)) }
{
    let dependencies = dependencies_at(alloc, Key::Dependencies, table)?;
    let build_dependencies = dependencies_at(alloc, Key::BuildDependencies, table)?;
    let dev_dependencies = keys_at(alloc, table, Key::DevDependencies)?;
    let features = features_at(alloc, table)?;
    let profiles = profiles_at(alloc, table)?;
    let workspace = workspace_at(alloc, table)?;
    Ok(Tables {
        dependencies,
        build_dependencies,
        dev_dependencies,
        features,
        profiles,
        workspace,
    })
}

/// Returns the manifest of a document.
#[tactic(auto, unfolding(crate::specs::Document::document_of))]
fn document_of(alloc: Global, table: &Table) -> Result<Manifest, ManifestFault>
    ensures { UnlessOom result (document_of (table_view table.now)) }
{
    check_tables(table)?;
    not_old(table)?;
    let targets = targets_of(alloc, table)?;
    let (targets, tables) = with_next(targets, tables_of(alloc, table))?;
    Ok(Manifest {
        package: targets.package,
        library: targets.library,
        binaries: targets.binaries,
        dependencies: tables.dependencies,
        build_dependencies: tables.build_dependencies,
        dev_dependencies: tables.dev_dependencies,
        features: tables.features,
        profiles: tables.profiles,
        workspace: tables.workspace,
    })
}

/// Returns the document in some bytes.
#[tactic(auto, using(crate::proofs::Tables::utf8_laws), unfolding(crate::specs::Document::document_in))]
fn document_in(alloc: Global, bytes: &[u8]) -> Result<Table, ManifestFault>
    ensures { GivesAs table_view result (document_in bytes.now) }
{
    let text = match str::from_utf8(bytes) {
        Ok(text) => text,
        Err(_) => return Err(ManifestFault::NotToml),
    };
    match toml::table_from_str(alloc, text) {
        Ok(table) => Ok(table),
        Err(fault) => {
            if fault.is_memory() {
                Err(ManifestFault::OutOfMemory)
            } else {
                Err(ManifestFault::NotToml)
            }
        }
    }
}

/// Returns the manifest in some bytes, as The Cargo Book defines it.
///
/// Errors: the errors of `ManifestFault`. `ManifestFault` describes when each error occurs, and
/// which of several errors is returned.
///
/// A key that no rule names is accepted and has no effect. Tables that a build does not use, such
/// as `[lints]` and `[package.metadata]`, have no effect either. Only the keys of
/// `[dev-dependencies]` are read.
pub fn read_manifest(alloc: Global, bytes: &[u8]) -> Result<Manifest, ManifestFault>
    ensures { UnlessOom result (manifest_of bytes.now) }
{
    if bytes.len() > MAX_MANIFEST_BYTES {
        return Err(ManifestFault::TooLarge);
    }
    let table = document_in(alloc, bytes)?;
    document_of(alloc, &table)
}

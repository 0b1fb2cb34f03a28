//! Reads `[dependencies]` and `[build-dependencies]` (The Cargo Book, Specifying Dependencies).

ghost use Rattle.std.specs.Prelude.{◌≡◌, false};
ghost use Rattle.toml.specs.View.{view, table_view};
ghost use Rattle.pb_manifest_types.specs.Values.{UnlessOom};
ghost use Rattle.pb_manifest.specs.Values.{each_entry};
ghost use Rattle.pb_manifest.specs.Dependencies.{own_path, last_keys, source_of, dependency_keys, dependency_of, dependencies_at};

use crate::entry::{
    FirstKeys, LastKeys, at_path, first_keys, refused_where, version_and_workspace,
};
use crate::values::{has, path_at, table_at, takes_workspace};
use pb_data::{Items, Text, with_next};
use pb_manifest_types::letters::is_name;
use pb_manifest_types::{Dependency, Key, ManifestFault, Requirement, Source, WrittenPath};
use std::alloc::Global;
use toml::{Table, Value};

/// Returns the path of an entry. If `workspace = true` is written, the path is `None`. Otherwise a
/// path is required.
fn own_path(taken: bool, path: Option<WrittenPath>) -> Result<Option<WrittenPath>, ManifestFault>
    ensures { result ≡ own_path taken path }
{
    if taken {
        return Ok(None);
    }
    match path {
        Some(path) => Ok(Some(path)),
        None => Err(ManifestFault::UnsupportedSource),
    }
}

/// Returns the keys of an entry, in byte order from `path` to `workspace`.
fn last_keys(alloc: Global, table: &Table) -> Result<LastKeys, ManifestFault>
    ensures { UnlessOom result (last_keys (table_view table.now)) }
{
    let path = own_path(takes_workspace(table), path_at(alloc, table, Key::Path)?)?;
    refused_where(has(table, Key::Registry))?;
    let version = version_and_workspace(alloc, table)?;
    Ok(LastKeys { path, version })
}

/// Returns the source of an entry.
fn source_of(
    default_features: Option<bool>,
    package: Option<Text>,
    version: Option<Requirement>,
    path: Option<WrittenPath>,
) -> Source
    ensures { result ≡ source_of default_features «package» version path }
{
    match path {
        Some(path) => Source::Path(at_path(default_features, package, version, path)),
        None => Source::Workspace {
            default_features: default_features.unwrap_or(false),
        },
    }
}

/// Returns the entry that a table describes.
fn dependency_keys(alloc: Global, name: &str, table: &Table) -> Result<Dependency, ManifestFault>
    ensures { UnlessOom result (dependency_keys name.now (table_view table.now)) }
{
    let first = first_keys(alloc, false, table)?;
    let (first, last) = with_next(first, last_keys(alloc, table))?;
    let ((first, last), key) = with_next((first, last), Text::from_str(alloc, name))?;
    let FirstKeys {
        default_features,
        features,
        optional,
        package,
    } = first;
    let LastKeys { path, version } = last;
    Ok(Dependency {
        key,
        source: source_of(default_features, package, version, path),
        optional,
        features,
    })
}

/// Returns the entry at a key of a table. An entry that is only a version is refused, since such an
/// entry has no path.
#[tactic(auto, unfolding(crate::specs::Dependencies::dependency_of))]
fn dependency_of(
    alloc: Global,
    key: Key,
    name: &str,
    value: &Value,
) -> Result<Dependency, ManifestFault>
    ensures { UnlessOom result (dependency_of key name.now (view value.now)) }
{
    if !is_name(name) {
        return Err(ManifestFault::BadName);
    }
    if value.as_str().is_some() {
        return Err(ManifestFault::UnsupportedSource);
    }
    match value.as_table() {
        Some(table) => dependency_keys(alloc, name, table),
        None => Err(ManifestFault::BadKind(key)),
    }
}

/// Returns the entries of a table, in byte order of their keys.
fn each_dependency(
    alloc: Global,
    key: Key,
    table: &Table,
) -> Result<Items<Dependency>, ManifestFault>
    ensures { UnlessOom result (each_entry (dependency_of key) (table_view table.now)) }
{
    let mut dependencies = Items::new(alloc);
    for (name, value) in table {
        dependencies.push(dependency_of(alloc, key, name.as_str(), value)?)?;
    }
    Ok(dependencies)
}

/// Returns the entries of `[dependencies]` or `[build-dependencies]`. There are no entries if there
/// is no such table.
pub(crate) fn dependencies_at(
    alloc: Global,
    key: Key,
    table: &Table,
) -> Result<Items<Dependency>, ManifestFault>
    ensures { UnlessOom result (dependencies_at key (table_view table.now)) }
{
    match table_at(table, key)? {
        None => Ok(Items::new(alloc)),
        Some(entries) => each_dependency(alloc, key, entries),
    }
}

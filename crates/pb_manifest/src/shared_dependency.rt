//! Reads `[workspace.dependencies]` (The Cargo Book, Workspaces).

ghost use Rattle.std.specs.Prelude.{◌≡◌, true};
ghost use Rattle.toml.specs.View.{view, table_view};
ghost use Rattle.pb_manifest_types.specs.Values.{UnlessOom};
ghost use Rattle.pb_manifest.specs.Values.{each_entry};
ghost use Rattle.pb_manifest.specs.Dependencies.{supported_path, shared_keys, shared_source_of, shared_dependency_keys, shared_version, shared_dependency_of, shared_dependencies_at};

use crate::entry::{FirstKeys, LastKeys, at_path, first_keys, version_and_workspace};
use crate::values::{has, path_at, table_at};
use pb_data::{Items, Text, with_next};
use pb_manifest_types::letters::is_name;
use pb_manifest_types::{
    Key, ManifestFault, Requirement, WorkspaceDependency, WorkspaceSource, WrittenPath,
};
use std::alloc::Global;
use toml::{Table, Value};

/// Returns the path of an entry. An entry with `git` or `registry` counts as an entry without a
/// path.
fn supported_path(table: &Table, path: Option<WrittenPath>) -> Option<WrittenPath>
    ensures { result ≡ supported_path (table_view table.now) path }
{
    if has(table, Key::Git) || has(table, Key::Registry) {
        None
    } else {
        path
    }
}

/// Returns the keys of an entry, in byte order from `path` to `workspace`.
fn shared_keys(alloc: Global, table: &Table) -> Result<LastKeys, ManifestFault>
    ensures { UnlessOom result (shared_keys (table_view table.now)) }
{
    let path = path_at(alloc, table, Key::Path)?;
    let version = version_and_workspace(alloc, table)?;
    Ok(LastKeys {
        path: supported_path(table, path),
        version,
    })
}

/// Returns the source of an entry.
fn shared_source_of(
    default_features: Option<bool>,
    package: Option<Text>,
    version: Option<Requirement>,
    path: Option<WrittenPath>,
) -> WorkspaceSource
    ensures { result ≡ shared_source_of default_features «package» version path }
{
    match path {
        Some(path) => WorkspaceSource::Path(at_path(default_features, package, version, path)),
        None => WorkspaceSource::Unsupported,
    }
}

/// Returns the entry that a table describes.
fn shared_dependency_keys(
    alloc: Global,
    name: &str,
    table: &Table,
) -> Result<WorkspaceDependency, ManifestFault>
    ensures { UnlessOom result (shared_dependency_keys name.now (table_view table.now)) }
{
    let first = first_keys(alloc, true, table)?;
    let (first, last) = with_next(first, shared_keys(alloc, table))?;
    let ((first, last), key) = with_next((first, last), Text::from_str(alloc, name))?;
    let FirstKeys {
        default_features,
        features,
        optional: _,
        package,
    } = first;
    let LastKeys { path, version } = last;
    Ok(WorkspaceDependency {
        key,
        source: shared_source_of(default_features, package, version, path),
        features,
    })
}

/// Returns the entry that is written as a version only. Such an entry has no path.
fn shared_version(
    alloc: Global,
    name: &str,
    version: &str,
) -> Result<WorkspaceDependency, ManifestFault>
    ensures { UnlessOom result (shared_version name.now version.now) }
{
    let _requirement = Requirement::read(alloc, Text::from_str(alloc, version)?)?;
    let key = Text::from_str(alloc, name)?;
    Ok(WorkspaceDependency {
        key,
        source: WorkspaceSource::Unsupported,
        features: Items::new(alloc),
    })
}

/// Returns an entry.
#[tactic(auto, unfolding(crate::specs::Dependencies::shared_dependency_of))]
fn shared_dependency_of(
    alloc: Global,
    name: &str,
    value: &Value,
) -> Result<WorkspaceDependency, ManifestFault>
    ensures { UnlessOom result (shared_dependency_of name.now (view value.now)) }
{
    if !is_name(name) {
        return Err(ManifestFault::BadName);
    }
    if let Some(version) = value.as_str() {
        return shared_version(alloc, name, version);
    }
    match value.as_table() {
        Some(table) => shared_dependency_keys(alloc, name, table),
        None => Err(ManifestFault::BadKind(Key::Dependencies)),
    }
}

/// Returns the entries of a table, in byte order of their keys.
fn each_shared_dependency(
    alloc: Global,
    table: &Table,
) -> Result<Items<WorkspaceDependency>, ManifestFault>
    ensures { UnlessOom result (each_entry shared_dependency_of (table_view table.now)) }
{
    let mut dependencies = Items::new(alloc);
    for (name, value) in table {
        dependencies.push(shared_dependency_of(alloc, name.as_str(), value)?)?;
    }
    Ok(dependencies)
}

/// Returns the entries of `[workspace.dependencies]`. There are no entries if there is no such
/// table.
pub(crate) fn shared_dependencies_at(
    alloc: Global,
    table: &Table,
) -> Result<Items<WorkspaceDependency>, ManifestFault>
    ensures { UnlessOom result (shared_dependencies_at (table_view table.now)) }
{
    match table_at(table, Key::Dependencies)? {
        None => Ok(Items::new(alloc)),
        Some(entries) => each_shared_dependency(alloc, entries),
    }
}

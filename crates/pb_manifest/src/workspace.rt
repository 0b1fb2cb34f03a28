//! Reads `[workspace]` (The Cargo Book, Workspaces).

ghost use Rattle.std.specs.Prelude.{◌≡◌};
ghost use Rattle.toml.specs.View.{table_view};
ghost use Rattle.pb_manifest_types.specs.Values.{UnlessOom};
ghost use Rattle.pb_manifest.specs.Workspace.{first_keys, last_keys, workspace_package_of, workspace_package_at, listed_paths_at, workspace_of};

use crate::package::{edition_at, readme_at, resolver_at};
use crate::shared_dependency::shared_dependencies_at;
use crate::values::{paths_at, table_at, text_at, texts_at};
use crate::version::version_at;
use pb_data::{Items, Text, with_next};
use pb_manifest_types::{
    Edition, Key, ManifestFault, Readme, Version, WorkspacePackage, WorkspaceTable, WrittenPath,
};
use std::alloc::Global;
use toml::Table;

/// The keys of `[workspace.package]`, in byte order from `authors` to `license`.
#[derive(Drop)]
struct FirstKeys {
    authors: Option<Items<Text>>,
    description: Option<Text>,
    edition: Option<Edition>,
    homepage: Option<Text>,
    license: Option<Text>,
}

/// The keys of `[workspace.package]`, in byte order from `license-file` to `version`.
#[derive(Drop)]
struct LastKeys {
    license_file: Option<Text>,
    readme: Option<Readme>,
    repository: Option<Text>,
    rust_version: Option<Text>,
    version: Option<Version>,
}

/// Returns the keys of `[workspace.package]`, in byte order from `authors` to `license`.
fn first_keys(alloc: Global, table: &Table) -> Result<FirstKeys, ManifestFault>
    ensures { UnlessOom result (first_keys (table_view table.now)) }
{
    let authors = texts_at(alloc, table, Key::Authors)?;
    let description = text_at(alloc, table, Key::Description)?;
    let edition = edition_at(alloc, table)?;
    let homepage = text_at(alloc, table, Key::Homepage)?;
    let license = text_at(alloc, table, Key::License)?;
    Ok(FirstKeys {
        authors,
        description,
        edition,
        homepage,
        license,
    })
}

/// Returns the keys of `[workspace.package]`, in byte order from `license-file` to `version`.
fn last_keys(alloc: Global, table: &Table) -> Result<LastKeys, ManifestFault>
    ensures { UnlessOom result (last_keys (table_view table.now)) }
{
    let license_file = text_at(alloc, table, Key::LicenseFile)?;
    let readme = readme_at(alloc, table)?;
    let repository = text_at(alloc, table, Key::Repository)?;
    let rust_version = text_at(alloc, table, Key::RustVersion)?;
    let version = version_at(alloc, table)?;
    Ok(LastKeys {
        license_file,
        readme,
        repository,
        rust_version,
        version,
    })
}

/// Returns the table `[workspace.package]`.
fn workspace_package_of(alloc: Global, table: &Table) -> Result<WorkspacePackage, ManifestFault>
    ensures { UnlessOom result (workspace_package_of (table_view table.now)) }
{
    let first = first_keys(alloc, table)?;
    let last = last_keys(alloc, table)?;
    Ok(WorkspacePackage {
        authors: first.authors,
        description: first.description,
        edition: first.edition,
        homepage: first.homepage,
        license: first.license,
        license_file: last.license_file,
        readme: last.readme,
        repository: last.repository,
        rust_version: last.rust_version,
        version: last.version,
    })
}

/// Returns the table `[workspace.package]`, if it is written.
fn workspace_package_at(
    alloc: Global,
    table: &Table,
) -> Result<Option<WorkspacePackage>, ManifestFault>
    ensures { UnlessOom result (workspace_package_at (table_view table.now)) }
{
    match table_at(table, Key::Package)? {
        None => Ok(None),
        Some(inner) => {
            let package = workspace_package_of(alloc, inner)?;
            Ok(Some(package))
        }
    }
}

/// Returns the list of paths at a key. The list is empty if the key is missing.
fn listed_paths_at(
    alloc: Global,
    table: &Table,
    key: Key,
) -> Result<Items<WrittenPath>, ManifestFault>
    ensures { UnlessOom result (listed_paths_at key (table_view table.now)) }
{
    match paths_at(alloc, table, key)? {
        Some(paths) => Ok(paths),
        None => Ok(Items::new(alloc)),
    }
}

/// Returns the table `[workspace]`.
pub(crate) fn workspace_of(alloc: Global, table: &Table) -> Result<WorkspaceTable, ManifestFault>
    ensures { UnlessOom result (workspace_of (table_view table.now)) }
{
    let default_members = paths_at(alloc, table, Key::DefaultMembers)?;
    let dependencies = shared_dependencies_at(alloc, table)?;
    let exclude = listed_paths_at(alloc, table, Key::Exclude)?;
    let members = listed_paths_at(alloc, table, Key::Members)?;
    let package = workspace_package_at(alloc, table)?;
    let (package, ()) = with_next(package, resolver_at(alloc, table))?;
    Ok(WorkspaceTable {
        members,
        default_members,
        exclude,
        package,
        dependencies,
    })
}

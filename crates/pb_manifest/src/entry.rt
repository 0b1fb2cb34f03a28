//! Reads the keys of a dependency's entry, in any of the tables of dependencies.

ghost use Rattle.std.specs.Prelude.{◌≡◌, true};
ghost use Rattle.toml.specs.View.{table_view};
ghost use Rattle.pb_manifest_types.specs.Values.{UnlessOom};
ghost use Rattle.pb_manifest.specs.Dependencies.{refused_where, workspace_at, first_keys, version_and_workspace, at_path};

use crate::values::{has, listed_texts_at, takes_workspace, text_at, truth_at, value_at};
use crate::version::requirement_at;
use pb_data::{Items, Text};
use pb_manifest_types::{Key, ManifestFault, PathSource, Requirement, WrittenPath};
use std::alloc::Global;
use toml::Table;

/// The keys of an entry, in byte order from `default-features` to `package`.
#[derive(Drop)]
pub(crate) struct FirstKeys {
    pub default_features: Option<bool>,
    pub features: Items<Text>,
    pub optional: bool,
    pub package: Option<Text>,
}

/// The keys of an entry, in byte order from `path` to `workspace`. The field `path` is `None` if no
/// path is written, or if the path has no effect.
#[derive(Drop)]
pub(crate) struct LastKeys {
    pub path: Option<WrittenPath>,
    pub version: Option<Requirement>,
}

/// Refuses an unsupported source if `refused` is true.
pub(crate) fn refused_where(refused: bool) -> Result<(), ManifestFault>
    ensures { result ≡ refused_where refused }
{
    if refused {
        Err(ManifestFault::UnsupportedSource)
    } else {
        Ok(())
    }
}

/// Refuses a `workspace` that is not `true`.
fn workspace_at(table: &Table) -> Result<(), ManifestFault>
    ensures { result ≡ workspace_at (table_view table.now) }
{
    match value_at(table, Key::Workspace) {
        None => Ok(()),
        Some(_) => {
            if takes_workspace(table) {
                Ok(())
            } else {
                Err(ManifestFault::BadKind(Key::Workspace))
            }
        }
    }
}

/// Returns the keys of an entry, in byte order from `default-features` to `package`. If `keeps` is
/// false, `git` is refused.
pub(crate) fn first_keys(
    alloc: Global,
    keeps: bool,
    table: &Table,
) -> Result<FirstKeys, ManifestFault>
    ensures { UnlessOom result (first_keys keeps (table_view table.now)) }
{
    let default_features = truth_at(table, Key::DefaultFeatures)?;
    let features = listed_texts_at(alloc, table, Key::Features)?;
    refused_where(has(table, Key::Git) && !keeps)?;
    let optional = truth_at(table, Key::Optional)?.unwrap_or(false);
    let package = text_at(alloc, table, Key::Package)?;
    Ok(FirstKeys {
        default_features,
        features,
        optional,
        package,
    })
}

/// Returns the requirement at `version`, and refuses a `workspace` that is not `true`.
pub(crate) fn version_and_workspace(
    alloc: Global,
    table: &Table,
) -> Result<Option<Requirement>, ManifestFault>
    ensures { UnlessOom result (version_and_workspace (table_view table.now)) }
{
    let version = requirement_at(alloc, table)?;
    workspace_at(table)?;
    Ok(version)
}

/// Returns the source of a package at a path.
pub(crate) fn at_path(
    default_features: Option<bool>,
    package: Option<Text>,
    version: Option<Requirement>,
    path: WrittenPath,
) -> PathSource
    ensures { result ≡ at_path default_features «package» version path }
{
    PathSource {
        path,
        package,
        version,
        default_features: default_features.unwrap_or(true),
    }
}

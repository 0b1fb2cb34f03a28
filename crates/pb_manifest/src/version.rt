//! Reads the key `version` of a package, of a workspace, and of a dependency.

ghost use Rattle.std.specs.Prelude.{◌≡◌, IfOk, Ok, map};
ghost use Rattle.toml.specs.View.{view, table_view};
ghost use Rattle.pb_manifest_types.specs.Values.{UnlessOom};
ghost use Rattle.pb_manifest.specs.Values.{written_or_taken, inheritable_at, or_default};
ghost use Rattle.pb_manifest.specs.Versions.{version_of, requirement_of, version_at, requirement_at, inherited_version_at, zero};
ghost use Rattle.pb_manifest_types.specs.declared.key.Key.TheVariants as key;

use crate::values::{is_taken, text_of, value_at};
use pb_data::Text;
use pb_manifest_types::{Inheritable, Inherited, Key, ManifestFault, Requirement, Version};
use std::alloc::Global;
use toml::{Table, Value};

/// Returns a version.
fn version_of(alloc: Global, value: &Value) -> Result<Version, ManifestFault>
    ensures { UnlessOom result (version_of (view value.now)) }
{
    let text = text_of(alloc, value, Key::Version)?;
    let version = Version::read(alloc, text)?;
    Ok(version)
}

/// Returns the version at `version`, if the key is present.
pub(crate) fn version_at(alloc: Global, table: &Table) -> Result<Option<Version>, ManifestFault>
    ensures { UnlessOom result (version_at (table_view table.now)) }
{
    match value_at(table, Key::Version) {
        None => Ok(None),
        Some(value) => {
            let version = version_of(alloc, value)?;
            Ok(Some(version))
        }
    }
}

/// Returns a requirement.
pub(crate) fn requirement_of(alloc: Global, value: &Value) -> Result<Requirement, ManifestFault>
    ensures { UnlessOom result (requirement_of (view value.now)) }
{
    let text = text_of(alloc, value, Key::Version)?;
    let requirement = Requirement::read(alloc, text)?;
    Ok(requirement)
}

/// Returns the requirement at `version`, if the key is present.
pub(crate) fn requirement_at(
    alloc: Global,
    table: &Table,
) -> Result<Option<Requirement>, ManifestFault>
    ensures { UnlessOom result (requirement_at (table_view table.now)) }
{
    match value_at(table, Key::Version) {
        None => Ok(None),
        Some(value) => {
            let requirement = requirement_of(alloc, value)?;
            Ok(Some(requirement))
        }
    }
}

/// Returns a version, or `{ workspace = true }`.
fn version_or_taken(alloc: Global, value: &Value) -> Result<Inheritable<Version>, ManifestFault>
    ensures { UnlessOom result (written_or_taken key.Version version_of (view value.now)) }
{
    if is_taken(value, Key::Version)? {
        return Ok(Inheritable::Workspace);
    }
    let version = version_of(alloc, value)?;
    Ok(Inheritable::Written(version))
}

/// Returns the version at `version`. The version may be inherited from the workspace.
fn inheritable_version_at(
    alloc: Global,
    table: &Table,
) -> Result<Inheritable<Version>, ManifestFault>
    ensures { UnlessOom result (inheritable_at key.Version version_of (table_view table.now)) }
{
    match value_at(table, Key::Version) {
        None => Ok(Inheritable::Absent),
        Some(value) => version_or_taken(alloc, value),
    }
}

/// Returns the version of a package for which no version is written: 0.0.0.
#[tactic(auto, using(crate::proofs::Zero::zero_is_version))]
fn zero(alloc: Global) -> Result<Version, ManifestFault>
    ensures { UnlessOom result (Ok zero) }
{
    let text = Text::from_str(alloc, "0.0.0")?;
    let version = Version::read(alloc, text)?;
    Ok(version)
}

/// Returns the version of a package. If no version is written, the version is 0.0.0.
pub(crate) fn inherited_version_at(
    alloc: Global,
    table: &Table,
) -> Result<Inherited<Version>, ManifestFault>
    ensures { UnlessOom result (inherited_version_at (table_view table.now)) }
{
    match inheritable_version_at(alloc, table)? {
        Inheritable::Written(version) => Ok(Inherited::Written(version)),
        Inheritable::Workspace => Ok(Inherited::Workspace),
        Inheritable::Absent => {
            let version = zero(alloc)?;
            Ok(Inherited::Written(version))
        }
    }
}

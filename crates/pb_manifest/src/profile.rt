//! Reads `[profile]` (The Cargo Book, Profiles).

ghost use Rattle.std.specs.Prelude.{◌≡◌, Ok, Err, IfOk, IfErr};
ghost use Rattle.toml.specs.Data.{as_str};
ghost use Rattle.toml.specs.View.{view, table_view};
ghost use Rattle.pb_manifest_types.specs.Values.{UnlessOom};
ghost use Rattle.pb_manifest.specs.Values.{each_entry};
ghost use Rattle.pb_manifest.specs.Profiles.{profile_value, profile_keys, profile_table, override_of, overrides_at, build_override_at, is_built_in, may_be_profile, profile_of_table, profile_of, profiles_at};
ghost use Rattle.pb_manifest_types.specs.declared.key.Key.TheVariants as key;

use crate::profile_values::profile_keys;
use crate::values::value_at;
use pb_data::{Items, Text};
use pb_manifest_types::letters::is_name;
use pb_manifest_types::{Key, ManifestFault, Profile, ProfileKeys, ProfileOverride};
use std::alloc::Global;
use toml::{Table, Value};

/// Returns the value at `inherits`, if the key is present.
fn inherits_at(alloc: Global, table: &Table) -> Result<Option<Text>, ManifestFault>
    ensures { UnlessOom result (profile_value as_str key.Inherits (table_view table.now)) }
{
    match value_at(table, Key::Inherits) {
        None => Ok(None),
        Some(value) => match value.as_str() {
            Some(text) => {
                let name = Text::from_str(alloc, text)?;
                Ok(Some(name))
            }
            None => Err(ManifestFault::BadProfile),
        },
    }
}

/// Returns the table of a profile or an override.
fn profile_table<'a>(value: &'a Value) -> Result<&'a Table, ManifestFault>
    ensures ok { IfOk result (λ t. profile_table (view value.now) ≡ Ok (table_view t.now)) }
    ensures err { IfErr result (λ e. profile_table (view value.now) ≡ Err e) }
{
    match value.as_table() {
        Some(table) => Ok(table),
        None => Err(ManifestFault::BadProfile),
    }
}

/// Returns the override for a package's name.
#[tactic(auto, unfolding(crate::specs::Profiles::override_of))]
fn override_of(alloc: Global, name: &str, value: &Value) -> Result<ProfileOverride, ManifestFault>
    ensures { UnlessOom result (override_of name.now (view value.now)) }
{
    let keys = profile_keys(profile_table(value)?)?;
    let name = Text::from_str(alloc, name)?;
    Ok(ProfileOverride { name, keys })
}

/// Returns the overrides of a table, in byte order of their names.
fn each_override(alloc: Global, table: &Table) -> Result<Items<ProfileOverride>, ManifestFault>
    ensures { UnlessOom result (each_entry override_of (table_view table.now)) }
{
    let mut overrides = Items::new(alloc);
    for (name, value) in table {
        overrides.push(override_of(alloc, name.as_str(), value)?)?;
    }
    Ok(overrides)
}

/// Returns the overrides of a profile, by packages' names. There are no overrides if the profile
/// has no table `package`.
fn overrides_at(alloc: Global, table: &Table) -> Result<Items<ProfileOverride>, ManifestFault>
    ensures { UnlessOom result (overrides_at (table_view table.now)) }
{
    match value_at(table, Key::Package) {
        None => Ok(Items::new(alloc)),
        Some(value) => each_override(alloc, profile_table(value)?),
    }
}

/// Returns the override for build scripts and what they depend on, if the override is written.
fn build_override_at(table: &Table) -> Result<Option<ProfileKeys>, ManifestFault>
    ensures { result ≡ build_override_at (table_view table.now) }
{
    match value_at(table, Key::BuildOverride) {
        None => Ok(None),
        Some(value) => {
            let keys = profile_keys(profile_table(value)?)?;
            Ok(Some(keys))
        }
    }
}

/// Returns whether a profile is built in: it exists even if no manifest contains it.
#[tactic(auto, unfolding(crate::specs::Profiles::is_built_in))]
fn is_built_in(name: &str) -> bool
    ensures { result ≡ is_built_in name.now }
{
    name == "dev" || name == "release" || name == "test" || name == "bench"
}

/// Returns whether a manifest may contain a profile with this name and this `inherits`.
#[tactic(auto, unfolding(crate::specs::Profiles::may_be_profile))]
fn may_be_profile(name: &str, inherits: &Option<Text>) -> bool
    ensures { result ≡ may_be_profile name.now inherits.now }
{
    is_built_in(name) || (is_name(name) && name != "debug" && inherits.is_some())
}

/// Returns the profile that a table describes.
fn profile_of_table(alloc: Global, name: &str, table: &Table) -> Result<Profile, ManifestFault>
    ensures { UnlessOom result (profile_of_table name.now (table_view table.now)) }
{
    let build_override = build_override_at(table)?;
    let keys = profile_keys(table)?;
    let inherits = inherits_at(alloc, table)?;
    let packages = overrides_at(alloc, table)?;
    if !may_be_profile(name, &inherits) {
        return Err(ManifestFault::BadProfile);
    }
    let name = Text::from_str(alloc, name)?;
    Ok(Profile {
        name,
        keys,
        inherits,
        packages,
        build_override,
    })
}

/// Returns a profile.
#[tactic(auto, unfolding(crate::specs::Profiles::profile_of))]
fn profile_of(alloc: Global, name: &str, value: &Value) -> Result<Profile, ManifestFault>
    ensures { UnlessOom result (profile_of name.now (view value.now)) }
{
    profile_of_table(alloc, name, profile_table(value)?)
}

/// Returns the profiles of a table, in byte order of their names.
fn each_profile(alloc: Global, table: &Table) -> Result<Items<Profile>, ManifestFault>
    ensures { UnlessOom result (each_entry profile_of (table_view table.now)) }
{
    let mut profiles = Items::new(alloc);
    for (name, value) in table {
        profiles.push(profile_of(alloc, name.as_str(), value)?)?;
    }
    Ok(profiles)
}

/// Returns the profiles of the table `[profile]`. There are no profiles if there is no such table.
pub(crate) fn profiles_at(alloc: Global, table: &Table) -> Result<Items<Profile>, ManifestFault>
    ensures { UnlessOom result (profiles_at (table_view table.now)) }
{
    match value_at(table, Key::Profile) {
        None => Ok(Items::new(alloc)),
        Some(value) => each_profile(alloc, profile_table(value)?),
    }
}

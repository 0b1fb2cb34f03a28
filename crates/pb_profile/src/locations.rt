//! The value of a key at several locations in order. The first location that has a value determines
//! the value of the key.

ghost use Rattle.std.specs.Prelude.{◌≡◌, map, option_map};
ghost use Rattle.pb_profile.specs.Line.{seen};
ghost use Rattle.pb_profile.specs.Settings.{said_by, override_named, built_in, along, looked_up, lookups_of};
ghost use Rattle.pb_profile.specs.Locations.{sought, written_in};

use crate::line::Ancestor;
use pb_manifest_types::{Profile, ProfileKey, ProfileKeys, Setting};
use pb_workspace_types::{Package, Side};

/// A location of values.
#[derive(Clone, Copy)]
pub(crate) enum Location<'a> {
    /// The override of a package with this name.
    Package(&'a str),
    /// `build-override`.
    BuildOverride,
    /// The built-in values for `build-override`.
    OfHosts,
    /// The profile itself.
    Own,
    /// The built-in values of `dev` and `release`.
    BuiltIn,
}

/// Returns the value of a key among these keys, if there are keys and the key has a value.
fn said_by(keys: Option<ProfileKeys>, key: ProfileKey) -> Option<Setting>
    ensures { result ≡ said_by keys key }
{
    match keys {
        Some(keys) => keys.get(key),
        None => None,
    }
}

/// Returns the keys that the override with this name sets.
fn override_named(name: &str, profile: &Profile) -> Option<ProfileKeys>
    ensures { result ≡ override_named name.now profile.now }
{
    let found = profile
        .packages
        .as_slice()
        .iter()
        .find(|package| package.name.as_str() == name);
    match found {
        Some(package) => Some(package.keys),
        None => None,
    }
}

/// Returns the built-in value of a key of a profile.
fn built_in(ancestor: &Ancestor, key: ProfileKey) -> Option<Setting>
    ensures { result ≡ built_in (seen ancestor.now) key }
{
    match ancestor.name {
        "dev" => Some(key.row().dev),
        "release" => Some(key.row().release),
        _ => None,
    }
}

/// Returns the value of a key in a profile's table at a location, or `None` at a location of
/// built-in values.
fn written_in(location: Location, table: &Profile, key: ProfileKey) -> Option<Setting>
    ensures { result ≡ written_in location.entry table.now key }
{
    match location {
        Location::Package(name) => said_by(override_named(name, table), key),
        Location::BuildOverride => said_by(table.build_override, key),
        Location::Own => table.keys.get(key),
        Location::OfHosts | Location::BuiltIn => None,
    }
}

/// Returns the value that a key has at a location in a profile of a line of inheritance.
fn value_in(location: Location, ancestor: &Ancestor, key: ProfileKey) -> Option<Setting>
    ensures { result ≡ sought location.entry (seen ancestor.now) key }
{
    match location {
        Location::OfHosts => key.row().beside_override,
        Location::BuiltIn => built_in(ancestor, key),
        _ => match ancestor.table {
            None => None,
            Some(table) => written_in(location, table, key),
        },
    }
}

/// Returns the first value that a key has at a location, in the profiles of a line of inheritance.
fn along(location: Location, line: &[Ancestor], key: ProfileKey) -> Option<Setting>
    ensures { result ≡ along key (sought location.entry) (map seen line.now) }
{
    let mut left = line;
    while let [ancestor, after @ ..] = left {
        match value_in(location, ancestor, key) {
            Some(value) => return Some(value),
            None => left = after,
        }
    }
    None
}

/// Returns the value of a key for a package in a role. The locations are looked at in order.
#[tactic(auto, using(crate::proofs::Located::or_none))]
pub(crate) fn looked_up(
    owner: &Package,
    role: Side,
    line: &[Ancestor],
    key: ProfileKey,
) -> Option<Setting>
    ensures { result ≡ looked_up key (lookups_of owner.now role) (map seen line.now) }
{
    let mut found = along(Location::BuiltIn, line, key);
    found = along(Location::Own, line, key).or(found);
    if role == Side::Host {
        found = along(Location::OfHosts, line, key).or(found);
        found = along(Location::BuildOverride, line, key).or(found);
    }
    if !owner.is_member {
        found = along(Location::Package("*"), line, key).or(found);
    }
    along(Location::Package(owner.name.as_str()), line, key).or(found)
}

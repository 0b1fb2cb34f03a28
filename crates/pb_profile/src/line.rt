//! The line of inheritance of a profile: the profile, the profile from which it inherits, and so
//! on.

ghost use Rattle.std.specs.Prelude.{◌≡◌, map, option_map};
ghost use Rattle.std.specs.List.{list_all};
ghost use Rattle.pb_data.specs.UnlessOom.{UnlessOom};
ghost use Rattle.pb_profile.specs.Line.{folder_of, named, seen_at, parent_of, above, shown_parent, option_all, seen, line_of, allows, table_allows, may_override, checked_line};
ghost use Rattle.pb_profile.specs.declared.fault.ProfileFault.TheVariants as profile_fault;

use crate::fault::ProfileFault;
use pb_manifest_types::{Profile, ProfileKey, ProfileKeys, ProfileOverride};
use std::alloc::Global;

/// A profile in a line of inheritance.
#[derive(Drop)]
pub struct Ancestor<'a> {
    /// The profile's name.
    pub name: &'a str,
    /// The profile's table in the root manifest. `None` for a built-in profile that is not written.
    pub table: Option<&'a Profile>,
}

/// Returns the folder of a profile's output inside the target folder (The Cargo Book, Profiles).
/// The folder is `debug` for `dev` and `test`, and `release` for `release` and `bench`. For any
/// other profile the folder has the profile's name. No memory is used.
pub fn folder_of(profile: &str) -> &str
    ensures { result.now ≡ folder_of profile.now }
{
    match profile {
        "dev" | "test" => "debug",
        "release" | "bench" => "release",
        name => name,
    }
}

/// Returns the table with this name, if there is such a table.
fn find_profile<'a>(profiles: &'a [Profile], name: &str) -> Option<&'a Profile>
    ensures { option_map (λ p. p.now) result ≡ named profiles.now name.now }
{
    profiles
        .iter()
        .find(|profile| profile.name.as_str() == name)
}

/// Returns the profile with this name.
fn ancestor_at<'a>(profiles: &'a [Profile], name: &'a str) -> Ancestor<'a>
    ensures { seen result ≡ seen_at profiles.now name.now }
{
    Ancestor {
        name,
        table: find_profile(profiles, name),
    }
}

/// Returns the name of the profile from which a profile inherits, or `None` for `dev` and
/// `release`.
///
/// Errors: `NoSuchProfile`, if the profile is neither built in nor written.
fn parent_of<'a>(ancestor: &Ancestor<'a>) -> Result<Option<&'a str>, ProfileFault>
    ensures { shown_parent (λ text. text.now) result ≡ parent_of (seen ancestor.now) }
{
    match ancestor.name {
        "dev" | "release" => Ok(None),
        "test" => Ok(Some("dev")),
        "bench" => Ok(Some("release")),
        _ => match ancestor.table {
            None => Err(ProfileFault::NoSuchProfile),
            Some(profile) => match &profile.inherits {
                None => Err(ProfileFault::NoSuchProfile),
                Some(parent) => Ok(Some(parent.as_str())),
            },
        },
    }
}

/// Returns the profile from which a profile inherits, if the profile inherits.
fn above<'a>(
    profiles: &'a [Profile],
    ancestor: &Ancestor<'a>,
) -> Result<Option<Ancestor<'a>>, ProfileFault>
    ensures { shown_parent seen result ≡ above profiles.now (seen ancestor.now) }
{
    match parent_of(ancestor)? {
        None => Ok(None),
        Some(parent) => Ok(Some(ancestor_at(profiles, parent))),
    }
}

/// Returns the line of inheritance of a profile: the profile itself, the profile from which it
/// inherits, and so on to `dev` or `release`.
///
/// Errors:
///
/// - `NoSuchProfile`, if a profile of the line is neither built in nor written.
/// - `InheritsCycle`, if the line has no end.
/// - `NotInOverride`, if an override of a profile of the line sets `panic`, `lto` or `rpath`.
/// - `OutOfMemory`.
#[tactic(auto, using(crate::proofs::Located::each_seen))]
pub fn line_of<'a>(
    alloc: Global,
    profiles: &'a [Profile],
    profile: &'a str,
) -> Result<Vec<Ancestor<'a>>, ProfileFault>
    ensures { UnlessOom profile_fault.OutOfMemory (λ line.
        map seen line.items) result (checked_line profiles.now profile.now) }
{
    let line = ancestors_of(alloc, profiles, profile)?;
    if all_allow(line.as_slice()) {
        Ok(line)
    } else {
        Err(ProfileFault::NotInOverride)
    }
}

/// Returns whether the overrides of these profiles set only keys that an override may set.
fn all_allow(line: &[Ancestor]) -> bool
    ensures { result ≡ list_all (λ ancestor. allows (seen ancestor)) line.now }
{
    line.iter().all(|ancestor| allows(ancestor))
}

/// Returns the line of inheritance of a profile, whatever its overrides set.
fn ancestors_of<'a>(
    alloc: Global,
    profiles: &'a [Profile],
    profile: &'a str,
) -> Result<Vec<Ancestor<'a>>, ProfileFault>
    ensures { UnlessOom profile_fault.OutOfMemory (λ line.
        map seen line.items) result (line_of profiles.now profile.now) }
{
    let mut line = Vec::new(alloc);
    let mut ancestor = ancestor_at(profiles, profile);
    'upward: for _ in 0..profiles.len() + 2 {
        match above(profiles, &ancestor) {
            Err(fault) => return Err(fault),
            Ok(None) => {
                line.push(ancestor)?;
                return Ok(line);
            }
            Ok(Some(next)) => {
                line.push(ancestor)?;
                ancestor = next;
            }
        }
    }
    Err(ProfileFault::InheritsCycle)
}

/// Returns whether an override may set all of these keys.
fn may_override(keys: &ProfileKeys) -> bool
    ensures { result ≡ may_override keys.now }
{
    ProfileKey::ALL
        .iter()
        .all(|key| key.row().in_override || keys.get(*key).is_none())
}

/// Returns whether the overrides of a profile set only keys that an override may set.
fn allows(ancestor: &Ancestor) -> bool
    ensures { result ≡ allows (seen ancestor.now) }
{
    match ancestor.table {
        None => true,
        Some(table) => table_allows(table),
    }
}

/// Returns whether an override may set all of these keys. Returns true if there are no keys.
fn some_may_override(keys: Option<ProfileKeys>) -> bool
    ensures { result ≡ option_all may_override keys }
{
    match keys {
        None => true,
        Some(keys) => may_override(&keys),
    }
}

/// Returns whether these overrides set only keys that an override may set.
fn all_may_override(overrides: &[ProfileOverride]) -> bool
    ensures { result ≡ list_all (λ (o : ProfileOverride). may_override o.keys) overrides.now }
{
    overrides.iter().all(|one| may_override(&one.keys))
}

/// Returns whether the overrides of a table set only keys that an override may set.
fn table_allows(table: &Profile) -> bool
    ensures { result ≡ table_allows table.now }
{
    some_may_override(table.build_override) && all_may_override(table.packages.as_slice())
}

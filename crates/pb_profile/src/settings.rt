//! The settings of a package in a role under a profile.

ghost use Rattle.std.specs.Prelude.{◌≡◌, List, map};
ghost use Rattle.pb_data.specs.UnlessOom.{UnlessOom};
ghost use Rattle.pb_profile.specs.Line.{seen};
ghost use Rattle.pb_profile_keys.specs.Keys.{setting_at, opt_level, debug, debug_assertions, overflow_checks};
ghost use Rattle.pb_profile_keys.specs.declared.setting.Setting.{Setting};
ghost use Rattle.pb_profile.specs.Settings.{fixed, setting_of, settings_along, settings_of};
ghost use Rattle.pb_profile.specs.declared.fault.ProfileFault.TheVariants as profile_fault;

use crate::fault::ProfileFault;
use crate::line::{Ancestor, line_of};
use crate::locations::looked_up;
use pb_manifest_types::{ProfileKey, Setting, Word};
use pb_profile_keys::COUNT;
use pb_workspace_types::{Package, Side, Workspace};
use std::alloc::Global;
use std::marker::Model;

/// The settings of a package in a role: one value for each key of a profile (The Cargo Book,
/// Profiles). Contracts see the list of the values, in the order of the keys.
#[derive(Clone, Copy)]
pub struct Settings {
    values: [Setting; COUNT],
}

impl Model for Settings {
    ghost Value = { List Setting };

    ghost view = { λ s. s.values };

    ghost inverse = { λ values. record { values = values } };
}

impl Settings {
    /// Returns the settings of a package in a role under a profile. A build script, and everything
    /// that is made for the host, has the role of the host; everything else has the role of the
    /// target.
    ///
    /// The first location that has a value for a key determines this value. Each location is looked
    /// up in the profile, then in the profile from which it inherits, and so on. The locations are,
    /// in order:
    ///
    /// - the override with the package's name;
    /// - the override `*`, if the package is not a member;
    /// - in the host's role, `build-override`, and then the built-in values for `build-override`;
    /// - the profile itself;
    /// - the built-in values.
    ///
    /// The order of the locations in the host's role is our own choice. `panic` in the host's role
    /// is `unwind`.
    ///
    /// Errors:
    ///
    /// - `NoSuchProfile`, if the profile, or a profile from which it inherits, does not exist.
    /// - `InheritsCycle`, if the profile's line of inheritance comes back to itself.
    /// - `NotInOverride`, if an override sets `panic`, `lto` or `rpath`. The override may be for
    ///   any package, in the profile or in a profile from which it inherits.
    /// - `OutOfMemory`.
    pub fn settings(
        alloc: Global,
        workspace: &Workspace,
        profile: &str,
        owner: &Package,
        role: Side,
    ) -> Result<Settings, ProfileFault>
        ensures { UnlessOom profile_fault.OutOfMemory (λ s.
            s) result (settings_of workspace.now profile.now owner.now role) }
    {
        let line = line_of(alloc, workspace.profiles.as_slice(), profile)?;
        Ok(settings_along(owner, role, line.as_slice()))
    }

    /// Returns settings from their values, in the order of the keys.
    pub fn along_keys(values: [Setting; COUNT]) -> Settings
        ensures { result ≡ values }
    {
        Settings { values }
    }

    /// Returns the setting of a key.
    pub fn get(&self, key: ProfileKey) -> Setting
        ensures { result ≡ setting_at self.now key }
    {
        self.values[key.index()]
    }

    /// Returns `opt-level`.
    pub fn opt_level(&self) -> Word
        ensures { result ≡ opt_level self.now }
    {
        self.get(ProfileKey::OptLevel).word()
    }

    /// Returns `debug`.
    pub fn debug(&self) -> Word
        ensures { result ≡ debug self.now }
    {
        self.get(ProfileKey::Debug).word()
    }

    /// Returns `debug-assertions`.
    pub fn debug_assertions(&self) -> bool
        ensures { result ≡ debug_assertions self.now }
    {
        self.get(ProfileKey::DebugAssertions)
            .is_same(Setting::Truth(true))
    }

    /// Returns `overflow-checks`.
    pub fn overflow_checks(&self) -> bool
        ensures { result ≡ overflow_checks self.now }
    {
        self.get(ProfileKey::OverflowChecks)
            .is_same(Setting::Truth(true))
    }
}

/// Returns the value of a key in a role: the value that the role fixes for the key, or else the
/// given value.
fn fix_by_role(role: Side, key: ProfileKey, value: Setting) -> Setting
    ensures { result ≡ fixed role key value }
{
    match role {
        Side::Target => value,
        Side::Host => key.row().in_hosts.unwrap_or(value),
    }
}

/// Returns the setting of a key of a package in a role along a line of inheritance.
fn setting_of(owner: &Package, role: Side, line: &[Ancestor], key: ProfileKey) -> Setting
    ensures { result ≡ setting_of owner.now role (map seen line.now) key }
{
    let found = looked_up(owner, role, line, key);
    fix_by_role(role, key, found.unwrap_or(key.row().dev))
}

/// Returns the settings of a package in a role along a line of inheritance. No memory is used, so a
/// caller that needs many packages under one profile can make the line once.
pub fn settings_along(owner: &Package, role: Side, line: &[Ancestor]) -> Settings
    ensures { result ≡ settings_along owner.now role (map seen line.now) }
{
    let mut values = [Setting::Truth(false); COUNT];
    for i in 0..COUNT {
        values[i] = setting_of(owner, role, line, ProfileKey::at(i));
    }
    Settings { values }
}

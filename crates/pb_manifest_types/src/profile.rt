//! The table `[profile]` (The Cargo Book, Profiles).

use pb_data::{Items, Text};
use pb_profile_keys::ProfileKeys;

/// A table of `[profile.NAME.package]`.
#[derive(Drop)]
pub struct ProfileOverride {
    /// A package's name, or `*` for every package that is not a member.
    pub name: Text,
    /// The keys that it sets.
    pub keys: ProfileKeys,
}

/// A table of `[profile]`.
#[derive(Drop)]
pub struct Profile {
    /// `dev`, `release`, `test`, `bench`, or a custom profile's name, which has the letters of
    /// package names and is not `debug`.
    pub name: Text,
    /// The keys that it sets.
    pub keys: ProfileKeys,
    /// Each custom profile has this key. In a built-in profile the key has no effect: our own
    /// choice.
    pub inherits: Option<Text>,
    /// The overrides for packages, in byte order of their names.
    pub packages: Items<ProfileOverride>,
    /// The keys that `build-override` sets, for build scripts and what they depend on. `None` if
    /// `build-override` is not written.
    pub build_override: Option<ProfileKeys>,
}

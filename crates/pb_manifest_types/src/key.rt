//! The keys that the rules name.

ghost use Rattle.std.specs.Prelude.{◌≡◌};
ghost use Rattle.pb_manifest_types.specs.Keys.{spelled};

use pb_profile_keys::ProfileKey;

/// A key that a rule of the reader names. No rule reads any other key.
#[derive(Clone, Copy, Debug, PartialEq, Eq)]
pub enum Key {
    /// `authors`.
    Authors,
    /// `autobins`.
    Autobins,
    /// `bin`.
    Bin,
    /// `build`.
    Build,
    /// `build-dependencies`.
    BuildDependencies,
    /// `build-override`.
    BuildOverride,
    /// `crate-type`.
    CrateType,
    /// `default-features`.
    DefaultFeatures,
    /// `default-members`.
    DefaultMembers,
    /// `dependencies`.
    Dependencies,
    /// `description`.
    Description,
    /// `dev-dependencies`.
    DevDependencies,
    /// `edition`.
    Edition,
    /// `exclude`.
    Exclude,
    /// `features`.
    Features,
    /// `git`.
    Git,
    /// `homepage`.
    Homepage,
    /// `inherits`.
    Inherits,
    /// `lib`.
    Lib,
    /// `license`.
    License,
    /// `license-file`.
    LicenseFile,
    /// `links`.
    Links,
    /// `members`.
    Members,
    /// `name`.
    Name,
    /// A key that a profile or an override sets.
    OfProfile(ProfileKey),
    /// `optional`.
    Optional,
    /// `package`.
    Package,
    /// `patch`.
    Patch,
    /// `path`.
    Path,
    /// `proc-macro`.
    ProcMacro,
    /// `profile`.
    Profile,
    /// `readme`.
    Readme,
    /// `registry`.
    Registry,
    /// `replace`.
    Replace,
    /// `repository`.
    Repository,
    /// `required-features`.
    RequiredFeatures,
    /// `resolver`.
    Resolver,
    /// `rust-version`.
    RustVersion,
    /// `target`.
    Target,
    /// `version`.
    Version,
    /// `workspace`.
    Workspace,
}

impl Key {
    /// Returns the key as a manifest spells it, such as `default-features`.
    #[tactic(auto, unfolding(crate::specs::Keys::spelled))]
    pub fn name(self) -> &'static str
        ensures { result.now ≡ spelled self }
    {
        match self {
            Key::Authors => "authors",
            Key::Autobins => "autobins",
            Key::Bin => "bin",
            Key::Build => "build",
            Key::BuildDependencies => "build-dependencies",
            Key::BuildOverride => "build-override",
            Key::CrateType => "crate-type",
            Key::DefaultFeatures => "default-features",
            Key::DefaultMembers => "default-members",
            Key::Dependencies => "dependencies",
            Key::Description => "description",
            Key::DevDependencies => "dev-dependencies",
            Key::Edition => "edition",
            Key::Exclude => "exclude",
            Key::Features => "features",
            Key::Git => "git",
            Key::Homepage => "homepage",
            Key::Inherits => "inherits",
            Key::Lib => "lib",
            Key::License => "license",
            Key::LicenseFile => "license-file",
            Key::Links => "links",
            Key::Members => "members",
            Key::Name => "name",
            Key::OfProfile(key) => key.row().name,
            Key::Optional => "optional",
            Key::Package => "package",
            Key::Patch => "patch",
            Key::Path => "path",
            Key::ProcMacro => "proc-macro",
            Key::Profile => "profile",
            Key::Readme => "readme",
            Key::Registry => "registry",
            Key::Replace => "replace",
            Key::Repository => "repository",
            Key::RequiredFeatures => "required-features",
            Key::Resolver => "resolver",
            Key::RustVersion => "rust-version",
            Key::Target => "target",
            Key::Version => "version",
            Key::Workspace => "workspace",
        }
    }
}

//! Versions and requirements, as `semver` reads them.

ghost use Rattle.std.specs.Prelude.{◌≡◌, IfOk, Ok, map};
ghost use Rattle.semver.specs.Parse.{version_parts, req_of};
ghost use Rattle.semver.specs.Identifiers.{parts_of, comparator_view};
ghost use Rattle.pb_manifest_types.specs.Values.{UnlessOom};
ghost use Rattle.pb_manifest_types.specs.Versions.{version_in, requirement_in, matches};

use crate::fault::ManifestFault;
use pb_data::{Text, TryCopy};
use std::alloc::{AllocError, Global};
use std::marker::Model;

/// A version of Semantic Versioning 2.0.0. Contracts see its text, which `semver` accepts.
#[derive(Drop)]
pub struct Version {
    text: Text,
    number: semver::Version,
}

impl Model for Version {
    ghost use Rattle.std.specs.Prelude.{ℕ, List, ◌≡◌, Ok};
    ghost use Rattle.semver.specs.Parse.{version_parts};
    ghost use Rattle.semver.specs.Identifiers.{parts_of};

    ghost Value = { List ℕ };

    ghost view = { λ v. v.text };

    ghost invariant = { λ v. ∥ version_parts v.text ≡ Ok (parts_of v.number) ∥₁ };
}

impl Version {
    /// Returns the version of a text.
    ///
    /// Errors: `BadVersion`, if and only if `semver` refuses the text; `OutOfMemory`.
    #[tactic(auto, unfolding(crate::specs::Versions::is_version))]
    pub fn read(alloc: Global, text: Text) -> Result<Version, ManifestFault>
        ensures { UnlessOom result (version_in text) }
    {
        match semver::Version::parse(alloc, text.as_str()) {
            Ok(number) => Ok(Version { text, number }),
            Err(fault) => {
                if fault == semver::Error::from(AllocError) {
                    Err(ManifestFault::OutOfMemory)
                } else {
                    Err(ManifestFault::BadVersion)
                }
            }
        }
    }

    /// Returns the version as the manifest spells it.
    pub fn text(&self) -> &Text
        ensures { result.now ≡ self.now }
    {
        &self.text
    }

    /// Returns the version as `semver` reads it: the numbers, the pre-release and the build
    /// metadata.
    pub fn number(&self) -> &semver::Version
        ensures { ∥ version_parts self.now ≡ Ok (parts_of result.now) ∥₁ }
    {
        &self.number
    }
}

impl TryCopy for Version {
    fn copy(&self, alloc: Global) -> Result<Version, AllocError> {
        let text = self.text.copy(alloc)?;
        let number = self.number.clone()?;
        Ok(Version { text, number })
    }
}

/// A version requirement. Contracts see its text, which `semver` accepts.
#[derive(Drop)]
pub struct Requirement {
    text: Text,
    parsed: semver::VersionReq,
}

impl Model for Requirement {
    ghost use Rattle.std.specs.Prelude.{ℕ, List, ◌≡◌, Ok, map};
    ghost use Rattle.semver.specs.Parse.{req_of};
    ghost use Rattle.semver.specs.Identifiers.{comparator_view};

    ghost Value = { List ℕ };

    ghost view = { λ r. r.text };

    ghost invariant = { λ r. ∥ req_of r.text ≡ Ok (map comparator_view r.parsed.comparators.items) ∥₁ };
}

impl Requirement {
    /// Returns the requirement of a text.
    ///
    /// Errors: `BadVersion`, if and only if `semver` refuses the text; `OutOfMemory`.
    #[tactic(auto, unfolding(crate::specs::Versions::is_requirement))]
    pub fn read(alloc: Global, text: Text) -> Result<Requirement, ManifestFault>
        ensures { UnlessOom result (requirement_in text) }
    {
        match semver::VersionReq::parse(alloc, text.as_str()) {
            Ok(parsed) => Ok(Requirement { text, parsed }),
            Err(fault) => {
                if fault == semver::Error::from(AllocError) {
                    Err(ManifestFault::OutOfMemory)
                } else {
                    Err(ManifestFault::BadVersion)
                }
            }
        }
    }

    /// Returns the requirement as the manifest spells it.
    pub fn text(&self) -> &Text
        ensures { result.now ≡ self.now }
    {
        &self.text
    }

    /// Returns the requirement as `semver` reads it: the comparators, all of which a version must
    /// match.
    pub fn as_semver(&self) -> &semver::VersionReq
        ensures { ∥ req_of self.now ≡ Ok (map comparator_view result.now.comparators.items) ∥₁ }
    {
        &self.parsed
    }

    /// Returns whether a version matches the requirement, as `semver` decides it (The Cargo Book,
    /// Specifying Dependencies).
    pub fn matches(&self, version: &Version) -> bool
        ensures { result ≡ matches self.now version.now }
    {
        self.parsed.matches(&version.number)
    }
}

impl TryCopy for Requirement {
    fn copy(&self, alloc: Global) -> Result<Requirement, AllocError> {
        // This text has been read before, so reading it again can only run out of memory.
        match Requirement::read(alloc, self.text.copy(alloc)?) {
            Ok(made) => Ok(made),
            Err(_) => Err(AllocError),
        }
    }
}

//! Why a build is refused: the name of each refusal, and the sentence about it.

ghost use Rattle.std.specs.Prelude.{◌≡◌, IfOk, string_bytes};
ghost use Rattle.pb_build_result.specs.Refusals.{manifest_fault_name, manifest_sentence, load_fault_name, load_sentence, feature_fault_name, feature_sentence, profile_fault_name, profile_sentence, plan_fault_name, plan_sentence, refusal_name, refusal_sentence};

use crate::failures::place_sentence;
use crate::fault::Refusal;
use crate::texts::{because, between};
use pb_feature::FeatureFault;
use pb_manifest_types::ManifestFault;
use pb_profile::ProfileFault;
use pb_unit::PlanFault;
use pb_workspace_types::LoadFault;
use std::alloc::{AllocError, Global};

/// Returns the name of a manifest's fault, without its fields.
fn manifest_fault_name(fault: ManifestFault) -> &'static str
    ensures { result.now ≡ manifest_fault_name fault }
{
    match fault {
        ManifestFault::NotToml => "NotToml",
        ManifestFault::BadKind(_) => "BadKind",
        ManifestFault::BadName => "BadName",
        ManifestFault::BadVersion => "BadVersion",
        ManifestFault::UnsupportedTable => "UnsupportedTable",
        ManifestFault::UnsupportedSource => "UnsupportedSource",
        ManifestFault::UnsupportedCrateType => "UnsupportedCrateType",
        ManifestFault::BadProfile => "BadProfile",
        ManifestFault::BadFeature => "BadFeature",
        ManifestFault::TooLarge => "TooLarge",
        ManifestFault::OldResolver => "OldResolver",
        ManifestFault::OutOfMemory => "OutOfMemory",
    }
}

/// Returns why a manifest is refused.
///
/// Errors: out of memory.
pub fn manifest_sentence(alloc: Global, fault: ManifestFault) -> Result<String, AllocError>
    ensures { IfOk result (λ text. string_bytes text ≡ manifest_sentence fault) }
{
    let text = match fault {
        ManifestFault::NotToml => "the manifest is not TOML",
        ManifestFault::BadKind(key) => {
            return between(alloc, "`", key.name(), "` has a value that is not allowed");
        }
        ManifestFault::BadName => "a name is missing or has letters that are not allowed",
        ManifestFault::BadVersion => "a version or a version requirement cannot be read",
        ManifestFault::UnsupportedTable => "`target`, `patch` and `replace` are not supported",
        ManifestFault::UnsupportedSource => "a dependency has a source other than `path`",
        ManifestFault::UnsupportedCrateType => "the library has a crate type that is not supported",
        ManifestFault::BadProfile =>
            "a profile has a name or a value that is not allowed, or has no `inherits`",
        ManifestFault::BadFeature => "a feature has a name or an item that is not allowed",
        ManifestFault::TooLarge => "the manifest is too long",
        ManifestFault::OldResolver => "resolver 1 is not supported",
        ManifestFault::OutOfMemory => "out of memory",
    };
    String::from_str(alloc, text)
}

/// Returns the name of the reason why a workspace cannot be read. For a refused manifest, the
/// result is the name of the manifest's fault.
fn load_fault_name(fault: &LoadFault) -> &'static str
    ensures { result.now ≡ load_fault_name fault.now }
{
    match fault {
        LoadFault::NoManifest(_) => "NoManifest",
        LoadFault::Manifest(_, fault) => manifest_fault_name(*fault),
        LoadFault::SameName => "SameName",
        LoadFault::NameMismatch => "NameMismatch",
        LoadFault::VersionMismatch => "VersionMismatch",
        LoadFault::LinksTwice => "LinksTwice",
        LoadFault::LinksWithoutScript => "LinksWithoutScript",
        LoadFault::NoInherited => "NoInherited",
        LoadFault::TooMany => "TooMany",
        LoadFault::SameBinary => "SameBinary",
        LoadFault::Place(_, _) => "Place",
        LoadFault::NoSuchPackage => "NoSuchPackage",
        LoadFault::OutOfMemory => "OutOfMemory",
    }
}

/// Returns why a workspace cannot be read, or why nothing can be selected in it.
///
/// Errors: out of memory.
pub fn load_sentence(alloc: Global, fault: &LoadFault) -> Result<String, AllocError>
    ensures { IfOk result (λ text. string_bytes text ≡ load_sentence fault.now) }
{
    let text = match fault {
        LoadFault::NoManifest(path) => {
            return between(alloc, "no manifest can be read at `", path.as_str(), "`");
        }
        LoadFault::Manifest(path, fault) => {
            let why = manifest_sentence(alloc, *fault)?;
            return because(alloc, "`", path.as_str(), "` is refused: ", why.as_str());
        }
        LoadFault::Place(path, fault) => {
            let why = place_sentence(*fault);
            return because(alloc, "a call on `", path.as_str(), "` failed: ", why);
        }
        LoadFault::SameName => "two packages have the same name",
        LoadFault::NameMismatch => "a dependency leads to a package with another name",
        LoadFault::VersionMismatch =>
            "a dependency leads to a package whose version does not match",
        LoadFault::LinksTwice => "two packages link the same native library",
        LoadFault::LinksWithoutScript => {
            "a package links a native library but has no build script"
        }
        LoadFault::NoInherited => "a package inherits a key or an entry that does not exist",
        LoadFault::TooMany => "there are more than 256 packages",
        LoadFault::SameBinary => "a package has two binaries with the same name",
        LoadFault::NoSuchPackage => "a requested package is not a member of the workspace",
        LoadFault::OutOfMemory => "out of memory",
    };
    String::from_str(alloc, text)
}

/// Returns the name of the reason why features are not resolved.
fn feature_fault_name(fault: FeatureFault) -> &'static str
    ensures { result.now ≡ feature_fault_name fault }
{
    match fault {
        FeatureFault::NoSuchFeature => "NoSuchFeature",
        FeatureFault::NoSuchDependency => "NoSuchDependency",
        FeatureFault::NotOptional => "NotOptional",
        FeatureFault::OutOfMemory => "OutOfMemory",
    }
}

/// Returns why no features are resolved.
pub fn feature_sentence(fault: FeatureFault) -> &'static str
    ensures { result.now ≡ feature_sentence fault }
{
    match fault {
        FeatureFault::NoSuchFeature => "a requested feature does not exist",
        FeatureFault::NoSuchDependency => "a feature names a dependency that does not exist",
        FeatureFault::NotOptional => "a feature names a dependency that is not optional",
        FeatureFault::OutOfMemory => "out of memory",
    }
}

/// Returns the name of the reason why a profile has no settings.
fn profile_fault_name(fault: ProfileFault) -> &'static str
    ensures { result.now ≡ profile_fault_name fault }
{
    match fault {
        ProfileFault::NoSuchProfile => "NoSuchProfile",
        ProfileFault::InheritsCycle => "InheritsCycle",
        ProfileFault::NotInOverride => "NotInOverride",
        ProfileFault::OutOfMemory => "OutOfMemory",
    }
}

/// Returns why a profile has no settings.
pub fn profile_sentence(fault: ProfileFault) -> &'static str
    ensures { result.now ≡ profile_sentence fault }
{
    match fault {
        ProfileFault::NoSuchProfile => "a requested profile does not exist",
        ProfileFault::InheritsCycle => "profiles inherit from one another",
        ProfileFault::NotInOverride => "an override in a profile sets `panic`, `lto` or `rpath`",
        ProfileFault::OutOfMemory => "out of memory",
    }
}

/// Returns the name of the reason why there is no plan. For a profile without settings, the result
/// is the name of the profile's fault.
fn plan_fault_name(fault: &PlanFault) -> &'static str
    ensures { result.now ≡ plan_fault_name fault.now }
{
    match fault {
        PlanFault::Cycle(_) => "Cycle",
        PlanFault::TooManyUnits => "TooManyUnits",
        PlanFault::NothingToBuild => "NothingToBuild",
        PlanFault::Profile(fault) => profile_fault_name(*fault),
        PlanFault::OutOfMemory => "OutOfMemory",
    }
}

/// Returns why there is no plan.
pub fn plan_sentence(fault: &PlanFault) -> &'static str
    ensures { result.now ≡ plan_sentence fault.now }
{
    match fault {
        PlanFault::Cycle(_) => "packages depend on one another",
        PlanFault::TooManyUnits => "there are more than 4,096 units",
        PlanFault::NothingToBuild => "there is nothing to build",
        PlanFault::Profile(fault) => profile_sentence(*fault),
        PlanFault::OutOfMemory => "out of memory",
    }
}

/// Returns the name of the innermost fault of a refusal.
pub(crate) fn refusal_name(refusal: &Refusal) -> &'static str
    ensures { result.now ≡ refusal_name refusal.now }
{
    match refusal {
        Refusal::Load(fault) => load_fault_name(fault),
        Refusal::Feature(fault) => feature_fault_name(*fault),
        Refusal::Plan(fault) => plan_fault_name(fault),
    }
}

/// Returns why a build is refused.
///
/// Errors: out of memory.
pub fn refusal_sentence(alloc: Global, refusal: &Refusal) -> Result<String, AllocError>
    ensures { IfOk result (λ text. string_bytes text ≡ refusal_sentence refusal.now) }
{
    match refusal {
        Refusal::Load(fault) => load_sentence(alloc, fault),
        Refusal::Feature(fault) => String::from_str(alloc, feature_sentence(*fault)),
        Refusal::Plan(fault) => String::from_str(alloc, plan_sentence(fault)),
    }
}

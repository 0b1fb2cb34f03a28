//! Faults for tests, in the form in which a table can contain them. A fault itself may own values.

use crate::texts::texts_of;
use pb_build_result::{BuildFault, DeviceFault, Refusal};
use pb_command_types::UnitFault;
use pb_data::Text;
use pb_directive::LineFault;
use pb_feature::FeatureFault;
use pb_manifest_types::ManifestFault;
use pb_place_types::{PathFault, PathText, PlaceFault, StartFault};
use pb_profile::ProfileFault;
use pb_unit::PlanFault;
use pb_workspace_types::LoadFault;
use std::alloc::Global;

/// A fault of a unit.
#[derive(Clone, Copy)]
pub enum Bad {
    /// The status of its child.
    Status(i32),
    /// What is wrong with a line of its script.
    Line(LineFault),
    /// The fault of this name; the foreign input is `/w/target/x`.
    Named(&'static str),
}

/// A fault of a build.
#[derive(Clone, Copy)]
pub enum Ending {
    /// The fault of the manifest `/w/m/Cargo.toml`.
    Manifest(ManifestFault),
    /// The fault of a workspace that has this name. If the fault contains a path, the path is
    /// `/w/Cargo.toml`.
    Load(&'static str),
    /// A fault of features.
    Feature(FeatureFault),
    /// A fault of a profile.
    Profile(ProfileFault),
    /// The fault of a plan that has this name. A cycle is of `a` and `b`.
    Plan(&'static str),
    /// Why the child of this key did not answer.
    Child(&'static str, StartFault),
    /// The call for this path or key that failed.
    Device(&'static str, PlaceFault),
    /// No run number is left for the record of this key.
    NumbersSpent(&'static str),
    /// The compiler does not report its host.
    Toolchain,
    /// No line can be written.
    Sink,
    /// Out of memory.
    OutOfMemory,
}

/// The error for a name that no fault has. A case with such a name fails.
const NO_FAULT: PathFault = PathFault::NotAbsolute;

/// Returns the fault of a unit that has this name.
fn named_fault(alloc: Global, name: &str) -> Result<UnitFault, PathFault> {
    Ok(match name {
        "ScriptError" => UnitFault::ScriptError,
        "NoDepInfo" => UnitFault::NoDepInfo,
        "ForeignInput" => UnitFault::ForeignInput(PathText::parse(alloc, "/w/target/x")?),
        "OutputTooLong" => UnitFault::OutputTooLong,
        "OutOfMemory" => UnitFault::OutOfMemory,
        _ => return Err(NO_FAULT),
    })
}

/// Returns a fault of a unit.
pub fn unit_fault(alloc: Global, bad: Bad) -> Result<UnitFault, PathFault> {
    match bad {
        Bad::Status(status) => Ok(UnitFault::Status(status)),
        Bad::Line(fault) => Ok(UnitFault::Directive(fault)),
        Bad::Named(name) => named_fault(alloc, name),
    }
}

/// Returns the fault of a workspace that has this name and contains no path.
fn pathless_fault(name: &str) -> Result<LoadFault, PathFault> {
    match name {
        "SameName" => Ok(LoadFault::SameName),
        "NameMismatch" => Ok(LoadFault::NameMismatch),
        "VersionMismatch" => Ok(LoadFault::VersionMismatch),
        "LinksTwice" => Ok(LoadFault::LinksTwice),
        "LinksWithoutScript" => Ok(LoadFault::LinksWithoutScript),
        "NoInherited" => Ok(LoadFault::NoInherited),
        "TooMany" => Ok(LoadFault::TooMany),
        "SameBinary" => Ok(LoadFault::SameBinary),
        "NoSuchPackage" => Ok(LoadFault::NoSuchPackage),
        "OutOfMemory" => Ok(LoadFault::OutOfMemory),
        _ => Err(NO_FAULT),
    }
}

/// Returns the refusal of a workspace for the fault of this name.
fn refused_workspace(alloc: Global, name: &str) -> Result<Refusal, PathFault> {
    let path = PathText::parse(alloc, "/w/Cargo.toml")?;
    let fault = match name {
        "NoManifest" => Ok(LoadFault::NoManifest(path)),
        "Place" => Ok(LoadFault::Place(path, PlaceFault::Read)),
        _ => pathless_fault(name),
    };
    Ok(Refusal::Load(fault?))
}

/// Returns the refusal of a manifest for this fault.
fn refused_manifest(alloc: Global, fault: ManifestFault) -> Result<Refusal, PathFault> {
    let path = PathText::parse(alloc, "/w/m/Cargo.toml")?;
    Ok(Refusal::Load(LoadFault::Manifest(path, fault)))
}

/// Returns the refusal of a plan for the fault of this name.
fn refused_plan(alloc: Global, name: &str) -> Result<Refusal, PathFault> {
    Ok(Refusal::Plan(match name {
        "Cycle" => PlanFault::Cycle(texts_of(alloc, "a b")?),
        "TooManyUnits" => PlanFault::TooManyUnits,
        "NothingToBuild" => PlanFault::NothingToBuild,
        "OutOfMemory" => PlanFault::OutOfMemory,
        _ => return Err(NO_FAULT),
    }))
}

/// Returns the fault of a build in which the child of this key did not answer.
fn child_fault(alloc: Global, key: &str, fault: StartFault) -> Result<BuildFault, PathFault> {
    let unit = Text::from_str(alloc, key)?;
    Ok(BuildFault::Child { unit, fault })
}

/// Returns the fault of a build whose call for this path or key failed.
fn device_fault(alloc: Global, at: &str, fault: PlaceFault) -> Result<BuildFault, PathFault> {
    let unit = Text::from_str(alloc, at)?;
    Ok(BuildFault::Device {
        unit,
        fault: DeviceFault::Place(fault),
    })
}

/// Returns the fault of a build that has no run number left for the record of this key.
fn numbers_fault(alloc: Global, key: &str) -> Result<BuildFault, PathFault> {
    let unit = Text::from_str(alloc, key)?;
    Ok(BuildFault::Device {
        unit,
        fault: DeviceFault::NumbersSpent,
    })
}

/// Returns a fault of a build.
pub fn build_fault(alloc: Global, ending: Ending) -> Result<BuildFault, PathFault> {
    match ending {
        Ending::Manifest(fault) => Ok(BuildFault::Plan(refused_manifest(alloc, fault)?)),
        Ending::Load(name) => Ok(BuildFault::Plan(refused_workspace(alloc, name)?)),
        Ending::Feature(fault) => Ok(BuildFault::Plan(Refusal::Feature(fault))),
        Ending::Profile(fault) => { Ok(BuildFault::Plan(Refusal::Plan(PlanFault::Profile(fault)))) }
        Ending::Plan(name) => Ok(BuildFault::Plan(refused_plan(alloc, name)?)),
        Ending::Child(key, fault) => child_fault(alloc, key, fault),
        Ending::Device(at, fault) => device_fault(alloc, at, fault),
        Ending::NumbersSpent(key) => numbers_fault(alloc, key),
        Ending::Toolchain => Ok(BuildFault::Toolchain),
        Ending::Sink => Ok(BuildFault::Sink),
        Ending::OutOfMemory => Ok(BuildFault::OutOfMemory),
    }
}

//! Result lines, and which faults come from outside the rules, against worked examples.

ghost use Rattle.std.specs.Prelude.{◌≡◌};
ghost use Rattle.pb_build_result.specs.Faults.{is_outside};

use crate::faults::{Bad, Ending, build_fault, unit_fault};
use crate::texts::texts_of;
use pb_build_result::{BuildFault, Summary, result_line};
use pb_command_types::UnitFault;
use pb_data::{Bytes, Items, Text};
use pb_directive::LineFault;
use pb_feature::FeatureFault;
use pb_manifest_types::{Key, ManifestFault};
use pb_place_types::{PathFault, PlaceFault, StartFault};
use pb_profile::ProfileFault;
use pb_tests_files::{holds, is_said};
use std::alloc::Global;

/// Returns whether the line of a build is this.
fn says(alloc: Global, answer: Result<Summary, BuildFault>, wanted: &str) -> bool {
    is_said(result_line(alloc, &answer), wanted)
}

/// Returns the key of the first bad unit, `a.target.lib`, and its fault.
fn bad_unit(alloc: Global, bad: Option<Bad>) -> Result<Option<(Text, UnitFault)>, PathFault> {
    let Some(bad) = bad else {
        return Ok(None);
    };
    let unit = Text::from_str(alloc, "a.target.lib")?;
    let fault = unit_fault(alloc, bad)?;
    Ok(Some((unit, fault)))
}

/// Returns the summary of a build that came to its end.
fn summary(alloc: Global, bad: Option<(Text, UnitFault)>, started: Items<Text>) -> Summary {
    Summary {
        success: bad.is_none(),
        bad,
        said: Bytes::new(Vec::new(alloc)),
        started,
        differences: Items::new(alloc),
        kept: Items::new(alloc),
        directives: Items::new(alloc),
    }
}

/// Returns whether the line of a build that came to its end is this.
fn ends_with(
    alloc: Global,
    bad: Option<Bad>,
    started: &str,
    wanted: &str,
) -> Result<bool, PathFault> {
    let started = texts_of(alloc, started)?;
    let bad = bad_unit(alloc, bad)?;
    Ok(says(alloc, Ok(summary(alloc, bad, started)), wanted))
}

/// The fault of the first bad unit, if there is one, the keys of what was started, and the line.
static ENDS: &[(Option<Bad>, &str, &str)] = &[
    (None, "", "ok started=-"),
    (None, "a.target.lib", "ok started=a.target.lib"),
    (
        None,
        "b.host.run a.target.lib",
        "ok started=b.host.run,a.target.lib",
    ),
    (
        None,
        "a.host.lib b.bin-c a.target.script",
        "ok started=a.host.lib,b.bin-c,a.target.script",
    ),
    (
        Some(Bad::Status(1)),
        "a.target.lib",
        "bad a.target.lib Status(1) started=a.target.lib",
    ),
    (
        Some(Bad::Status(-9)),
        "",
        "bad a.target.lib Status(-9) started=-",
    ),
    (
        Some(Bad::Status(-2_147_483_648)),
        "b",
        "bad a.target.lib Status(-2147483648) started=b",
    ),
    (
        Some(Bad::Status(2_147_483_647)),
        "b.target.lib a.target.lib",
        "bad a.target.lib Status(2147483647) started=b.target.lib,a.target.lib",
    ),
    (
        Some(Bad::Line(LineFault::NotText(1))),
        "",
        "bad a.target.lib Directive(NotText) started=-",
    ),
    (
        Some(Bad::Line(LineFault::UnknownKey(2))),
        "",
        "bad a.target.lib Directive(UnknownKey) started=-",
    ),
    (
        Some(Bad::Line(LineFault::BadValue(3))),
        "",
        "bad a.target.lib Directive(BadValue) started=-",
    ),
    (
        Some(Bad::Line(LineFault::BadFlag(4))),
        "",
        "bad a.target.lib Directive(BadFlag) started=-",
    ),
    (
        Some(Bad::Line(LineFault::OutOfMemory)),
        "",
        "bad a.target.lib Directive(OutOfMemory) started=-",
    ),
    (
        Some(Bad::Named("ScriptError")),
        "b",
        "bad a.target.lib ScriptError started=b",
    ),
    (
        Some(Bad::Named("NoDepInfo")),
        "b",
        "bad a.target.lib NoDepInfo started=b",
    ),
    (
        Some(Bad::Named("ForeignInput")),
        "b",
        "bad a.target.lib ForeignInput started=b",
    ),
    (
        Some(Bad::Named("OutputTooLong")),
        "b",
        "bad a.target.lib OutputTooLong started=b",
    ),
    (
        Some(Bad::Named("OutOfMemory")),
        "b",
        "bad a.target.lib OutOfMemory started=b",
    ),
];

/// Returns whether a fault comes from outside the rules.
fn is_outside(fault: &BuildFault) -> bool
    ensures { result ≡ is_outside fault.now }
{
    match fault {
        BuildFault::Plan(_) | BuildFault::Toolchain => false,
        BuildFault::Child { unit: _, fault: _ } => true,
        BuildFault::Device { unit: _, fault: _ } => true,
        BuildFault::Sink | BuildFault::OutOfMemory => true,
    }
}

/// Returns whether the line of a build with this end is the wanted one. The fault must also come,
/// or not come, from outside the rules, as wanted.
fn is_told(
    alloc: Global,
    ending: Ending,
    wanted: &str,
    is_from_outside: bool,
) -> Result<bool, PathFault> {
    let fault = build_fault(alloc, ending)?;
    let is_right = is_outside(&fault) == is_from_outside;
    Ok(says(alloc, Err(fault), wanted) && is_right)
}

/// Faults of a build, the line of each, and whether it comes from outside the rules.
static FAULTS: &[(Ending, &str, bool)] = &[
    (
        Ending::Manifest(ManifestFault::NotToml),
        "refused NotToml",
        false,
    ),
    (
        Ending::Manifest(ManifestFault::BadKind(Key::Package)),
        "refused BadKind",
        false,
    ),
    (
        Ending::Manifest(ManifestFault::BadName),
        "refused BadName",
        false,
    ),
    (
        Ending::Manifest(ManifestFault::BadVersion),
        "refused BadVersion",
        false,
    ),
    (
        Ending::Manifest(ManifestFault::UnsupportedTable),
        "refused UnsupportedTable",
        false,
    ),
    (
        Ending::Manifest(ManifestFault::UnsupportedSource),
        "refused UnsupportedSource",
        false,
    ),
    (
        Ending::Manifest(ManifestFault::UnsupportedCrateType),
        "refused UnsupportedCrateType",
        false,
    ),
    (
        Ending::Manifest(ManifestFault::BadProfile),
        "refused BadProfile",
        false,
    ),
    (
        Ending::Manifest(ManifestFault::BadFeature),
        "refused BadFeature",
        false,
    ),
    (
        Ending::Manifest(ManifestFault::TooLarge),
        "refused TooLarge",
        false,
    ),
    (
        Ending::Manifest(ManifestFault::OldResolver),
        "refused OldResolver",
        false,
    ),
    (
        Ending::Manifest(ManifestFault::OutOfMemory),
        "refused OutOfMemory",
        false,
    ),
    (Ending::Load("NoManifest"), "refused NoManifest", false),
    (Ending::Load("SameName"), "refused SameName", false),
    (Ending::Load("NameMismatch"), "refused NameMismatch", false),
    (
        Ending::Load("VersionMismatch"),
        "refused VersionMismatch",
        false,
    ),
    (Ending::Load("LinksTwice"), "refused LinksTwice", false),
    (
        Ending::Load("LinksWithoutScript"),
        "refused LinksWithoutScript",
        false,
    ),
    (Ending::Load("NoInherited"), "refused NoInherited", false),
    (Ending::Load("TooMany"), "refused TooMany", false),
    (Ending::Load("SameBinary"), "refused SameBinary", false),
    (Ending::Load("Place"), "refused Place", false),
    (
        Ending::Load("NoSuchPackage"),
        "refused NoSuchPackage",
        false,
    ),
    (Ending::Load("OutOfMemory"), "refused OutOfMemory", false),
    (
        Ending::Feature(FeatureFault::NoSuchFeature),
        "refused NoSuchFeature",
        false,
    ),
    (
        Ending::Feature(FeatureFault::NoSuchDependency),
        "refused NoSuchDependency",
        false,
    ),
    (
        Ending::Feature(FeatureFault::NotOptional),
        "refused NotOptional",
        false,
    ),
    (
        Ending::Feature(FeatureFault::OutOfMemory),
        "refused OutOfMemory",
        false,
    ),
    (
        Ending::Profile(ProfileFault::NoSuchProfile),
        "refused NoSuchProfile",
        false,
    ),
    (
        Ending::Profile(ProfileFault::InheritsCycle),
        "refused InheritsCycle",
        false,
    ),
    (
        Ending::Profile(ProfileFault::NotInOverride),
        "refused NotInOverride",
        false,
    ),
    (
        Ending::Profile(ProfileFault::OutOfMemory),
        "refused OutOfMemory",
        false,
    ),
    (Ending::Plan("Cycle"), "refused Cycle", false),
    (Ending::Plan("TooManyUnits"), "refused TooManyUnits", false),
    (
        Ending::Plan("NothingToBuild"),
        "refused NothingToBuild",
        false,
    ),
    (Ending::Plan("OutOfMemory"), "refused OutOfMemory", false),
    (
        Ending::Child("-vV", StartFault::CannotStart),
        "fault -vV CannotStart",
        true,
    ),
    (
        Ending::Child("a.target.lib", StartFault::Died),
        "fault a.target.lib Died",
        true,
    ),
    (
        Ending::Child("a.target.lib", StartFault::Capture),
        "fault a.target.lib Capture",
        true,
    ),
    (
        Ending::Child("a.target.lib", StartFault::OutOfMemory),
        "fault a.target.lib OutOfMemory",
        true,
    ),
    (Ending::Toolchain, "fault -vV Toolchain", false),
    (Ending::Sink, "fault sink Sink", true),
    (Ending::OutOfMemory, "fault memory OutOfMemory", true),
    (
        Ending::Device("/w/Cargo.toml", PlaceFault::Read),
        "fault /w/Cargo.toml Device",
        true,
    ),
];

/// Rules: `results.line`.
#[test]
fn result_lines(rt: HostRuntime) {
    for case in ENDS {
        let (bad, started, wanted) = *case;
        assert!(rt;
            holds(ends_with(rt.alloc(), bad, started, wanted)),
            "{wanted}"
        );
    }
    for case in FAULTS {
        let (ending, wanted, is_from_outside) = *case;
        assert!(rt;
            holds(is_told(rt.alloc(), ending, wanted, is_from_outside)),
            "{wanted}"
        );
    }
}

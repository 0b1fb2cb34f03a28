//! What faults are in words, against worked examples.

use crate::faults::{Bad, Ending, build_fault, unit_fault};
use pb_build_result::{build_sentence, unit_sentence};
use pb_directive::LineFault;
use pb_feature::FeatureFault;
use pb_manifest_types::{Key, ManifestFault};
use pb_place_types::{PathFault, PlaceFault, StartFault};
use pb_profile::ProfileFault;
use pb_tests_files::{Shown, holds};
use std::alloc::{AllocError, Global};
use std::fmt::Display;

/// Returns whether a value is this in words.
pub fn reads<T: Display>(alloc: Global, value: &T, wanted: &str) -> bool {
    let mut words = Shown::new(alloc);
    words.put_words(value);
    words.says(wanted)
}

/// Returns whether the fault of a build with this end is this text in words.
fn ending_reads(alloc: Global, ending: Ending, wanted: &str) -> Result<bool, PathFault> {
    let fault = build_fault(alloc, ending)?;
    Ok(reads(alloc, &fault, wanted))
}

/// Faults of a build, and what they are in words.
static BUILD_WORDS: &[(Ending, &str)] = &[
    (Ending::Plan("NothingToBuild"), "there is nothing to build"),
    (
        Ending::Toolchain,
        "the compiler did not report its version and host",
    ),
    (Ending::Sink, "the message lines cannot be written"),
    (Ending::OutOfMemory, "out of memory"),
    (
        Ending::Load("NoManifest"),
        "no manifest can be read at `/w/Cargo.toml`",
    ),
    (
        Ending::Load("NoInherited"),
        "a package inherits a key or an entry that does not exist",
    ),
    (
        Ending::Manifest(ManifestFault::BadKind(Key::LicenseFile)),
        "`/w/m/Cargo.toml` is refused: `license-file` has a value that is not allowed",
    ),
];

/// Returns whether the fault of a unit is this in words.
fn bad_reads(alloc: Global, bad: Bad, wanted: &str) -> Result<bool, PathFault> {
    let fault = unit_fault(alloc, bad)?;
    Ok(reads(alloc, &fault, wanted))
}

/// Faults of a unit, and what they are in words.
static UNIT_WORDS: &[(Bad, &str)] = &[
    (
        Bad::Named("ScriptError"),
        "the build script reported an error",
    ),
    (
        Bad::Named("NoDepInfo"),
        "the compiler left no readable dep-info",
    ),
    (
        Bad::Named("ForeignInput"),
        "the input `/w/target/x` is in the target folder",
    ),
    (
        Bad::Named("OutputTooLong"),
        "the child process wrote too much to a stream",
    ),
    (Bad::Named("OutOfMemory"), "out of memory"),
    (Bad::Status(-1), "the child process ended with status -1"),
    (
        Bad::Line(LineFault::BadValue(3)),
        "the script's output is refused: line 3 has a bad value",
    ),
];

/// Rules: `tool.notes`.
#[test]
fn words(rt: HostRuntime) {
    for case in BUILD_WORDS {
        let (ending, wanted) = *case;
        assert!(rt; holds(ending_reads(rt.alloc(), ending, wanted)), "{wanted}");
    }
    for case in UNIT_WORDS {
        let (bad, wanted) = *case;
        assert!(rt; holds(bad_reads(rt.alloc(), bad, wanted)), "{wanted}");
    }
}

/// Returns whether a sentence is what a fault's `Display` writes.
fn is_sentence<T: Display>(alloc: Global, fault: &T, sentence: Result<String, AllocError>) -> bool {
    match sentence {
        Ok(sentence) => reads(alloc, fault, sentence.as_str()),
        Err(_) => false,
    }
}

/// Returns whether the sentence of a build's fault is what the fault's `Display` writes.
fn ending_agrees(alloc: Global, ending: Ending) -> Result<bool, PathFault> {
    let fault = build_fault(alloc, ending)?;
    Ok(is_sentence(alloc, &fault, build_sentence(alloc, &fault)))
}

/// Returns whether the sentence of a unit's fault is what the fault's `Display` writes.
fn bad_agrees(alloc: Global, bad: Bad) -> Result<bool, PathFault> {
    let fault = unit_fault(alloc, bad)?;
    Ok(is_sentence(alloc, &fault, unit_sentence(alloc, &fault)))
}

/// All faults of a manifest.
static MANIFEST_FAULTS: &[ManifestFault] = &[
    ManifestFault::NotToml,
    ManifestFault::BadKind(Key::LicenseFile),
    ManifestFault::BadName,
    ManifestFault::BadVersion,
    ManifestFault::UnsupportedTable,
    ManifestFault::UnsupportedSource,
    ManifestFault::UnsupportedCrateType,
    ManifestFault::BadProfile,
    ManifestFault::BadFeature,
    ManifestFault::TooLarge,
    ManifestFault::OldResolver,
    ManifestFault::OutOfMemory,
];

/// The names of all faults of a workspace, except the fault of a manifest.
const LOAD_FAULTS: &str =
    "NoManifest SameName NameMismatch VersionMismatch LinksTwice LinksWithoutScript NoInherited TooMany SameBinary Place NoSuchPackage OutOfMemory";

/// The names of all faults of a plan, except the fault of a profile.
const PLAN_FAULTS: &str = "Cycle TooManyUnits NothingToBuild OutOfMemory";

/// All faults of features.
static FEATURE_FAULTS: &[FeatureFault] = &[
    FeatureFault::NoSuchFeature,
    FeatureFault::NoSuchDependency,
    FeatureFault::NotOptional,
    FeatureFault::OutOfMemory,
];

/// All faults of a profile.
static PROFILE_FAULTS: &[ProfileFault] = &[
    ProfileFault::NoSuchProfile,
    ProfileFault::InheritsCycle,
    ProfileFault::NotInOverride,
    ProfileFault::OutOfMemory,
];

/// All faults of a call of a place.
static PLACE_FAULTS: &[PlaceFault] = &[
    PlaceFault::Read,
    PlaceFault::List,
    PlaceFault::Write,
    PlaceFault::Remove,
    PlaceFault::Variable,
    PlaceFault::OutOfMemory,
];

/// All faults of a child.
static START_FAULTS: &[StartFault] = &[
    StartFault::CannotStart,
    StartFault::Died,
    StartFault::Capture,
    StartFault::OutOfMemory,
];

/// The other faults of a build.
static OTHER_ENDINGS: &[Ending] = &[
    Ending::NumbersSpent("a.target.lib"),
    Ending::Toolchain,
    Ending::Sink,
    Ending::OutOfMemory,
];

/// All faults of a unit.
static BAD_UNITS: &[Bad] = &[
    Bad::Status(101),
    Bad::Status(-1),
    Bad::Line(LineFault::NotText(1)),
    Bad::Line(LineFault::UnknownKey(2)),
    Bad::Line(LineFault::BadValue(3)),
    Bad::Line(LineFault::BadFlag(18446744073709551615)),
    Bad::Line(LineFault::OutOfMemory),
    Bad::Named("NoDepInfo"),
    Bad::Named("ForeignInput"),
    Bad::Named("OutputTooLong"),
    Bad::Named("ScriptError"),
    Bad::Named("OutOfMemory"),
];

/// Rules: `tool.notes`.
#[test]
fn sentences_of_refusals(rt: HostRuntime) {
    let alloc = rt.alloc();
    for fault in MANIFEST_FAULTS {
        assert!(rt;
            holds(ending_agrees(alloc, Ending::Manifest(*fault))),
            "{fault}"
        );
    }
    for name in LOAD_FAULTS.split(' ') {
        assert!(rt; holds(ending_agrees(alloc, Ending::Load(name))), "{name}");
    }
    for fault in FEATURE_FAULTS {
        assert!(rt;
            holds(ending_agrees(alloc, Ending::Feature(*fault))),
            "{fault}"
        );
    }
    for fault in PROFILE_FAULTS {
        assert!(rt;
            holds(ending_agrees(alloc, Ending::Profile(*fault))),
            "{fault}"
        );
    }
    for name in PLAN_FAULTS.split(' ') {
        assert!(rt; holds(ending_agrees(alloc, Ending::Plan(name))), "{name}");
    }
}

/// Rules: `tool.notes`.
#[test]
fn sentences_of_faults(rt: HostRuntime) {
    let alloc = rt.alloc();
    for fault in PLACE_FAULTS {
        assert!(rt;
            holds(ending_agrees(alloc, Ending::Device("/w/x", *fault))),
            "{fault}"
        );
    }
    for fault in START_FAULTS {
        assert!(rt;
            holds(ending_agrees(alloc, Ending::Child("-vV", *fault))),
            "{fault}"
        );
    }
    for ending in OTHER_ENDINGS {
        assert!(rt; holds(ending_agrees(alloc, *ending)));
    }
    for bad in BAD_UNITS {
        assert!(rt; holds(bad_agrees(alloc, *bad)));
    }
}

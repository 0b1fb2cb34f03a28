//! Settings of packages under profiles, by a table of manifests with questions and answers.

use crate::asking::assert_cases;
use crate::workspaces::locations::LOCATIONS;
use crate::workspaces::profiles::PROFILES;
use pb_data::{Items, Text};
use pb_manifest::read_manifest;
use pb_manifest_types::{Edition, ManifestFault, Profile, ProfileKey, Version};
use pb_place_types::PathText;
use pb_profile::{Settings, folder_of, lines_follow_inherits, values_are_found};
use pb_tests_files::{Answers, Case, Shown, Trial, put_answers};
use pb_workspace_types::{
    About, BinariesByName, DefaultMembers, EntriesByKey, FeaturesByName, Package, Side, Workspace,
};
use std::alloc::Global;
use std::mem;
use std::test::Fail;

/// Returns an empty description for people.
fn nothing_to_people(alloc: Global) -> About {
    About {
        authors: nothing(alloc),
        description: nothing(alloc),
        homepage: nothing(alloc),
        license: nothing(alloc),
        license_file: nothing(alloc),
        readme: nothing(alloc),
        repository: nothing(alloc),
        rust_version: nothing(alloc),
    }
}

/// Returns the empty text.
fn nothing(alloc: Global) -> Text {
    Text::new(String::new(alloc))
}

/// Returns the version in a text.
fn version_of(alloc: Global, text: &str) -> Result<Version, ManifestFault> {
    let text = Text::from_str(alloc, text)?;
    Version::read(alloc, text)
}

/// Returns a package that has a name and nothing more.
fn package_named(alloc: Global, name: &str, is_member: bool) -> Result<Package, Fail> {
    let name = Text::from_str(alloc, name)?;
    let version = version_of(alloc, "0.1.0")?;
    let folder = PathText::parse(alloc, "/w")?;
    let manifest = PathText::parse(alloc, "/w/Cargo.toml")?;
    Ok(Package {
        name,
        version,
        edition: Edition::E2021,
        folder,
        manifest,
        is_member,
        about: nothing_to_people(alloc),
        links: None,
        library: None,
        binaries: BinariesByName::new(alloc),
        script: None,
        entries: EntriesByKey::new(alloc),
        features: FeaturesByName::new(alloc),
        development: Items::new(alloc),
    })
}

/// Returns the profiles in a manifest.
fn profiles_of(alloc: Global, manifest: &str) -> Result<Items<Profile>, ManifestFault> {
    let mut read = read_manifest(alloc, manifest.as_bytes())?;
    let profiles = mem::replace(&mut read.profiles, Items::new(alloc));
    drop(read);
    Ok(profiles)
}

/// Returns a workspace whose root manifest has these profiles.
fn workspace_of(alloc: Global, manifest: &str) -> Result<Workspace, Fail> {
    let root = PathText::parse(alloc, "/w")?;
    let target = PathText::parse(alloc, "/w/target")?;
    let profiles = profiles_of(alloc, manifest)?;
    Ok(Workspace {
        root,
        target,
        packages: Items::new(alloc),
        root_package: None,
        default_members: DefaultMembers::Unwritten,
        profiles,
    })
}

/// The keys in the order of the table of The Cargo Book.
const ORDER: &[ProfileKey] = &[
    ProfileKey::OptLevel,
    ProfileKey::Debug,
    ProfileKey::DebugAssertions,
    ProfileKey::OverflowChecks,
    ProfileKey::Lto,
    ProfileKey::Panic,
    ProfileKey::CodegenUnits,
    ProfileKey::Rpath,
    ProfileKey::Strip,
];

/// Puts the settings in one line.
fn put_settings(out: &mut Shown, settings: &Settings) {
    let mut before = "";
    for key in ORDER {
        out.put(&[before]);
        out.put_setting(*key, settings.get(*key));
        before = " ";
    }
}

/// Returns the side of a word.
fn side_of(word: &str) -> Side {
    if word == "host" {
        Side::Host
    } else {
        Side::Target
    }
}

/// Writes the settings of a package that has a name and nothing more, or the fault.
fn put_settings_of(
    alloc: Global,
    workspace: &Workspace,
    profile: &str,
    owner: &Package,
    side: Side,
    out: &mut Shown,
) {
    let answer = Settings::settings(alloc, workspace, profile, owner, side);
    match &answer {
        Ok(settings) => put_settings(out, settings),
        Err(fault) => out.put_value(fault),
    }
    drop(answer);
}

/// The settings under profiles, by questions `PROFILE NAME member|other target|host`.
#[derive(Drop)]
struct SettingsOf<'a> {
    workspace: &'a Workspace,
}

impl Answers for SettingsOf<'_> {
    fn put_answer(&self, alloc: Global, question: &str, out: &mut Shown) -> Result<(), Fail> {
        let Some((profile, rest)) = question.split_once(' ') else {
            return Err(Fail::from("no profile"));
        };
        let Some((name, rest)) = rest.split_once(' ') else {
            return Err(Fail::from("no name"));
        };
        let Some((kind, side)) = rest.split_once(' ') else {
            return Err(Fail::from("no side"));
        };
        let owner = package_named(alloc, name, kind == "member")?;
        put_settings_of(alloc, self.workspace, profile, &owner, side_of(side), out);
        drop(owner);
        Ok(())
    }
}

/// Cases of manifests, with questions about the settings under their profiles.
struct SettingCases {}

impl Trial for SettingCases {
    fn put_result(&self, alloc: Global, case: &Case<'_>, out: &mut Shown) -> Result<(), Fail> {
        let workspace = workspace_of(alloc, case.given)?;
        let answers = SettingsOf {
            workspace: &workspace,
        };
        let put = put_answers(alloc, &answers, case.wanted, out);
        drop(workspace);
        put
    }
}

/// Profiles, and the folder of each.
static FOLDERS: &[(&str, &str)] = &[
    ("dev", "debug"),
    ("test", "debug"),
    ("release", "release"),
    ("bench", "release"),
    ("fast", "fast"),
    ("devel", "devel"),
];

/// Rules: `settings.folder`, `settings.line`.
#[test]
fn settings_and_folders(rt: HostRuntime) -> Result<(), Fail> {
    assert_cases(&rt, rt.alloc(), PROFILES, &SettingCases {}, 14)?;
    assert_cases(&rt, rt.alloc(), LOCATIONS, &SettingCases {}, 8)?;
    for case in FOLDERS {
        let (profile, wanted) = *case;
        assert!(rt; folder_of(profile) == wanted, "of {profile}");
    }
    lines_follow_inherits();
    values_are_found();
    Ok(())
}

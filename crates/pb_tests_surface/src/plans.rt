//! A manifest, and the way from a workspace to its plan, call by call.

use crate::world::{FILES, options, put_files};
use pb_feature::{Features, resolve};
use pb_manifest::{ManifestFault, read_manifest};
use pb_mini::Mini;
use pb_place::{Memory, PathText};
use pb_profile::{Settings, folder_of};
use pb_unit::Plan;
use pb_workspace::{Package, SelectedWorkspace, SettledWorkspace, Side, Workspace, load, selected};
use std::alloc::Global;
use std::fmt::Write;
use std::test::Fail;

/// Returns the number of a manifest's features.
fn features_in(alloc: Global, manifest: &[u8]) -> Result<usize, ManifestFault> {
    let manifest = read_manifest(alloc, manifest)?;
    let number = manifest.features.len();
    drop(manifest);
    Ok(number)
}

/// Rules: `manifest.order`.
#[test]
fn manifests_are_read(rt: HostRuntime) {
    let written = b"package.name = 'a'\nfeatures = { f = [], g = ['f'] }";
    assert_eq!(rt; features_in(rt.alloc(), written), Ok(2));
    assert_eq!(rt;
        features_in(rt.alloc(), b"package"),
        Err(ManifestFault::NotToml)
    );
}

/// Puts the files, and returns the workspace in `/w`.
fn workspace_of(alloc: Global, place: &mut Memory<Mini>) -> Result<SettledWorkspace, Fail> {
    put_files(alloc, place, FILES)?;
    let manifest = PathText::parse(alloc, "/w/Cargo.toml")?;
    let target = PathText::parse(alloc, "/w/target")?;
    Ok(load(alloc, place, &manifest, &target)?)
}

/// Puts the optimisation level of a package on a side, under `release`.
fn put_level(
    alloc: Global,
    workspace: &Workspace,
    package: &Package,
    side: Side,
    out: &mut String,
) -> Result<(), Fail> {
    let settings = Settings::settings(alloc, workspace, "release", package, side)?;
    let level = settings.opt_level().spelling();
    Ok(write!(out, "{} {level}\n", package.name.as_str())?)
}

/// Puts whether the package at an index is on, its features, and whether its first entry is on.
fn put_features(features: &Features, index: usize, out: &mut String) -> Result<(), Fail> {
    write!(out, "{}", features.active(index, Side::Target))?;
    for feature in features.features_of(index, Side::Target) {
        write!(out, " {}", feature.as_str())?;
    }
    Ok(write!(out, " {}\n", features.enabled(index, Side::Target, 0))?)
}

/// Puts the units of a plan: the key, the level, what it needs and what it reaches.
fn put_units(
    alloc: Global,
    workspace: &Workspace,
    plan: &Plan,
    out: &mut String,
) -> Result<(), Fail> {
    for (index, unit) in plan.units().iter().enumerate() {
        let key = unit.unit.key(alloc, workspace)?;
        write!(out, "{} {} ", key.as_str(), plan.level(index))?;
        write!(out, "{:?} {:?}\n", plan.needs(index), plan.reaches(index))?;
    }
    Ok(write!(out, "{} without library\n", plan.without_library().len())?)
}

/// Puts which features of a selection are on, and its plan.
fn put_selected(
    alloc: Global,
    chosen: &SelectedWorkspace<'_>,
    out: &mut String,
) -> Result<(), Fail> {
    let features = resolve(alloc, chosen)?;
    put_features(&features, 0, out)?;
    put_features(&features, 1, out)?;
    let plan = Plan::plan(alloc, chosen, &features, "dev")?;
    put_units(alloc, chosen.workspace().get(), &plan, out)
}

/// Puts the levels of the packages, and what a build without options selects.
fn put_workspace(
    alloc: Global,
    workspace: &SettledWorkspace,
    out: &mut String,
) -> Result<(), Fail> {
    for package in workspace.get().packages.as_slice() {
        put_level(alloc, workspace.get(), package, Side::Target, out)?;
    }
    let options = options(alloc, 1)?;
    let chosen = selected(alloc, workspace, &options);
    drop(options);
    put_selected(alloc, &chosen?, out)
}

/// Returns what `put_workspace` puts of the workspace in `/w`.
fn workspace_text(alloc: Global) -> Result<String, Fail> {
    let mut place = Memory::new(alloc, Mini);
    let workspace = workspace_of(alloc, &mut place);
    drop(place);
    let workspace = workspace?;
    let mut out = String::new(alloc);
    let put = put_workspace(alloc, &workspace, &mut out);
    drop(workspace);
    put?;
    Ok(out)
}

/// The levels of the packages, what is on of each, and the plan.
const WANTED: &str = "a 3
b 1
true b default f true
true false
b.target.script 0 [] []
b.target.run 1 [0] [0]
b.target.lib 2 [1] [0, 1]
a.target.lib 3 [2] [0, 1, 2]
0 without library
";

/// Rules: `load.members`, `settings.locations`, `select.order`, `resolve.enabled`, `plan.order`.
#[test]
fn a_workspace_has_a_plan(rt: HostRuntime) -> Result<(), Fail> {
    let found = workspace_text(rt.alloc())?;
    assert_eq!(rt; found.as_str(), WANTED);
    assert_eq!(rt; folder_of("dev"), "debug");
    Ok(())
}

//! Projects of tests, from files in memory.

use pb_command_types::Project;
use pb_data::{Bytes, Items, Text, TryCopy};
use pb_directive::{Directives, read_directives};
use pb_feature::{Features, resolve};
use pb_place::Memory;
use pb_place_types::PathText;
use pb_tests_files::{Silent, no_options, workspace_in};
use pb_unit::{Plan, Planned, What};
use pb_workspace::selected;
use pb_workspace_types::{Options, SelectedWorkspace, SettledWorkspace};
use std::alloc::{AllocError, Global};
use std::test::Fail;

/// Returns the bytes of the file of a unit in a folder, or none if it does not exist.
pub fn file_of(
    alloc: Global,
    memory: &Memory<Silent>,
    folder: &str,
    unit: &Planned,
) -> Result<Option<Bytes>, Fail> {
    let folder = PathText::parse(alloc, folder)?;
    let path = folder.join(alloc, unit.key.as_str())?;
    Ok(memory.file(alloc, &path)?)
}

/// Returns the profile that words request, at their end.
fn profile_in(words: &str) -> &str {
    words.split('@').nth(1).unwrap_or("dev")
}

/// Returns the features that words request, each after a `+`.
fn features_in(alloc: Global, words: &str) -> Result<Items<Text>, AllocError> {
    let mut features = Items::new(alloc);
    for word in words.split(' ') {
        if let Some(name) = word.strip_prefix("+") {
            features.push(Text::from_str(alloc, name)?)?;
        }
    }
    Ok(features)
}

/// Returns the options of a build of all members, with what words request: `+FEATURE`, and
/// `@PROFILE` at the end.
pub fn options_of(alloc: Global, words: &str) -> Result<Options, Fail> {
    let features = features_in(alloc, words)?;
    let profile = Text::from_str(alloc, profile_in(words))?;
    let options = no_options(alloc)?;
    Ok(Options {
        workspace: true,
        profile,
        features,
        ..options
    })
}

/// Returns what is on in a selection, and its plan, or none if the selection is refused.
fn plan_of(
    alloc: Global,
    chosen: &SelectedWorkspace<'_>,
    profile: &str,
) -> Option<(Features, Plan)> {
    let features = resolve(alloc, chosen).ok()?;
    match Plan::plan(alloc, chosen, &features, profile) {
        Ok(plan) => Some((features, plan)),
        Err(_) => {
            drop(features);
            None
        }
    }
}

/// Returns the same for what options select of a workspace.
fn parts_of(
    alloc: Global,
    workspace: &SettledWorkspace,
    options: &Options,
) -> Option<(Features, Plan)> {
    let chosen = selected(alloc, workspace, options).ok()?;
    let parts = plan_of(alloc, &chosen, options.profile.as_str());
    drop(chosen);
    parts
}

/// Returns the project of a workspace, or none if the request is refused.
fn planned_project(
    alloc: Global,
    workspace: SettledWorkspace,
    options: &Options,
) -> Option<Project> {
    let Some((features, plan)) = parts_of(alloc, &workspace, options) else {
        drop(workspace);
        return None;
    };
    match options.profile.copy(alloc) {
        Ok(profile) => Some(Project {
            workspace: workspace.into_workspace(),
            features,
            plan,
            profile,
        }),
        Err(_) => {
            drop(workspace);
            drop(features);
            drop(plan);
            None
        }
    }
}

/// Returns the project at `/w`, whose target folder is `/w/target`, or none if it is refused.
pub fn project_of(
    alloc: Global,
    memory: &mut Memory<Silent>,
    options: &Options,
) -> Result<Option<Project>, Fail> {
    match workspace_in(alloc, memory)? {
        Ok(workspace) => Ok(planned_project(alloc, workspace, options)),
        Err(_) => Ok(None),
    }
}

/// Returns what the run of a unit has printed: the file with the unit's key in `/said`. Returns
/// none for a compile.
fn said_of(
    alloc: Global,
    memory: &Memory<Silent>,
    unit: &Planned,
) -> Result<Option<Directives>, Fail> {
    if !matches!(unit.unit.what, What::Run) {
        return Ok(None);
    }
    match file_of(alloc, memory, "/said", unit)? {
        Some(bytes) => Ok(read_directives(alloc, bytes.as_slice()).ok()),
        None => Ok(Some(Items::new(alloc))),
    }
}

/// Returns what all runs have printed, by the indices of the units.
pub fn done_of(
    alloc: Global,
    memory: &Memory<Silent>,
    project: &Project,
) -> Result<Vec<Option<Directives>>, Fail> {
    let mut done = Vec::new(alloc);
    for unit in project.plan.units() {
        done.push(said_of(alloc, memory, unit)?)?;
    }
    Ok(done)
}

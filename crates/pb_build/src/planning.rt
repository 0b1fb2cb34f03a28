//! What is built: the workspace that the build reads, its features and its plan.

ghost use Rattle.std.specs.Prelude.{◌≡◌, ◌⊎◌, AllPairs, IfOk, IfErr, IsTrue, Ok, Err};
ghost use Rattle.pb_build.specs.Causes.{MayPlan, PlansInTurn, OnlyLooks};
ghost use Rattle.pb_build.specs.Planning.{IsFeatured, IsProject, IsToldRefusal};
ghost use Rattle.pb_build.specs.Private.{IsRefusedOf, fault_of_load};
ghost use Rattle.pb_workspace.specs.Loaded.{workspace_of};
ghost use Rattle.pb_workspace.specs.LookedAt.{looked_at};
ghost use Rattle.pb_workspace.specs.Selected.{selected};
ghost use Rattle.pb_feature.specs.Faults as feature;
ghost use Rattle.pb_unit.specs.Plan as plan;
ghost use Rattle.pb_build_result.specs.declared.fault.BuildFault.TheVariants as build_fault;
ghost use Rattle.pb_build_result.specs.declared.fault.Refusal.TheVariants as refusal;
ghost use Rattle.pb_feature.specs.declared.fault.FeatureFault.{FeatureFault};
ghost use Rattle.pb_unit.specs.declared.fault.PlanFault.{PlanFault};
ghost use Rattle.pb_workspace_types.specs.declared.fault.LoadFault.{LoadFault};
ghost use Rattle.pb_workspace_types.specs.declared.options.Selection.{Selection};

use pb_build_result::{BuildFault, DeviceFault, Refusal};
use pb_command_types::Project;
use pb_data::TryCopy;
use pb_feature::{FeatureFault, Features, resolve};
use pb_place_types::{PathText, Place};
use pb_run::OrderedProject;
use pb_unit::{Plan, PlanFault};
use pb_workspace::{load, selected};
use pb_workspace_types::{LoadFault, Options, SelectedWorkspace, SettledWorkspace};
use std::alloc::Global;

/// Returns the fault of a build whose workspace cannot be read.
fn fault_of_load(fault: LoadFault) -> BuildFault
    ensures { result ≡ fault_of_load fault }
{
    match fault {
        LoadFault::Place(path, fault) => BuildFault::Device {
            unit: path.into_text(),
            fault: DeviceFault::Place(fault),
        },
        LoadFault::OutOfMemory => BuildFault::OutOfMemory,
        fault => BuildFault::Plan(Refusal::Load(fault)),
    }
}

/// Reads the workspace that the options name.
fn read<P: Place>(
    alloc: Global,
    place: &mut P,
    options: &Options,
    target: &PathText,
) -> Result<SettledWorkspace, BuildFault>
    ensures ok { IsTrue P.is_modelled
        → IfOk result
        (λ ws. workspace_of options.now.manifest target.now (P.at place.old).world ≡ Ok ws) }
    ensures quiet { OnlyLooks MayPlan result (P.at place.old) (P.at place.new) }
    ensures refused { IsTrue P.is_modelled
        → IfErr result (IsToldRefusal options.now target.now (P.at place.old).world) }
    ensures calls { IsTrue P.is_modelled
        → PlansInTurn result (looked_at options.now.manifest target.now (P.at place.old).world)
        (P.at place.old).counts (P.at place.new).counts }
{
    match load(alloc, place, &options.manifest, target) {
        Ok(workspace) => Ok(workspace),
        Err(fault) => Err(fault_of_load(fault)),
    }
}

/// Returns the selected packages, and the features that are requested of these packages.
fn select<'a>(
    alloc: Global,
    workspace: &'a SettledWorkspace,
    options: &Options,
) -> Result<SelectedWorkspace<'a>, BuildFault>
    ensures workspace { IfOk result (λ chosen. chosen.workspace ≡ workspace.now) }
    ensures ok { IfOk result
        (λ chosen. selected chosen.workspace options.now ≡ Ok chosen.selection) }
    ensures refused { IfErr result
        (λ e.
        (e ≡ build_fault.OutOfMemory)
        ⊎ ((fault : LoadFault) × (e ≡ build_fault.Plan (refusal.Load fault))
        × (selected workspace.now options.now ≡ Err fault))) }
{
    match selected(alloc, workspace, options) {
        Ok(chosen) => Ok(chosen),
        Err(LoadFault::OutOfMemory) => Err(BuildFault::OutOfMemory),
        Err(fault) => Err(BuildFault::Plan(Refusal::Load(fault))),
    }
}

/// Returns the features that are on.
fn resolve_features(alloc: Global, chosen: &SelectedWorkspace<'_>) -> Result<Features, BuildFault>
    ensures featured { IfOk result (IsFeatured chosen.now.workspace chosen.now.selection) }
    ensures refused { IfErr result
        (λ e.
        (e ≡ build_fault.OutOfMemory)
        ⊎ ((fault : FeatureFault) × (e ≡ build_fault.Plan (refusal.Feature fault))
        × feature.Refuses chosen.now.workspace chosen.now.selection fault)) }
{
    match resolve(alloc, chosen) {
        Ok(features) => Ok(features),
        Err(FeatureFault::OutOfMemory) => Err(BuildFault::OutOfMemory),
        Err(fault) => Err(BuildFault::Plan(Refusal::Feature(fault))),
    }
}

/// Returns the plan.
fn plan_of(
    alloc: Global,
    chosen: &SelectedWorkspace<'_>,
    features: &Features,
    profile: &str,
) -> Result<Plan, BuildFault>
    ensures planned { IfOk result
        (plan.IsPlan chosen.now.workspace features.now chosen.now.selection profile.now) }
    ensures apart { IfOk result (λ planned. AllPairs plan.LieApart planned.planned) }
    ensures refused { IfErr result
        (λ e.
        (e ≡ build_fault.OutOfMemory)
        ⊎ ((fault : PlanFault) × (e ≡ build_fault.Plan (refusal.Plan fault))
        × plan.Refuses chosen.now.workspace features.now chosen.now.selection
        profile.now fault)) }
{
    match Plan::plan(alloc, chosen, features, profile) {
        Ok(plan) => Ok(plan),
        Err(PlanFault::OutOfMemory) => Err(BuildFault::OutOfMemory),
        Err(fault) => Err(BuildFault::Plan(Refusal::Plan(fault))),
    }
}

/// Returns the features and the plan of a workspace's selected packages.
fn parts_of(
    alloc: Global,
    options: &Options,
    workspace: &SettledWorkspace,
) -> Result<(Features, Plan), BuildFault>
    ensures parts { IfOk result
        (λ made.
        (selection : Selection) × (selected workspace.now options.now ≡ Ok selection)
        × IsFeatured workspace.now selection made.0
        × plan.IsPlan workspace.now made.0 selection options.now.profile made.1) }
    ensures apart { IfOk result (λ made. AllPairs plan.LieApart made.1.planned) }
    ensures refused { IfErr result (IsRefusedOf options.now workspace.now) }
{
    let chosen = match select(alloc, workspace, options) {
        Ok(chosen) => chosen,
        Err(fault) => return Err(fault),
    };
    let features = match resolve_features(alloc, &chosen) {
        Ok(features) => features,
        Err(fault) => return Err(fault),
    };
    match plan_of(alloc, &chosen, &features, options.profile.as_str()) {
        Ok(plan) => Ok((features, plan)),
        Err(fault) => Err(fault),
    }
}

/// Returns the project of a workspace that was read: its selected packages, its features and its
/// plan.
fn project_of(
    alloc: Global,
    options: &Options,
    workspace: SettledWorkspace,
) -> Result<OrderedProject, BuildFault>
    ensures project { IfOk result
        (λ project.
        (project.workspace ≡ workspace) × (project.profile ≡ options.now.profile)
        × ((selection : Selection) × (selected workspace options.now ≡ Ok selection)
        × IsFeatured workspace selection project.features
        × plan.IsPlan workspace project.features selection options.now.profile
        project.plan)) }
    ensures refused { IfErr result (IsRefusedOf options.now workspace) }
{
    let parts = match parts_of(alloc, options, &workspace) {
        Ok(parts) => parts,
        Err(fault) => {
            drop(workspace);
            return Err(fault);
        }
    };
    let profile = match options.profile.copy(alloc) {
        Ok(profile) => profile,
        Err(_) => {
            drop((parts, workspace));
            return Err(BuildFault::OutOfMemory);
        }
    };
    let (features, plan) = parts;
    let workspace = workspace.into_workspace();
    let _ = workspace.target.as_str();
    Ok(OrderedProject::new(Project {
        workspace,
        features,
        plan,
        profile,
    }))
}

/// Reads the workspace and plans the build. No child is started, and no file is changed.
///
/// Errors:
///
/// - `Plan`, with the first refusal.
/// - `Device`, with the path of the failed call.
/// - `OutOfMemory`.
pub(crate) fn plan_project<P: Place>(
    alloc: Global,
    place: &mut P,
    options: &Options,
    target: &PathText,
) -> Result<OrderedProject, BuildFault>
    ensures project { IsTrue P.is_modelled
        → IfOk result (IsProject options.now target.now (P.at place.old).world) }
    ensures quiet { OnlyLooks MayPlan result (P.at place.old) (P.at place.new) }
    ensures refused { IsTrue P.is_modelled
        → IfErr result (IsToldRefusal options.now target.now (P.at place.old).world) }
    ensures calls { IsTrue P.is_modelled
        → PlansInTurn result (looked_at options.now.manifest target.now (P.at place.old).world)
        (P.at place.old).counts (P.at place.new).counts }
{
    let workspace = match read(alloc, place, options, target) {
        Ok(workspace) => workspace,
        Err(fault) => return Err(fault),
    };
    match project_of(alloc, options, workspace) {
        Ok(project) => Ok(project),
        Err(fault) => Err(fault),
    }
}

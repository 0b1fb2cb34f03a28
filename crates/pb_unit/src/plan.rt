//! The plan of a build.

ghost use Rattle.std.specs.Prelude.{◌≡◌, ◌⊎◌, ◌<◌, ◌≤◌, ℕ, true, IfOk, IfErr, IfSome, OnOk, All, AllPairs, Contains, map, length, slice_get, if◌then◌else◌, Option, Some, None, Result, Ok, Err};
ghost use Rattle.std.specs.List.{AllZip};
ghost use Rattle.pb_place_types.specs.Paths.{below, is_relative, is_path};
ghost use Rattle.pb_graph.specs.Order.{IsOrder};
ghost use Rattle.pb_workspace_types.specs.Settled.{IsSettled};
ghost use Rattle.pb_workspace_types.specs.declared.package.Package.{Package};
ghost use Rattle.pb_profile.specs.Line.{seen, folder_of};
ghost use Rattle.pb_profile.specs.Settings.{settings_along};
ghost use Rattle.pb_profile.specs.declared.fault.ProfileFault.{ProfileFault};
ghost use Rattle.pb_graph.specs.declared.graph.Step.{Step};
ghost use Rattle.pb_unit.specs.declared.fault.PlanFault.TheVariants.{OutOfMemory, Profile};
ghost use Rattle.pb_unit.specs.Drawing.{IsDrawn, IsPlannedFrom, IsRefusal};
ghost use Rattle.pb_unit.specs.Units.{role_of};
ghost use Rattle.pb_unit.specs.Plan.{profile_line, profile_folder, level_at, needs_in, reaches_in, IsPlan, Refuses, LacksPlan, LieApart};

use crate::drawing::{Drawing, draw_graph};
use crate::fault::PlanFault;
use crate::names::{names_behind, without_library};
use crate::unit::Unit;
use pb_data::{Items, MAX_UNITS, Text, TryCopy};
use pb_feature_types::Features;
use pb_graph::order::order;
use pb_graph::{OrderFault, Step};
use pb_place_types::{PathText, RelativePath};
use pb_profile::{Ancestor, ProfileFault, Settings, folder_of, line_of, settings_along};
use pb_workspace_types::{SelectedWorkspace, Workspace};
use std::alloc::{AllocError, Global};

/// A unit of a plan.
#[derive(Drop)]
pub struct Planned {
    /// The unit.
    pub unit: Unit,
    /// Its key.
    pub key: Text,
    /// The unit's output folder. The folder's name is the unit's key. The folder is in the
    /// profile's folder, which is in the target folder.
    pub out: PathText,
    /// The unit's level: 0 if the unit needs nothing, and otherwise one more than the greatest
    /// level of the units that it needs.
    pub level: usize,
    /// The indices, in the plan, of the units that this unit needs, ascending, each once.
    pub needs: Items<usize>,
    /// The indices, in the plan, of all units that this unit reaches: the units that it needs, the
    /// units that those need, and so on. The indices are ascending, each once.
    pub reaches: Items<usize>,
    /// The settings of the unit's package in the unit's role.
    pub settings: Settings,
}

/// A plan: the units of the selected packages, each once and after all units that it needs. An
/// index identifies a unit.
#[derive(Drop)]
pub struct Plan {
    /// The units by level, and then by the bytes of their keys: at least 1, at most 4,096.
    pub planned: Items<Planned>,
    /// The names of the packages that have no library although enabled dependencies lead to them,
    /// in byte order, each once.
    pub without_library: Items<Text>,
}

/// Returns the workspace from which packages are selected. The contract repeats what the
/// selection's type promises.
fn workspace_of<'a>(selected: &'a SelectedWorkspace<'_>) -> &'a Workspace
    ensures value { result.now ≡ selected.now.workspace }
    ensures settled { IsSettled selected.now.workspace }
    ensures within { All (λ p.
        p < length selected.now.workspace.packages) selected.now.selection.packages }
{
    selected.selection();
    selected.workspace().get()
}

/// The line of inheritance of the requested profile, and the folder of its output.
#[derive(Drop)]
struct ProfileContext<'a> {
    line: Vec<Ancestor<'a>>,
    folder: PathText,
}

/// Returns the folder of a profile's output in the target folder, if there is a name for this
/// folder.
fn folder_in(
    alloc: Global,
    workspace: &Workspace,
    profile: &str,
) -> Result<Option<PathText>, AllocError>
    ensures found { IfOk result (λ found. found
        ≡ (if is_relative (folder_of profile.now) then Some
        (profile_folder workspace.now profile.now) else None)) }
    ensures path { IfOk result (λ found. IfSome found (λ folder. is_path folder ≡ true)) }
{
    let name = Text::from_str(alloc, folder_of(profile))?;
    match RelativePath::of(name) {
        Some(name) => {
            let folder = workspace.target.below(alloc, &name)?;
            Ok(Some(folder))
        }
        None => Ok(None),
    }
}

/// Returns the line of inheritance of the requested profile, and the folder of its output.
fn profile_context<'a>(
    alloc: Global,
    workspace: &'a Workspace,
    profile: &'a str,
) -> Result<ProfileContext<'a>, PlanFault>
    ensures line { IfOk result (λ frame. profile_line workspace.now profile.now
        ≡ Ok (map seen frame.line.items)) }
    ensures folder { IfOk result (λ frame. frame.folder
        ≡ profile_folder workspace.now profile.now) }
    ensures path { IfOk result (λ frame. is_path frame.folder ≡ true) }
    ensures refused { IfErr result (λ e. (e ≡ OutOfMemory)
        ⊎ ((fault : ProfileFault) × (e ≡ Profile fault)
        × (profile_line workspace.now profile.now ≡ Err fault))) }
{
    let line = match line_of(alloc, workspace.profiles.as_slice(), profile) {
        Ok(line) => line,
        Err(ProfileFault::OutOfMemory) => return Err(PlanFault::OutOfMemory),
        Err(fault) => return Err(PlanFault::Profile(fault)),
    };
    match folder_in(alloc, workspace, profile)? {
        Some(folder) => Ok(ProfileContext { line, folder }),
        None => Err(PlanFault::Profile(ProfileFault::NoSuchProfile)),
    }
}

/// Returns the reason why there is no order of the units, as a fault of a plan.
fn refusal(alloc: Global, workspace: &Workspace, units: &[Unit], fault: OrderFault) -> PlanFault
    ensures { (result ≡ OutOfMemory) ⊎ IsRefusal workspace.now units.now fault result }
{
    match fault {
        OrderFault::OutOfMemory => PlanFault::OutOfMemory,
        OrderFault::TooMany => PlanFault::TooManyUnits,
        OrderFault::Circle(circle) => {
            match names_behind(alloc, workspace, units, circle.as_slice()) {
                Ok(names) => PlanFault::Cycle(names),
                Err(_) => PlanFault::OutOfMemory,
            }
        }
    }
}

/// Returns the order of the roots and of all units that the roots reach.
fn order_units(
    alloc: Global,
    selected: &SelectedWorkspace<'_>,
    features: &Features,
    drawing: &Drawing,
) -> Result<Items<Step>, PlanFault>
    requires { IsDrawn selected.now.workspace features.now selected.now.selection drawing.now.units
        drawing.now.nodes drawing.now.roots }
    ensures order { IfOk result (IsOrder drawing.now.nodes drawing.now.roots) }
    ensures some { IfOk result (λ steps. 0 < length steps) }
    ensures few { IfOk result (λ steps. length steps ≤ 4096) }
    ensures stopped { IfErr result (λ e. (e ≡ OutOfMemory)
        ⊎ LacksPlan selected.now.workspace features.now selected.now.selection e) }
{
    let workspace = workspace_of(selected);
    let nodes = drawing.nodes.as_slice();
    let steps = match order(alloc, nodes, drawing.roots.as_slice(), MAX_UNITS) {
        Ok(steps) => steps,
        Err(fault) => return Err(refusal(alloc, workspace, drawing.units.as_slice(), fault)),
    };
    if steps.is_empty() {
        return Err(PlanFault::NothingToBuild);
    }
    Ok(steps)
}

/// Returns the output folder of a key, in the folder of the profile.
fn out_of(alloc: Global, frame: &ProfileContext<'_>, key: &Text) -> Result<PathText, AllocError>
    requires { is_relative key.now ≡ true }
    ensures { IfOk result (λ out. out ≡ below frame.now.folder key.now) }
{
    let name = RelativePath::name(alloc, key.as_str())?;
    let out = frame.folder.below(alloc, &name)?;
    Ok(out)
}

/// Returns the settings of a unit's package in the unit's role.
fn settings_of(workspace: &Workspace, frame: &ProfileContext<'_>, unit: &Unit) -> Settings
    requires { unit.now.package < length workspace.now.packages }
    ensures { (owner : Package) × (slice_get workspace.now.packages unit.now.package ≡ Some owner)
        × (result ≡ settings_along owner (role_of unit.now) (map seen frame.now.line.items)) }
{
    let owner = &workspace.packages.as_slice()[unit.package];
    settings_along(owner, unit.role(), frame.line.as_slice())
}

/// Returns a step of the order as a unit of the plan.
fn planned_unit(
    alloc: Global,
    workspace: &Workspace,
    frame: &ProfileContext<'_>,
    units: &[Unit],
    step: Step,
) -> Result<Planned, AllocError>
    requires node { step.node < length units.now }
    requires owners { All (λ u. u.package < length workspace.now.packages) units.now }
    requires name { is_relative step.key ≡ true }
    ensures { IfOk result (IsPlannedFrom workspace.now
        (map seen frame.now.line.items) frame.now.folder units.now step) }
{
    let unit = units[step.node].copy(alloc)?;
    let out = out_of(alloc, frame, &step.key)?;
    let settings = settings_of(workspace, frame, &unit);
    Ok(Planned {
        unit,
        key: step.key,
        out,
        level: step.level,
        needs: step.needs,
        reaches: step.reaches,
        settings,
    })
}

/// Returns the steps of the order as units of the plan.
fn all_made(
    alloc: Global,
    workspace: &Workspace,
    frame: &ProfileContext<'_>,
    units: &[Unit],
    steps: Vec<Step>,
) -> Result<Vec<Planned>, AllocError>
    requires nodes { All (λ (s : Step). s.node < length units.now) steps.items }
    requires owners { All (λ u. u.package < length workspace.now.packages) units.now }
    requires names { All (λ (s : Step). is_relative s.key ≡ true) steps.items }
    ensures { IfOk result (λ planned.
        AllZip (IsPlannedFrom workspace.now (map seen frame.now.line.items)
        frame.now.folder units.now)
        steps.items planned.items) }
{
    let mut planned = Vec::new(alloc);
    for step in steps {
        planned.push(planned_unit(alloc, workspace, frame, units, step)?)?;
    }
    Ok(planned)
}

impl Plan {
    /// Returns the plan of the selected packages under a profile (The Cargo Book, cargo build).
    ///
    /// The roots of the plan are the libraries and binaries of the selected packages, made for the
    /// target. If `--lib`, `--bins` or `--bin NAME` is given, a library or binary is a root only if
    /// at least one of these options selects it. A binary is left out if one of its required
    /// features is off. The plan contains the roots and all units that the roots reach:
    ///
    /// - a library needs the libraries of its enabled dependencies, and the run of its own script;
    /// - a binary needs its own library, and all that this library would need;
    /// - a script needs the host's libraries of its enabled build dependencies;
    /// - a run needs its script, and the runs of the enabled dependencies with a library and
    ///   `links`.
    ///
    /// Errors: the first of these that occurs, or `OutOfMemory` at any time.
    ///
    /// - `Profile`, if the profile has no settings.
    /// - `Cycle`, if units of the plan reach themselves.
    /// - `TooManyUnits`, if there are more than 4,096 units.
    /// - `NothingToBuild`, if there is no unit.
    pub fn plan(
        alloc: Global,
        selected: &SelectedWorkspace<'_>,
        features: &Features,
        profile: &str,
    ) -> Result<Plan, PlanFault>
        ensures plan { IfOk result
            (IsPlan selected.now.workspace features.now selected.now.selection profile.now) }
        ensures apart { IfOk result (λ plan. AllPairs LieApart plan.planned) }
        ensures refused { IfErr result (λ e. (e ≡ OutOfMemory)
            ⊎ Refuses selected.now.workspace features.now selected.now.selection profile.now e) }
    {
        let workspace = workspace_of(selected);
        let frame = match profile_context(alloc, workspace, profile) {
            Ok(frame) => frame,
            Err(fault) => return Err(fault),
        };
        let drawing = match draw_graph(alloc, selected, features) {
            Ok(drawing) => drawing,
            Err(_) => {
                drop(frame);
                return Err(PlanFault::OutOfMemory);
            }
        };
        let steps = match order_units(alloc, selected, features, &drawing) {
            Ok(steps) => steps,
            Err(fault) => {
                drop(frame);
                drop(drawing);
                return Err(fault);
            }
        };
        let units = drawing.units.as_slice();
        let planned = all_made(alloc, workspace, &frame, units, steps.into_vec());
        drop(frame);
        drop(drawing);
        let planned = planned?;
        match without_library(alloc, workspace, features) {
            Ok(without_library) => Ok(Plan {
                planned: Items::from_vec(planned),
                without_library,
            }),
            Err(_) => {
                drop(planned);
                Err(PlanFault::OutOfMemory)
            }
        }
    }

    /// Returns the units in plan order. No memory is used.
    pub fn units(&self) -> &[Planned]
        ensures { result.now ≡ self.now.planned }
    {
        self.planned.as_slice()
    }

    /// Returns the indices of the units that the unit at this index needs, in plan order. If there
    /// is no unit at this index, the result is empty. No memory is used.
    pub fn needs(&self, index: usize) -> &[usize]
        ensures { result.now ≡ needs_in (slice_get self.now.planned index) }
    {
        match self.planned.as_slice().get(index) {
            Some(planned) => planned.needs.as_slice(),
            None => &[],
        }
    }

    /// Returns the level of the unit at this index. The level is 0 if the unit needs nothing or
    /// does not exist. Otherwise the level is one more than the greatest level of the units that
    /// this unit needs. No memory is used.
    pub fn level(&self, index: usize) -> usize
        ensures { result ≡ level_at self.now.planned index }
    {
        match self.planned.as_slice().get(index) {
            Some(planned) => planned.level,
            None => 0,
        }
    }

    /// Returns the indices of all units that the unit at this index reaches, in plan order. If
    /// there is no unit at this index, the result is empty. No memory is used.
    pub fn reaches(&self, index: usize) -> &[usize]
        ensures { result.now ≡ reaches_in (slice_get self.now.planned index) }
    {
        match self.planned.as_slice().get(index) {
            Some(planned) => planned.reaches.as_slice(),
            None => &[],
        }
    }

    /// Returns the names of the packages that have no library although enabled dependencies lead to
    /// them, in byte order, each once. The plan has no unit of these packages. No memory is used.
    pub fn without_library(&self) -> &[Text]
        ensures { result.now ≡ self.now.without_library }
    {
        self.without_library.as_slice()
    }
}

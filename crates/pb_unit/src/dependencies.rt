//! The units to which the enabled entries of a package lead, by their numbers.

ghost use Rattle.std.specs.Prelude.{◌≡◌, ◌++◌, ◌<◌, OnOk, All, map, slice_get};
ghost use Rattle.pb_unit.specs.declared.unit.What.TheVariants.{Lib, Script, Run};
ghost use Rattle.pb_unit.specs.Units.{unit, has_library, has_script, hands_on, is_normal, is_build, entries_at, own_library, own_run};
ghost use Rattle.pb_unit.specs.Drawing.{number, needed, leads, all_numbers};

use pb_feature_types::Features;
use pb_workspace_types::{DependencyKind, Entry, SettledWorkspace, Side, Workspace};
use std::alloc::AllocError;

/// What a unit needs of the package to which an enabled entry leads.
#[derive(Clone, Copy)]
pub(crate) enum Need {
    /// For a normal entry: the package's library, on the same side.
    Lib,
    /// For a build entry: the package's library, on the host's side.
    Tool,
    /// For a normal entry: the run of the package's script, if the package has a library and
    /// `links`.
    Run,
}

/// Returns whether the package at an index has a library.
pub(crate) fn has_library(workspace: &Workspace, index: usize) -> bool
    ensures { result ≡ has_library (slice_get workspace.now.packages index) }
{
    match workspace.packages.as_slice().get(index) {
        Some(owner) => owner.library.is_some(),
        None => false,
    }
}

/// Returns whether the package at an index has a script.
fn has_script(workspace: &Workspace, index: usize) -> bool
    ensures { result ≡ has_script (slice_get workspace.now.packages index) }
{
    match workspace.packages.as_slice().get(index) {
        Some(owner) => owner.script.is_some(),
        None => false,
    }
}

/// Returns whether the package at an index has a library, `links` and a script.
fn hands_on(workspace: &Workspace, index: usize) -> bool
    ensures { result ≡ hands_on (slice_get workspace.now.packages index) }
{
    match workspace.packages.as_slice().get(index) {
        Some(owner) => owner.library.is_some() && owner.links.is_some() && owner.script.is_some(),
        None => false,
    }
}

/// Returns the entries of the package at an index.
#[tactic(auto, using(crate::proofs::Graphs::entries_few))]
fn entries_at(workspace: &SettledWorkspace, index: usize) -> &[Entry]
    ensures entries { result.now ≡ entries_at workspace.now index }
    ensures few { All (λ e. e.to < 256) result.now }
{
    match workspace.get().packages.as_slice().get(index) {
        Some(owner) => owner.entries.as_slice(),
        None => &[],
    }
}

/// Returns whether the kind is that of `[dependencies]`.
fn is_normal(kind: DependencyKind) -> bool
    ensures { result ≡ is_normal kind }
{
    matches!(kind, DependencyKind::Normal)
}

/// Returns whether the kind is that of `[build-dependencies]`.
fn is_build(kind: DependencyKind) -> bool
    ensures { result ≡ is_build kind }
{
    matches!(kind, DependencyKind::Build)
}

/// Returns the number of a library.
fn library_number(owner: usize, side: Side) -> usize
    requires { owner < 256 }
    ensures { result ≡ number (unit owner side Lib) }
{
    match side {
        Side::Target => owner * 6,
        Side::Host => owner * 6 + 1,
    }
}

/// Returns the number of a script.
pub(crate) fn script_number(owner: usize, side: Side) -> usize
    requires { owner < 256 }
    ensures { result ≡ number (unit owner side Script) }
{
    match side {
        Side::Target => owner * 6 + 2,
        Side::Host => owner * 6 + 3,
    }
}

/// Returns the number of a script's run.
fn run_number(owner: usize, side: Side) -> usize
    requires { owner < 256 }
    ensures { result ≡ number (unit owner side Run) }
{
    match side {
        Side::Target => owner * 6 + 4,
        Side::Host => owner * 6 + 5,
    }
}

/// Returns whether an entry leads to a unit by this kind of need.
fn leads(workspace: &SettledWorkspace, need: Need, entry: &Entry) -> bool
    ensures { result ≡ leads need workspace.now entry.now }
{
    match need {
        Need::Lib => is_normal(entry.kind) && has_library(workspace.get(), entry.to),
        Need::Tool => is_build(entry.kind) && has_library(workspace.get(), entry.to),
        Need::Run => is_normal(entry.kind) && hands_on(workspace.get(), entry.to),
    }
}

/// Returns the number of the unit that is needed. `side` is the side of the unit that has the need,
/// and `owner` is the index of the needed unit's package.
fn needed_number(need: Need, owner: usize, side: Side) -> usize
    requires { owner < 256 }
    ensures { result ≡ number (needed need owner side) }
{
    match need {
        Need::Lib => library_number(owner, side),
        Need::Tool => library_number(owner, Side::Host),
        Need::Run => run_number(owner, side),
    }
}

/// Adds the numbers of the units to which the enabled entries of the package at an index lead by
/// this kind of need.
pub(crate) fn add_needed(
    numbers: &mut Vec<usize>,
    workspace: &SettledWorkspace,
    features: &Features,
    owner: usize,
    side: Side,
    need: Need,
) -> Result<(), AllocError>
    ensures { OnOk result (numbers.new.items ≡ numbers.old.items
        ++ all_numbers need workspace.now features.now owner side) }
{
    let entries = entries_at(workspace, owner);
    for index in 0..entries.len() {
        let entry = &entries[index];
        if features.enabled(owner, side, index) && leads(workspace, need, entry) {
            numbers.push(needed_number(need, entry.to, side))?;
        }
    }
    Ok(())
}

/// Adds the number of the package's own library, if the package has a library.
pub(crate) fn add_own_library(
    numbers: &mut Vec<usize>,
    workspace: &SettledWorkspace,
    owner: usize,
    side: Side,
) -> Result<(), AllocError>
    requires { owner < 256 }
    ensures { OnOk result (numbers.new.items ≡ numbers.old.items
        ++ map number (own_library workspace.now owner side)) }
{
    if has_library(workspace.get(), owner) {
        numbers.push(library_number(owner, side))?;
    }
    Ok(())
}

/// Adds the number of the run of the package's own script, if the package has a script.
pub(crate) fn add_own_run(
    numbers: &mut Vec<usize>,
    workspace: &SettledWorkspace,
    owner: usize,
    side: Side,
) -> Result<(), AllocError>
    requires { owner < 256 }
    ensures { OnOk result (numbers.new.items ≡ numbers.old.items
        ++ map number (own_run workspace.now owner side)) }
{
    if has_script(workspace.get(), owner) {
        numbers.push(run_number(owner, side))?;
    }
    Ok(())
}

//! Which packages, features and entries are on. The faults are checked first, in their order. Then
//! the least set of what the rules yield is computed.

ghost use Rattle.std.specs.Prelude.{◌≡◌, ℕ, ◌*◌, ◌<◌, ◌⊎◌, ◌||◌, IfOk, IfErr, OnOk, All, Contains, length};
ghost use Rattle.pb_workspace_types.specs.Settled.{IsSettled};
ghost use Rattle.pb_graph.specs.Closure.{Least, IsLeast, is_on};
ghost use Rattle.pb_graph.specs.Table.{joined_by};
ghost use Rattle.pb_workspace_types.specs.declared.package.Side.TheVariants.{Target, Host};
ghost use Rattle.pb_feature.specs.Faults.{LacksFeature, Refuses};
ghost use Rattle.pb_feature.specs.declared.fault.FeatureFault.{FeatureFault};
ghost use Rattle.pb_feature.specs.Numbers.{bases_from, end_from, has};
ghost use Rattle.pb_feature.specs.Rules.{rules_of, seeds_of};
ghost use Rattle.pb_feature.specs.Resolved.{IsResolved};
ghost use Rattle.pb_feature.specs.Marked.{IsMarkedMissing, NoneMarkedMissing};
ghost use Rattle.pb_feature.specs.declared.fault.FeatureFault.TheVariants.{OutOfMemory, NoSuchFeature};

use crate::asked::check_asked;
use crate::checks::check_items;
use crate::fault::FeatureFault;
use crate::numbers::{Ground, bases_of};
use crate::resolved::features_marked;
use crate::rules::rules_of;
use crate::seeds::seeds_of;
use pb_feature_types::{Features, is_marked};
use pb_graph::derive;
use pb_workspace_types::{Package, SelectedWorkspace, Side};
use std::alloc::{AllocError, Global};

/// Returns the packages of the workspace from which packages are selected.
fn packages_of<'a>(selected: &'a SelectedWorkspace<'_>) -> &'a [Package]
    ensures packages { result.now ≡ selected.now.workspace.packages }
    ensures settled { IsSettled selected.now.workspace }
{
    selected.workspace().get().packages.as_slice()
}

/// Returns, for each number, whether its fact follows from the chosen packages and features.
fn marks_of(
    alloc: Global,
    selected: &SelectedWorkspace<'_>,
    bases: &[usize],
    count: usize,
) -> Result<Vec<bool>, AllocError>
    requires bases { bases.now ≡ bases_from 0 selected.now.workspace.packages }
    requires count { count ≡ end_from 0 selected.now.workspace.packages * 2 }
    ensures least { IfOk result (λ marks.
        IsLeast (Least (Contains (seeds_of selected.now.workspace.packages bases.now
        selected.now.selection)) (joined_by (rules_of selected.now.workspace.packages bases.now)))
        (is_on marks.items)) }
    ensures within { All (λ p.
        p < length selected.now.workspace.packages) selected.now.selection.packages }
{
    let selection = selected.selection();
    let ground = Ground {
        packages: packages_of(selected),
        bases,
    };
    let seeds = seeds_of(alloc, &ground, selection)?;
    let rules = rules_of(alloc, &ground)?;
    match derive(alloc, count, seeds.as_slice(), rules.as_slice()) {
        Ok(marks) => Ok(marks),
        Err(fault) => Err(fault),
    }
}

/// Returns whether the package at an index does not have a feature that is requested of it.
fn is_missing_at(ground: &Ground<'_>, marks: &[bool], pkg: usize) -> Result<bool, AllocError>
    ensures { IfOk result (λ is. is
        ≡ (is_on marks.now (has ground.now.bases.now pkg Target 0)
        || is_on marks.now (has ground.now.bases.now pkg Host 0))) }
{
    let target = ground.has(pkg, Side::Target, 0)?;
    let host = ground.has(pkg, Side::Host, 0)?;
    Ok(is_marked(marks, target) || is_marked(marks, host))
}

/// Checks that each package has all features that are requested of it.
fn check_missing(ground: &Ground<'_>, marks: &[bool]) -> Result<(), FeatureFault>
    ensures ok { OnOk result (NoneMarkedMissing marks.now ground.now.bases.now
        (length ground.now.packages.now)) }
    ensures err { IfErr result (λ e. (e ≡ OutOfMemory)
        ⊎ ((e ≡ NoSuchFeature) × IsMarkedMissing marks.now ground.now.bases.now
        (length ground.now.packages.now))) }
{
    for pkg in 0..ground.packages.len() {
        if is_missing_at(ground, marks, pkg)? {
            return Err(FeatureFault::NoSuchFeature);
        }
    }
    Ok(())
}

/// Returns what is on, if each feature that is requested of a package exists.
fn resolve_checked(
    alloc: Global,
    selected: &SelectedWorkspace<'_>,
) -> Result<Features, FeatureFault>
    ensures exactly { IfOk result (IsResolved selected.now.workspace selected.now.selection) }
    ensures complete { OnOk result
        (LacksFeature selected.now.workspace selected.now.selection → ⊥) }
    ensures missing { IfErr result (λ e. (e ≡ OutOfMemory)
        ⊎ ((e ≡ NoSuchFeature) × LacksFeature selected.now.workspace selected.now.selection)) }
{
    let packages = packages_of(selected);
    let made = bases_of(alloc, packages)?;
    let bases = made.bases.as_slice();
    let marks = marks_of(alloc, selected, bases, made.count)?;
    let ground = Ground { packages, bases };
    check_missing(&ground, marks.as_slice())?;
    let features = features_marked(alloc, &ground, marks.as_slice())?;
    Ok(features)
}

/// Returns which packages, features and entries are on, on each of two sides. The result is the
/// least set that contains what is chosen and all that the rules yield from the set (The Cargo
/// Book, Features, resolver 2).
///
/// Errors: the first of these that occurs, or out of memory at any time.
///
/// - The fault of the first wrong item, in the first package in byte order of names.
/// - `NoSuchFeature`, if no selected package has a requested feature.
/// - `NoSuchFeature`, if a feature is requested of a package that is on and does not have this
///   feature.
pub fn resolve(alloc: Global, selected: &SelectedWorkspace<'_>) -> Result<Features, FeatureFault>
    ensures resolved { IfOk result (IsResolved selected.now.workspace selected.now.selection) }
    ensures right { OnOk result ((fault : FeatureFault) →
        Refuses selected.now.workspace selected.now.selection fault → ⊥) }
    ensures refused { IfErr result (λ e. (e ≡ OutOfMemory)
        ⊎ Refuses selected.now.workspace selected.now.selection e) }
{
    let packages = packages_of(selected);
    check_items(packages)?;
    check_asked(alloc, packages, selected.selection())?;
    let features = resolve_checked(alloc, selected)?;
    Ok(features)
}

//! Names of packages, in byte order.

ghost use Rattle.std.specs.Prelude.{◌≡◌, ◌++◌, ◌↔◌, ℕ, List, IfOk, OnOk, Contains, map, length};
ghost use Rattle.pb_graph.specs.Placed.{placed};
ghost use Rattle.pb_workspace_types.specs.Settled.{IsAscending};
ghost use Rattle.pb_unit.specs.Units.{name_at};
ghost use Rattle.pb_unit.specs.Plan.{AreWithoutLibrary};
ghost use Rattle.pb_unit.specs.Drawing.{missing_by, missing_at, all_missing, name_behind};

use crate::dependencies::has_library;
use crate::unit::{Unit, name_at};
use pb_data::{Items, Text};
use pb_feature_types::Features;
use pb_graph::sort_once;
use pb_workspace_types::{Entry, Side, Workspace};
use std::alloc::{AllocError, Global};

/// Returns names in byte order, each once.
fn sort_names(names: Vec<Text>) -> Items<Text>
    ensures order { IsAscending result }
    ensures same { (name : List ℕ) → Contains result name ↔ Contains names.items name }
{
    let mut names = names;
    sort_once(&mut names);
    Items::from_vec(names)
}

/// Adds the name of the package to which an entry leads, if this package has no library.
fn add_missing(
    alloc: Global,
    names: &mut Vec<Text>,
    workspace: &Workspace,
    features: &Features,
    owner: usize,
    index: usize,
    entry: &Entry,
) -> Result<(), AllocError>
    ensures { OnOk result (names.new.items ≡ names.old.items
        ++ missing_by workspace.now features.now owner index entry.now) }
{
    let enabled = features.enabled(owner, Side::Target, index)
        || features.enabled(owner, Side::Host, index);
    if enabled && !has_library(workspace, entry.to) {
        names.push(Text::from_str(alloc, name_at(workspace, entry.to))?)?;
    }
    Ok(())
}

/// Adds the names of the packages that have no library although a package's entries lead to them.
fn add_all_missing(
    alloc: Global,
    names: &mut Vec<Text>,
    workspace: &Workspace,
    features: &Features,
    owner: usize,
    entries: &[Entry],
) -> Result<(), AllocError>
    ensures { OnOk result (names.new.items ≡ names.old.items
        ++ placed (missing_by workspace.now features.now owner) 0 entries.now) }
{
    for index in 0..entries.len() {
        add_missing(
            alloc,
            names,
            workspace,
            features,
            owner,
            index,
            &entries[index],
        )?;
    }
    Ok(())
}

/// Returns the names of the packages that have no library although enabled entries lead to them, in
/// the order in which they are found.
fn all_missing(
    alloc: Global,
    workspace: &Workspace,
    features: &Features,
) -> Result<Vec<Text>, AllocError>
    ensures { IfOk result (λ names. names.items ≡ all_missing workspace.now features.now) }
{
    let mut names = Vec::new(alloc);
    let packages = workspace.packages.as_slice();
    for index in 0..packages.len() {
        let entries = packages[index].entries.as_slice();
        add_all_missing(alloc, &mut names, workspace, features, index, entries)?;
    }
    Ok(names)
}

/// Returns the names of the packages that have no library although enabled entries lead to them.
pub(crate) fn without_library(
    alloc: Global,
    workspace: &Workspace,
    features: &Features,
) -> Result<Items<Text>, AllocError>
    ensures { IfOk result (AreWithoutLibrary workspace.now features.now) }
{
    let names = all_missing(alloc, workspace, features)?;
    Ok(sort_names(names))
}

/// Returns the name of the package of the unit at an index.
fn name_behind<'a>(workspace: &'a Workspace, units: &[Unit], node: usize) -> &'a str
    ensures { result.now ≡ name_behind workspace.now units.now node }
{
    match units.get(node) {
        Some(unit) => name_at(workspace, unit.package),
        None => name_at(workspace, 0),
    }
}

/// Returns the names of the packages of some units, in the order in which they are found.
fn all_behind(
    alloc: Global,
    workspace: &Workspace,
    units: &[Unit],
    circle: &[usize],
) -> Result<Vec<Text>, AllocError>
    ensures { IfOk result (λ names. names.items
        ≡ map (name_behind workspace.now units.now) circle.now) }
{
    let mut names = Vec::new(alloc);
    for node in circle {
        names.push(Text::from_str(alloc, name_behind(workspace, units, *node))?)?;
    }
    Ok(names)
}

/// Returns the names of the packages of some units, in byte order, each once.
pub(crate) fn names_behind(
    alloc: Global,
    workspace: &Workspace,
    units: &[Unit],
    circle: &[usize],
) -> Result<Items<Text>, AllocError>
    ensures order { IfOk result IsAscending }
    ensures same { IfOk result (λ names. (name : List ℕ) →
        Contains names name ↔ Contains
        (map (name_behind workspace.now units.now) circle.now) name) }
{
    let names = all_behind(alloc, workspace, units, circle)?;
    Ok(sort_names(names))
}

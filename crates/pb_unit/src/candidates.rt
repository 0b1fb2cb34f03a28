//! The units that a plan may have: six of each package, and the binaries that are roots.

ghost use Rattle.std.specs.Prelude.{◌≡◌, ◌++◌, ◌↔◌, [], ◌∷◌, ◌<◌, IfOk, OnOk, All, Contains, map, length, slice_get};
ghost use Rattle.std.specs.List.{list_all};
ghost use Rattle.std.specs.List.Sorted.{IsStrictlySortedBy};
ghost use Rattle.pb_graph.specs.Placed.{placed};
ghost use Rattle.pb_data.specs.OrderedSet.{is_mentioned};
ghost use Rattle.pb_feature_types.specs.Features.{features_at};
ghost use Rattle.pb_workspace_types.specs.declared.package.Side.TheVariants.{Target};
ghost use Rattle.pb_unit.specs.Units.{asks_all, asks_libraries, asks_binary, unit};
ghost use Rattle.pb_unit.specs.Drawing.{six, fixed, binaries_of, named_by, named_at, all_named, named_cmp, unit_named, AreCandidates};

use crate::unit::{Unit, What};
use pb_data::{Text, TryCopy};
use pb_feature_types::Features;
use pb_graph::sort_once;
use pb_workspace_types::{Binary, Package, Selection, Side, Workspace};
use std::alloc::{AllocError, Global};

/// A binary that is a root.
#[derive(Drop, PartialEq, Eq, PartialOrd, Ord)]
pub(crate) struct Named {
    /// The index of its package.
    pub(crate) owner: usize,
    /// Its name.
    pub(crate) name: Text,
}

/// Returns whether a text is one of these texts.
fn is_mentioned(texts: &[Text], text: &Text) -> bool
    ensures { result ≡ is_mentioned texts.now text.now }
{
    texts.iter().any(|other| *text == *other)
}

/// Returns whether each of the required features is on.
fn all_on(on: &[Text], required: &[Text]) -> bool
    ensures { result ≡ list_all (is_mentioned on.now) required.now }
{
    required.iter().all(|feature| is_mentioned(on, feature))
}

/// Returns whether nothing restricts what is built.
fn asks_all(selection: &Selection) -> bool
    ensures { result ≡ asks_all selection.now }
{
    !(selection.lib || selection.bins || !selection.bin.is_empty())
}

/// Returns whether libraries are built.
pub(crate) fn asks_libraries(selection: &Selection) -> bool
    ensures { result ≡ asks_libraries selection.now }
{
    selection.lib || asks_all(selection)
}

/// Returns whether binaries of this name are built.
fn asks_binary(selection: &Selection, name: &Text) -> bool
    ensures { result ≡ asks_binary selection.now name.now }
{
    selection.bins || is_mentioned(selection.bin.as_slice(), name) || asks_all(selection)
}

/// Adds a binary if the binary is a root.
fn add_binary(
    alloc: Global,
    found: &mut Vec<Named>,
    selection: &Selection,
    on: &[Text],
    owner: usize,
    binary: &Binary,
) -> Result<(), AllocError>
    ensures { OnOk result (found.new.items ≡ found.old.items
        ++ named_by selection.now on.now owner 0 binary.now) }
{
    if asks_binary(selection, &binary.name) && all_on(on, binary.required_features.as_slice()) {
        let name = binary.name.copy(alloc)?;
        found.push(Named { owner, name })?;
    }
    Ok(())
}

/// Adds those binaries that are roots.
fn add_binaries(
    alloc: Global,
    found: &mut Vec<Named>,
    selection: &Selection,
    on: &[Text],
    owner: usize,
    binaries: &[Binary],
) -> Result<(), AllocError>
    ensures { OnOk result (found.new.items ≡ found.old.items
        ++ placed (named_by selection.now on.now owner) 0 binaries.now) }
{
    for index in 0..binaries.len() {
        add_binary(alloc, found, selection, on, owner, &binaries[index])?;
    }
    Ok(())
}

/// Returns the binaries of the package at an index.
fn binaries_at(workspace: &Workspace, index: usize) -> &[Binary]
    ensures { result.now ≡ binaries_of (slice_get workspace.now.packages index) }
{
    match workspace.packages.as_slice().get(index) {
        Some(owner) => owner.binaries.as_slice(),
        None => &[],
    }
}

/// Adds those binaries of a selected package that are roots.
fn add_selected(
    alloc: Global,
    found: &mut Vec<Named>,
    workspace: &Workspace,
    features: &Features,
    selection: &Selection,
    owner: usize,
) -> Result<(), AllocError>
    ensures { OnOk result (found.new.items ≡ found.old.items
        ++ named_at workspace.now features.now selection.now 0 owner) }
{
    let on = features.features_of(owner, Side::Target);
    add_binaries(
        alloc,
        found,
        selection,
        on,
        owner,
        binaries_at(workspace, owner),
    )
}

/// Returns the binaries that are roots, in the order in which they are found.
fn all_named(
    alloc: Global,
    workspace: &Workspace,
    features: &Features,
    selection: &Selection,
) -> Result<Vec<Named>, AllocError>
    ensures { IfOk result (λ found. found.items
        ≡ all_named workspace.now features.now selection.now) }
{
    let mut found = Vec::new(alloc);
    let selected = selection.packages.as_slice();
    for index in 0..selected.len() {
        add_selected(
            alloc,
            &mut found,
            workspace,
            features,
            selection,
            selected[index],
        )?;
    }
    Ok(found)
}

/// Returns the binaries that are roots, each once.
fn named_roots(
    alloc: Global,
    workspace: &Workspace,
    features: &Features,
    selection: &Selection,
) -> Result<Vec<Named>, AllocError>
    ensures rises { IfOk result (λ found. IsStrictlySortedBy named_cmp found.items) }
    ensures same { IfOk result (λ found. (b : Named) →
        Contains found.items b ↔ Contains (all_named workspace.now features.now selection.now) b) }
{
    let mut found = all_named(alloc, workspace, features, selection)?;
    sort_once(&mut found);
    Ok(found)
}

/// Adds a unit.
fn add_unit(units: &mut Vec<Unit>, owner: usize, side: Side, what: What) -> Result<(), AllocError>
    ensures { OnOk result (units.new.items ≡ units.old.items ++ unit owner side what ∷ []) }
{
    units.push(Unit {
        package: owner,
        side,
        what,
    })?;
    Ok(())
}

/// Adds those units of a package that are not binaries.
fn add_fixed(units: &mut Vec<Unit>, index: usize, owner: &Package) -> Result<(), AllocError>
    ensures { OnOk result (units.new.items ≡ units.old.items ++ six index owner.now) }
{
    add_unit(units, index, Side::Target, What::Lib)?;
    add_unit(units, index, Side::Host, What::Lib)?;
    add_unit(units, index, Side::Target, What::Script)?;
    add_unit(units, index, Side::Host, What::Script)?;
    add_unit(units, index, Side::Target, What::Run)?;
    add_unit(units, index, Side::Host, What::Run)?;
    Ok(())
}

/// Returns those units of each package that are not binaries.
fn units_without_binaries(alloc: Global, packages: &[Package]) -> Result<Vec<Unit>, AllocError>
    ensures { IfOk result (λ units. units.items ≡ fixed packages.now) }
{
    let mut units = Vec::new(alloc);
    for index in 0..packages.len() {
        add_fixed(&mut units, index, &packages[index])?;
    }
    Ok(units)
}

/// Adds the units of binaries.
fn add_named(alloc: Global, units: &mut Vec<Unit>, named: &[Named]) -> Result<(), AllocError>
    ensures { OnOk result (units.new.items ≡ units.old.items ++ map unit_named named.now) }
{
    for binary in named {
        let name = binary.name.copy(alloc)?;
        add_unit(units, binary.owner, Side::Target, What::Bin(name))?;
    }
    Ok(())
}

/// Returns all units that a plan may have.
pub(crate) fn candidates(
    alloc: Global,
    workspace: &Workspace,
    features: &Features,
    selection: &Selection,
) -> Result<Vec<Unit>, AllocError>
    ensures { IfOk result (λ units.
        AreCandidates workspace.now features.now selection.now units.items) }
{
    let named = named_roots(alloc, workspace, features, selection)?;
    let mut units = units_without_binaries(alloc, workspace.packages.as_slice())?;
    add_named(alloc, &mut units, named.as_slice())?;
    Ok(units)
}

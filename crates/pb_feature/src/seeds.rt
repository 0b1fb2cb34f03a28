//! The facts that are true from the start: the selected packages, and the features that are chosen
//! for these packages.

ghost use Rattle.std.specs.Prelude.{◌≡◌, ◌++◌, ◌||◌, Some, IfOk, OnOk};
ghost use Rattle.std.specs.List.{list_any};
ghost use Rattle.std.specs.Str.{bytes_eq};
ghost use Rattle.pb_feature.specs.Facts.{of_package};
ghost use Rattle.pb_feature.specs.Rules.{is_text_of, is_chosen, chosen_seeds, owner_seeds, selected_seeds, seeds_of};

use crate::numbers::Ground;
use pb_data::Text;
use pb_manifest_types::Feature;
use pb_workspace_types::{Package, Selection, Side};
use std::alloc::{AllocError, Global};

/// Returns the text `PACKAGE/FEATURE`.
pub(crate) fn of_package(alloc: Global, name: &str, feature: &str) -> Result<Text, AllocError>
    ensures { IfOk result (λ text. text ≡ of_package name.now feature.now) }
{
    let mut text = String::from_str(alloc, name)?;
    text.push_str("/")?;
    text.push_str(feature)?;
    Ok(Text::new(text))
}

/// Returns whether either of these two texts is among the texts.
fn has_either(texts: &[Text], one: &[u8], other: &[u8]) -> bool
    ensures { result ≡ list_any (λ text. bytes_eq text one.now
        || bytes_eq text other.now) texts.now }
{
    texts
        .iter()
        .any(|text| text.as_bytes() == one || text.as_bytes() == other)
}

/// Returns whether a feature of the package with this name is requested.
fn is_asked(alloc: Global, asked: &[Text], name: &str, feature: &str) -> Result<bool, AllocError>
    ensures { IfOk result (λ is. is ≡ list_any (is_text_of name.now feature.now) asked.now) }
{
    let whole = of_package(alloc, name, feature)?;
    Ok(has_either(asked, feature.as_bytes(), whole.as_bytes()))
}

/// Returns whether a feature of the package with this name is chosen, if the package is selected.
fn is_chosen(
    alloc: Global,
    selection: &Selection,
    name: &str,
    feature: &str,
) -> Result<bool, AllocError>
    ensures { IfOk result (λ is. is ≡ is_chosen selection.now name.now feature.now) }
{
    if selection.all_features {
        return Ok(true);
    }
    if !selection.no_default_features && feature == "default" {
        return Ok(true);
    }
    let is = is_asked(alloc, selection.features.as_slice(), name, feature)?;
    Ok(is)
}

/// Adds a feature of a selected package, if the feature is chosen.
fn add_chosen(
    alloc: Global,
    seeds: &mut Vec<usize>,
    ground: &Ground<'_>,
    selection: &Selection,
    pkg: usize,
    name: &str,
    index: usize,
    feature: &Feature,
) -> Result<(), AllocError>
    ensures { OnOk result (seeds.new.items ≡ seeds.old.items
        ++ chosen_seeds ground.now.bases.now selection.now pkg name.now index feature.now) }
{
    if !is_chosen(alloc, selection, name, feature.name.as_str())? {
        return Ok(());
    }
    let Some(slot) = index.checked_add(1) else {
        return Err(AllocError);
    };
    let has = ground.has(pkg, Side::Target, slot)?;
    seeds.push(has)?;
    Ok(())
}

/// Adds a selected package and what is chosen for this package.
fn add_owner(
    alloc: Global,
    seeds: &mut Vec<usize>,
    ground: &Ground<'_>,
    selection: &Selection,
    pkg: usize,
    owner: &Package,
) -> Result<(), AllocError>
    ensures { OnOk result (seeds.new.items ≡ seeds.old.items
        ++ owner_seeds ground.now.bases.now selection.now pkg (Some owner.now)) }
{
    let on = ground.on(pkg, Side::Target)?;
    seeds.push(on)?;
    let name = owner.name.as_str();
    let features = owner.features.as_slice();
    for index in 0..features.len() {
        add_chosen(
            alloc,
            seeds,
            ground,
            selection,
            pkg,
            name,
            index,
            &features[index],
        )?;
    }
    Ok(())
}

/// Adds the package at a selected index.
fn add_selected(
    alloc: Global,
    seeds: &mut Vec<usize>,
    ground: &Ground<'_>,
    selection: &Selection,
    pkg: usize,
) -> Result<(), AllocError>
    ensures { OnOk result (seeds.new.items ≡ seeds.old.items
        ++ selected_seeds ground.now.packages.now ground.now.bases.now selection.now 0 pkg) }
{
    match ground.packages.get(pkg) {
        Some(owner) => add_owner(alloc, seeds, ground, selection, pkg, owner),
        None => Ok(()),
    }
}

/// Returns the numbers of the facts that are true from the start.
pub(crate) fn seeds_of(
    alloc: Global,
    ground: &Ground<'_>,
    selection: &Selection,
) -> Result<Vec<usize>, AllocError>
    ensures { IfOk result (λ seeds. seeds.items
        ≡ seeds_of ground.now.packages.now ground.now.bases.now selection.now) }
{
    let mut seeds = Vec::new(alloc);
    for pkg in selection.packages.as_slice() {
        add_selected(alloc, &mut seeds, ground, selection, *pkg)?;
    }
    Ok(seeds)
}

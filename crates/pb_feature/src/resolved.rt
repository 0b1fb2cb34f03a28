//! Turns marked numbers into the resolved features. A number is marked if its fact is true.

ghost use Rattle.std.specs.Prelude.{◌≡◌, ◌++◌, [], ◌∷◌, IfOk, OnOk};
ghost use Rattle.pb_graph.specs.Closure.{is_on};
ghost use Rattle.pb_graph.specs.Placed.{placed};
ghost use Rattle.pb_feature.specs.Marked.{marked_name, marked_entry, marked_part, marked_sides};
ghost use Rattle.pb_feature.specs.Numbers.{enabled as enabled_at};

use crate::numbers::Ground;
use pb_data::{Items, Text, TryCopy};
use pb_feature_types::{Features, Part, Sides, is_marked};
use pb_manifest_types::Feature;
use pb_workspace_types::{Entry, Package, Side};
use std::alloc::{AllocError, Global};

/// Adds the name of a feature, if the number of the feature is marked.
fn add_name(
    alloc: Global,
    names: &mut Items<Text>,
    ground: &Ground<'_>,
    marks: &[bool],
    pkg: usize,
    side: Side,
    index: usize,
    feature: &Feature,
) -> Result<(), AllocError>
    ensures { OnOk result (names.new ≡ names.old
        ++ marked_name marks.now ground.now.bases.now pkg side index feature.now) }
{
    let Some(slot) = index.checked_add(1) else {
        return Err(AllocError);
    };
    if is_marked(marks, ground.has(pkg, side, slot)?) {
        names.push(feature.name.copy(alloc)?)?;
    }
    Ok(())
}

/// Returns the names of the features whose numbers are marked.
fn names_of(
    alloc: Global,
    ground: &Ground<'_>,
    marks: &[bool],
    pkg: usize,
    side: Side,
    features: &[Feature],
) -> Result<Items<Text>, AllocError>
    ensures { IfOk result (λ names. names
        ≡ placed (marked_name marks.now ground.now.bases.now pkg side) 0 features.now) }
{
    let mut names = Items::new(alloc);
    for index in 0..features.len() {
        add_name(
            alloc,
            &mut names,
            ground,
            marks,
            pkg,
            side,
            index,
            &features[index],
        )?;
    }
    Ok(names)
}

/// Adds whether the number of an entry is marked.
fn add_mark(
    enabled: &mut Items<bool>,
    ground: &Ground<'_>,
    marks: &[bool],
    pkg: usize,
    side: Side,
    features: usize,
    index: usize,
) -> Result<(), AllocError>
    ensures { OnOk result (enabled.new ≡ enabled.old
        ++ is_on marks.now (enabled_at ground.now.bases.now pkg side features index) ∷ []) }
{
    let number = ground.number_of_entry(pkg, side, features, index)?;
    enabled.push(is_marked(marks, number))?;
    Ok(())
}

/// Returns, for each entry of a package, whether its number is marked.
fn entries_of(
    alloc: Global,
    ground: &Ground<'_>,
    marks: &[bool],
    pkg: usize,
    side: Side,
    features: usize,
    entries: &[Entry],
) -> Result<Items<bool>, AllocError>
    ensures { IfOk result (λ enabled. enabled
        ≡ placed (marked_entry marks.now ground.now.bases.now pkg side features) 0 entries.now) }
{
    let mut enabled = Items::new(alloc);
    for index in 0..entries.len() {
        add_mark(&mut enabled, ground, marks, pkg, side, features, index)?;
    }
    Ok(enabled)
}

/// Returns what is on in a package, on one side.
fn part_of(
    alloc: Global,
    ground: &Ground<'_>,
    marks: &[bool],
    pkg: usize,
    side: Side,
    owner: &Package,
) -> Result<Part, AllocError>
    ensures { IfOk result (λ part. part
        ≡ marked_part marks.now ground.now.bases.now pkg side owner.now) }
{
    let listed = owner.features.as_slice();
    let active = is_marked(marks, ground.on(pkg, side)?);
    let features = names_of(alloc, ground, marks, pkg, side, listed)?;
    let entries = owner.entries.as_slice();
    let enabled = entries_of(alloc, ground, marks, pkg, side, listed.len(), entries)?;
    Ok(Part {
        active,
        features,
        enabled,
    })
}

/// Returns what is on in a package.
fn sides_of(
    alloc: Global,
    ground: &Ground<'_>,
    marks: &[bool],
    pkg: usize,
    owner: &Package,
) -> Result<Sides, AllocError>
    ensures { IfOk result (λ sides. sides ∷ []
        ≡ marked_sides marks.now ground.now.bases.now pkg owner.now) }
{
    let target = part_of(alloc, ground, marks, pkg, Side::Target, owner)?;
    let host = part_of(alloc, ground, marks, pkg, Side::Host, owner)?;
    Ok(Sides { target, host })
}

/// Returns what is on in each package.
pub(crate) fn features_marked(
    alloc: Global,
    ground: &Ground<'_>,
    marks: &[bool],
) -> Result<Features, AllocError>
    ensures { IfOk result (λ features. features.packages
        ≡ placed (marked_sides marks.now ground.now.bases.now) 0 ground.now.packages.now) }
{
    let mut packages = Items::new(alloc);
    for pkg in 0..ground.packages.len() {
        packages.push(sides_of(alloc, ground, marks, pkg, &ground.packages[pkg])?)?;
    }
    Ok(Features { packages })
}

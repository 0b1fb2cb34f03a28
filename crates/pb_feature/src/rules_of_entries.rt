//! The rules that the entries of a package yield, written with numbers.

ghost use Rattle.std.specs.Prelude.{◌≡◌, ◌++◌, [], ◌∷◌, OnOk};
ghost use Rattle.pb_workspace_types.specs.Workspace.{side_of};
ghost use Rattle.pb_graph.specs.Placed.{placed};
ghost use Rattle.pb_feature.specs.Rules.{alone, there_rules, given_rules, enabled_rules, entry_rules, both_entry_rules};

use crate::numbers::Ground;
use pb_data::Text;
use pb_graph::Rule;
use pb_workspace_types::{DependencyKind, Entry, Package, Side};
use std::alloc::AllocError;

/// Returns the side for which an entry's package is built.
pub(crate) fn side_made(kind: DependencyKind, side: Side) -> Side
    ensures { result ≡ side_of kind side }
{
    match kind {
        DependencyKind::Normal => side,
        DependencyKind::Build => Side::Host,
    }
}

/// Adds a rule with one premise.
pub(crate) fn add_alone(rules: &mut Vec<Rule>, first: usize, gives: usize) -> Result<(), AllocError>
    ensures { OnOk result (rules.new.items ≡ rules.old.items ++ alone first gives ∷ []) }
{
    rules.push(Rule {
        first,
        second: first,
        gives,
    })?;
    Ok(())
}

/// Adds the rule that turns on the feature of a slot, if a test is true and the feature exists.
pub(crate) fn add_there(
    rules: &mut Vec<Rule>,
    ground: &Ground<'_>,
    from: usize,
    pkg: usize,
    side: Side,
    test: bool,
    feature: usize,
) -> Result<(), AllocError>
    ensures { OnOk result (rules.new.items ≡ rules.old.items
        ++ there_rules ground.now.bases.now from pkg side test feature) }
{
    if !test {
        return Ok(());
    }
    if feature == 0 {
        return Ok(());
    }
    let gives = ground.has(pkg, side, feature)?;
    add_alone(rules, from, gives)
}

/// Adds the rules that turn on features of these names.
fn add_given(
    rules: &mut Vec<Rule>,
    ground: &Ground<'_>,
    from: usize,
    pkg: usize,
    side: Side,
    features: &[Text],
) -> Result<(), AllocError>
    ensures { OnOk result (rules.new.items ≡ rules.old.items
        ++ placed (given_rules ground.now.packages.now ground.now.bases.now from pkg side) 0
        features.now) }
{
    for feature in features {
        let gives = ground.number_of_feature(pkg, side, feature.as_bytes())?;
        add_alone(rules, from, gives)?;
    }
    Ok(())
}

/// Adds the rules for what an enabled entry turns on: the package to which it leads, and the
/// features of this package.
fn add_enabled(
    rules: &mut Vec<Rule>,
    ground: &Ground<'_>,
    from: usize,
    side: Side,
    entry: &Entry,
) -> Result<(), AllocError>
    ensures { OnOk result (rules.new.items ≡ rules.old.items
        ++ enabled_rules ground.now.packages.now ground.now.bases.now from side entry.now) }
{
    let on = ground.on(entry.to, side)?;
    add_alone(rules, from, on)?;
    let default = ground.slot_at(entry.to, b"default");
    add_there(
        rules,
        ground,
        from,
        entry.to,
        side,
        entry.default_features,
        default,
    )?;
    add_given(
        rules,
        ground,
        from,
        entry.to,
        side,
        entry.features.as_slice(),
    )
}

/// Adds the rules of an entry.
fn add_entry(
    rules: &mut Vec<Rule>,
    ground: &Ground<'_>,
    side: Side,
    pkg: usize,
    features: usize,
    index: usize,
    entry: &Entry,
) -> Result<(), AllocError>
    ensures { OnOk result (rules.new.items ≡ rules.old.items
        ++ entry_rules ground.now.packages.now ground.now.bases.now side pkg features index
        entry.now) }
{
    let enabled = ground.number_of_entry(pkg, side, features, index)?;
    if !entry.optional {
        let on = ground.on(pkg, side)?;
        add_alone(rules, on, enabled)?;
    }
    add_enabled(rules, ground, enabled, side_made(entry.kind, side), entry)
}

/// Adds the rules of a package's entries, on a side.
fn add_entries(
    rules: &mut Vec<Rule>,
    ground: &Ground<'_>,
    side: Side,
    pkg: usize,
    features: usize,
    entries: &[Entry],
) -> Result<(), AllocError>
    ensures { OnOk result (rules.new.items ≡ rules.old.items
        ++ placed (entry_rules ground.now.packages.now ground.now.bases.now side pkg features) 0
        entries.now) }
{
    for index in 0..entries.len() {
        add_entry(rules, ground, side, pkg, features, index, &entries[index])?;
    }
    Ok(())
}

/// Adds the rules of a package's entries, on both sides.
pub(crate) fn add_both_entries(
    rules: &mut Vec<Rule>,
    ground: &Ground<'_>,
    pkg: usize,
    owner: &Package,
) -> Result<(), AllocError>
    ensures { OnOk result (rules.new.items ≡ rules.old.items
        ++ both_entry_rules ground.now.packages.now ground.now.bases.now pkg owner.now) }
{
    let features = owner.features.as_slice().len();
    let entries = owner.entries.as_slice();
    add_entries(rules, ground, Side::Target, pkg, features, entries)?;
    add_entries(rules, ground, Side::Host, pkg, features, entries)
}

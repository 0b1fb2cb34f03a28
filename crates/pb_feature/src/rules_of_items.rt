//! The rules that the items of a package's features yield, written with numbers. What an item names
//! is looked up once, for both sides.

ghost use Rattle.std.specs.Prelude.{◌≡◌, ◌+◌, ◌++◌, [], ◌∷◌, Some, OnOk, IfOk, length, if◌then◌else◌};
ghost use Rattle.std.specs.Option.{option_copied};
ghost use Rattle.pb_workspace_types.specs.Workspace.{side_of};
ghost use Rattle.pb_graph.specs.Placed.{placed};
ghost use Rattle.pb_feature.specs.Found.{entry_named, found};
ghost use Rattle.pb_feature.specs.Numbers.{has, enabled, slot};
ghost use Rattle.pb_feature.specs.Rules.{alone, pair, of_rules, both_item_rules, both_own_rules, one_item_rules};

use crate::numbers::{Ground, slot};
use crate::rules_of_entries::{add_alone, add_there, side_made};
use pb_data::Text;
use pb_graph::Rule;
use pb_manifest_types::FeatureItem;
use pb_workspace_types::{DependencyKind, Entry, FeaturesByName, Package, Side};
use std::alloc::AllocError;

/// Adds the rule of a feature that lists a feature of its own package, by the slots of both
/// features.
fn add_listed(
    rules: &mut Vec<Rule>,
    ground: &Ground<'_>,
    side: Side,
    pkg: usize,
    feature: usize,
    own: usize,
) -> Result<(), AllocError>
    ensures { OnOk result (rules.new.items ≡ rules.old.items
        ++ alone (has ground.now.bases.now pkg side feature)
        (has ground.now.bases.now pkg side own) ∷ []) }
{
    let has = ground.has(pkg, side, feature)?;
    let gives = ground.has(pkg, side, own)?;
    add_alone(rules, has, gives)
}

/// Adds the rules of an item that names a feature of its own package, on both sides.
fn add_own(
    rules: &mut Vec<Rule>,
    ground: &Ground<'_>,
    pkg: usize,
    features: &FeaturesByName,
    feature: usize,
    item: &FeatureItem,
) -> Result<(), AllocError>
    ensures { OnOk result (rules.new.items ≡ rules.old.items
        ++ both_own_rules ground.now.bases.now pkg features.now feature item.now) }
{
    match item {
        FeatureItem::Own(name) => {
            let own = slot(features, name.as_bytes());
            add_listed(rules, ground, Side::Target, pkg, feature, own)?;
            add_listed(rules, ground, Side::Host, pkg, feature, own)
        }
        _ => Ok(()),
    }
}

/// An item of a feature, together with an entry that the item may name.
#[derive(Clone, Copy)]
struct AtEntry<'a> {
    /// The index of the package.
    pkg: usize,
    /// The features of the package.
    features: &'a FeaturesByName,
    /// The number of the feature that lists the item, counted from 1.
    feature: usize,
    /// The index of the entry.
    index: usize,
    /// The entry.
    entry: &'a Entry,
}

/// Returns the number of the feature that lists an item, on a side.
fn number_of_listing(ground: &Ground<'_>, side: Side, at: &AtEntry<'_>) -> Result<usize, AllocError>
    ensures { IfOk result (λ number. number
        ≡ has ground.now.bases.now at.now.pkg side at.now.feature) }
{
    ground.has(at.pkg, side, at.feature)
}

/// Returns the number of the entry that an item names, on a side.
fn number_of_named(ground: &Ground<'_>, side: Side, at: &AtEntry<'_>) -> Result<usize, AllocError>
    ensures { IfOk result (λ number. number
        ≡ enabled ground.now.bases.now at.now.pkg side
        (length at.now.features.now) at.now.index) }
{
    ground.number_of_entry(at.pkg, side, at.features.as_slice().len(), at.index)
}

/// Adds the rule of an item `dep:N` for an entry N.
fn add_dependency(
    rules: &mut Vec<Rule>,
    ground: &Ground<'_>,
    side: Side,
    at: &AtEntry<'_>,
) -> Result<(), AllocError>
    ensures { OnOk result (rules.new.items ≡ rules.old.items
        ++ alone (has ground.now.bases.now at.now.pkg side at.now.feature)
        (enabled ground.now.bases.now at.now.pkg side (length at.now.features.now) at.now.index)
        ∷ []) }
{
    let has = number_of_listing(ground, side, at)?;
    let enabled = number_of_named(ground, side, at)?;
    add_alone(rules, has, enabled)
}

/// Adds the rules of an item `N/F` for an entry N, by the slots of the features N and F.
fn add_of(
    rules: &mut Vec<Rule>,
    ground: &Ground<'_>,
    side: Side,
    at: &AtEntry<'_>,
    own: usize,
    asked: usize,
) -> Result<(), AllocError>
    ensures { OnOk result (rules.new.items ≡ rules.old.items
        ++ of_rules ground.now.bases.now
        (has ground.now.bases.now at.now.pkg side at.now.feature) at.now.pkg side own asked
        (enabled ground.now.bases.now at.now.pkg side (length at.now.features.now) at.now.index)
        at.now.entry.now) }
{
    let entry = at.entry;
    let has = number_of_listing(ground, side, at)?;
    let enabled = number_of_named(ground, side, at)?;
    add_alone(rules, has, enabled)?;
    let gives = ground.has(entry.to, side_made(entry.kind, side), asked)?;
    add_alone(rules, has, gives)?;
    add_there(rules, ground, has, at.pkg, side, entry.optional, own)
}

/// Adds the rule of an item `N?/F` for an entry N, by the slot of the feature F.
fn add_of_enabled(
    rules: &mut Vec<Rule>,
    ground: &Ground<'_>,
    side: Side,
    at: &AtEntry<'_>,
    asked: usize,
) -> Result<(), AllocError>
    ensures { OnOk result (rules.new.items ≡ rules.old.items
        ++ pair (has ground.now.bases.now at.now.pkg side at.now.feature)
        (enabled ground.now.bases.now at.now.pkg side (length at.now.features.now) at.now.index)
        (has ground.now.bases.now at.now.entry.now.to (side_of at.now.entry.now.kind side) asked)
        ∷ []) }
{
    let entry = at.entry;
    let first = number_of_listing(ground, side, at)?;
    let second = number_of_named(ground, side, at)?;
    let gives = ground.has(entry.to, side_made(entry.kind, side), asked)?;
    rules.push(Rule {
        first,
        second,
        gives,
    })?;
    Ok(())
}

/// Returns the slot of the feature with a name, if a test is true. Otherwise returns 0, as if there
/// were no such feature.
fn slot_where(test: bool, features: &FeaturesByName, name: &[u8]) -> usize
    ensures { result ≡ (if test then slot features.now name.now else 0) }
{
    if test { slot(features, name) } else { 0 }
}

/// Adds the rules of an item for an entry that the item may name, on both sides. The features that
/// the item names are looked up once.
fn add_item(
    rules: &mut Vec<Rule>,
    ground: &Ground<'_>,
    at: &AtEntry<'_>,
    item: &FeatureItem,
) -> Result<(), AllocError>
    ensures { OnOk result (rules.new.items ≡ rules.old.items
        ++ both_item_rules ground.now.packages.now ground.now.bases.now at.now.pkg
        at.now.features.now at.now.feature item.now at.now.index at.now.entry.now) }
{
    let entry = at.entry;
    match item {
        FeatureItem::Own(_) => Ok(()),
        FeatureItem::Dependency(name) => {
            if name.as_bytes() != entry.key.as_bytes() {
                return Ok(());
            }
            add_dependency(rules, ground, Side::Target, at)?;
            add_dependency(rules, ground, Side::Host, at)
        }
        FeatureItem::Of {
            dependency,
            feature: asked,
        } => {
            if dependency.as_bytes() != entry.key.as_bytes() {
                return Ok(());
            }
            let own = slot_where(entry.optional, at.features, dependency.as_bytes());
            let asked = ground.slot_at(entry.to, asked.as_bytes());
            add_of(rules, ground, Side::Target, at, own, asked)?;
            add_of(rules, ground, Side::Host, at, own, asked)
        }
        FeatureItem::OfEnabled {
            dependency,
            feature: asked,
        } => {
            if dependency.as_bytes() != entry.key.as_bytes() {
                return Ok(());
            }
            let asked = ground.slot_at(entry.to, asked.as_bytes());
            add_of_enabled(rules, ground, Side::Target, at, asked)?;
            add_of_enabled(rules, ground, Side::Host, at, asked)
        }
    }
}

/// Returns the name of the entries that an item names, if it names entries.
fn entry_named(item: &FeatureItem) -> Option<&Text>
    ensures { option_copied result ≡ entry_named item.now }
{
    match item {
        FeatureItem::Own(_) => None,
        FeatureItem::Dependency(name) => Some(name),
        FeatureItem::Of {
            dependency,
            feature: _,
        } => Some(dependency),
        FeatureItem::OfEnabled {
            dependency,
            feature: _,
        } => Some(dependency),
    }
}

/// Adds the rules of an item for the entry at an index, if an entry was found.
fn add_found(
    rules: &mut Vec<Rule>,
    ground: &Ground<'_>,
    pkg: usize,
    owner: &Package,
    feature: usize,
    item: &FeatureItem,
    index: Option<usize>,
) -> Result<(), AllocError>
    ensures { OnOk result (rules.new.items ≡ rules.old.items
        ++ found (both_item_rules ground.now.packages.now ground.now.bases.now pkg
        owner.now.features feature item.now) [] owner.now.entries index) }
{
    let Some(index) = index else {
        return Ok(());
    };
    match owner.entries.as_slice().get(index) {
        Some(entry) => {
            let at = AtEntry {
                pkg,
                features: &owner.features,
                feature,
                index,
                entry,
            };
            add_item(rules, ground, &at, item)
        }
        None => Ok(()),
    }
}

/// Adds the rules of an item for the entries that the item names. Each table has at most one such
/// entry.
fn add_named(
    rules: &mut Vec<Rule>,
    ground: &Ground<'_>,
    pkg: usize,
    owner: &Package,
    feature: usize,
    item: &FeatureItem,
    name: &Text,
) -> Result<(), AllocError>
    requires { entry_named item.now ≡ Some name.now }
    ensures { OnOk result (rules.new.items ≡ rules.old.items
        ++ placed (both_item_rules ground.now.packages.now ground.now.bases.now pkg
        owner.now.features feature item.now) 0 owner.now.entries) }
{
    let name = name.as_bytes();
    let normal = owner.entries.index_of(DependencyKind::Normal, name);
    add_found(rules, ground, pkg, owner, feature, item, normal)?;
    let build = owner.entries.index_of(DependencyKind::Build, name);
    add_found(rules, ground, pkg, owner, feature, item, build)?;
    Ok(())
}

/// Adds the rules of an item, on both sides.
fn add_one_item(
    rules: &mut Vec<Rule>,
    ground: &Ground<'_>,
    pkg: usize,
    owner: &Package,
    feature: usize,
    item: &FeatureItem,
) -> Result<(), AllocError>
    ensures { OnOk result (rules.new.items ≡ rules.old.items
        ++ one_item_rules ground.now.packages.now ground.now.bases.now pkg owner.now feature 0
        item.now) }
{
    add_own(rules, ground, pkg, &owner.features, feature, item)?;
    match entry_named(item) {
        Some(name) => {
            add_named(rules, ground, pkg, owner, feature, item, name)?;
            Ok(())
        }
        None => Ok(()),
    }
}

/// Adds the rules of the items of a feature, on both sides.
pub(crate) fn add_feature(
    rules: &mut Vec<Rule>,
    ground: &Ground<'_>,
    pkg: usize,
    owner: &Package,
    index: usize,
    items: &[FeatureItem],
) -> Result<(), AllocError>
    ensures { OnOk result (rules.new.items ≡ rules.old.items
        ++ placed (one_item_rules ground.now.packages.now ground.now.bases.now pkg owner.now
        (index + 1)) 0 items.now) }
{
    let Some(feature) = index.checked_add(1) else {
        return Err(AllocError);
    };
    for item in items {
        add_one_item(rules, ground, pkg, owner, feature, item)?;
    }
    Ok(())
}

//! The rules that the packages of a workspace yield, written with numbers.

ghost use Rattle.std.specs.Prelude.{◌≡◌, ◌++◌, IfOk, OnOk};
ghost use Rattle.pb_feature.specs.Rules.{package_rules, rules_of};

use crate::numbers::Ground;
use crate::rules_of_entries::add_both_entries;
use crate::rules_of_items::add_feature;
use pb_graph::Rule;
use pb_workspace_types::Package;
use std::alloc::{AllocError, Global};

/// Adds the rules of a package, on both sides.
fn add_package(
    rules: &mut Vec<Rule>,
    ground: &Ground<'_>,
    pkg: usize,
    owner: &Package,
) -> Result<(), AllocError>
    ensures { OnOk result (rules.new.items ≡ rules.old.items
        ++ package_rules ground.now.packages.now ground.now.bases.now pkg owner.now) }
{
    add_both_entries(rules, ground, pkg, owner)?;
    let features = owner.features.as_slice();
    for index in 0..features.len() {
        let items = features[index].items.as_slice();
        add_feature(rules, ground, pkg, owner, index, items)?;
    }
    Ok(())
}

/// Returns the rules of all packages, on both sides.
pub(crate) fn rules_of(alloc: Global, ground: &Ground<'_>) -> Result<Vec<Rule>, AllocError>
    ensures { IfOk result (λ rules. rules.items
        ≡ rules_of ground.now.packages.now ground.now.bases.now) }
{
    let mut rules = Vec::new(alloc);
    for pkg in 0..ground.packages.len() {
        add_package(&mut rules, ground, pkg, &ground.packages[pkg])?;
    }
    Ok(rules)
}

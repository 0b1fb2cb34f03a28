//! The features of a package, including the features that its optional dependencies make.

ghost use Rattle.std.specs.Prelude.{◌≡◌, ◌∷◌, [], ◌&&◌, List, not, IfOk, OnOk, map};
ghost use Rattle.std.specs.List.{AllByRecursion, flat_map};
ghost use Rattle.pb_data.specs.OrderedSet.{is_mentioned, mentioned_all};
ghost use Rattle.pb_manifest_types.specs.declared.feature.Feature.{Feature};
ghost use Rattle.pb_manifest_types.specs.declared.feature.FeatureItem.TheVariants as item;
ghost use Rattle.pb_workspace_package.specs.Sorted.{with_entry};
ghost use Rattle.pb_workspace_package.specs.Features.{with_made, with_written, feature_of, features_of};
ghost use Rattle.pb_workspace_package.specs.Enabling.{named_by, named_in, AreEnabledNames, with_one};
ghost use Rattle.pb_workspace_package.specs.Drafted.{AreFeatures, IsKeyed, IsWrittenFeature};

use crate::sorted::Sorted;
use pb_data::{Items, OrderedSet, Text, TryCopy, with_next};
use pb_manifest_types::{Dependency, Feature, FeatureItem};
use pb_workspace_types::FeaturesByName;
use std::alloc::{AllocError, Global};

/// Adds the name N of an item `dep:N` to the mentioned names.
fn mention_named(
    alloc: Global,
    names: &mut OrderedSet,
    item: &FeatureItem,
) -> Result<(), AllocError>
    ensures { OnOk result (names.new ≡ mentioned_all names.old (named_by item.now)) }
{
    match item {
        FeatureItem::Dependency(name) => {
            names.insert(name.copy(alloc)?)?;
            Ok(())
        }
        _ => Ok(()),
    }
}

/// Adds the names N of the items `dep:N` to the mentioned names.
fn mention_items(
    alloc: Global,
    names: &mut OrderedSet,
    items: &[FeatureItem],
) -> Result<(), AllocError>
    ensures { OnOk result (names.new ≡ mentioned_all names.old (flat_map named_by items.now)) }
{
    for item in items {
        mention_named(alloc, names, item)?;
    }
    Ok(())
}

/// Adds the names N of the items `dep:N` of features to the mentioned names.
fn mention_features(
    alloc: Global,
    names: &mut OrderedSet,
    features: &[Feature],
) -> Result<(), AllocError>
    ensures { OnOk result (names.new ≡ mentioned_all names.old (flat_map named_in features.now)) }
{
    for feature in features {
        mention_items(alloc, names, feature.items.as_slice())?;
    }
    Ok(())
}

/// Returns the names N that some feature lists as `dep:N`.
fn enabled_names(alloc: Global, features: &[Feature]) -> Result<OrderedSet, AllocError>
    ensures { IfOk result (λ names. AreEnabledNames names features.now) }
{
    let mut names = OrderedSet::new(alloc);
    mention_features(alloc, &mut names, features)?;
    Ok(names)
}

/// Returns whether an entry makes a feature of its name, given the names N that features list as
/// `dep:N`.
fn makes_feature(names: &OrderedSet, entry: &Dependency) -> bool
    ensures { result ≡ (entry.now.optional && not (is_mentioned names.now entry.now.key)) }
{
    entry.optional && !names.contains(&entry.key)
}

/// Adds the feature that an entry makes.
fn put_made(
    alloc: Global,
    made: &mut Sorted<Items<FeatureItem>>,
    key: &Text,
) -> Result<(), AllocError>
    ensures { OnOk result (made.new ≡ with_entry made.old key.now (item.Dependency key.now ∷ [])) }
{
    let mut items = Items::new(alloc);
    items.push(FeatureItem::Dependency(key.copy(alloc)?))?;
    made.insert(key.copy(alloc)?, items)?;
    Ok(())
}

/// Adds the feature that an entry makes, if the entry makes a feature.
fn add_one_made(
    alloc: Global,
    names: &OrderedSet,
    made: &mut Sorted<Items<FeatureItem>>,
    entry: &Dependency,
) -> Result<(), AllocError>
    ensures { OnOk result (made.new ≡ with_one names.now made.old entry.now) }
{
    if makes_feature(names, entry) {
        put_made(alloc, made, &entry.key)?;
    }
    Ok(())
}

/// Adds the features that entries make, given the names N that features list as `dep:N`.
fn add_made(
    alloc: Global,
    names: &OrderedSet,
    made: &mut Sorted<Items<FeatureItem>>,
    entries: &[Dependency],
) -> Result<(), AllocError>
    ensures { OnOk result ((written : List Feature) → AreEnabledNames names.now written
        → made.new ≡ with_made written made.old entries.now) }
{
    for entry in entries {
        add_one_made(alloc, names, made, entry)?;
    }
    Ok(())
}

/// Adds the written features. Each written feature replaces a feature of the same name that an
/// entry made.
fn add_written(
    made: &mut Sorted<Items<FeatureItem>>,
    written: Items<Feature>,
) -> Result<(), AllocError>
    ensures { OnOk result (made.new ≡ with_written made.old written) }
{
    for feature in written.into_vec() {
        made.insert(feature.name, feature.items)?;
    }
    Ok(())
}

/// Returns the entries as features.
fn features_from(
    alloc: Global,
    entries: Items<(Text, Items<FeatureItem>)>,
) -> Result<Items<Feature>, AllocError>
    ensures { IfOk result (λ features. features ≡ map feature_of entries) }
{
    let mut features = Items::new(alloc);
    for (name, items) in entries.into_vec() {
        features.push(Feature { name, items })?;
    }
    Ok(features)
}

/// Adds the features that the entries of the two tables make, given the names N that features list
/// as `dep:N`.
fn add_all_made(
    alloc: Global,
    names: &OrderedSet,
    made: &mut Sorted<Items<FeatureItem>>,
    dependencies: &[Dependency],
    build: &[Dependency],
) -> Result<(), AllocError>
    ensures { OnOk result ((written : List Feature) → AreEnabledNames names.now written
        → made.new ≡ with_made written (with_made written made.old dependencies.now) build.now) }
{
    add_made(alloc, names, made, dependencies)?;
    add_made(alloc, names, made, build)?;
    Ok(())
}

/// Returns the features that the entries of the two tables make, given the written features.
fn made_of(
    alloc: Global,
    written: &[Feature],
    dependencies: &[Dependency],
    build: &[Dependency],
) -> Result<Sorted<Items<FeatureItem>>, AllocError>
    ensures { IfOk result (λ made. made
        ≡ with_made written.now (with_made written.now [] dependencies.now) build.now) }
{
    let names = enabled_names(alloc, written)?;
    let mut made = Sorted::new(alloc);
    let added = add_all_made(alloc, &names, &mut made, dependencies, build);
    drop(names);
    let (made, ()) = with_next(made, added)?;
    Ok(made)
}

/// Returns the features of a package, in byte order of their names, each once (The Cargo Book,
/// Features). An optional entry N of one of the two dependency tables makes a feature N with the
/// single item `dep:N`, unless some feature lists `dep:N`. A written feature replaces a feature of
/// the same name that an entry makes.
///
/// Errors: out of memory.
pub fn features_of(
    alloc: Global,
    written: Items<Feature>,
    dependencies: &[Dependency],
    build: &[Dependency],
) -> Result<FeaturesByName, AllocError>
    requires features { AllByRecursion IsWrittenFeature written }
    requires normal { AllByRecursion IsKeyed dependencies.now }
    requires build { AllByRecursion IsKeyed build.now }
    ensures features { IfOk result
        (λ features. features ≡ features_of written dependencies.now build.now) }
    ensures kept { IfOk result AreFeatures }
{
    let made = made_of(alloc, written.as_slice(), dependencies, build);
    let (written, mut made) = with_next(written, made)?;
    add_written(&mut made, written)?;
    let items = made.into_items(alloc)?;
    let features = features_from(alloc, items)?;
    Ok(FeaturesByName::from_items(features))
}

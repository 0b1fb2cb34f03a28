//! Reads `[features]` (The Cargo Book, Features).

ghost use Rattle.std.specs.Prelude.{◌≡◌, option_map};
ghost use Rattle.toml.specs.View.{view, table_view, items_view};
ghost use Rattle.pb_manifest_types.specs.Features.{parted};
ghost use Rattle.pb_manifest_types.specs.Values.{UnlessOom};
ghost use Rattle.pb_manifest.specs.Values.{each, each_entry};
ghost use Rattle.pb_manifest.specs.Features.{own_item, dependency_item, whole_item, item_of, item_of_enabled, parted_item, item_in, feature_item_of, feature_items_of, feature_of, features_at};

use crate::values::{array_of, table_at};
use pb_data::{Items, Text};
use pb_manifest_types::letters::{is_feature_name, is_name};
use pb_manifest_types::{Feature, FeatureItem, Key, ManifestFault};
use std::alloc::Global;
use toml::{Table, Value};

/// Returns the texts before and after the first `/`, if there is a `/`.
#[tactic(auto, unfolding(pb_manifest_types::specs::Features::parted))]
fn parted_at_slash(text: &str) -> Option<(&str, &str)>
    ensures { option_map (λ x. (x.0.now, x.1.now)) result ≡ parted 47 text.now }
{
    text.split_once('/')
}

/// Returns the texts before and after the first `?`, if there is a `?`.
#[tactic(auto, unfolding(pb_manifest_types::specs::Features::parted))]
fn parted_at_question_mark(text: &str) -> Option<(&str, &str)>
    ensures { option_map (λ x. (x.0.now, x.1.now)) result ≡ parted 63 text.now }
{
    text.split_once('?')
}

/// Returns the texts before and after the first `:`, if there is a `:`.
#[tactic(auto, unfolding(pb_manifest_types::specs::Features::parted))]
fn parted_at_colon(text: &str) -> Option<(&str, &str)>
    ensures { option_map (λ x. (x.0.now, x.1.now)) result ≡ parted 58 text.now }
{
    text.split_once(':')
}

/// Returns the item `F`.
fn own_item(alloc: Global, text: &str) -> Result<FeatureItem, ManifestFault>
    ensures { UnlessOom result (own_item text.now) }
{
    if !is_feature_name(text) {
        return Err(ManifestFault::BadFeature);
    }
    let feature = Text::from_str(alloc, text)?;
    Ok(FeatureItem::Own(feature))
}

/// Returns the item `dep:N` for the text before the colon and the name after the colon.
fn dependency_item(alloc: Global, word: &str, name: &str) -> Result<FeatureItem, ManifestFault>
    ensures { UnlessOom result (dependency_item word.now name.now) }
{
    if word != "dep" || !is_name(name) {
        return Err(ManifestFault::BadFeature);
    }
    let name = Text::from_str(alloc, name)?;
    Ok(FeatureItem::Dependency(name))
}

/// Returns the item in a text without `/`.
fn whole_item(alloc: Global, text: &str) -> Result<FeatureItem, ManifestFault>
    ensures { UnlessOom result (whole_item text.now (parted 58 text.now)) }
{
    match parted_at_colon(text) {
        None => own_item(alloc, text),
        Some((word, name)) => dependency_item(alloc, word, name),
    }
}

/// Returns the item `N/F`.
fn item_of(alloc: Global, name: &str, feature: &str) -> Result<FeatureItem, ManifestFault>
    ensures { UnlessOom result (item_of name.now feature.now) }
{
    if !is_name(name) || !is_feature_name(feature) {
        return Err(ManifestFault::BadFeature);
    }
    let dependency = Text::from_str(alloc, name)?;
    let feature = Text::from_str(alloc, feature)?;
    Ok(FeatureItem::Of {
        dependency,
        feature,
    })
}

/// Returns the item `N?/F`, if nothing is between `?` and `/`.
fn item_of_enabled(
    alloc: Global,
    name: &str,
    between: &str,
    feature: &str,
) -> Result<FeatureItem, ManifestFault>
    ensures { UnlessOom result (item_of_enabled name.now between.now feature.now) }
{
    if !between.is_empty() || !is_name(name) || !is_feature_name(feature) {
        return Err(ManifestFault::BadFeature);
    }
    let dependency = Text::from_str(alloc, name)?;
    let feature = Text::from_str(alloc, feature)?;
    Ok(FeatureItem::OfEnabled {
        dependency,
        feature,
    })
}

/// Returns the item in a text with `/`, from the texts before and after the `/`.
fn parted_item(alloc: Global, name: &str, feature: &str) -> Result<FeatureItem, ManifestFault>
    ensures { UnlessOom result (parted_item name.now (parted 63 name.now) feature.now) }
{
    match parted_at_question_mark(name) {
        None => item_of(alloc, name, feature),
        Some((name, between)) => item_of_enabled(alloc, name, between, feature),
    }
}

/// Returns the item of a feature that a text spells.
fn item_in(alloc: Global, text: &str) -> Result<FeatureItem, ManifestFault>
    ensures { UnlessOom result (item_in text.now) }
{
    match parted_at_slash(text) {
        None => whole_item(alloc, text),
        Some((name, feature)) => parted_item(alloc, name, feature),
    }
}

/// Returns the item of a feature that a value spells.
fn feature_item_of(alloc: Global, value: &Value) -> Result<FeatureItem, ManifestFault>
    ensures { UnlessOom result (feature_item_of (view value.now)) }
{
    match value.as_str() {
        Some(text) => item_in(alloc, text),
        None => Err(ManifestFault::BadKind(Key::Features)),
    }
}

/// Returns the items of a list.
fn each_feature_item(alloc: Global, values: &[Value]) -> Result<Items<FeatureItem>, ManifestFault>
    ensures { UnlessOom result (each feature_item_of (items_view values.now)) }
{
    let mut items = Items::new(alloc);
    for value in values {
        items.push(feature_item_of(alloc, value)?)?;
    }
    Ok(items)
}

/// Returns a feature.
#[tactic(auto, unfolding(crate::specs::Features::feature_of))]
fn feature_of(alloc: Global, name: &str, value: &Value) -> Result<Feature, ManifestFault>
    ensures { UnlessOom result (feature_of name.now (view value.now)) }
{
    if !is_feature_name(name) {
        return Err(ManifestFault::BadFeature);
    }
    let items = each_feature_item(alloc, array_of(value, Key::Features)?)?;
    let name = Text::from_str(alloc, name)?;
    Ok(Feature { name, items })
}

/// Returns the features of a table, in byte order of their names.
fn each_feature(alloc: Global, table: &Table) -> Result<Items<Feature>, ManifestFault>
    ensures { UnlessOom result (each_entry feature_of (table_view table.now)) }
{
    let mut features = Items::new(alloc);
    for (name, value) in table {
        features.push(feature_of(alloc, name.as_str(), value)?)?;
    }
    Ok(features)
}

/// Returns the features of the table `[features]`. There are no features if there is no such table.
pub(crate) fn features_at(alloc: Global, table: &Table) -> Result<Items<Feature>, ManifestFault>
    ensures { UnlessOom result (features_at (table_view table.now)) }
{
    match table_at(table, Key::Features)? {
        None => Ok(Items::new(alloc)),
        Some(entries) => each_feature(alloc, entries),
    }
}

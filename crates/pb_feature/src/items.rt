//! What is wrong with the items of the packages' features.

ghost use Rattle.std.specs.Prelude.{◌≡◌, ◌||◌, false};
ghost use Rattle.std.specs.Option.{is_some};
ghost use Rattle.std.specs.List.{list_any};
ghost use Rattle.std.specs.Str.{bytes_eq};
ghost use Rattle.pb_workspace_types.specs.Workspace.{has_feature_named};
ghost use Rattle.pb_feature.specs.Found.{found, is_optional};
ghost use Rattle.pb_feature.specs.Faults.{absent_fault, entry_fault, optional_fault, item_fault, items_fault, features_fault, package_fault};

use crate::fault::FeatureFault;
use crate::numbers::slot;
use pb_data::Text;
use pb_manifest_types::FeatureItem;
use pb_workspace_types::{DependencyKind, EntriesByKey, FeaturesByName, Package};

/// Returns whether a feature has this name.
fn has_feature_named(features: &FeaturesByName, name: &[u8]) -> bool
    ensures { result ≡ has_feature_named features.now name.now }
{
    slot(features, name) != 0
}

/// Returns whether this text is among the texts.
fn has_text(texts: &[Text], name: &[u8]) -> bool
    ensures { result ≡ list_any (bytes_eq name.now) texts.now }
{
    texts.iter().any(|text| name == text.as_bytes())
}

/// Returns whether an entry has this name.
fn is_entry(entries: &EntriesByKey, name: &[u8]) -> bool
    ensures { result ≡ list_any (λ e. bytes_eq name.now e.key) entries.now }
{
    entries.index_of(DependencyKind::Normal, name).is_some()
        || entries.index_of(DependencyKind::Build, name).is_some()
}

/// Returns whether the entry at an index is optional.
fn is_optional_at(entries: &EntriesByKey, index: Option<usize>) -> bool
    ensures { result ≡ found is_optional false entries.now index }
{
    let Some(index) = index else {
        return false;
    };
    match entries.as_slice().get(index) {
        Some(entry) => entry.optional,
        None => false,
    }
}

/// Returns whether at least one of two indices was found.
fn is_either(normal: Option<usize>, build: Option<usize>) -> bool
    ensures { result ≡ (is_some normal || is_some build) }
{
    normal.is_some() || build.is_some()
}

/// Returns whether the entry at either of two indices is optional.
fn is_either_optional(entries: &EntriesByKey, normal: Option<usize>, build: Option<usize>) -> bool
    ensures { result ≡ (found is_optional false entries.now normal
        || found is_optional false entries.now build) }
{
    is_optional_at(entries, normal) || is_optional_at(entries, build)
}

/// Returns the fault of a name that no entry has.
fn absent_fault(owner: &Package, name: &[u8]) -> Option<FeatureFault>
    ensures { result ≡ absent_fault owner.now name.now }
{
    if has_text(owner.development.as_slice(), name) {
        None
    } else {
        Some(FeatureFault::NoSuchDependency)
    }
}

/// Returns what is wrong with an item that names an entry.
fn entry_fault(owner: &Package, name: &[u8]) -> Option<FeatureFault>
    ensures { result ≡ entry_fault owner.now name.now }
{
    if is_entry(&owner.entries, name) {
        None
    } else {
        absent_fault(owner, name)
    }
}

/// Returns what is wrong with an item that names an entry and requires this entry to be optional.
fn optional_fault(owner: &Package, name: &[u8]) -> Option<FeatureFault>
    ensures { result ≡ optional_fault owner.now name.now }
{
    let entries = &owner.entries;
    let normal = entries.index_of(DependencyKind::Normal, name);
    let build = entries.index_of(DependencyKind::Build, name);
    if !is_either(normal, build) {
        return absent_fault(owner, name);
    }
    if is_either_optional(entries, normal, build) {
        None
    } else {
        Some(FeatureFault::NotOptional)
    }
}

/// Returns what is wrong with an item.
fn item_fault(owner: &Package, item: &FeatureItem) -> Option<FeatureFault>
    ensures { result ≡ item_fault owner.now item.now }
{
    match item {
        FeatureItem::Own(name) => {
            if has_feature_named(&owner.features, name.as_bytes()) {
                None
            } else {
                Some(FeatureFault::NoSuchFeature)
            }
        }
        FeatureItem::Dependency(name) => optional_fault(owner, name.as_bytes()),
        FeatureItem::Of {
            dependency,
            feature: _,
        } => entry_fault(owner, dependency.as_bytes()),
        FeatureItem::OfEnabled {
            dependency,
            feature: _,
        } => optional_fault(owner, dependency.as_bytes()),
    }
}

/// Returns the first fault of items, in the order in which they are written.
fn items_fault(owner: &Package, items: &[FeatureItem]) -> Option<FeatureFault>
    ensures { result ≡ items_fault owner.now items.now }
{
    for item in items {
        if let Some(fault) = item_fault(owner, item) {
            return Some(fault);
        }
    }
    None
}

/// Returns the first fault of a package's items, with its features in byte order.
pub(crate) fn package_fault(owner: &Package) -> Option<FeatureFault>
    ensures { result ≡ package_fault owner.now }
{
    for feature in owner.features.as_slice() {
        if let Some(fault) = items_fault(owner, feature.items.as_slice()) {
            return Some(fault);
        }
    }
    None
}

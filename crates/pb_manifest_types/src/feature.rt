//! The table `[features]`.

use pb_data::{Items, Text};

/// An item that a feature enables (The Cargo Book, Features).
#[derive(Drop)]
pub enum FeatureItem {
    /// `F`: a feature of the package itself.
    Own(Text),
    /// `dep:N`: the optional dependency N.
    Dependency(Text),
    /// `N/F`: the dependency N and its feature F.
    Of { dependency: Text, feature: Text },
    /// `N?/F`: the feature F of the dependency N, if N is enabled.
    OfEnabled { dependency: Text, feature: Text },
}

/// A feature and the items that it enables, in the manifest's order.
#[derive(Drop)]
pub struct Feature {
    /// The name, which is not empty: ASCII letters, digits and `_`, and after the first byte also
    /// `-`, `+` and `.`.
    pub name: Text,
    /// The items that the feature enables, in the manifest's order.
    pub items: Items<FeatureItem>,
}

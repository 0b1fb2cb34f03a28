//! Parts of a package in byte order of their names, without repeats. A part is found by binary
//! search.

ghost use Rattle.std.specs.Prelude.{◌≡◌, [], map};
ghost use Rattle.std.specs.List.{find, position};
ghost use Rattle.std.specs.List.Sorted.{IsStrictlySortedBy};
ghost use Rattle.std.specs.Option.{option_copied};
ghost use Rattle.std.specs.Ordering.{nat_cmp};
ghost use Rattle.std.specs.Cmp.Lexicographic.{slice_cmp};
ghost use Rattle.std.specs.Str.{bytes_eq};

use crate::package::Binary;
use pb_data::{Items, Text};
use pb_manifest_types::Feature;
use std::alloc::Global;
use std::marker::Model;

/// Binaries in byte order of their names, without repeats. Contracts see the binaries as a list.
#[derive(Drop)]
pub struct BinariesByName {
    inside: Items<Binary>,
}

impl Model for BinariesByName {
    ghost use Rattle.std.specs.Prelude.{List, map};
    ghost use Rattle.std.specs.List.Sorted.{IsStrictlySortedBy};
    ghost use Rattle.std.specs.Ordering.{nat_cmp};
    ghost use Rattle.std.specs.Cmp.Lexicographic.{slice_cmp};
    ghost use Rattle.pb_workspace_types.specs.declared.package.Binary.{Binary};

    ghost Value = { List Binary };

    ghost view = { λ a. a.inside };

    ghost invariant = { λ a. IsStrictlySortedBy (slice_cmp nat_cmp) (map (λ binary. binary.name) a.inside) };
}

impl BinariesByName {
    /// Returns a list without binaries. This takes no memory.
    pub fn new(alloc: Global) -> BinariesByName
        ensures { result ≡ [] }
    {
        BinariesByName {
            inside: Items::new(alloc),
        }
    }

    /// Returns these binaries.
    ///
    /// Requires: the binaries are in byte order of their names, without repeats.
    pub fn from_items(binaries: Items<Binary>) -> BinariesByName
        requires { IsStrictlySortedBy (slice_cmp nat_cmp) (map (λ binary. binary.name) binaries) }
        ensures { result ≡ binaries }
    {
        BinariesByName { inside: binaries }
    }

    /// Returns the binaries as a slice.
    pub fn as_slice(&self) -> &[Binary]
        ensures { result.now ≡ self.now }
    {
        self.inside.as_slice()
    }

    /// Returns the binary with a name, if there is such a binary.
    pub fn get_named(&self, name: &Text) -> Option<&Binary>
        ensures { option_copied result ≡ find (λ binary. bytes_eq name.now binary.name) self.now }
    {
        let binaries = self.inside.as_slice();
        match binaries.binary_search_by(|binary| binary.name.cmp(name)) {
            Ok(index) => Some(&binaries[index]),
            Err(_) => None,
        }
    }
}

/// Features in byte order of their names, without repeats. Contracts see the features as a list.
#[derive(Drop)]
pub struct FeaturesByName {
    inside: Items<Feature>,
}

impl Model for FeaturesByName {
    ghost use Rattle.std.specs.Prelude.{List, map};
    ghost use Rattle.std.specs.List.Sorted.{IsStrictlySortedBy};
    ghost use Rattle.std.specs.Ordering.{nat_cmp};
    ghost use Rattle.std.specs.Cmp.Lexicographic.{slice_cmp};
    ghost use Rattle.pb_manifest_types.specs.declared.feature.Feature.{Feature};

    ghost Value = { List Feature };

    ghost view = { λ a. a.inside };

    ghost invariant = { λ a. IsStrictlySortedBy (slice_cmp nat_cmp) (map (λ feature. feature.name) a.inside) };
}

impl FeaturesByName {
    /// Returns a list without features. This takes no memory.
    pub fn new(alloc: Global) -> FeaturesByName
        ensures { result ≡ [] }
    {
        FeaturesByName {
            inside: Items::new(alloc),
        }
    }

    /// Returns these features.
    ///
    /// Requires: the features are in byte order of their names, without repeats.
    pub fn from_items(features: Items<Feature>) -> FeaturesByName
        requires { IsStrictlySortedBy (slice_cmp nat_cmp) (map (λ feature. feature.name) features) }
        ensures { result ≡ features }
    {
        FeaturesByName { inside: features }
    }

    /// Returns the features as a slice.
    pub fn as_slice(&self) -> &[Feature]
        ensures { result.now ≡ self.now }
    {
        self.inside.as_slice()
    }

    /// Returns the index of the feature with a name, if there is such a feature.
    pub fn index_of(&self, name: &[u8]) -> Option<usize>
        ensures { result ≡ position (λ feature. bytes_eq name.now feature.name) self.now }
    {
        let features = self.inside.as_slice();
        match features.binary_search_by(|feature| feature.name.as_bytes().cmp(name)) {
            Ok(index) => Some(index),
            Err(_) => None,
        }
    }
}

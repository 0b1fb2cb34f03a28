//! The entries of a package in order: first the entries of `[dependencies]`, then the entries of
//! `[build-dependencies]`. The entries of each table are in byte order of their keys, without
//! repeats. An entry is found by binary search.

ghost use Rattle.std.specs.Prelude.{◌≡◌, [], map};
ghost use Rattle.std.specs.List.{position};
ghost use Rattle.std.specs.List.Sorted.{IsStrictlySortedBy};
ghost use Rattle.std.specs.Ordering.{nat_cmp};
ghost use Rattle.std.specs.Cmp.Lexicographic.{slice_cmp};
ghost use Rattle.std.specs.Str.{bytes_eq};
ghost use Rattle.pb_workspace_types.specs.ByKey.{table_key};

use crate::package::{DependencyKind, Entry};
use pb_data::Items;
use std::alloc::Global;
use std::cmp::Ordering;
use std::marker::Model;

/// Returns how an entry compares to a key of a table.
fn compare_entry(entry: &Entry, kind: DependencyKind, key: &[u8]) -> Ordering
    ensures { result ≡ slice_cmp nat_cmp (table_key entry.now.kind entry.now.key)
        (table_key kind key.now) }
{
    match (entry.kind, kind) {
        (DependencyKind::Normal, DependencyKind::Build) => Ordering::Less,
        (DependencyKind::Build, DependencyKind::Normal) => Ordering::Greater,
        (DependencyKind::Normal, DependencyKind::Normal) => entry.key.as_bytes().cmp(key),
        (DependencyKind::Build, DependencyKind::Build) => entry.key.as_bytes().cmp(key),
    }
}

/// The entries of a package, in order. Contracts see the entries as a list.
#[derive(Drop)]
pub struct EntriesByKey {
    inside: Items<Entry>,
}

impl Model for EntriesByKey {
    ghost use Rattle.std.specs.Prelude.{List, map};
    ghost use Rattle.std.specs.List.Sorted.{IsStrictlySortedBy};
    ghost use Rattle.std.specs.Ordering.{nat_cmp};
    ghost use Rattle.std.specs.Cmp.Lexicographic.{slice_cmp};
    ghost use Rattle.pb_workspace_types.specs.ByKey.{table_key};
    ghost use Rattle.pb_workspace_types.specs.declared.package.Entry.{Entry};

    ghost Value = { List Entry };

    ghost view = { λ a. a.inside };

    ghost invariant = { λ a. IsStrictlySortedBy (slice_cmp nat_cmp) (map (λ entry. table_key entry.kind entry.key) a.inside) };
}

impl EntriesByKey {
    /// Returns a list without entries. This takes no memory.
    pub fn new(alloc: Global) -> EntriesByKey
        ensures { result ≡ [] }
    {
        EntriesByKey {
            inside: Items::new(alloc),
        }
    }

    /// Returns these entries.
    ///
    /// Requires: the entries are in order.
    pub fn from_items(entries: Items<Entry>) -> EntriesByKey
        requires { IsStrictlySortedBy (slice_cmp nat_cmp) (map (λ entry.
            table_key entry.kind entry.key) entries) }
        ensures { result ≡ entries }
    {
        EntriesByKey { inside: entries }
    }

    /// Returns the entries as a slice.
    pub fn as_slice(&self) -> &[Entry]
        ensures { result.now ≡ self.now }
    {
        self.inside.as_slice()
    }

    /// Returns the index of the entry with a key in a table, if there is such an entry.
    pub fn index_of(&self, kind: DependencyKind, key: &[u8]) -> Option<usize>
        ensures index { result ≡ position (λ entry.
            bytes_eq (table_key kind key.now) (table_key entry.kind entry.key)) self.now }
        ensures order { IsStrictlySortedBy (slice_cmp nat_cmp) (map (λ entry.
            table_key entry.kind entry.key) self.now) }
    {
        let entries = self.inside.as_slice();
        match entries.binary_search_by(|entry| compare_entry(entry, kind, key)) {
            Ok(index) => Some(index),
            Err(_) => None,
        }
    }
}

//! What entries request, and the entries of `[workspace.dependencies]`, in order. An entry of the
//! workspace is found by binary search.

ghost use Rattle.std.specs.Prelude.{◌≡◌, [], map};
ghost use Rattle.std.specs.List.{find};
ghost use Rattle.std.specs.List.Sorted.{IsStrictlySortedBy};
ghost use Rattle.std.specs.Option.{option_copied};
ghost use Rattle.std.specs.Ordering.{nat_cmp};
ghost use Rattle.std.specs.Cmp.Lexicographic.{slice_cmp};
ghost use Rattle.std.specs.Str.{bytes_eq};
ghost use Rattle.pb_workspace_types.specs.ByKey.{table_key};

use crate::wanted::Wanted;
use pb_data::{Items, Text};
use pb_manifest_types::WorkspaceDependency;
use std::alloc::Global;
use std::marker::Model;

/// What entries request, in the order of the entries. Contracts see the requests as a list.
#[derive(Drop)]
pub struct WantedByKey {
    inside: Items<Wanted>,
}

impl Model for WantedByKey {
    ghost use Rattle.std.specs.Prelude.{List, map};
    ghost use Rattle.std.specs.List.Sorted.{IsStrictlySortedBy};
    ghost use Rattle.std.specs.Ordering.{nat_cmp};
    ghost use Rattle.std.specs.Cmp.Lexicographic.{slice_cmp};
    ghost use Rattle.pb_workspace_types.specs.ByKey.{table_key};
    ghost use Rattle.pb_workspace_package.specs.declared.wanted.Wanted.{Wanted};

    ghost Value = { List Wanted };

    ghost view = { λ a. a.inside };

    ghost invariant = { λ a. IsStrictlySortedBy (slice_cmp nat_cmp)
        (map (λ wanted. table_key wanted.kind wanted.key) a.inside) };
}

impl WantedByKey {
    /// Returns these items, which are in order, as a `WantedByKey`.
    pub fn from_items(wanted: Items<Wanted>) -> WantedByKey
        requires { IsStrictlySortedBy (slice_cmp nat_cmp)
            (map (λ one. table_key one.kind one.key) wanted) }
        ensures { result ≡ wanted }
    {
        WantedByKey { inside: wanted }
    }

    /// Returns the list itself.
    pub fn as_slice(&self) -> &[Wanted]
        ensures { result.now ≡ self.now }
    {
        self.inside.as_slice()
    }

    /// Returns the items, without using memory.
    pub fn into_items(self) -> Items<Wanted>
        ensures same { result ≡ self }
        ensures order { IsStrictlySortedBy (slice_cmp nat_cmp)
            (map (λ one. table_key one.kind one.key) self) }
    {
        self.inside
    }
}

/// Entries of `[workspace.dependencies]` in byte order of their keys, each key once. Contracts see
/// the entries as a list.
#[derive(Drop)]
pub struct SharedByKey {
    inside: Items<WorkspaceDependency>,
}

impl Model for SharedByKey {
    ghost use Rattle.std.specs.Prelude.{List, map};
    ghost use Rattle.std.specs.List.Sorted.{IsStrictlySortedBy};
    ghost use Rattle.std.specs.Ordering.{nat_cmp};
    ghost use Rattle.std.specs.Cmp.Lexicographic.{slice_cmp};
    ghost use Rattle.pb_manifest_types.specs.declared.dependency.WorkspaceDependency.{WorkspaceDependency};

    ghost Value = { List WorkspaceDependency };

    ghost view = { λ a. a.inside };

    ghost invariant = { λ a. IsStrictlySortedBy (slice_cmp nat_cmp)
        (map (λ entry. entry.key) a.inside) };
}

impl SharedByKey {
    /// Returns no entries, without using memory.
    pub fn new(alloc: Global) -> SharedByKey
        ensures { result ≡ [] }
    {
        SharedByKey {
            inside: Items::new(alloc),
        }
    }

    /// Returns these entries, which are in byte order of their keys, as a `SharedByKey`.
    pub fn from_items(entries: Items<WorkspaceDependency>) -> SharedByKey
        requires { IsStrictlySortedBy (slice_cmp nat_cmp) (map (λ entry. entry.key) entries) }
        ensures { result ≡ entries }
    {
        SharedByKey { inside: entries }
    }

    /// Returns the entry of a key, if there is one.
    pub fn entry_of(&self, key: &Text) -> Option<&WorkspaceDependency>
        ensures { option_copied result ≡ find (λ entry. bytes_eq key.now entry.key) self.now }
    {
        let entries = self.inside.as_slice();
        match entries.binary_search_by(|entry| entry.key.cmp(key)) {
            Ok(place) => Some(&entries[place]),
            Err(_) => None,
        }
    }
}

//! Values by names, in byte order of the names.

ghost use Rattle.std.specs.Prelude.{◌≡◌, List, ℕ, [], IfOk, OnOk, OnErr, map};
ghost use Rattle.pb_workspace_package.specs.Sorted.{with_entry};
ghost use Rattle.pb_workspace_types.specs.Settled.{IsAscending};

use pb_data::{Items, Text};
use std::alloc::{AllocError, Global};
use std::collections::BTreeMap;
use std::marker::Model;

/// Values by names, each name once, in byte order. Contracts see the list of the entries.
#[derive(Drop)]
pub struct Sorted<V> {
    inside: BTreeMap<Text, V>,
}

impl<V> Model for Sorted<V> {
    ghost use Rattle.std.specs.Prelude.{ℕ, List};

    ghost Value = { List (List ℕ × V) };

    ghost view = { λ a. a.inside.entries };
}

impl<V: Drop> Sorted<V> {
    /// Returns no entries, without using memory.
    pub fn new(alloc: Global) -> Sorted<V>
        ensures { result ≡ [] }
    {
        Sorted {
            inside: BTreeMap::new(alloc),
        }
    }

    /// Inserts the value of a name. An earlier value of the same name is replaced.
    pub fn insert(&mut self, name: Text, value: V) -> Result<(), AllocError>
        ensures { OnOk result (self.new ≡ with_entry self.old name value) }
    {
        let _old = self.inside.insert(name, value)?;
        Ok(())
    }

    /// Returns the entries as items.
    ///
    /// Errors: out of memory.
    pub fn into_items(self, alloc: Global) -> Result<Items<(Text, V)>, AllocError>
        ensures same { IfOk result (λ items. items ≡ self) }
        ensures order { IfOk result (λ items. IsAscending (map (λ e. e.0) items)) }
    {
        let entries: Vec<(Text, V)> = self.inside.into_iter().collect(alloc)?;
        Ok(Items::from_vec(entries))
    }
}

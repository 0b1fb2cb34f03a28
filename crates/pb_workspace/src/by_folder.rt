//! Values by their folders, in byte order of the folders.

ghost use Rattle.std.specs.Prelude.{◌≡◌, List, ℕ, [], IfOk, OnOk, length, map};
ghost use Rattle.std.specs.Option.{option_copied};
ghost use Rattle.pb_workspace.specs.ByFolder.{value_of, has, with_folders, folders_of, values_of};
ghost use Rattle.pb_workspace_types.specs.Settled.{IsAscending};
ghost use Rattle.pb_workspace_package.specs.Sorted.{with_entry};

use pb_data::{Items, TryCopy};
use pb_place_types::PathText;
use std::alloc::{AllocError, Global};
use std::collections::BTreeMap;
use std::marker::Model;

/// Values by their folders, in byte order without repeats. Contracts see the list of the entries.
#[derive(Drop)]
pub struct ByFolder<V> {
    inside: BTreeMap<PathText, V>,
}

impl<V> Model for ByFolder<V> {
    ghost use Rattle.std.specs.Prelude.{ℕ, List};

    ghost Value = { List (List ℕ × V) };

    ghost view = { λ a. a.inside.entries };
}

impl<V: Drop> ByFolder<V> {
    /// Returns a map without entries. No memory is used.
    pub fn new(alloc: Global) -> ByFolder<V>
        ensures { result ≡ [] }
    {
        ByFolder {
            inside: BTreeMap::new(alloc),
        }
    }

    /// Inserts the value of a folder. An earlier value of the same folder is replaced.
    pub fn insert(&mut self, folder: PathText, value: V) -> Result<(), AllocError>
        ensures { OnOk result (self.new ≡ with_entry self.old folder value) }
    {
        let _old = self.inside.insert(folder, value)?;
        Ok(())
    }

    /// Returns the value of a folder, if the folder has a value.
    pub fn get(&self, folder: &PathText) -> Option<&V>
        ensures { option_copied result ≡ value_of folder.now self.now }
    {
        self.inside.get(folder)
    }

    /// Returns whether a folder has a value.
    pub fn contains(&self, folder: &PathText) -> bool
        ensures { result ≡ has folder.now self.now }
    {
        self.inside.contains_key(folder)
    }

    /// Returns the number of entries.
    pub fn len(&self) -> usize
        ensures { result ≡ length self.now }
    {
        self.inside.len()
    }

    /// Returns the folders, in byte order.
    ///
    /// Errors: out of memory only.
    pub fn folders(&self, alloc: Global) -> Result<Items<PathText>, AllocError>
        ensures { IfOk result (λ folders. folders ≡ folders_of self.now) }
    {
        let folders = self.lent_folders(alloc)?;
        copies_of(alloc, folders.as_slice())
    }

    /// Returns references to the folders.
    fn lent_folders(&self, alloc: Global) -> Result<Vec<&PathText>, AllocError>
        ensures { IfOk result
            (λ folders. map (λ folder. folder.now) folders.items ≡ folders_of self.now) }
    {
        self.inside.keys().collect(alloc)
    }

    /// Returns the values, in byte order of their folders.
    ///
    /// Errors: out of memory only.
    pub fn into_values(self, alloc: Global) -> Result<Items<V>, AllocError>
        ensures same { IfOk result (λ values. values ≡ values_of self) }
        ensures order { IfOk result (λ values. IsAscending (folders_of self)) }
    {
        let values: Vec<V> = self.inside.into_values().collect(alloc)?;
        Ok(Items::from_vec(values))
    }
}

/// Returns copies of some folders.
fn copies_of(alloc: Global, folders: &[&PathText]) -> Result<Items<PathText>, AllocError>
    ensures { IfOk result (λ made. made ≡ map (λ folder. folder.now) folders.now) }
{
    let mut made = Items::new(alloc);
    for folder in folders {
        made.push((*folder).copy(alloc)?)?;
    }
    Ok(made)
}

/// Inserts folders at their positions, without repeats.
pub fn put_folders(entries: &mut ByFolder<()>, folders: Items<PathText>) -> Result<(), AllocError>
    ensures { OnOk result (entries.new ≡ with_folders entries.old folders) }
{
    for folder in folders.into_vec() {
        entries.insert(folder, ())?;
    }
    Ok(())
}

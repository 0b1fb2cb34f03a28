//! Tables from texts to values, in order of first mention.

ghost use Rattle.std.specs.Prelude.{◌≡◌, ℕ, List, [], ◌++◌, ◌<◌, ◌^◌, OnOk, OnErr, IfOk, length};
ghost use Rattle.std.specs.Option.{option_copied, is_some};
ghost use Rattle.std.specs.Map.Iter.{ShowsInOrder, deref_pair};
ghost use Rattle.pb_data.specs.OrderedSet.{once};
ghost use Rattle.pb_data.specs.Table.{value_at, with_entry, with_entries, table_of, names_of, last_value};

use crate::items::Items;
use crate::text::Text;
use indexmap::IndexMap;
use indexmap::map::Iter;
use std::alloc::{AllocError, Global};
use std::marker::Model;

/// A table from texts to values. Each text occurs once, in order of first mention. Contracts see
/// the table as the list of its entries.
#[derive(Debug, Drop)]
pub struct Table<V> {
    inside: IndexMap<Text, V>,
}

impl<V> Model for Table<V> {
    ghost use Rattle.std.specs.Prelude.{ℕ, List};
    ghost use Rattle.std.specs.List.{IsDistinct};
    ghost use Rattle.std.specs.Map.{keys_of};
    ghost use Rattle.std.specs.Str.{bytes_eq};

    ghost Value = { List (List ℕ × V) };

    ghost view = { λ a. a.inside.entries };

    ghost invariant = { λ a. IsDistinct bytes_eq (keys_of a.inside.entries) };
}

impl<V: Drop> Table<V> {
    /// Returns a table without entries. This takes no memory.
    pub fn new(alloc: Global) -> Table<V>
        ensures { result ≡ [] }
    {
        Table {
            inside: IndexMap::new(alloc),
        }
    }

    /// Adds an entry. If the table already has this text, the old entry keeps its position and gets
    /// the new value. Otherwise the new entry goes last.
    ///
    /// Errors: out of memory. After an error the entries are unchanged.
    pub fn insert(&mut self, name: Text, value: V) -> Result<(), AllocError>
        ensures ok { OnOk result (self.new ≡ with_entry self.old name value) }
        ensures err { OnErr result (self.new ≡ self.old) }
    {
        self.inside.insert(name, value)?;
        Ok(())
    }

    /// Returns the value of a text, if the table has this text.
    pub fn get(&self, name: &Text) -> Option<&V>
        ensures { option_copied result ≡ value_at name.now self.now }
    {
        self.inside.get(name)
    }

    /// Returns whether a text has a value.
    pub fn contains(&self, name: &Text) -> bool
        ensures { result ≡ is_some (value_at name.now self.now) }
    {
        self.inside.contains_key(name)
    }

    /// Returns the number of entries.
    pub fn len(&self) -> usize
        ensures { result ≡ length self.now }
    {
        self.inside.len()
    }

    /// Returns the entries in order.
    pub fn iter(&self) -> Iter<'_, Text, V>
        ensures rest { result ≡ self.now }
        ensures runs { ShowsInOrder (deref_pair {K = List ℕ} {X = V}) }
        ensures fits { length self.now < 2 ^ 63 }
    {
        self.inside.iter()
    }

    /// Returns the entries as items.
    ///
    /// Errors: out of memory.
    pub fn into_items(self, alloc: Global) -> Result<Items<(Text, V)>, AllocError>
        ensures { IfOk result (λ items. items ≡ self) }
    {
        let entries: Vec<(Text, V)> = self.inside.into_iter().collect(alloc)?;
        Ok(Items::from_vec(entries))
    }
}

/// A law: a table of entries has each text once, in order of first mention.
pub fn table_names<V>()
    ensures { (entries : List (List ℕ × V)) → names_of (table_of entries)
        ≡ once (names_of entries) }
{}

/// A law: a table of entries contains, for each text, the last value that the entries have for this
/// text.
pub fn table_values<V>()
    ensures { (entries : List (List ℕ × V)) (name : List ℕ)
        → value_at name (table_of entries) ≡ last_value name entries }
{}

/// A law: if entries are added to a table of other entries, the result is the table of all entries.
pub fn table_joins<V>()
    ensures { (entries more : List (List ℕ × V))
        → with_entries (table_of entries) more ≡ table_of (entries ++ more) }
{}

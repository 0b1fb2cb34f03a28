//! Texts by their names in a sorted map, which contracts see as a finite map.

ghost use Rattle.std.specs.Prelude.{◌≡◌, IfOk, OnOk, OnErr};
ghost use Rattle.std.specs.Ordering.{nat_cmp};
ghost use Rattle.std.specs.Cmp.Lexicographic.{slice_cmp};
ghost use Rattle.std.specs.BTreeMap.{IsOrdered};
ghost use Rattle.std.specs.FinMap as map;

use pb_data::{Items, Text, TryCopy};
use std::alloc::{AllocError, Global};
use std::collections::BTreeMap;
use std::marker::Model;

/// Texts by their names, such as the values of variables, in byte order of the names. A look-up
/// takes time logarithmic in the number of names.
#[derive(Drop)]
pub struct TextMap {
    inside: BTreeMap<Text, Text>,
}

impl Model for TextMap {
    ghost use Rattle.std.specs.FinMap as map;
    ghost use Rattle.pb_place_types.specs.World.{Map};
    ghost use Rattle.pb_place_types.specs.Maps.{map_code};

    ghost Value = { Map };

    ghost coded = { map_code };

    ghost view = { λ v. map.from_entries v.inside.entries };
}

impl TextMap {
    /// Returns a map without names. The call takes no memory.
    pub fn new(alloc: Global) -> TextMap
        ensures { result ≡ map.empty }
    {
        TextMap {
            inside: BTreeMap::new(alloc),
        }
    }

    /// Returns the text of a name, if the name has a text.
    ///
    /// Errors: out of memory only.
    #[tactic(auto, using(crate::proofs::MapLemmas::map_laws))]
    pub fn get(&self, alloc: Global, name: &str) -> Result<Option<Text>, AllocError>
        ensures { IfOk result (λ found. found ≡ map.get self.now name.now) }
    {
        let key = Text::from_str(alloc, name)?;
        match self.inside.get(&key) {
            Some(value) => Ok(Some(value.copy(alloc)?)),
            None => Ok(None),
        }
    }

    /// Sets the text of a name.
    ///
    /// Errors: out of memory only. Nothing changes then.
    #[tactic(auto, using(crate::proofs::MapLemmas::insert_laws))]
    pub fn insert(&mut self, alloc: Global, name: &str, value: &str) -> Result<(), AllocError>
        ensures ok { OnOk result (self.new ≡ map.insert self.old name.now value.now) }
        ensures err { OnErr result (self.new ≡ self.old) }
    {
        let key = Text::from_str(alloc, name)?;
        let text = Text::from_str(alloc, value)?;
        let _old = self.inside.insert(key, text)?;
        Ok(())
    }

    /// Removes a name and its text.
    ///
    /// Errors: out of memory only. Nothing changes then.
    #[tactic(auto, using(crate::proofs::MapLemmas::unset_laws))]
    pub fn remove(&mut self, alloc: Global, name: &str) -> Result<(), AllocError>
        ensures ok { OnOk result (self.new ≡ map.remove self.old name.now) }
        ensures err { OnErr result (self.new ≡ self.old) }
    {
        let key = Text::from_str(alloc, name)?;
        let _old = self.inside.remove(&key);
        Ok(())
    }

    /// Returns all names with their texts, in byte order of the names.
    ///
    /// Errors: out of memory only.
    #[tactic(auto, using(crate::proofs::MapLemmas::ordered_laws))]
    pub fn into_pairs(self, alloc: Global) -> Result<Items<(Text, Text)>, AllocError>
        ensures { IfOk result (λ pairs. pairs ≡ map.entries self) }
    {
        pairs_of(alloc, self.inside)
    }
}

/// Returns the entries of a map, in order.
fn pairs_of(alloc: Global, entries: BTreeMap<Text, Text>) -> Result<Items<(Text, Text)>, AllocError>
    ensures entries { IfOk result (λ pairs. pairs ≡ entries.entries) }
    ensures ordered { OnOk result (IsOrdered (slice_cmp nat_cmp) entries) }
{
    let mut pairs = Items::new(alloc);
    for (name, value) in entries {
        pairs.push((name, value))?;
    }
    Ok(pairs)
}

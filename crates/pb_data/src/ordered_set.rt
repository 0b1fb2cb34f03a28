//! Sets of texts, in order of first mention.

ghost use Rattle.std.specs.Prelude.{◌≡◌, ℕ, List, [], OnOk, OnErr, IfOk};
ghost use Rattle.pb_data.specs.OrderedSet.{is_mentioned, mentioned, mentioned_all, once, EachOnce};

use crate::items::Items;
use crate::text::Text;
use indexmap::IndexSet;
use std::alloc::{AllocError, Global};
use std::marker::Model;

/// A set of texts. Each text occurs once, in order of first mention. Contracts see the set as a
/// list.
#[derive(Debug, Drop)]
pub struct OrderedSet {
    inside: IndexSet<Text>,
}

impl Model for OrderedSet {
    ghost use Rattle.std.specs.Prelude.{ℕ, List};
    ghost use Rattle.std.specs.List.{IsDistinct};
    ghost use Rattle.std.specs.Str.{bytes_eq};

    ghost Value = { List (List ℕ) };

    ghost view = { λ a. a.inside.keys };

    ghost invariant = { λ a. IsDistinct bytes_eq a.inside.keys };
}

impl OrderedSet {
    /// Returns a set without texts. This takes no memory.
    pub fn new(alloc: Global) -> OrderedSet
        ensures { result ≡ [] }
    {
        OrderedSet {
            inside: IndexSet::new(alloc),
        }
    }

    /// Adds a text at the end, unless the set already has this text.
    ///
    /// Errors: out of memory. After an error the texts are unchanged.
    pub fn insert(&mut self, text: Text) -> Result<(), AllocError>
        ensures ok { OnOk result (self.new ≡ mentioned self.old text) }
        ensures err { OnErr result (self.new ≡ self.old) }
    {
        self.inside.insert(text)?;
        Ok(())
    }

    /// Returns whether the set contains a text.
    pub fn contains(&self, text: &Text) -> bool
        ensures { result ≡ is_mentioned self.now text.now }
    {
        self.inside.contains(text)
    }

    /// Returns the texts as a slice. No two of the texts are equal.
    pub fn as_slice(&self) -> &[Text]
        ensures same { result.now ≡ self.now }
        ensures once { EachOnce self.now }
    {
        self.inside.as_slice()
    }

    /// Returns the texts as items.
    ///
    /// Errors: out of memory.
    pub fn into_items(self, alloc: Global) -> Result<Items<Text>, AllocError>
        ensures { IfOk result (λ items. items ≡ self) }
    {
        let texts: Vec<Text> = self.inside.into_iter().collect(alloc)?;
        Ok(Items::from_vec(texts))
    }
}

/// A law: if texts are added to an empty set, one after another, each of the texts occurs once, in
/// order of first mention.
pub fn mentions_are_once()
    ensures { (texts : List (List ℕ)) → mentioned_all [] texts ≡ once texts }
{}

/// A law: `once` of a list contains no text twice.
pub fn once_is_distinct()
    ensures { (texts : List (List ℕ)) → EachOnce (once texts) }
{}

/// A law: `once` of a list contains exactly the texts of the list.
pub fn once_keeps_texts()
    ensures { (texts : List (List ℕ)) (text : List ℕ)
        → is_mentioned (once texts) text ≡ is_mentioned texts text }
{}

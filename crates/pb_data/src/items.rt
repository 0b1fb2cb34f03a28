//! Items in order, which contracts see as a list.

ghost use Rattle.std.specs.Prelude.{◌≡◌, IfOk, OnOk, OnErr, [], ◌∷◌, ◌++◌, ◌==◌, length};

use crate::copying::TryCopy;
use std::alloc::{AllocError, Global};
use std::marker::Model;

/// Items in order. Contracts see the items as a list.
#[derive(Debug, Drop)]
pub struct Items<T> {
    inside: Vec<T>,
}

impl<T> Model for Items<T> {
    ghost use Rattle.std.specs.Prelude.{List};

    ghost Value = { List T };

    ghost view = { λ a. a.inside.items };
}

impl<T> Items<T> {
    /// Returns a list without items. This takes no memory.
    pub fn new(alloc: Global) -> Items<T>
        ensures { result ≡ [] }
    {
        Items {
            inside: Vec::new(alloc),
        }
    }

    /// Returns the items of a `Vec`, without using memory.
    pub fn from_vec(inside: Vec<T>) -> Items<T>
        ensures { result ≡ inside.items }
    {
        Items { inside }
    }

    /// Returns the items as a slice.
    pub fn as_slice(&self) -> &[T]
        ensures { result.now ≡ self.now }
    {
        self.inside.as_slice()
    }

    /// Returns the `Vec`, without using memory.
    pub fn into_vec(self) -> Vec<T>
        ensures { result.items ≡ self }
    {
        self.inside
    }

    /// Returns the number of items.
    pub fn len(&self) -> usize
        ensures { result ≡ length self.now }
    {
        self.inside.as_slice().len()
    }

    /// Returns whether there are no items.
    pub fn is_empty(&self) -> bool
        ensures { result ≡ (length self.now == 0) }
    {
        self.inside.as_slice().is_empty()
    }

    /// Adds an item at the end.
    ///
    /// Errors: out of memory. After an error the items are unchanged.
    pub fn push(&mut self, item: T) -> Result<(), AllocError>
    where
        T: Drop,
        ensures ok { OnOk result (self.new ≡ self.old ++ item ∷ []) }
        ensures err { OnErr result (self.new ≡ self.old) }
    {
        self.inside.push(item)?;
        Ok(())
    }
}

impl<T: TryCopy> TryCopy for Items<T> {
    fn copy(&self, alloc: Global) -> Result<Items<T>, AllocError> {
        let mut made = Items::new(alloc);
        for item in self.as_slice() {
            made.push(item.copy(alloc)?)?;
        }
        Ok(made)
    }
}

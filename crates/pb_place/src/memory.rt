//! A place of maps, for tests and sessions in memory: its state, and its own functions.

ghost use Rattle.std.specs.Prelude.{◌≡◌, ◌≢◌, ◌++◌, ◌∷◌, [], IsTrue, true, false, IfOk, OnOk, OnErr};
ghost use Rattle.std.specs.FinMap as map;
ghost use Rattle.pb_place_types.specs.World.{written, removed};
ghost use Rattle.pb_place_types.specs.Children.{is_flying};
ghost use Rattle.pb_place.specs.InFlight.{children_in};
ghost use Rattle.pb_place.specs.Memory.{counts_in, may_fail, set, unset, no_held};
ghost use Rattle.pb_place.specs.Tallies.{one_setting};

mod calls;
mod children;

use crate::in_flight::{Death, Flying, flies};
use crate::sight::file_in;
use crate::tally::Tally;
use pb_data::{Bytes, Text};
use pb_place_types::{FileMap, PathText, StartFault, TextMap};
use std::alloc::{AllocError, Global};
use std::marker::Model;
use std::mem;

/// A place of maps over a child. Contracts see the state of the place: its world and its counters.
///
/// A call fails only if memory runs out, or if `fuse` or `die` was called to make it fail. Both
/// functions serve tests. The contract of each call describes when the call fails, and what the
/// call then leaves. The functions below are not calls of a place, so they are not counted. The
/// calls of `fuse` and `die` that set something have a counter of their own. A read or a write
/// takes time logarithmic in the number of files.
#[derive(Drop)]
pub struct Memory<C> {
    files: FileMap,
    variables: TextMap,
    child: C,
    tally: Tally,
    flying: Vec<Flying<Option<StartFault>>>,
    most: u64,
    fuse: u64,
    deaths: Vec<Death>,
}

impl<C> Model for Memory<C> {
    ghost use Rattle.pb_place.specs.Memory.{Held, held_code};

    ghost Value = { Held };

    ghost coded = { held_code };

    ghost view = { λ m. record {
      world = record { files = m.files; variables = m.variables };
      tally = m.tally;
      flying = m.flying.items;
      most = m.most;
      fuse = m.fuse;
      deaths = m.deaths.items;
    } };
}

impl<C> Memory<C> {
    /// Returns a place over a child, with no file and no variable. The call takes no memory.
    pub fn new(alloc: Global, child: C) -> Memory<C>
        ensures { result ≡ no_held }
    {
        Memory {
            files: FileMap::new(alloc),
            variables: TextMap::new(alloc),
            child,
            tally: Tally::new(),
            flying: Vec::new(alloc),
            most: 0,
            fuse: 0,
            deaths: Vec::new(alloc),
        }
    }

    /// Puts a file at a path.
    ///
    /// Errors: out of memory only. Nothing changes then.
    pub fn put(&mut self, alloc: Global, path: &PathText, bytes: &[u8]) -> Result<(), AllocError>
        ensures ok { OnOk result
            (self.new ≡ record self.old { world = written path.now bytes.now self.old.world }) }
        ensures err { OnErr result (self.new ≡ self.old) }
    {
        self.files.insert(alloc, path, bytes)
    }

    /// Removes the file at a path and all files below it.
    ///
    /// Errors: out of memory only. Nothing changes then.
    pub fn remove(&mut self, alloc: Global, path: &PathText) -> Result<(), AllocError>
        ensures ok { OnOk result
            (self.new ≡ record self.old { world = removed path.now self.old.world }) }
        ensures err { OnErr result (self.new ≡ self.old) }
    {
        self.files.remove(alloc, path)
    }

    /// Sets a variable with any name to any value.
    ///
    /// Errors: out of memory only. Nothing changes then.
    pub fn set(&mut self, alloc: Global, name: &str, value: &str) -> Result<(), AllocError>
        ensures ok { OnOk result
            (self.new ≡ record self.old { world = set name.now value.now self.old.world }) }
        ensures err { OnErr result (self.new ≡ self.old) }
    {
        self.variables.insert(alloc, name, value)
    }

    /// Unsets a variable.
    ///
    /// Errors: out of memory only. Nothing changes then.
    pub fn unset(&mut self, alloc: Global, name: &str) -> Result<(), AllocError>
        ensures ok { OnOk result
            (self.new ≡ record self.old { world = unset name.now self.old.world }) }
        ensures err { OnErr result (self.new ≡ self.old) }
    {
        self.variables.remove(alloc, name)
    }

    /// Returns the bytes of a file, or `None` if no file is there.
    ///
    /// Errors: out of memory only.
    pub fn file(&self, alloc: Global, path: &PathText) -> Result<Option<Bytes>, AllocError>
        ensures { IfOk result (λ found. found ≡ map.get self.now.world.files path.now) }
    {
        file_in(alloc, &self.files, path)
    }

    /// Returns whether a child with this ticket is in flight. This function is not a call of the
    /// place, and takes no memory.
    pub fn flies(&self, ticket: u64) -> bool
        ensures { result ≡ is_flying ticket (children_in self.now.flying) }
    {
        flies(self.flying.as_slice(), ticket)
    }

    /// Returns whether no call has failed, and no call can fail unless memory runs out. No call can
    /// fail if the fuse is 0, no death waits, and no child is in flight. This function is not a
    /// call of the place, and takes no memory.
    pub fn is_unfailing(&self) -> bool
        ensures quiet { IsTrue result → (may_fail self.now ≡ false)
            × ((counts_in self.now).failures ≡ 0) }
        ensures told { self.now.fuse ≡ 0 → self.now.deaths ≡ [] → self.now.flying ≡ []
            → (counts_in self.now).failures ≡ 0 → result ≡ true }
    {
        self.fuse == 0
            && self.deaths.is_empty()
            && self.flying.is_empty()
            && self.tally.failures() == 0
    }

    /// Sets which call is to fail, counted from 1. With 0 no call fails. This replaces the earlier
    /// setting. `spawn` and `finish` count as one call each, and `start` as two. Calls of
    /// `failures`, `starts`, `late` and `most` are not counted.
    ///
    /// The call that fails returns its own fault. What the failing call leaves is our own choice:
    /// - A write leaves the first half of the bytes, rounded down.
    /// - A removal removes the first half of the files in byte order, rounded down.
    /// - A spawn returns `CannotStart` and changes nothing.
    /// - A finish returns `Died` and changes no file.
    /// - If the call runs out of memory, the next call is to fail instead.
    pub fn fuse(&mut self, number: u64)
        ensures { self.new ≡ record self.old { tally = one_setting self.old.tally; fuse = number } }
    {
        self.tally.set();
        self.fuse = number;
    }

    /// Sets a start to fail: the next start whose folder has this name fails with this fault. If
    /// there are two settings for the same name, the earlier setting is used first. A start that
    /// fails by the fuse, or runs out of memory, leaves the setting for the next start.
    ///
    /// `CannotStart` occurs at the spawn, which changes nothing. Any other fault occurs at the end.
    /// Then only the first half of the reply's files remains, in byte order; the half's length is
    /// rounded down.
    ///
    /// Requires: the fault is a fault of the outside world, and not `OutOfMemory`.
    ///
    /// Errors: out of memory only. Nothing changes then.
    pub fn die(&mut self, alloc: Global, key: &str, kind: StartFault) -> Result<(), AllocError>
        requires real { kind ≢ StartFault.OutOfMemory }
        ensures ok { OnOk result (self.new ≡ record self.old {
          tally = one_setting self.old.tally;
          deaths = self.old.deaths ++ record { key = key.now; kind = kind } ∷ [];
        }) }
        ensures err { OnErr result (self.new ≡ self.old) }
    {
        let key = Text::from_str(alloc, key)?;
        self.deaths.push(Death { key, kind })?;
        self.tally.set();
        Ok(())
    }
}

impl<C: Copy> Memory<C> {
    /// Returns this place. Afterwards the reference leads to an empty place over the same child.
    pub fn take(&mut self, alloc: Global) -> Memory<C>
        ensures taken { result ≡ self.old }
        ensures left { self.new ≡ no_held }
    {
        let hollow = Memory::new(alloc, self.child);
        mem::replace(self, hollow)
    }
}

//! A place in memory whose calls do not fail.

use crate::memory::Memory;
use pb_data::{Bytes, Items, Text};
use pb_place_types::{Child, Command, Ended, Moved, PathText, Place, PlaceFault, StartFault};
use std::alloc::Global;
use std::marker::Model;

/// A place in memory. No call of the place has failed, and no call fails unless memory runs out.
/// Therefore a build over the place ends without a failing call. Contracts see the place in memory.
#[derive(Drop)]
pub struct Unfailing<C> {
    inside: Memory<C>,
}

impl<C> Model for Unfailing<C> {
    ghost use Rattle.std.specs.Prelude.{◌≡◌, false};
    ghost use Rattle.pb_place.specs.Memory.{Held, counts_in, held_code, may_fail};

    ghost Value = { Held };

    ghost coded = { held_code };

    ghost view = { λ u. u.inside };

    ghost invariant = { λ u. (may_fail u.inside ≡ false) × ((counts_in u.inside).failures ≡ 0) };
}

impl<C> Unfailing<C> {
    ghost use Rattle.std.specs.Prelude.{◌≡◌, false};
    ghost use Rattle.pb_place.specs.Memory.{counts_in, may_fail};

    /// Returns the place in memory as a place whose calls do not fail.
    ///
    /// Requires: no call is set to fail, and no call has failed.
    pub fn new(inside: Memory<C>) -> Unfailing<C>
        requires quiet { may_fail inside ≡ false }
        requires none { (counts_in inside).failures ≡ 0 }
        ensures { result ≡ inside }
    {
        Unfailing { inside }
    }

    /// Returns the inner place in memory.
    pub fn into_memory(self) -> Memory<C>
        ensures same { result ≡ self }
        ensures quiet { may_fail result ≡ false }
        ensures none { (counts_in result).failures ≡ 0 }
    {
        self.inside
    }
}

impl<C: Child> Place for Unfailing<C> {
    ghost use Rattle.std.specs.Prelude.{true};
    ghost use Rattle.pb_place.specs.Memory.{at_in};

    ghost is_modelled = { true };

    ghost at = { at_in };

    ghost child = { C.answers };

    ghost fails = { λ _. ⊥ };

    fn read(&mut self, alloc: Global, path: &PathText) -> Result<Option<Bytes>, PlaceFault> {
        self.inside.read(alloc, path)
    }

    fn is_file(&mut self, alloc: Global, path: &PathText) -> Result<bool, PlaceFault> {
        self.inside.is_file(alloc, path)
    }

    fn list(&mut self, alloc: Global, folder: &PathText) -> Result<Items<PathText>, PlaceFault> {
        self.inside.list(alloc, folder)
    }

    fn list_outside(
        &mut self,
        alloc: Global,
        folder: &PathText,
        left_out: &PathText,
    ) -> Result<Items<PathText>, PlaceFault> {
        self.inside.list_outside(alloc, folder, left_out)
    }

    fn list_directly(
        &mut self,
        alloc: Global,
        folder: &PathText,
    ) -> Result<Items<PathText>, PlaceFault> {
        self.inside.list_directly(alloc, folder)
    }

    fn list_folders(
        &mut self,
        alloc: Global,
        folder: &PathText,
        left_out: &PathText,
    ) -> Result<Items<PathText>, PlaceFault> {
        self.inside.list_folders(alloc, folder, left_out)
    }

    fn write(&mut self, alloc: Global, path: &PathText, bytes: &[u8]) -> Result<(), PlaceFault> {
        self.inside.write(alloc, path, bytes)
    }

    fn write_pieces(
        &mut self,
        alloc: Global,
        path: &PathText,
        pieces: &[Bytes],
    ) -> Result<(), PlaceFault> {
        self.inside.write_pieces(alloc, path, pieces)
    }

    fn remove_tree(&mut self, alloc: Global, path: &PathText) -> Result<(), PlaceFault> {
        self.inside.remove_tree(alloc, path)
    }

    fn variable(&mut self, alloc: Global, name: &str) -> Result<Option<Text>, PlaceFault> {
        self.inside.variable(alloc, name)
    }

    fn spawn(&mut self, alloc: Global, command: &Command) -> Result<u64, StartFault> {
        self.inside.spawn(alloc, command)
    }

    fn finish(&mut self, alloc: Global, ticket: u64) -> Result<Ended, StartFault> {
        self.inside.finish(alloc, ticket)
    }

    fn moved_paths(&self) -> &[Moved] {
        &[]
    }

    fn files_have_paths(&self) {
        self.inside.files_have_paths();
    }

    fn failures(&self) -> u64 {
        self.inside.failures()
    }

    fn starts(&self) -> u64 {
        self.inside.starts()
    }

    fn late(&self) -> u64 {
        self.inside.late()
    }

    fn most(&self) -> u64 {
        self.inside.most()
    }
}
